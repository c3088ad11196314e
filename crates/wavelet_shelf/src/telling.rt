// What a shelf tells of faults below it.
ghost use Rattle.std.specs.Prelude.{◌≡◌, None, IfSome, string_bytes};
ghost use Rattle.wavelet_shelf.specs.Faults.{damage_of};

use crate::ShelfFault;
use wave_outside::FolderFault;
use wavelet_container::LoadFault;

/// Why the folder gave nothing, as the shelf tells it.
pub(crate) fn fault_of(fault: FolderFault) -> ShelfFault
    ensures failed { result ≡ ShelfFault.Failed → fault ≡ FolderFault.Failed }
    ensures whole { damage_of result ≡ None }
{
    match fault {
        FolderFault::Failed => ShelfFault::Failed,
        FolderFault::Memory => ShelfFault::Memory,
    }
}

/// Why the file of this name gave no history, as the shelf tells it.
pub(crate) fn fault_in(file: String, fault: LoadFault) -> ShelfFault
    ensures damaged { IfSome (damage_of result) (λ d. (d.0 ≡ string_bytes file) × (fault ≡ LoadFault.Damaged d.1)) }
    ensures failed { result ≡ ShelfFault.Failed → fault ≡ LoadFault.DiskFault }
{
    match fault {
        LoadFault::Damaged { offset } => ShelfFault::Damaged { file, offset },
        LoadFault::DiskFault => ShelfFault::Failed,
        LoadFault::Memory => ShelfFault::Memory,
    }
}
