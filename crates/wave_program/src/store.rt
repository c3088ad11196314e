// What a run does over the wavelets of a folder.
ghost use Rattle.std.specs.Prelude.{◌≡◌, ◌⊎◌, [], IsTrue, IsSome, IfSome};
ghost use Rattle.wave_outside.specs.Counts.{Rose};
ghost use Rattle.line_loop.specs.Output.{IsWritten};
ghost use Rattle.wavelet_shelf.specs.Faults.{damage_of};
ghost use Rattle.wavelet_shelf.specs.Shelves.{in_folder, entries_of, fault_count};
ghost use Rattle.wave_program.specs.Damage.{damage_line};
ghost use Rattle.wave_program.specs.Run.{IsServing};
ghost use Rattle.wave_program.specs.Store.{entered_at, IsClosed, IsShelfRun, IsShelfUnloaded, IsStoredAs, IsUnloaded};
ghost use Rattle.wavelet_shelf.specs.declared.fault.ShelfFault.TheVariants.{Failed};

use crate::damage::write_damage;
use crate::service::Service;
use pipe_machine::sent_is_held;
use std::alloc::Global;
use std::mem::replace;
use wave_outside::{Clock, Folder, FolderFault, Sink, Source};
use wavelet_shelf::{Shelf, ShelfFault};

/// Does this over the wavelets of the folder of this path, from the source to the sink, and gives the exit status.
pub fn serve_stored<S: Source, W: Sink, F: Folder + Drop, C: Clock>(
    alloc: Global,
    path: &str,
    service: Service,
    source: &mut S,
    sink: &mut W,
    folder: &mut F,
    clock: &mut C,
) -> u8
    ensures stored { IsTrue F.tells → IsTrue F.Disk.tells
        → IsStoredAs F.Folder F.Disk.Disk C.Clock service (entered_at F.Folder path.now folder.old) folder.old folder.new clock.old
        (S.left source.old) (S.left source.new) (W.written sink.old) (W.written sink.new) result
        ⊎ ((source.new ≡ source.old) × IsUnloaded F.Folder F.Disk.Disk (entered_at F.Folder path.now folder.old) folder.old
        folder.new (W.written sink.old) (W.written sink.new) (W.faults sink.old) (W.faults sink.new) result) }
    ensures source_failed { result ≡ 3 → Rose (S.faults source.old) (S.faults source.new) }
    ensures sink_failed { result ≡ 4 → Rose (W.faults sink.old) (W.faults sink.new) }
    ensures store_failed { result ≡ 5 → Rose (F.faults folder.old) (F.faults folder.new) }
    ensures known { IsServing result ⊎ (result ≡ 6) }
{
    match folder.enter(alloc, path) {
        Ok(()) => serve_folder(alloc, service, source, sink, folder, clock),
        Err(FolderFault::Failed) => 5,
        Err(FolderFault::Memory) => 8,
    }
}

// Does this with the folder entered. While it is in a shelf, another stands in its place.
fn serve_folder<S: Source, W: Sink, F: Folder + Drop, C: Clock>(
    alloc: Global,
    service: Service,
    source: &mut S,
    sink: &mut W,
    folder: &mut F,
    clock: &mut C,
) -> u8
    ensures stored { IsTrue F.tells → IsTrue F.Disk.tells
        → IsStoredAs F.Folder F.Disk.Disk C.Clock service (F.log folder.old).entries folder.old folder.new clock.old
        (S.left source.old) (S.left source.new) (W.written sink.old) (W.written sink.new) result
        ⊎ ((source.new ≡ source.old) × IsUnloaded F.Folder F.Disk.Disk (F.log folder.old).entries folder.old folder.new
        (W.written sink.old) (W.written sink.new) (W.faults sink.old) (W.faults sink.new) result) }
    ensures source_failed { result ≡ 3 → Rose (S.faults source.old) (S.faults source.new) }
    ensures sink_failed { result ≡ 4 → Rose (W.faults sink.old) (W.faults sink.new) }
    ensures store_failed { result ≡ 5 → Rose (F.faults folder.old) (F.faults folder.new) }
    ensures known { IsServing result ⊎ (result ≡ 6) }
{
    sent_is_held();
    let Ok(other) = folder.another(alloc) else {
        return 8;
    };
    let shelf = Shelf::over(alloc, replace(folder, other));
    let (shelf, status) = serve_shelf(alloc, service, shelf, source, sink, clock);
    put_back(folder, shelf);
    status
}

/// Puts the shelf's folder back, with all its disks.
pub(crate) fn put_back<F: Folder + Drop>(folder: &mut F, shelf: Shelf<F>)
    requires { IsSome (in_folder shelf) }
    ensures { IsClosed shelf folder.new }
{
    if let Some(closed) = shelf.close() {
        *folder = closed;
    }
}

// Loads the shelf, and does this over it.
fn serve_shelf<S: Source, W: Sink, F: Folder + Drop, C: Clock>(
    alloc: Global,
    service: Service,
    shelf: Shelf<F>,
    source: &mut S,
    sink: &mut W,
    clock: &mut C,
) -> (Shelf<F>, u8)
    requires folder { IsSome (in_folder shelf) }
    requires empty { entries_of shelf ≡ [] }
    ensures run { IsShelfRun C.Clock service shelf result.0 clock.old (S.left source.old) (S.left source.new) (W.written sink.old)
        (W.written sink.new) result.1
        ⊎ ((source.new ≡ source.old) × IsShelfUnloaded shelf result.0 (W.written sink.old) (W.written sink.new) (W.faults sink.old)
        (W.faults sink.new) result.1) }
    ensures folder { IsSome (in_folder result.0) }
    ensures source_failed { result.1 ≡ 3 → Rose (S.faults source.old) (S.faults source.new) }
    ensures sink_failed { result.1 ≡ 4 → Rose (W.faults sink.old) (W.faults sink.new) }
    ensures store_failed { result.1 ≡ 5 → Rose (fault_count shelf) (fault_count result.0) }
    ensures known { IsServing result.1 ⊎ (result.1 ≡ 6) }
{
    let mut shelf = shelf;
    match shelf.load(alloc) {
        Ok(()) => service.serve(alloc, shelf, source, sink, clock),
        Err(fault) => {
            let status = tell(alloc, sink, &fault);
            (shelf, status)
        }
    }
}

/// Tells why the shelf wasn't loaded, and gives the exit status.
pub(crate) fn tell<W: Sink>(alloc: Global, sink: &mut W, fault: &ShelfFault) -> u8
    ensures known { (result ≡ 5) ⊎ ((result ≡ 6) ⊎ (result ≡ 8)) }
    ensures failed { result ≡ 5 → fault.now ≡ Failed }
    ensures silent { (result ≡ 5) ⊎ (result ≡ 8) → sink.new ≡ sink.old }
    ensures damaged { result ≡ 6 → IsSome (damage_of fault.now)
        × IfSome (damage_of fault.now) (λ d. IsWritten (W.written sink.old) (W.written sink.new) (W.faults sink.old)
        (W.faults sink.new) (damage_line d.0 d.1)) }
{
    match fault {
        ShelfFault::Damaged { file, offset } => {
            match write_damage(alloc, sink, file.as_str(), *offset) {
                Ok(()) => 6,
                Err(_) => 8,
            }
        }
        ShelfFault::Failed => 5,
        ShelfFault::Memory => 8,
    }
}
