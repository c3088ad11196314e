// Shelves that are closed.
ghost use Rattle.std.specs.Prelude.{◌≡◌, ◌↔◌, ◌-◌, ◌^◌, min, ℕ, List, [], true, IsSome, IfSome, IsTrue, string_bytes};
ghost use Rattle.doc_items.specs.Maps.{Key};
ghost use Rattle.delta_journal.specs.Journal.{on_disk};
ghost use Rattle.wave_outside.specs.Folders.{IsPutBack};
ghost use Rattle.wavelet_container.specs.Containers.{journal_of, history_of};
ghost use Rattle.wavelet_shelf.specs.Entries.{HaveRoom};
ghost use Rattle.wavelet_shelf.specs.Folders.{IsStill, IsOneBack, ArePutBack};
ghost use Rattle.wavelet_shelf.specs.FileNames.{file_name_of};
ghost use Rattle.wavelet_shelf.specs.Loads.{IsStoredFile};
ghost use Rattle.wavelet_shelf.specs.Shelves.{in_folder, container_in, fault_count, IsKept, IsSettled, AreApart, HasFile};

use crate::Shelf;
use crate::containers::Containers;
use crate::filed::Filed;
use wave_outside::Folder;

impl<F: Folder + Drop> Shelf<F> {
    /// Puts every disk back, and gives the folder, which counts their faults; None exactly where there is no folder.
    pub fn close(self) -> Option<F>
        ensures folder { IsSome result ↔ IsSome (in_folder self) }
        ensures back { IfSome result
            (λ f. IsTrue F.Disk.tells → AreApart self → (n : Key)
            → IfSome (container_in self n)
            (λ c. IfSome (journal_of c) (λ j. IsPutBack F.Disk.view (on_disk j) (F.files f (file_name_of n))))) }
        ensures stored { IfSome result
            (λ f. IsKept self → IsSettled self → AreApart self → (n : Key)
            → IfSome (container_in self n) (λ c. IsStoredFile F.Disk.view (F.files f (file_name_of n)) n (history_of c).deltas)) }
        ensures others { IfSome result
            (λ f. IsTrue F.Disk.tells → IfSome (in_folder self) (λ g. (m : List ℕ) → (HasFile self m → ⊥) → F.files f m ≡ F.files g m)) }
        ensures still { IfSome result (λ f. IfSome (in_folder self) (λ g. IsStill F.Folder g f)) }
        ensures counted { IfSome result (λ f. min (F.faults f) (2 ^ 64 - 1) ≡ fault_count self) }
    {
        let Shelf {
            folder,
            mut containers,
        } = self;
        let mut folder = folder?;
        put_all(&mut folder, &mut containers);
        Some(folder)
    }
}

/// Puts the disks of all containers back into the folder, and takes the containers away.
pub(crate) fn put_all<F: Folder>(folder: &mut F, containers: &mut Containers<F::Disk>)
    requires room { HaveRoom (F.room folder.old) containers.old.map.entries }
    ensures back { ArePutBack F.Folder folder.old folder.new containers.old.map.entries }
    ensures empty { containers.new.map.entries ≡ [] }
{
    while let Some((_, filed)) = containers.pop() {
        put_back(folder, filed);
    }
}

// Puts the disk back, where there is one.
fn put_back<F: Folder>(folder: &mut F, filed: Filed<F::Disk>)
    requires room { F.room folder.old (string_bytes filed.file) ≡ true }
    ensures { IsOneBack F.Folder folder.old folder.new (string_bytes filed.file) filed.container }
{
    let (file, container) = filed.into_parts();
    if let Some(disk) = container.close() {
        folder.put(file.as_str(), disk);
    }
}
