// Shelves that are read from their folders.
ghost use Rattle.std.specs.Prelude.{◌≡◌, ◌≢◌, ◌⊎◌, ◌≤◌, ℕ, List, [], true, map, IsSome, IfSome, IsTrue, Err, IfOk, IfErr, OnOk, OnErr, IsErrOf, string_bytes};
ghost use Rattle.std.specs.List.{AllByRecursion};
ghost use Rattle.doc_items.specs.Maps.{Key};
ghost use Rattle.delta_history.specs.Copying.{AreAscending};
ghost use Rattle.wave_outside.specs.Counts.{Rose};
ghost use Rattle.wave_outside.specs.Folders.{IsSame, IsAsBefore};
ghost use Rattle.wavelet_shelf.specs.Entries.{found, HaveRoom};
ghost use Rattle.wavelet_shelf.specs.Faults.{damage_of};
ghost use Rattle.wavelet_shelf.specs.FileNames.{file_name_of, is_file_name};
ghost use Rattle.wavelet_shelf.specs.Folders.{is_among, faults_with, IsStill, IsStillIn, IsSkipped, IsFileRead, IsFileStep, IsAllStep, IsLoadedAs};
ghost use Rattle.wavelet_shelf.specs.Loads.{IsReadFrom, IsSound, IsFirstRefused, HasAll};
ghost use Rattle.wavelet_shelf.specs.Shelves.{in_folder, entries_of, container_in, hosted_of, fault_count, IsKept, IsSettled, AreApart};

use crate::close::put_all;
use crate::containers::Containers;
use crate::filed::Filed;
use crate::journal_name::is_file_name;
use crate::opened::{Opened, open_file};
use crate::telling::{fault_in, fault_of};
use crate::{Shelf, ShelfFault};
use delta_journal::file_named_once;
use std::alloc::Global;
use wave_outside::Folder;

impl<F: Folder + Drop> Shelf<F> {
    /// Reads the wavelets' files of the folder, in byte order of their names; the shelf has then the histories for which they stand. A file
    /// without a header, and one that is no wavelet's, is passed over. A refusal puts every disk back, and there is no container:
    /// `Damaged` with the first file that has a journal's name and isn't the journal of a legal history of its wavelet, `Failed` where
    /// the folder or a disk failed.
    pub fn load(&mut self, alloc: Global) -> Result<(), ShelfFault>
        requires folder { IsSome (in_folder self.old) }
        requires empty { entries_of self.old ≡ [] }

        ensures read { OnOk result
            (IsTrue F.Disk.tells → IfSome (in_folder self.old)
            (λ f. (n : Key) → IfSome (container_in self.new n) (λ c. IsReadFrom (F.files f (file_name_of n)) c))) }
        ensures all { OnOk result (IsTrue F.Disk.tells
            → IfSome (in_folder self.old) (λ f. HasAll F.Disk.view (F.files f) (hosted_of self.new))) }
        ensures sound { OnOk result
            (IsTrue F.Disk.tells → IfSome (in_folder self.old) (λ f. (m : List ℕ) → IsSound F.Disk.view (F.files f m) m)) }
        ensures kept { OnOk result (IsTrue F.Disk.tells → IsKept self.new × IsSettled self.new) }
        ensures apart { OnOk result (AreApart self.new) }

        ensures damaged { IfErr result
            (λ e. IfSome (damage_of e)
            (λ d. IsTrue F.Disk.tells → IfSome (in_folder self.old) (λ f. IsFirstRefused F.Disk.view (F.files f) d.0 d.1))) }
        ensures none { OnErr result (entries_of self.new ≡ []) }
        ensures as_before { IsTrue F.Disk.tells
            → IfSome (in_folder self.old)
            (λ f. IfSome (in_folder self.new)
            (λ g. (m : List ℕ) → ((n : Key) → IsSome (container_in self.new n) → m ≢ file_name_of n)
            → IsAsBefore F.Disk.view (F.files f m) (F.files g m))) }

        ensures folder { IsSome (in_folder self.new) }
        ensures still { IsStillIn F.Folder (in_folder self.old) (in_folder self.new) }
        ensures later { fault_count self.old ≤ fault_count self.new }
        ensures failed { IsErrOf result ShelfFault.Failed → Rose (fault_count self.old) (fault_count self.new) }
    {
        match &mut self.folder {
            Some(folder) => load_from(alloc, folder, &mut self.containers),
            None => Ok(()),
        }
    }
}

// The same with the folder and the containers apart.
fn load_from<F: Folder>(
    alloc: Global,
    folder: &mut F,
    containers: &mut Containers<F::Disk>,
) -> Result<(), ShelfFault>
    requires { containers.old.map.entries ≡ [] }
    ensures room { HaveRoom (F.room folder.new) containers.new.map.entries }
    ensures loaded { IsLoadedAs F.Folder folder.old folder.new containers.new.map.entries result }
    ensures still { IsStill F.Folder folder.old folder.new }
{
    match names_of(alloc, folder) {
        Ok(names) => match load_all(alloc, folder, containers, names.as_slice()) {
            Ok(()) => Ok(()),
            Err(fault) => {
                put_all(folder, containers);
                Err(fault)
            }
        },
        Err(fault) => Err(fault),
    }
}

// The names of the files, in byte order, each once.
fn names_of<F: Folder>(alloc: Global, folder: &mut F) -> Result<Vec<String>, ShelfFault>
    ensures there { IfOk result
        (λ v. IsTrue F.Disk.tells → AllByRecursion (λ n. IsSome (F.files folder.new n)) (map string_bytes v.items)) }
    ensures all { IfOk result (λ v. IsTrue F.Disk.tells → (m : List ℕ) → IsSome (F.files folder.old m)
        → is_among (map string_bytes v.items) m ≡ true) }
    ensures distinct { IfOk result (λ v. AreAscending (map string_bytes v.items)) }
    ensures files { IsTrue F.Disk.tells → IsSame (F.files folder.old) (F.files folder.new) }
    ensures room { IsSame (F.room folder.old) (F.room folder.new) }
    ensures still { IsStill F.Folder folder.old folder.new }
    ensures later { F.faults folder.old ≤ F.faults folder.new }
    ensures failed { IsErrOf result ShelfFault.Failed → Rose (F.faults folder.old) (F.faults folder.new) }
    ensures whole { IfErr result (λ e. damage_of e ≡ None) }
{
    match folder.names(alloc) {
        Ok(names) => Ok(in_order(names)),
        Err(fault) => Err(fault_of(fault)),
    }
}

// The names in byte order, each once.
fn in_order(names: Vec<String>) -> Vec<String>
    ensures ascending { AreAscending (map string_bytes result.items) }
    ensures same { (m : List ℕ) → is_among (map string_bytes result.items) m ≡ is_among (map string_bytes names.items) m }
{
    let mut names = names;
    names.sort_unstable();
    names.dedup();
    names
}

// Reads the wavelets' files among those of these names.
fn load_all<F: Folder>(
    alloc: Global,
    folder: &mut F,
    containers: &mut Containers<F::Disk>,
    names: &[String],
) -> Result<(), ShelfFault>
    requires room { HaveRoom (F.room folder.old) containers.old.map.entries }
    requires empty { containers.old.map.entries ≡ [] }
    requires there { IsTrue F.Disk.tells → AllByRecursion (λ n. IsSome (F.files folder.old n)) (map string_bytes names.now) }
    requires distinct { AreAscending (map string_bytes names.now) }
    ensures room { HaveRoom (F.room folder.new) containers.new.map.entries }
    ensures step { IsAllStep F.Folder folder.old folder.new containers.new.map.entries (map string_bytes names.now) result }
    ensures still { IsStill F.Folder folder.old folder.new }
{
    file_named_once();
    for name in names {
        match look_at(alloc, folder, containers, name.as_str()) {
            Ok(()) => {}
            Err(fault) => return Err(fault),
        }
    }
    Ok(())
}

// Reads the file of this name, if it is a wavelet's.
fn look_at<F: Folder>(
    alloc: Global,
    folder: &mut F,
    containers: &mut Containers<F::Disk>,
    name: &str,
) -> Result<(), ShelfFault>
    requires room { HaveRoom (F.room folder.old) containers.old.map.entries }
    requires there { IsTrue F.Disk.tells → IsSome (F.files folder.old name.now) }
    requires apart { (n : Key) → IsSome (found containers.old.map.entries n) → name.now ≢ file_name_of n }
    ensures room { HaveRoom (F.room folder.new) containers.new.map.entries }
    ensures ok { OnOk result
        (IsSkipped F.Folder folder.old folder.new name.now containers.old.map.entries containers.new.map.entries ⊎ IsFileRead F.Folder
        folder.old folder.new name.now containers.old.map.entries containers.new.map.entries) }
    ensures err { IfErr result
        (λ e. IsFileStep F.Folder folder.old folder.new name.now containers.old.map.entries containers.new.map.entries (Err e)) }
    ensures named { OnErr result (is_file_name name.now ≡ true) }
    ensures still { IsStill F.Folder folder.old folder.new }
    ensures later { faults_with F.Folder folder.old containers.old.map.entries
        ≤ faults_with F.Folder folder.new containers.new.map.entries }
{
    if is_file_name(name) {
        load_file(alloc, folder, containers, name)
    } else {
        Ok(())
    }
}

// Reads the file of this name, whose container comes to the others; one without a header is put back.
fn load_file<F: Folder>(
    alloc: Global,
    folder: &mut F,
    containers: &mut Containers<F::Disk>,
    name: &str,
) -> Result<(), ShelfFault>
    requires room { HaveRoom (F.room folder.old) containers.old.map.entries }
    requires there { IsTrue F.Disk.tells → IsSome (F.files folder.old name.now) }
    requires apart { (n : Key) → IsSome (found containers.old.map.entries n) → name.now ≢ file_name_of n }
    ensures room { HaveRoom (F.room folder.new) containers.new.map.entries }
    ensures step { IsFileStep F.Folder folder.old folder.new name.now containers.old.map.entries containers.new.map.entries result }
    ensures still { IsStill F.Folder folder.old folder.new }
{
    let file = String::from_str(alloc, name)?;
    containers.reserve()?;
    let disk = match folder.file(alloc, name) {
        Ok(disk) => disk,
        Err(fault) => return Err(fault_of(fault)),
    };
    match open_file(alloc, disk, name) {
        Ok(Opened::Read(key, container)) => {
            containers.put(key, Filed { file, container });
            Ok(())
        }
        Ok(Opened::Passed(disk)) => {
            folder.put(name, disk);
            Ok(())
        }
        Err(refused) => {
            folder.put(name, refused.disk);
            Err(fault_in(file, refused.fault))
        }
    }
}
