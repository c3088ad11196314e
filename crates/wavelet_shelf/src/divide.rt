// Shelves that are divided.
ghost use Rattle.std.specs.Prelude.{◌≡◌, ◌==◌, ◌+◌, ℕ, [], false, map, is_some, length, slice_get, IfSome, IfOk, OnOk};
ghost use Rattle.std.specs.Cmp.Lexicographic.{pointwise};
ghost use Rattle.std.specs.List.{AllByRecursion};
ghost use Rattle.std.specs.Map.{lookup};
ghost use Rattle.wavelet_shelf.specs.Entries.{IsNamed, IsPut, FitsFolder, FitFolder};
ghost use Rattle.wavelet_shelf.specs.FileNames.{shard_of};
ghost use Rattle.wavelet_shelf.specs.Parts.{fault_sums, IsPart, IsLike, IsAddedTo, ArePartsOf};
ghost use Rattle.wavelet_shelf.specs.Shelves.{entries_of, in_folder, folder_faults, fault_sum};

use crate::Shelf;
use crate::containers::Containers;
use crate::filed::Filed;
use crate::journal_name::shard;
use doc_items::Memory;
use std::alloc::{AllocError, Global};
use wave_base::WaveletName;
use wave_outside::Folder;

impl<F: Folder + Drop> Shelf<F> {
    /// Sixteen shelves, in order of their shards. Each has the containers of its shard, and a folder of its own where this one has one.
    /// Their counts of faults, added, are this one's. The error is want of memory.
    pub fn divide(self, alloc: Global) -> Result<Vec<Shelf<F>>, Memory>
        ensures sixteen { IfOk result (λ v. length v.items ≡ 16) }
        ensures parts { IfOk result (λ v. (i : ℕ) → IfSome (slice_get v.items i) (IsPart self i)) }
        ensures counted { IfOk result (λ v. fault_sums v.items ≡ fault_sum self) }
    {
        let Shelf {
            folder,
            mut containers,
        } = self;
        let mut parts = sixteen(alloc, folder)?;
        spread(&mut containers, parts.as_mut_slice())?;
        Ok(parts)
    }

    // One container more. The error is want of memory.
    fn add(&mut self, name: WaveletName, filed: Filed<F::Disk>) -> Result<(), Memory>
        requires named { IsNamed (name, filed) }
        requires absent { is_some (lookup (pointwise ◌==◌ name) (entries_of self.old)) ≡ false }
        requires fits { FitsFolder F.room (in_folder self.old) (name, filed) }
        ensures put { OnOk result (IsPut name filed (entries_of self.old) (entries_of self.new)) }
        ensures folder { in_folder self.new ≡ in_folder self.old }
    {
        self.containers.reserve()?;
        self.containers.put(name, filed);
        Ok(())
    }
}

// Sixteen shelves without containers. Where there is a folder, the last one is over it, and the others over others of it.
fn sixteen<F: Folder + Drop>(alloc: Global, folder: Option<F>) -> Result<Vec<Shelf<F>>, Memory>
    ensures sixteen { IfOk result (λ v. length v.items ≡ 16) }
    ensures like { IfOk result (λ v. AllByRecursion (IsLike folder) v.items) }
    ensures counted { IfOk result (λ v. fault_sums v.items ≡ folder_faults F.faults folder) }
{
    let mut shelves = others(alloc, &folder)?;
    shelves.push(over(alloc, folder))?;
    Ok(shelves)
}

// Fifteen shelves without containers over others of the folder, where there is one, with no fault counted.
fn others<F: Folder + Drop>(alloc: Global, folder: &Option<F>) -> Result<Vec<Shelf<F>>, Memory>
    ensures fifteen { IfOk result (λ v. length v.items ≡ 15) }
    ensures like { IfOk result (λ v. AllByRecursion (IsLike folder.now) v.items) }
    ensures uncounted { IfOk result (λ v. fault_sums v.items ≡ 0) }
{
    let mut shelves = Vec::new(alloc);
    for _ in 0..15u64 {
        shelves.push(like(alloc, folder)?)?;
    }
    Ok(shelves)
}

// A shelf without containers over the folder, where there is one.
fn over<F: Folder + Drop>(alloc: Global, folder: Option<F>) -> Shelf<F>
    ensures like { IsLike folder result }
    ensures counted { fault_sum result ≡ folder_faults F.faults folder }
{
    match folder {
        None => Shelf::new(alloc),
        Some(folder) => Shelf::over(alloc, folder),
    }
}

// A shelf without containers over another of the folder, where there is one, with no fault counted.
fn like<F: Folder + Drop>(alloc: Global, folder: &Option<F>) -> Result<Shelf<F>, Memory>
    ensures like { IfOk result (IsLike folder.now) }
    ensures uncounted { IfOk result (λ s. fault_sum s ≡ 0) }
{
    match folder {
        None => Ok(Shelf::new(alloc)),
        Some(folder) => match folder.another(alloc) {
            Ok(folder) => Ok(Shelf::over(alloc, folder)),
            Err(_) => Err(AllocError),
        },
    }
}

// Each container goes to the shelf of its shard.
fn spread<F: Folder + Drop>(
    containers: &mut Containers<F::Disk>,
    shelves: &mut [Shelf<F>],
) -> Result<(), Memory>
    requires sixteen { length shelves.old ≡ 16 }
    requires empty { AllByRecursion (λ s. entries_of s ≡ []) shelves.old }
    requires fit { AllByRecursion (λ s. FitFolder F.room (in_folder s) containers.old.map.entries) shelves.old }
    ensures sixteen { length shelves.new ≡ 16 }
    ensures parts { OnOk result (ArePartsOf containers.old.map.entries shelves.old shelves.new) }
{
    while let Some((name, filed)) = containers.pop() {
        add_to(shelves, name, filed)?;
    }
    Ok(())
}

// One container more, in the shelf of its shard. The error is want of memory.
fn add_to<F: Folder + Drop>(
    shelves: &mut [Shelf<F>],
    name: WaveletName,
    filed: Filed<F::Disk>,
) -> Result<(), Memory>
    requires sixteen { length shelves.old ≡ 16 }
    requires named { IsNamed (name, filed) }
    requires absent { IfSome (slice_get shelves.old (shard_of name)) (λ s. is_some (lookup (pointwise ◌==◌ name) (entries_of s)) ≡ false) }
    requires fits { IfSome (slice_get shelves.old (shard_of name)) (λ s. FitsFolder F.room (in_folder s) (name, filed)) }
    ensures sixteen { length shelves.new ≡ 16 }
    ensures added { OnOk result (IsAddedTo name filed shelves.old shelves.new) }
{
    let place = shard(&name) as usize;
    shelves[place].add(name, filed)
}
