// Shards that are new.
ghost use Rattle.std.specs.Prelude.{◌≡◌, ◌++◌, ℕ, true, map, length, slice_get, IfSome, IfOk, OnOk};
ghost use Rattle.std.specs.List.{AllByRecursion};
ghost use Rattle.wavelet_shelf.specs.Parts.{is_in};
ghost use Rattle.wavelet_shelf.specs.Shelves.{hosted_of};
ghost use Rattle.wavelet_shelf.specs.Walks.{as_hosted};
ghost use Rattle.hosted_copies.specs.Domains.{hosted_by};
ghost use Rattle.session_hub.specs.Entries.{IsLoaded, AreLoaded};
ghost use Rattle.shard_marks.specs.Histories.{is_sound, are_sound};
ghost use Rattle.shard_marks.specs.Marks.{loaded, loaded_one};
ghost use Rattle.session_hub.specs.Records.{mark_of};

use crate::record::Record;
use crate::shard::Shard;
use delta_history::History;
use doc_items::Memory;
use hosted_copies::HostedCopies;
use replica_store::Replicas;
use std::alloc::Global;
use std::snapshot::Snapshot;
use wave_base::Domain;
use wave_outside::Folder;
use wavelet_shelf::Shelf;

// Keeps a record of each delta of a history, which is sound. The error is want of memory, here and below.
#[tactic(auto, using(shard_marks::proofs::Telling::legal_sound))]
fn keep_loaded(history: &History, records: &mut Vec<Record>) -> Result<(), Memory>
    ensures marks { OnOk result (map mark_of records.new.items ≡ map mark_of records.old.items ++ loaded_one (as_hosted history.now)) }
    ensures sound { is_sound (as_hosted history.now) ≡ true }
{
    let name = history.name();
    for delta in history.deltas() {
        records.push(Record::Loaded {
            name: Snapshot::of(name),
            delta: Snapshot::of(delta),
        })?;
    }
    Ok(())
}

// A record of each delta of what the domain hosts on a shelf, which is sound.
fn loaded_records<F: Folder>(
    alloc: Global,
    domain: &Domain,
    shelf: &Shelf<F>,
) -> Result<Vec<Record>, Memory>
    ensures marks { IfOk result (λ v. map mark_of v.items ≡ loaded (hosted_by domain.now (hosted_of shelf.now))) }
    ensures sound { OnOk result (are_sound (hosted_by domain.now (hosted_of shelf.now)) ≡ true) }
{
    let copies = HostedCopies { domain, shelf };
    let mut records = Vec::new(alloc);
    for place in 0..copies.count() {
        if let Some(history) = copies.history(place) {
            keep_loaded(history, &mut records)?;
        }
    }
    Ok(records)
}

impl<F: Folder + Drop> Shard<F> {
    /// The shard of this number, of the wavelets of a shelf.
    pub(crate) fn new(
        alloc: Global,
        domain: Domain,
        number: u64,
        shelf: Shelf<F>,
    ) -> Result<Shard<F>, Memory>
        requires { AllByRecursion (λ h. is_in number h.name ≡ true) (hosted_of shelf) }
        ensures { IfOk result (IsLoaded domain number shelf) }
    {
        shelf.copies_are_hosted();
        let records = loaded_records(alloc, &domain, &shelf)?;
        Ok(Shard {
            domain,
            number,
            shelf,
            replicas: Replicas::new(alloc),
            records,
            texts: Vec::new(alloc),
        })
    }
}

/// The shards of some shelves, each of which has the wavelets of the shard of its place.
pub(crate) fn shards_of<F: Folder + Drop>(
    alloc: Global,
    domain: &Domain,
    parts: Vec<Shelf<F>>,
) -> Result<Vec<Shard<F>>, Memory>
    requires { (i : ℕ) → IfSome (slice_get parts.items i) (λ p. AllByRecursion (λ h. is_in i h.name ≡ true) (hosted_of p)) }
    ensures { IfOk result (λ v. AreLoaded domain.now 0 parts.items v.items) }
{
    let mut shards = Vec::new(alloc);
    for part in parts {
        let number = shards.len() as u64;
        let domain = domain.copy(alloc)?;
        shards.push(Shard::new(alloc, domain, number, part)?)?;
    }
    Ok(shards)
}
