// Where the delta of an id stands.
ghost use Rattle.std.specs.Prelude.{◌≡◌, Some, None, IsSome, OnOk, OnErr};
ghost use Rattle.std.specs.Ordering.{nat_cmp};
ghost use Rattle.std.specs.Cmp.Lexicographic.{slice_cmp};
ghost use Rattle.wave_base.specs.Versions.{IdOf};
ghost use Rattle.delta_history.specs.Places.{id_at, place_in, pair_cmp, IsPut};
ghost use Rattle.std.specs.BTreeMap as tree;

use doc_items::Memory;
use std::alloc::Global;
use std::collections::BTreeMap;
use wave_base::{Address, DeltaId};

/// Places of deltas by their ids: by author, and then by client and number.
pub(crate) struct Ids {
    pub authors: BTreeMap<Address, BTreeMap<(u64, u64), usize>>,
}

impl Drop for Ids {
    fn drop(self) {
        let Ids { authors: _authors } = self;
    }
}

impl Ids {
    /// No id.
    pub fn new(alloc: Global) -> Ids
        ensures { (i : IdOf) → place_in result.authors i ≡ None }
    {
        Ids {
            authors: BTreeMap::new(alloc),
        }
    }

    /// The place of an id; None exactly where it has none.
    pub fn get(&self, id: &DeltaId) -> Option<usize>
        ensures { result ≡ place_in self.now.authors id.now }
    {
        match self.authors.get(&id.author) {
            None => None,
            Some(numbers) => numbers.get(&(id.client, id.number)).copied(),
        }
    }

    /// The id has this place from now on, and every other one stays. After want of memory all is as it was.
    pub fn put(&mut self, alloc: Global, id: &DeltaId, place: usize) -> Result<(), Memory>
        ensures ok { OnOk result (IsPut self.old.authors self.new.authors id.now place) }
        ensures err { OnErr result ((i : IdOf) → place_in self.new.authors i ≡ place_in self.old.authors i) }
    {
        if self.authors.contains_key(&id.author) {
            return self.put_there(&id.author, (id.client, id.number), place);
        }
        self.put_author(alloc, &id.author, (id.client, id.number), place)
    }

    // The author has other numbers.
    fn put_there(
        &mut self,
        author: &Address,
        number: (u64, u64),
        place: usize,
    ) -> Result<(), Memory>
        requires { IsSome (tree.get (slice_cmp nat_cmp) self.old.authors author.now) }
        ensures ok { OnOk result (IsPut self.old.authors self.new.authors (id_at author.now number) place) }
        ensures err { OnErr result ((i : IdOf) → place_in self.new.authors i ≡ place_in self.old.authors i) }
    {
        match self.authors.get_mut(author) {
            Some(numbers) => put_number(numbers, number, place),
            None => Ok(()),
        }
    }

    // The author has no number.
    fn put_author(
        &mut self,
        alloc: Global,
        author: &Address,
        number: (u64, u64),
        place: usize,
    ) -> Result<(), Memory>
        requires { tree.get (slice_cmp nat_cmp) self.old.authors author.now ≡ None }
        ensures ok { OnOk result (IsPut self.old.authors self.new.authors (id_at author.now number) place) }
        ensures err { OnErr result ((i : IdOf) → place_in self.new.authors i ≡ place_in self.old.authors i) }
    {
        let mut numbers = BTreeMap::new(alloc);
        put_number(&mut numbers, number, place)?;
        let author = author.copy(alloc)?;
        let _old = self.authors.insert(author, numbers)?;
        Ok(())
    }
}

fn put_number(
    numbers: &mut BTreeMap<(u64, u64), usize>,
    number: (u64, u64),
    place: usize,
) -> Result<(), Memory>
    ensures ok { OnOk result (tree.Updates pair_cmp numbers.old numbers.new number (Some place)) }
    ensures err { OnErr result (tree.IsUnchanged numbers.old numbers.new) }
{
    let _old = numbers.insert(number, place)?;
    Ok(())
}
