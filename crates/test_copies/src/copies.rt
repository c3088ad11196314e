ghost use Rattle.std.specs.Prelude.{◌≡◌, ◌≢◌, ◌∷◌, [], IsTrue, Option, Some, IfSome, IsSome, option_copied, slice_get};
ghost use Rattle.delta_history.specs.Copying.{AscendFrom, AreAscending, IsKeptOutcome};
ghost use Rattle.test_copies.specs.Holding.{names_of, held_of, shown_copy, shown_hosts, is_shown, is_dropped, noted, known};

use crate::{Held, Noted};
use delta_history::{Copies, History};
use std::marker::Model;
use wave_base::{DeltaId, WaveletName};
use wavelet_op::Verdict;

/// Copies in memory, in byte order of their names.
#[derive(Drop)]
pub struct MemoryCopies {
    list: Vec<Held>,
}

impl Model for MemoryCopies {
    ghost use Rattle.std.specs.Prelude.{List};
    ghost use Rattle.delta_history.specs.Copying.{AreAscending};
    ghost use Rattle.test_copies.specs.Holding.{names_of};
    ghost use Rattle.test_copies.specs.declared.held.Held.{Held};
    ghost use Rattle.test_copies.specs.contracts.held.Held as held_row;
    ghost use Rattle.std.specs.Coded.{codes};

    ghost Value = { List Held };

    ghost coded = { Prim.hlevel (codes, held_row.the_row.coded) };

    ghost view = { λ c. c.list.items };

    ghost invariant = { λ c. AreAscending (names_of c.list.items) };
}

// Whether the names ascend from a lower one on.
fn ascend_from(low: &WaveletName, list: &[Held]) -> bool
    ensures { IsTrue result → AscendFrom low.now (names_of list.now) }
{
    let Some((first, rest)) = list.split_first() else {
        return true;
    };
    let name = first.history.name();
    low < name && ascend_from(name, rest)
}

// Whether the names are in byte order, and none stands twice.
fn are_ascending(list: &[Held]) -> bool
    ensures { IsTrue result → AreAscending (names_of list.now) }
{
    match list.split_first() {
        Some((first, rest)) => ascend_from(first.history.name(), rest),
        None => true,
    }
}

// The copy of the name.
fn held<'a>(list: &'a [Held], name: &WaveletName) -> Option<&'a Held>
    ensures { option_copied result ≡ held_of list.now name.now }
{
    let Some((first, rest)) = list.split_first() else {
        return None;
    };
    if name == first.history.name() {
        Some(first)
    } else {
        held(rest, name)
    }
}

// Whether the copy is hosted here, and has a delta.
fn is_shown(held: &Held) -> bool
    ensures { result ≡ is_shown held.now }
{
    held.hosted && !held.history.deltas().is_empty()
}

// The name at a place among those that are hosted here and have a delta.
fn host(list: &[Held], place: u64) -> Option<&WaveletName>
    ensures { option_copied result ≡ slice_get (shown_hosts list.now) place }
{
    let Some((first, rest)) = list.split_first() else {
        return None;
    };
    if !is_shown(first) {
        return host(rest, place);
    }
    if place == 0 {
        Some(first.history.name())
    } else {
        host(rest, place - 1)
    }
}

// The verdict that was noted for the id.
fn noted(list: &[Noted], id: &DeltaId) -> Option<Verdict>
    ensures { result ≡ noted list.now id.now }
{
    let Some((first, rest)) = list.split_first() else {
        return None;
    };
    if *id == first.id {
        Some(first.verdict)
    } else {
        noted(rest, id)
    }
}

impl MemoryCopies {
    /// The copies of the list; None where their names aren't in byte order, or one stands twice.
    pub fn new(list: Vec<Held>) -> Option<MemoryCopies>
        ensures { IfSome result (λ c. c ≡ list.items) }
    {
        if are_ascending(list.as_slice()) {
            Some(MemoryCopies { list })
        } else {
            None
        }
    }
}

impl Copies for MemoryCopies {
    ghost use Rattle.std.specs.Prelude.{◌≡◌};
    ghost use Rattle.test_copies.specs.Holding.{held_of, shown_copy, shown_hosts, is_dropped, known};

    ghost copies = { λ c n. shown_copy (held_of c n) };

    ghost hosts = { λ c. shown_hosts c };

    ghost drops = { λ c n. is_dropped (held_of c n) };

    ghost outcomes = { λ c n i. known (held_of c n) i };

    fn copy_of(&self, name: &WaveletName) -> Option<&History>
        ensures value { option_copied result ≡ shown_copy (held_of self.now name.now) }
        ensures named { IfSome result (λ h. h.now.name ≡ name.now) }
        ensures some { IfSome result (λ h. h.now.deltas ≢ []) }
    {
        let held = held(self.list.as_slice(), name)?;
        if held.history.deltas().is_empty() {
            None
        } else {
            Some(&held.history)
        }
    }

    fn hosted(&self, place: u64) -> Option<&WaveletName>
        ensures value { option_copied result ≡ slice_get (shown_hosts self.now) place }
        ensures there { IfSome result (λ n. IsSome (shown_copy (held_of self.now n.now))) }
        ensures ascending { AreAscending (shown_hosts self.now) }
    {
        host(self.list.as_slice(), place)
    }

    fn dropped(&self, name: &WaveletName) -> bool
        ensures { result ≡ is_dropped (held_of self.now name.now) }
    {
        match held(self.list.as_slice(), name) {
            Some(held) => held.dropped,
            None => false,
        }
    }

    fn outcome(&self, name: &WaveletName, id: &DeltaId) -> Option<Verdict>
        ensures value { result ≡ known (held_of self.now name.now) id.now }
        ensures kept { IsKeptOutcome (shown_copy (held_of self.now name.now)) id.now result }
    {
        let held = held(self.list.as_slice(), name)?;
        match held.history.kept(id) {
            Some(kept) => Some(Verdict::Ack {
                at: kept.at,
                to: kept.to,
            }),
            None => noted(held.noted.as_slice(), id),
        }
    }
}
