// Turns at a hub, for links with other domains.
ghost use Rattle.std.specs.Prelude.{◌≡◌, ℕ, slice_get, IfOk, IfErr, OnOk, OnErr};
ghost use Rattle.turn_cells.specs.Cells.{Begins, loads_at, added_at};
ghost use Rattle.wavelet_shelf.specs.FileNames.{shard_of};
ghost use Rattle.shard_marks.specs.Givings.{gift_mark, IsGivenBy};
ghost use Rattle.shard_marks.specs.Passes.{HaveTurned, IsSpentAt, marks_of};
ghost use Rattle.session_hub.specs.Hubs.{AreOfHub, AreOfHub-prop};
ghost use Rattle.session_hub.specs.Items.{items_across, relays_across, reaches_across};

use crate::fault::HubFault;
use crate::hub::{Hub, Passes};
use crate::seeking::{Item, Wanted};
use peer_turns::{Absorbed, CopyAt, PeerTurns, Relay, TurnFault};
use shard_marks::{Given, Giving, Mark};
use std::alloc::Global;
use std::sync::Wait;
use turn_lock::Spent;
use wave_base::{DeltaId, Domain, WaveletName};
use wave_outside::Folder;
use wavelet_op::{AppliedDelta, Verdict};

/// A hub with passes of it, by which a link with another domain reaches the copies.
pub struct HubTurns<'a, F: Folder + Drop> {
    pub(crate) hub: &'a Hub<F>,
    pub(crate) passes: Passes<F>,
    ghost own: { AreOfHub hub.now passes } by { AreOfHub-prop hub.now passes },
}

impl<'a, F: Folder + Drop> Drop for HubTurns<'a, F> {
    fn drop(self) {
        let HubTurns {
            hub: _hub,
            passes: _passes,
        } = self;
    }
}

// Why there was no turn.
fn turn_fault(fault: HubFault) -> TurnFault
    ensures { (s : Spent) → result ≡ TurnFault.Spent s → fault ≡ HubFault.Spent s }
{
    match fault {
        HubFault::Spent(spent) => TurnFault::Spent(spent),
        HubFault::Memory => TurnFault::Memory,
    }
}

impl<'a, F: Folder + Drop> HubTurns<'a, F> {
    /// Turns at the hub, by these passes.
    pub fn new(hub: &'a Hub<F>, passes: Passes<F>) -> HubTurns<'a, F>
        requires { AreOfHub hub.now passes }
        ensures { (result.hub.now ≡ hub.now) × (result.passes ≡ passes) }
    {
        HubTurns { hub, passes }
    }

    /// The passes, which are of the hub.
    pub fn into_passes(self) -> Passes<F>
        ensures same { result ≡ self.entry.passes }
        ensures own { AreOfHub self.entry.hub.now result }
    {
        let HubTurns { hub: _hub, passes } = self;
        passes
    }

    // Gives the copy of the name what came from its host.
    fn give<R: Wait>(
        &mut self,
        rt: &R,
        alloc: Global,
        name: &WaveletName,
        giving: &Giving,
    ) -> Result<Given, TurnFault>
        ensures hub { self.new.hub.now ≡ self.old.hub.now }
        ensures turned { HaveTurned (shard_of name.now) self.old.passes self.new.passes }
        ensures given { IfOk result
            (IsGivenBy self.old.hub.now.domain (shard_of name.now) self.old.passes self.new.passes (gift_mark name.now giving.now)) }
        ensures unadded { OnErr result (added_at self.new.passes (shard_of name.now) ≡ added_at self.old.passes (shard_of name.now)) }
        ensures spent { IfErr result (λ e. (s : Spent) → e ≡ TurnFault.Spent s → IsSpentAt self.new.passes (shard_of name.now) s) }
    {
        match self.hub.give(rt, alloc, &mut self.passes, name, giving) {
            Ok(given) => Ok(given),
            Err(fault) => Err(turn_fault(fault)),
        }
    }

    // What is at a place of what is wanted of all copies, for a domain.
    fn seek<R: Wait>(
        &mut self,
        rt: &R,
        alloc: Global,
        wanted: Wanted,
        domain: &Domain,
        place: u64,
    ) -> Result<Option<Item>, TurnFault>
        ensures hub { self.new.hub.now ≡ self.old.hub.now }
        ensures later { Begins self.old.passes self.new.passes }
        ensures counts { (k : ℕ) → (loads_at self.new.passes k ≡ loads_at self.old.passes k)
            × (added_at self.new.passes k ≡ added_at self.old.passes k) }
        ensures item { IfOk result
            (λ o. o ≡ slice_get (items_across wanted self.old.hub.now.domain domain.now (marks_of self.new.passes)) place) }
        ensures spent { IfErr result (λ e. (s : Spent) → e ≡ TurnFault.Spent s → (k : ℕ) × IsSpentAt self.new.passes k s) }
    {
        match self
            .hub
            .seek(rt, alloc, &mut self.passes, wanted, domain, place)
        {
            Ok(item) => Ok(item),
            Err(fault) => Err(turn_fault(fault)),
        }
    }
}

/// A `take` call is one turn of the wavelet's shard: where it changes the copy, its mark is the last one then. A wavelet that the
/// domain hosts itself has no copy, and nothing changes. `next_relay` and `next_copy` go through the shards in order, one turn
/// after the other, and in each through its copies in byte order of names. The calls that were made aren't kept.
impl<'a, F: Folder + Drop> PeerTurns for HubTurns<'a, F> {
    ghost use Rattle.std.specs.Prelude.{false, []};

    ghost tells = { false };

    ghost calls = { λ _. [] };

    fn take_applied<R: Wait>(
        &mut self,
        rt: &R,
        alloc: Global,
        name: &WaveletName,
        delta: &AppliedDelta,
    ) -> Result<Absorbed, TurnFault>
        ensures hub { self.new.hub.now ≡ self.old.hub.now }
        ensures turned { HaveTurned (shard_of name.now) self.old.passes self.new.passes }
        ensures taken { IfOk result
            (λ a. IsGivenBy self.old.hub.now.domain (shard_of name.now) self.old.passes self.new.passes (Mark.Applied name.now delta.now)
            (Given.Absorbed a)) }
        ensures unadded { OnErr result (added_at self.new.passes (shard_of name.now) ≡ added_at self.old.passes (shard_of name.now)) }
        ensures spent { IfErr result (λ e. (s : Spent) → e ≡ TurnFault.Spent s → IsSpentAt self.new.passes (shard_of name.now) s) }
    {
        match self.give(rt, alloc, name, &Giving::Delta(delta))? {
            Given::Absorbed(answer) => Ok(answer),
            Given::Noted(_) => unreachable!(),
            Given::Told => unreachable!(),
        }
    }

    fn take_answer<R: Wait>(
        &mut self,
        rt: &R,
        alloc: Global,
        name: &WaveletName,
        id: &DeltaId,
        verdict: Verdict,
    ) -> Result<bool, TurnFault>
        ensures hub { self.new.hub.now ≡ self.old.hub.now }
        ensures turned { HaveTurned (shard_of name.now) self.old.passes self.new.passes }
        ensures taken { IfOk result
            (λ b. IsGivenBy self.old.hub.now.domain (shard_of name.now) self.old.passes self.new.passes
            (Mark.Answered name.now id.now verdict) (Given.Noted b)) }
        ensures unadded { OnErr result (added_at self.new.passes (shard_of name.now) ≡ added_at self.old.passes (shard_of name.now)) }
        ensures spent { IfErr result (λ e. (s : Spent) → e ≡ TurnFault.Spent s → IsSpentAt self.new.passes (shard_of name.now) s) }
    {
        match self.give(rt, alloc, name, &Giving::Answer(id, verdict))? {
            Given::Absorbed(_) => unreachable!(),
            Given::Noted(waited) => Ok(waited),
            Given::Told => unreachable!(),
        }
    }

    fn take_dropped<R: Wait>(
        &mut self,
        rt: &R,
        alloc: Global,
        name: &WaveletName,
    ) -> Result<(), TurnFault>
        ensures hub { self.new.hub.now ≡ self.old.hub.now }
        ensures turned { HaveTurned (shard_of name.now) self.old.passes self.new.passes }
        ensures taken { OnOk result
            (IsGivenBy self.old.hub.now.domain (shard_of name.now) self.old.passes self.new.passes (Mark.Dropped name.now) Given.Told) }
        ensures unadded { OnErr result (added_at self.new.passes (shard_of name.now) ≡ added_at self.old.passes (shard_of name.now)) }
        ensures spent { IfErr result (λ e. (s : Spent) → e ≡ TurnFault.Spent s → IsSpentAt self.new.passes (shard_of name.now) s) }
    {
        match self.give(rt, alloc, name, &Giving::NoMore)? {
            Given::Absorbed(_) => unreachable!(),
            Given::Noted(_) => unreachable!(),
            Given::Told => Ok(()),
        }
    }

    fn next_relay<R: Wait>(
        &mut self,
        rt: &R,
        alloc: Global,
        domain: &Domain,
        place: u64,
    ) -> Result<Option<Relay>, TurnFault>
        ensures hub { self.new.hub.now ≡ self.old.hub.now }
        ensures later { Begins self.old.passes self.new.passes }
        ensures counts { (k : ℕ) → (loads_at self.new.passes k ≡ loads_at self.old.passes k)
            × (added_at self.new.passes k ≡ added_at self.old.passes k) }
        ensures relay { IfOk result
            (λ o. o ≡ slice_get (relays_across self.old.hub.now.domain domain.now (marks_of self.new.passes)) place) }
        ensures spent { IfErr result (λ e. (s : Spent) → e ≡ TurnFault.Spent s → (k : ℕ) × IsSpentAt self.new.passes k s) }
    {
        match self.seek(rt, alloc, Wanted::Relays, domain, place)? {
            Some(item) => Ok(item.into_relay()),
            None => Ok(None),
        }
    }

    fn next_copy<R: Wait>(
        &mut self,
        rt: &R,
        alloc: Global,
        domain: &Domain,
        place: u64,
    ) -> Result<Option<CopyAt>, TurnFault>
        ensures hub { self.new.hub.now ≡ self.old.hub.now }
        ensures later { Begins self.old.passes self.new.passes }
        ensures counts { (k : ℕ) → (loads_at self.new.passes k ≡ loads_at self.old.passes k)
            × (added_at self.new.passes k ≡ added_at self.old.passes k) }
        ensures reach { IfOk result
            (λ o. o ≡ slice_get (reaches_across self.old.hub.now.domain domain.now (marks_of self.new.passes)) place) }
        ensures spent { IfErr result (λ e. (s : Spent) → e ≡ TurnFault.Spent s → (k : ℕ) × IsSpentAt self.new.passes k s) }
    {
        match self.seek(rt, alloc, Wanted::Reaches, domain, place)? {
            Some(item) => Ok(item.into_reach()),
            None => Ok(None),
        }
    }
}
