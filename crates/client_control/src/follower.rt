ghost use Rattle.std.specs.Prelude.{◌≡◌, ◌≢◌, ◌≤◌, ◌+◌, ℕ, false, cond, [], map, slice_get, Some, None, IfOk, IfSome, IfNone};
ghost use Rattle.std.specs.List.{All};
ghost use Rattle.std.specs.Option.{option_copied, option_map, option_map_or};
ghost use Rattle.doc_items.specs.Limits.{max_count};
ghost use Rattle.wave_base.specs.Versions.{same_id};
ghost use Rattle.wavelet_op.specs.Acts.{meanings, AreNormal};
ghost use Rattle.follower_rules.specs.Followers.{ClientOf, Flight, new_follower, pending, screen, dropped, refuse, point_of, take_snapshot};
ghost use Rattle.follower_rules.specs.Laws.{IsSound};
ghost use Rattle.client_control.specs.Parts.{Parts, follower_of, numbered, ops_pending, settled};

use crate::flight::{InFlight, copy_flight};
use crate::past::copy_queue;
use crate::replay::{run_all, run_flight};
use doc_items::Memory;
use follower_rules::Taken;
use std::alloc::Global;
use std::marker::Model;
use wave_base::{Address, DeltaId, HashedVersion, WaveletName};
use wave_hash::zero_hash;
use wavelet_op::{Ops, Submission};
use wavelet_state::{Snapshot, WaveletState};

/// A client's follower of a wavelet: the state at a version of the history, a submission in flight, the edits after it, and the
/// number of the next submission. What is pending is valid where the follower is.
pub struct Follower {
    pub(crate) name: WaveletName,
    pub(crate) author: Address,
    pub(crate) client: u64,
    pub(crate) at: HashedVersion,
    pub(crate) count: u64,
    pub(crate) state: WaveletState,
    pub(crate) flight: Option<InFlight>,
    pub(crate) queue: Vec<Ops>,
    pub(crate) next: u64,
    // How many items are inserted by what is pending.
    pub(crate) held: u64,
    // The screen, if it is kept; else it is made anew when it is needed.
    pub(crate) shown: Option<WaveletState>,
}

impl Drop for Follower {
    fn drop(self) {
        let Follower {
            name: _name,
            author: _author,
            client: _client,
            at: _at,
            count: _count,
            state: _state,
            flight: _flight,
            queue: _queue,
            next: _next,
            held: _held,
            shown: _shown,
        } = self;
    }
}

impl Model for Follower {
    ghost use Rattle.std.specs.Coded.{codes};
    ghost use Rattle.wavelet_op.specs.contracts.op.WaveletOp as op_row;
    ghost use Rattle.wavelet_op.specs.contracts.delta.Submission as submission_row;
    ghost use Rattle.wavelet_state.specs.contracts.state.WaveletState as state_row;
    ghost use Rattle.client_control.specs.contracts.flight.InFlight as flight_row;
    ghost use Rattle.client_control.specs.Parts.{Parts, parts, IsKept};

    ghost Value = { Parts };

    ghost coded = { Prim.hlevel
        (codes, op_row.the_row.coded, submission_row.the_row.coded, state_row.the_row.coded, flight_row.the_row.coded) };

    ghost view = { λ f. parts f.name f.author f.client f.at f.count f.state f.flight f.queue.items f.next };

    ghost invariant = { λ f. IsKept (parts f.name f.author f.client f.at f.count f.state f.flight f.queue.items f.next) f.held f.shown };
}

impl Follower {
    /// A follower at the start of the history, with nothing pending. The client's key is at most 2^53 - 1.
    pub fn new(alloc: Global, name: WaveletName, user: Address, client: u64) -> Follower
        requires { client ≤ max_count }
        ensures { follower_of result ≡ new_follower name (record { author = user; client = client }) }
    {
        let at = HashedVersion {
            version: 0,
            hash: zero_hash(&name),
        };
        Follower {
            name,
            author: user,
            client,
            at,
            count: 0,
            state: WaveletState::new(alloc),
            flight: None,
            queue: Vec::new(alloc),
            next: 1,
            held: 0,
            shown: Some(WaveletState::new(alloc)),
        }
    }

    /// The same, but that its next submission has this number, at most 2^53: for a client who has used the numbers below it.
    pub fn numbered(
        alloc: Global,
        name: WaveletName,
        user: Address,
        client: u64,
        next: u64,
    ) -> Follower
        requires client { client ≤ max_count }
        requires next { next ≤ max_count + 1 }
        ensures { follower_of result ≡ numbered next (new_follower name (record { author = user; client = client })) }
    {
        let mut follower = Follower::new(alloc, name, user, client);
        follower.next = next;
        follower
    }

    /// The name of the wavelet.
    pub fn name(&self) -> &WaveletName
        ensures { result.now ≡ self.now.name }
    {
        &self.name
    }

    /// The hashed version where the follower is.
    pub fn at(&self) -> HashedVersion
        ensures { result ≡ (follower_of self.now).here.at }
    {
        self.at
    }

    /// The state there.
    pub fn state(&self) -> &WaveletState
        ensures value { result.now ≡ (follower_of self.now).here.state }
        ensures sound { IsSound (follower_of self.now) }
    {
        &self.state
    }

    /// The submission in flight as it was first taken; None exactly where none is. It is sent again after a cut.
    pub fn sent(&self) -> Option<&Submission>
        ensures { option_copied result ≡ option_map (λ (g : Flight). g.sent) (follower_of self.now).flight }
    {
        match &self.flight {
            Some(flight) => Some(&flight.sent),
            None => None,
        }
    }

    /// The operations of the flight, if there is one, and then of each entry; None exactly where the place isn't below their number.
    /// They are in normal form.
    pub fn pending(&self, place: u64) -> Option<&Ops>
        ensures value { option_copied result ≡ slice_get (ops_pending self.now) place }
        ensures acts { map meanings (ops_pending self.now) ≡ pending (follower_of self.now) }
        ensures normal { All AreNormal (ops_pending self.now) }
    {
        let Some(flight) = &self.flight else {
            return self.queue.as_slice().get(place as usize);
        };
        if place == 0 {
            return Some(&flight.ops);
        }
        self.queue.as_slice().get((place - 1) as usize)
    }

    /// Whether nothing is pending.
    pub fn is_settled(&self) -> bool
        ensures { result ≡ settled (pending (follower_of self.now)) }
    {
        self.flight.is_none() && self.queue.is_empty()
    }

    /// The screen: the state with what is pending.
    pub fn screen(&self, alloc: Global) -> Result<WaveletState, Memory>
        ensures { IfOk result (λ s. screen (follower_of self.now) ≡ Some s) }
    {
        match &self.shown {
            Some(shown) => shown.copy(alloc),
            None => self.replay(alloc),
        }
    }

    // The screen, made anew.
    fn replay(&self, alloc: Global) -> Result<WaveletState, Memory>
        ensures { IfOk result (λ s. screen (follower_of self.now) ≡ Some s) }
    {
        let state = self.state.copy(alloc)?;
        let state = run_flight(alloc, state, &self.flight)?;
        run_all(alloc, state, self.queue.as_slice())
    }

    /// The screen without a copy. None only where something is pending and the screen has to be made anew, as it has after want of
    /// memory; `keep_screen` does that.
    pub fn shown(&self) -> Option<&WaveletState>
        ensures value { IfSome result (λ s. screen (follower_of self.now) ≡ Some s.now) }
        ensures none { IfNone result (pending (follower_of self.now) ≢ []) }
    {
        match &self.shown {
            Some(shown) => Some(shown),
            None => self.state_if_settled(),
        }
    }

    // The state, where it is the screen.
    fn state_if_settled(&self) -> Option<&WaveletState>
        ensures value { IfSome result (λ s. screen (follower_of self.now) ≡ Some s.now) }
        ensures none { IfNone result (pending (follower_of self.now) ≢ []) }
    {
        if self.is_settled() {
            Some(&self.state)
        } else {
            None
        }
    }

    /// An equal follower. Its screen isn't kept, and is made anew when it is needed.
    pub fn copy(&self, alloc: Global) -> Result<Follower, Memory>
        ensures { IfOk result (λ f. f ≡ self.now) }
    {
        let name = self.name.copy(alloc)?;
        let author = self.author.copy(alloc)?;
        let state = self.state.copy(alloc)?;
        let flight = copy_flight(alloc, &self.flight)?;
        let queue = copy_queue(alloc, self.queue.as_slice())?;
        Ok(Follower {
            name,
            author,
            client: self.client,
            at: self.at,
            count: self.count,
            state,
            flight,
            queue,
            next: self.next,
            held: self.held,
            shown: None,
        })
    }

    /// Nothing is pending any more.
    pub fn drop_pending(&mut self)
        ensures { follower_of self.new ≡ dropped (follower_of self.old) }
    {
        let keep = self.is_settled();
        self.shown = kept_if(keep, self.shown.take());
        self.flight = None;
        self.queue.clear();
        self.held = 0;
    }

    // Whether the flight has this id.
    fn flies(&self, id: &DeltaId) -> bool
        ensures { result ≡ option_map_or (λ (g : Flight). same_id id.now g.sent.id) (follower_of self.now).flight false }
    {
        match &self.flight {
            Some(flight) => *id == flight.sent.id,
            None => false,
        }
    }

    /// The submission of this id was refused. True exactly where it is the flight's; then nothing is pending any more.
    pub fn receive_refusal(&mut self, id: &DeltaId) -> bool
        ensures { (result, follower_of self.new) ≡ refuse (follower_of self.old) id.now }
    {
        if !self.flies(id) {
            return false;
        }
        self.drop_pending();
        true
    }

    /// The follower is where the snapshot of its wavelet was taken, and the answer is `Took`; `Pending` exactly where something is
    /// pending, else `Old` exactly where the snapshot's version isn't above the follower's: then it stays as it is.
    pub fn receive_snapshot(&mut self, snapshot: Snapshot) -> Taken
        requires { snapshot.name ≡ self.old.name }
        ensures { (result, follower_of self.new) ≡ take_snapshot (follower_of self.old) (point_of snapshot) }
    {
        if !self.is_settled() {
            return Taken::Pending;
        }
        let at = snapshot.at();
        if at.version <= self.at.version {
            return Taken::Old;
        }
        self.at = at;
        self.count = snapshot.inserted();
        self.state = snapshot.into_state();
        self.shown = None;
        Taken::Took
    }
}

// A screen that is to be kept.
fn kept_if(keep: bool, shown: Option<WaveletState>) -> Option<WaveletState>
    ensures { result ≡ cond keep shown None }
{
    if keep { shown } else { None }
}
