// What a follower's user does.
ghost use Rattle.std.specs.Prelude.{◌≡◌, ◌<◌, ◌≤◌, true, false, Some, Ok, IfOk, IfErr, OnOk, OnErr};
ghost use Rattle.wavelet_op.specs.Acts.{meanings, AreNormal};
ghost use Rattle.wavelet_op.specs.States.{run};
ghost use Rattle.wavelet_state.specs.Snapshots.{max_inserted};
ghost use Rattle.follower_rules.specs.Followers.{screen};
ghost use Rattle.follower_rules.specs.Submitting.{IsFault, is_short, edit_within, edit};
ghost use Rattle.client_control.specs.Parts.{follower_of};
ghost use Rattle.client_control.specs.Steps.{IsInvalid, IsTried};

use crate::{Follower, FollowerFault, SUBMIT_BYTES};
use doc_items::Memory;
use std::alloc::Global;
use wavelet_codec::ops_len;
use wavelet_op::Ops;
use wavelet_state::{MAX_INSERTED, WaveletState, try_delta};

impl Follower {
    // The screen, which isn't kept any more.
    fn lift_screen(&mut self, alloc: Global) -> Result<WaveletState, Memory>
        ensures value { IfOk result (λ s. screen (follower_of self.old) ≡ Some s) }
        ensures same { self.new ≡ self.old }
    {
        match self.shown.take() {
            Some(shown) => Ok(shown),
            None => self.screen(alloc),
        }
    }

    /// Keeps the screen, so that `shown` lends it and an edit costs by its operations.
    pub fn keep_screen(&mut self, alloc: Global) -> Result<(), Memory>
        ensures { self.new ≡ self.old }
    {
        let shown = self.lift_screen(alloc)?;
        self.shown = Some(shown);
        Ok(())
    }

    /// Puts the operations, in normal form, as one more entry after what is pending. Refusals, in this order: `OpInvalid` with the first
    /// operation that isn't valid where the ones before it lead from the screen; `EditFull` exactly where what is pending would
    /// insert more items than the deltas of a history may; `TooBig` exactly where the operations have more bytes than
    /// `SUBMIT_BYTES`. After a refusal, `Memory` included, the follower is as it was.
    pub fn edit(&mut self, alloc: Global, ops: Ops) -> Result<(), FollowerFault>
        ensures ok { OnOk result (edit (follower_of self.old) (meanings ops) ≡ Ok (follower_of self.new)) }
        ensures refused { IfErr result (λ e. IsFault (edit (follower_of self.old) (meanings ops)) e) }
        ensures same { OnErr result (self.new ≡ self.old) }
    {
        self.edit_within(alloc, ops, MAX_INSERTED)
    }

    /// As `edit`, with this bound, of at most 2^40, in the place of a history's: `EditFull` exactly where what is pending would insert
    /// more items. A test reaches it with a small one.
    pub fn edit_within(&mut self, alloc: Global, ops: Ops, most: u64) -> Result<(), FollowerFault>
        requires { most ≤ max_inserted }
        ensures ok { OnOk result (edit_within most (follower_of self.old) (meanings ops) ≡ Ok (follower_of self.new)) }
        ensures refused { IfErr result (λ e. IsFault (edit_within most (follower_of self.old) (meanings ops)) e) }
        ensures same { OnErr result (self.new ≡ self.old) }
    {
        let ops = ops.normal(alloc)?;
        let more = ops.inserted();
        let short = is_short(alloc, &ops)?;
        let mut shown = self.lift_screen(alloc)?;
        let full = self.held + more > most;
        match tried_with_room(alloc, &mut self.queue, &mut shown, &ops, full, short) {
            Ok(()) => {
                self.held += more;
                self.shown = Some(shown);
                match self.queue.push(ops) {
                    Ok(()) => Ok(()),
                    Err(_) => unreachable!(),
                }
            }
            Err(fault) => {
                self.shown = Some(shown);
                Err(fault)
            }
        }
    }
}

// Whether the operations are short enough for a submission.
#[tactic(auto, using(crate::proofs::Joinings::short_is))]
fn is_short(alloc: Global, ops: &Ops) -> Result<bool, Memory>
    requires { AreNormal ops.now }
    ensures { IfOk result (λ b. b ≡ is_short (meanings ops.now)) }
{
    let len = ops_len(alloc, ops)?;
    Ok(len <= SUBMIT_BYTES)
}

// `tried`, and there is room for an entry.
fn tried_with_room(
    alloc: Global,
    queue: &mut Vec<Ops>,
    shown: &mut WaveletState,
    ops: &Ops,
    full: bool,
    short: bool,
) -> Result<(), FollowerFault>
    ensures items { queue.new.items ≡ queue.old.items }
    ensures room { OnOk result (queue.new.len < queue.new.cap) }
    ensures ok { OnOk result ((run shown.old (meanings ops.now) ≡ Some shown.new) × (full ≡ false) × (short ≡ true)) }
    ensures refused { IfErr result (λ e. IsTried shown.old (meanings ops.now) full short e) }
    ensures same { OnErr result (shown.new ≡ shown.old) }
{
    queue.reserve(1)?;
    tried(alloc, shown, ops, full, short)
}

// The screen is after the operations, unless they aren't valid there, or too many items are pending with them, or they are too
// long. After a refusal it is as it was.
fn tried(
    alloc: Global,
    shown: &mut WaveletState,
    ops: &Ops,
    full: bool,
    short: bool,
) -> Result<(), FollowerFault>
    ensures ok { OnOk result ((run shown.old (meanings ops.now) ≡ Some shown.new) × (full ≡ false) × (short ≡ true)) }
    ensures refused { IfErr result (λ e. IsTried shown.old (meanings ops.now) full short e) }
    ensures same { OnErr result (shown.new ≡ shown.old) }
{
    if !full && short {
        return applied(alloc, shown, ops);
    }
    let mut trial = shown.copy(alloc)?;
    match applied(alloc, &mut trial, ops) {
        Ok(()) => Err(if full {
            FollowerFault::EditFull
        } else {
            FollowerFault::TooBig
        }),
        Err(fault) => Err(fault),
    }
}

// The state is after the operations. Refusal: `OpInvalid`, after which it is as it was.
fn applied(alloc: Global, state: &mut WaveletState, ops: &Ops) -> Result<(), FollowerFault>
    ensures ok { OnOk result (run state.old (meanings ops.now) ≡ Some state.new) }
    ensures refused { IfErr result (λ e. IsInvalid state.old (meanings ops.now) e) }
    ensures same { OnErr result (state.new ≡ state.old) }
{
    match try_delta(alloc, state, ops)? {
        None => Ok(()),
        Some(index) => Err(FollowerFault::OpInvalid(index)),
    }
}
