// What messages of a server do to their wavelet.
ghost use Rattle.std.specs.Prelude.{◌≡◌, IfOk, OnErr};
ghost use Rattle.wavelet_op.specs.Acts.{AreStructuredActs};
ghost use Rattle.delta_history.specs.Points.{acts_of};
ghost use Rattle.follower_rules.specs.Followers.{pending, point_of, take_snapshot};
ghost use Rattle.follower_rules.specs.Receiving.{rebase};
ghost use Rattle.client_control.specs.Parts.{follower_of, ops_pending};
ghost use Rattle.client_session.specs.Answers.{says};
ghost use Rattle.client_session.specs.Lines.{bad_said};
ghost use Rattle.client_session.specs.Seats.{seat_of, answered};
ghost use Rattle.client_session.specs.Taking.{ask, ask_anyway, is_asked, ack_seat, snapshot_told, snapshot_seat, flies, IsLeft, IsNoteOf, update_seat, refuse_seat, unopen_seat, close_seat};
ghost use Rattle.client_session.specs.declared.chain.Note.TheVariants as note;
ghost use Rattle.client_session.specs.declared.said.Said.TheVariants.{Nothing};

use crate::acts::Acts;
use crate::chain::Note;
use crate::messages::Messages;
use crate::said::{Said, bad_said, closed_said, unopened_said};
use crate::seat::Seat;
use client_control::{Follower, Received, Taken, rebase};
use doc_items::Memory;
use message_json::Message;
use std::alloc::Global;
use wave_base::{DeltaId, HashedVersion};
use wave_hash::zero_hash;
use wavelet_json::{BadReason, ClosedReason, UnopenedReason};
use wavelet_op::{AppliedDelta, Ops};
use wavelet_state::Snapshot;

impl Seat {
    // ---- openings

    // Whether the wavelet was opened again at the follower's version.
    fn is_asked(&self) -> bool
        ensures { result ≡ is_asked (seat_of self.now) }
    {
        match self.asked {
            Some(version) => version == self.follower.at().version,
            None => false,
        }
    }

    // The wavelet is opened again, once for each version; and this is said. After want of memory all is as it was, here and below.
    fn ask(&mut self, alloc: Global, said: Said) -> Result<Acts, Memory>
        ensures ok { IfOk result (λ a. (seat_of self.new, a) ≡ ask (seat_of self.old) said) }
        ensures same { OnErr result (seat_of self.new ≡ seat_of self.old) }
    {
        if self.is_asked() {
            return Ok(Acts::says(alloc, said));
        }
        let at = self.follower.at();
        let name = self.follower.name().copy(alloc)?;
        let send = Messages::one(alloc, Message::OpenWavelet { name, at: Some(at) })?;
        self.asked = Some(at.version);
        self.waits = true;
        Ok(Acts::new(send, said))
    }

    // The wavelet is opened at the follower's version.
    fn ask_anyway(&mut self, alloc: Global) -> Result<Acts, Memory>
        ensures ok { IfOk result (λ a. (seat_of self.new, a) ≡ ask_anyway (seat_of self.old)) }
        ensures same { OnErr result (seat_of self.new ≡ seat_of self.old) }
    {
        let at = self.follower.at();
        let name = self.follower.name().copy(alloc)?;
        let send = Messages::one(alloc, Message::OpenWavelet { name, at: Some(at) })?;
        self.waits = true;
        Ok(Acts::new(send, Said::Nothing))
    }

    /// The wavelet wasn't opened.
    pub fn unopen(&mut self, alloc: Global, reason: UnopenedReason) -> Result<Acts, Memory>
        ensures ok { IfOk result (λ a. (seat_of self.new, a) ≡ unopen_seat (seat_of self.old) reason) }
        ensures same { OnErr result (seat_of self.new ≡ seat_of self.old) }
    {
        match reason {
            UnopenedReason::NotParticipant => {
                self.waits = false;
                Ok(Acts::says(alloc, unopened_said(reason)))
            }
            UnopenedReason::UnknownVersion { .. } => {
                self.waits = false;
                Ok(Acts::says(alloc, unopened_said(reason)))
            }
            UnopenedReason::WrongHash { .. } => {
                self.waits = false;
                Ok(Acts::says(alloc, unopened_said(reason)))
            }
            UnopenedReason::TooLarge => self.ask_anyway(alloc),
        }
    }

    /// A submission was acknowledged.
    pub fn acknowledge(&mut self, alloc: Global) -> Result<Acts, Memory>
        ensures ok { IfOk result (λ a. (seat_of self.new, a) ≡ ack_seat (seat_of self.old)) }
        ensures same { OnErr result (seat_of self.new ≡ seat_of self.old) }
    {
        if !self.created {
            return Ok(Acts::quiet(alloc));
        }
        let name = self.follower.name().copy(alloc)?;
        let at = HashedVersion {
            version: 0,
            hash: zero_hash(&name),
        };
        let send = Messages::one(alloc, Message::OpenWavelet { name, at: Some(at) })?;
        self.created = false;
        self.waits = true;
        Ok(Acts::new(send, Said::Nothing))
    }

    // ---- states

    // The state of a snapshot of this wavelet.
    fn take_state(&mut self, alloc: Global, snapshot: Snapshot) -> Result<Acts, Memory>
        requires named { snapshot.name ≡ self.old.follower.name }
        requires kept { self.old.note ≡ note.Nothing }
        ensures ok { IfOk result (λ a. (seat_of self.new, a)
            ≡ snapshot_told (answered (seat_of self.old)) (take_snapshot (seat_of self.old).follower (point_of snapshot))) }
        ensures same { OnErr result (seat_of self.new ≡ seat_of self.old) }
    {
        match self.follower.receive_snapshot(snapshot) {
            Taken::Took => {
                self.note = Note::Anew;
                self.waits = false;
                Ok(Acts::quiet(alloc))
            }
            Taken::Old => {
                self.waits = false;
                Ok(Acts::quiet(alloc))
            }
            Taken::Pending => self.ask_answered(alloc),
        }
    }

    // An opening was answered, and the wavelet is opened again.
    fn ask_answered(&mut self, alloc: Global) -> Result<Acts, Memory>
        ensures ok { IfOk result (λ a. (seat_of self.new, a) ≡ ask (answered (seat_of self.old)) Nothing) }
        ensures same { OnErr result (seat_of self.new ≡ seat_of self.old) }
    {
        if self.is_asked() {
            self.waits = false;
            return Ok(Acts::quiet(alloc));
        }
        self.ask(alloc, Said::Nothing)
    }

    /// A snapshot of the wavelet, if it is one of it. It is copied.
    pub fn take_snapshot(&mut self, alloc: Global, snapshot: &Snapshot) -> Result<Acts, Memory>
        ensures ok { IfOk result (λ a. (seat_of self.new, a) ≡ snapshot_seat (seat_of self.old) snapshot.now) }
        ensures same { OnErr result (seat_of self.new ≡ seat_of self.old) }
    {
        if *snapshot.name() != *self.follower.name() {
            return Ok(Acts::quiet(alloc));
        }
        self.keep_chain(alloc)?;
        let copy = snapshot.copy(alloc)?;
        self.take_state(alloc, copy)
    }

    // ---- deltas

    // Whether the submission in flight has this id.
    fn flies(&self, id: &DeltaId) -> bool
        ensures { result ≡ flies (follower_of self.now.follower) id.now }
    {
        match self.follower.sent() {
            Some(sent) => *id == sent.id,
            None => false,
        }
    }

    // What is left of another's delta after what is pending; None where it can't pass.
    fn change_left(&self, alloc: Global, delta: &AppliedDelta) -> Result<Note, Memory>
        requires { AreStructuredActs (acts_of delta.now) }
        ensures { IfOk result (IsLeft (rebase (pending (follower_of self.now.follower)) (acts_of delta.now))) }
    {
        // What is pending is valid at the state, and so structured.
        let _state = self.follower.state();
        let entries = pending_of(alloc, &self.follower)?;
        let ops = delta.ops.copy(alloc)?;
        match rebase(alloc, entries.as_slice(), ops)? {
            Some(rebased) => Ok(Note::Change(rebased.left)),
            None => Ok(Note::Anew),
        }
    }

    // What is to be noted in the chain where the follower advances by the delta.
    fn note_of(&self, alloc: Global, delta: &AppliedDelta) -> Result<Note, Memory>
        ensures { IfOk result (IsNoteOf (follower_of self.now.follower) delta.now) }
    {
        if self.flies(&delta.id) || !delta.ops.is_structured() {
            return Ok(Note::Nothing);
        }
        self.change_left(alloc, delta)
    }

    /// A delta of the wavelet.
    pub fn update(&mut self, alloc: Global, delta: &AppliedDelta) -> Result<Acts, Memory>
        ensures ok { IfOk result (λ a. (seat_of self.new, a) ≡ update_seat (seat_of self.old) delta.now) }
        ensures same { OnErr result (seat_of self.new ≡ seat_of self.old) }
    {
        self.keep_chain(alloc)?;
        let note = self.note_of(alloc, delta)?;
        let answer = self.follower.receive_update(alloc, delta)?;
        match &answer {
            Received::Old => Ok(Acts::quiet(alloc)),
            Received::Gap => self.ask(alloc, Said::Nothing),
            Received::Diverged { .. } => self.ask(alloc, Said::Diverged),
            Received::OtherFlight { .. } => Ok(Acts::says(alloc, Said::Diverged)),
            Received::NotNext { .. } => Ok(Acts::says(alloc, Said::Diverged)),
            Received::Advanced => {
                self.note = note;
                Ok(Acts::quiet(alloc))
            }
        }
    }

    // ---- refusals

    /// The submission of this id was refused, of which this is said.
    pub fn refuse(&mut self, alloc: Global, id: &DeltaId, said: Said) -> Result<Acts, Memory>
        ensures ok { IfOk result (λ a. (seat_of self.new, a) ≡ refuse_seat (seat_of self.old) id.now said) }
        ensures same { OnErr result (seat_of self.new ≡ seat_of self.old) }
    {
        self.keep_chain(alloc)?;
        if self.follower.receive_refusal(id) {
            self.note = Note::Anew;
        }
        Ok(Acts::says(alloc, said))
    }

    /// The server refused a message of the client.
    pub fn bad(&mut self, alloc: Global, reason: BadReason) -> Acts
        ensures state { seat_of self.new ≡ answered (seat_of self.old) }
        ensures acts { result ≡ says (bad_said reason) }
    {
        self.waits = false;
        Acts::says(alloc, bad_said(reason))
    }

    /// The wavelet is open no more.
    pub fn close(&mut self, alloc: Global, reason: ClosedReason) -> Acts
        ensures { (seat_of self.new, result) ≡ close_seat (seat_of self.old) reason }
    {
        self.drop_pending();
        self.waits = false;
        Acts::says(alloc, closed_said(reason))
    }
}

// What is pending, in order.
fn pending_of(alloc: Global, follower: &Follower) -> Result<Vec<Ops>, Memory>
    ensures { IfOk result (λ v. v.items ≡ ops_pending follower.now) }
{
    let mut entries = Vec::new(alloc);
    while let Some(ops) = follower.pending(entries.len() as u64) {
        entries.push(ops.copy(alloc)?)?;
    }
    Ok(entries)
}
