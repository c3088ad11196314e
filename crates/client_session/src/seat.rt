// A wavelet of a run.
ghost use Rattle.std.specs.Prelude.{◌≡◌, OnOk};
ghost use Rattle.client_session.specs.Machine.{is_open_end};
ghost use Rattle.client_session.specs.Seats.{seat_of, new_seat, answered};
ghost use Rattle.client_session.specs.declared.chain.Note.TheVariants.{Nothing};

use crate::chain::{Note, keep_note};
use crate::key::ClientKey;
use client_control::Follower;
use doc_items::Memory;
use std::alloc::Global;
use undo_control::UndoChain;
use wave_base::{Address, WaveletName};
use wavelet_state::WaveletState;

/// A wavelet of a run: its follower, with what the run keeps beside it.
pub(crate) struct Seat {
    pub follower: Follower,
    pub chain: UndoChain,
    pub note: Note,
    /// It was created here, and its first acknowledgement is to come.
    pub created: bool,
    /// The version at which it was opened again for what it lacked.
    pub asked: Option<u64>,
    /// An opening is unanswered.
    pub waits: bool,
}

impl Drop for Seat {
    fn drop(self) {
        let Seat {
            follower: _follower,
            chain: _chain,
            note: _note,
            created: _created,
            asked: _asked,
            waits: _waits,
        } = self;
    }
}

impl Seat {
    /// A wavelet of a run, with a new follower of the user.
    pub fn new(
        alloc: Global,
        name: WaveletName,
        user: Address,
        client: &ClientKey,
        created: bool,
    ) -> Seat
        ensures { seat_of result ≡ new_seat name (record { author = user; client = client.now }) created }
    {
        let key = client.get();
        Seat {
            follower: Follower::new(alloc, name, user, key),
            chain: UndoChain::new(alloc, WaveletState::new(alloc)),
            note: Note::Anew,
            created,
            asked: None,
            waits: false,
        }
    }

    /// Does in the chain what was noted. The error is want of memory.
    pub fn keep_chain(&mut self, alloc: Global) -> Result<(), Memory>
        ensures same { seat_of self.new ≡ seat_of self.old }
        ensures follower { self.new.follower ≡ self.old.follower }
        ensures note { OnOk result (self.new.note ≡ Nothing) }
    {
        keep_note(alloc, &mut self.chain, &self.follower, &self.note)?;
        self.note = Note::Nothing;
        Ok(())
    }

    /// Whether something is pending, or an opening is unanswered.
    pub fn is_open_end(&self) -> bool
        ensures { result ≡ is_open_end (seat_of self.now) }
    {
        !self.follower.is_settled() || self.waits
    }

    /// No opening is unanswered.
    pub fn answer(&mut self)
        ensures { seat_of self.new ≡ answered (seat_of self.old) }
    {
        self.waits = false;
    }
}
