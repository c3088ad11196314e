// How a wavelet is opened.
ghost use Rattle.std.specs.Prelude.{◌≡◌, ◌∷◌, [], IfOk, OnErr};
ghost use Rattle.client_control.specs.Parts.{follower_of};
ghost use Rattle.client_session.specs.Seats.{seat_of};
ghost use Rattle.client_session.specs.Taking.{open_plain, open_at, flight_sent, reopened, reopen};

use crate::edits::submit_message;
use crate::messages::Messages;
use crate::seat::Seat;
use client_control::Follower;
use doc_items::Memory;
use message_json::Message;
use std::alloc::Global;

// Opens without a version. The error is want of memory, here and below.
fn open_plain(alloc: Global, follower: &Follower) -> Result<Messages, Memory>
    ensures { IfOk result (λ ms. ms ≡ open_plain (follower_of follower.now).name ∷ []) }
{
    let name = follower.name().copy(alloc)?;
    Messages::one(alloc, Message::OpenWavelet { name, at: None })
}

// Opens at the follower's version.
fn open_at(alloc: Global, follower: &Follower) -> Result<Messages, Memory>
    ensures { IfOk result (λ ms. ms ≡ open_at (follower_of follower.now) ∷ []) }
{
    let at = follower.at();
    let name = follower.name().copy(alloc)?;
    Messages::one(alloc, Message::OpenWavelet { name, at: Some(at) })
}

// Opens at the follower's version, and hands in what is in flight.
fn open_again(alloc: Global, follower: &Follower) -> Result<Messages, Memory>
    ensures { IfOk result (λ ms. ms ≡ open_at (follower_of follower.now) ∷ flight_sent (follower_of follower.now)) }
{
    let mut send = open_at(alloc, follower)?;
    match follower.sent() {
        Some(submission) => {
            let message = submit_message(alloc, follower.name(), submission)?;
            send.push(message)?;
            Ok(send)
        }
        None => Ok(send),
    }
}

fn reopened(alloc: Global, follower: &Follower) -> Result<Messages, Memory>
    ensures { IfOk result (λ ms. ms ≡ reopened (follower_of follower.now)) }
{
    if follower.is_settled() {
        open_plain(alloc, follower)
    } else {
        open_again(alloc, follower)
    }
}

impl Seat {
    /// Opens the wavelet: without a version where nothing is pending, and else at the follower's version, with the submission in
    /// flight as it was first taken. After want of memory all is as it was.
    pub fn reopen(&mut self, alloc: Global) -> Result<Messages, Memory>
        ensures ok { IfOk result (λ ms. (seat_of self.new, ms) ≡ reopen (seat_of self.old)) }
        ensures same { OnErr result (seat_of self.new ≡ seat_of self.old) }
    {
        let send = reopened(alloc, &self.follower)?;
        self.waits = true;
        Ok(send)
    }
}
