// What is new to each session.
ghost use Rattle.std.specs.Prelude.{◌≡◌, ◌<◌, ◌++◌, length, slice_set, map, true, IfOk, OnOk};
ghost use Rattle.pipe_machine.specs.Runs.{seats_in};
ghost use Rattle.std.specs.List.{All};
ghost use Rattle.message_json.specs.Write.{IsShort};
ghost use Rattle.session_core.specs.Deliveries.{delivered, after_delivery};
ghost use Rattle.session_core.specs.Current.{are_sent};
ghost use Rattle.session_core.specs.News.{message_of, messages_of, IsPlaced};
ghost use Rattle.wavelet_shelf.specs.Shelves.{hosted_of};
ghost use Rattle.pipe_machine.specs.Due.{is_told, are_told, AreTheDue};
ghost use Rattle.pipe_machine.specs.Lines.{sent_to, lines_of};
ghost use Rattle.hosted_copies.specs.Shown.{shown_in};
ghost use Rattle.pipe_machine.specs.Seats.{seat_after, seat_in, seats_sent, seats_after, IsPlain};
ghost use Rattle.pipe_machine.specs.Updates.{IsLast};

use crate::lines::{Update, push_news};
use crate::runs::{Run, Seats};
use crate::seats::Seat;
use doc_items::Memory;
use session_core::{News, Session};
use std::alloc::Global;
use wave_outside::Folder;
use wavelet_shelf::Shelf;

// What is new to a session. The error is want of memory, here and below.
#[tactic(auto, using(crate::proofs::Plain::all_short, crate::proofs::Plain::after_plain))]
fn news<'a, F: Folder>(
    alloc: Global,
    shelf: &'a Shelf<F>,
    session: &mut Session,
) -> Result<Vec<News<'a>>, Memory>
    requires { IsPlain session.old }
    ensures sent { IfOk result (λ out. messages_of out.items ≡ delivered (shown_in (hosted_of shelf.entry.now)) session.old) }
    ensures placed { IfOk result (λ out. All (IsPlaced (shown_in (hosted_of shelf.entry.now))) out.items) }
    ensures short { IfOk result (λ out. All (λ n. IsShort (message_of n)) out.items) }
    ensures after { OnOk result (session.new ≡ after_delivery (shown_in (hosted_of shelf.entry.now)) session.old) }
    ensures told { OnOk result (are_sent (shown_in (hosted_of shelf.entry.now)) session.new ≡ true) }
    ensures plain { IsPlain session.new }
{
    shelf.copies_are_hosted();
    session.deliver(alloc, shelf)
}

// Appends what is new to the session of a seat, and answers the update that was written last then.
fn deliver_to<'a, F: Folder>(
    alloc: Global,
    shelf: &'a Shelf<F>,
    seat: &mut Seat,
    last: Option<Update<'a>>,
    out: &mut Vec<u8>,
) -> Result<Option<Update<'a>>, Memory>
    requires plain { IsPlain seat.old.session }
    requires last { IsLast (shown_in (hosted_of shelf.now)) last }
    ensures sent { OnOk result
        (out.new.items ≡ out.old.items
        ++ lines_of (map (sent_to seat.old.name) (delivered (shown_in (hosted_of shelf.entry.now)) seat.old.session))) }
    ensures after { OnOk result (seat.new ≡ seat_after (shown_in (hosted_of shelf.entry.now)) seat.old) }
    ensures told { OnOk result (is_told (shown_in (hosted_of shelf.entry.now)) seat.new ≡ true) }
    ensures name { seat.new.name ≡ seat.old.name }
    ensures last { IfOk result (λ o. IsLast (shown_in (hosted_of shelf.entry.now)) o) }
    ensures plain { IsPlain seat.new.session }
{
    let news = news(alloc, shelf, &mut seat.session)?;
    let mut last = last;
    for item in news.as_slice() {
        last = push_news(alloc, &seat.name, item, last, out)?;
    }
    Ok(last)
}

// The same at a place among runs.
fn deliver_at<'a, F: Folder>(
    alloc: Global,
    shelf: &'a Shelf<F>,
    runs: &mut [Run],
    place: usize,
    last: Option<Update<'a>>,
    out: &mut Vec<u8>,
) -> Result<Option<Update<'a>>, Memory>
    requires inside { place < length (seats_in runs.old) }
    requires plain { IsPlain (seat_in place (seats_in runs.old)).session }
    requires last { IsLast (shown_in (hosted_of shelf.now)) last }
    ensures sent { OnOk result
        (out.new.items ≡ out.old.items
        ++ lines_of (map (sent_to (seat_in place (seats_in runs.old)).name)
        (delivered (shown_in (hosted_of shelf.entry.now)) (seat_in place (seats_in runs.old)).session))) }
    ensures after { OnOk result
        (seat_in place (seats_in runs.new) ≡ seat_after (shown_in (hosted_of shelf.entry.now)) (seat_in place (seats_in runs.old))) }
    ensures told { OnOk result (is_told (shown_in (hosted_of shelf.entry.now)) (seat_in place (seats_in runs.new)) ≡ true) }
    ensures changed { seats_in runs.new ≡ slice_set (seats_in runs.old) place (seat_in place (seats_in runs.new)) }
    ensures name { (seat_in place (seats_in runs.new)).name ≡ (seat_in place (seats_in runs.old)).name }
    ensures last { IfOk result (λ o. IsLast (shown_in (hosted_of shelf.entry.now)) o) }
    ensures plain { IsPlain (seat_in place (seats_in runs.new)).session }
{
    let Some((first, rest)) = runs.split_first_mut() else {
        unreachable!()
    };
    let count = first.seats.len();
    if place < count {
        deliver_to(alloc, shelf, &mut first.seats[place], last, out)
    } else {
        deliver_at(alloc, shelf, rest, place - count, last, out)
    }
}

// Appends what is new to each session of the seats of runs, in order. Only those at these places may lack something.
fn deliver_each<F: Folder>(
    alloc: Global,
    shelf: &Shelf<F>,
    runs: &mut [Run],
    places: &[usize],
    out: &mut Vec<u8>,
) -> Result<(), Memory>
    requires plain { All (λ s. IsPlain s.session) (seats_in runs.old) }
    requires due { AreTheDue (shown_in (hosted_of shelf.now)) 0 places.now (seats_in runs.old) }
    ensures sent { OnOk result
        (out.new.items ≡ out.old.items ++ lines_of (seats_sent (shown_in (hosted_of shelf.now)) (seats_in runs.old))) }
    ensures after { OnOk result (seats_in runs.new ≡ seats_after (shown_in (hosted_of shelf.now)) (seats_in runs.old)) }
    ensures told { OnOk result (are_told (shown_in (hosted_of shelf.now)) (seats_in runs.new) ≡ true) }
    ensures plain { All (λ s. IsPlain s.session) (seats_in runs.new) }
    ensures names { map (λ s. s.name) (seats_in runs.new) ≡ map (λ s. s.name) (seats_in runs.old) }
    ensures count { length (seats_in runs.new) ≡ length (seats_in runs.old) }
{
    let mut last = None;
    for place in places {
        last = deliver_at(alloc, shelf, runs, *place, last, out)?;
    }
    Ok(())
}

/// Appends what is new to each session, in order. Only those at these places may lack something.
pub fn deliver<F: Folder>(
    alloc: Global,
    shelf: &Shelf<F>,
    seats: &mut Seats,
    places: &[usize],
    out: &mut Vec<u8>,
) -> Result<(), Memory>
    requires plain { All (λ s. IsPlain s.session) (seats_in seats.old.runs.items) }
    requires due { AreTheDue (shown_in (hosted_of shelf.now)) 0 places.now (seats_in seats.old.runs.items) }
    ensures sent { OnOk result
        (out.new.items ≡ out.old.items ++ lines_of (seats_sent (shown_in (hosted_of shelf.now)) (seats_in seats.old.runs.items))) }
    ensures after { OnOk result
        (seats_in seats.new.runs.items ≡ seats_after (shown_in (hosted_of shelf.now)) (seats_in seats.old.runs.items)) }
    ensures told { OnOk result (are_told (shown_in (hosted_of shelf.now)) (seats_in seats.new.runs.items) ≡ true) }
    ensures plain { All (λ s. IsPlain s.session) (seats_in seats.new.runs.items) }
    ensures names { map (λ s. s.name) (seats_in seats.new.runs.items) ≡ map (λ s. s.name) (seats_in seats.old.runs.items) }
{
    deliver_each(alloc, shelf, seats.runs.as_mut_slice(), places, out)
}
