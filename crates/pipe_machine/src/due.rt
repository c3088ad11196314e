// Whom a turn may have something for.
ghost use Rattle.std.specs.Prelude.{◌≡◌, ◌+◌, ◌<◌, ◌^◌, ◌++◌, ◌∷◌, [], cond, length, false, IfOk, OnOk};
ghost use Rattle.std.specs.Option.{option_map_or};
ghost use Rattle.doc_items.specs.Maps.{Key, same_text};
ghost use Rattle.session_core.specs.Access.{Shown};
ghost use Rattle.pipe_machine.specs.Due.{is_open, is_due, due_among, IsDueAlone, AreTheDue};
ghost use Rattle.pipe_machine.specs.Runs.{seats_in};
ghost use Rattle.pipe_machine.specs.Keeping.{submits};

use crate::runs::Seats;
use crate::seats::Seat;
use doc_items::Memory;
use std::alloc::Global;
use wave_base::WaveletName;
use wave_messages::Message;

/// The sessions that a turn may have something for.
pub enum Due {
    /// None.
    Nobody,
    /// The one at this place, which was answered.
    Seat(usize),
    /// That one, and those that have the wavelet open.
    Openers { place: usize, name: WaveletName },
    /// All.
    Everybody,
}

impl Drop for Due {
    fn drop(self) {
        match self {
            Due::Nobody => {}
            Due::Seat(_place) => {}
            Due::Openers {
                place: _place,
                name: _name,
            } => {}
            Due::Everybody => {}
        }
    }
}

/// The wavelet that a message may change.
pub fn changed_by(alloc: Global, message: &Message) -> Result<Option<WaveletName>, Memory>
    ensures { IfOk result (λ o. (n : Key) → submits message.now n ≡ option_map_or (λ name. same_text name n) o false) }
{
    match message {
        Message::Submit { name, .. } => Ok(Some(name.copy(alloc)?)),
        Message::Relay { name, .. } => Ok(Some(name.copy(alloc)?)),
        _ => Ok(None),
    }
}

// Whether the session of a seat has the wavelet open.
fn is_open(seat: &Seat, name: &WaveletName) -> bool
    ensures { result ≡ is_open name.now seat.now }
{
    seat.session.openings.place_of(name).is_some()
}

fn is_due(due: &Due, place: usize, seat: &Seat) -> bool
    ensures { result ≡ is_due due.now place seat.now }
{
    match due {
        Due::Nobody => false,
        Due::Seat(own) => place == *own,
        Due::Openers { place: own, name } => place == *own || is_open(seat, name),
        Due::Everybody => true,
    }
}

// The places, with one more where it is due.
fn push_if(list: &mut Vec<usize>, place: usize, due: bool) -> Result<(), Memory>
    ensures { OnOk result (list.new.items ≡ list.old.items ++ cond due (place ∷ []) []) }
{
    if !due {
        return Ok(());
    }
    list.push(place)?;
    Ok(())
}

// Appends the places of the due among these seats, of which the first has this place.
fn push_due(seats: &[Seat], first: usize, due: &Due, places: &mut Vec<usize>) -> Result<(), Memory>
    requires within { first + length seats.now < 2 ^ 64 }
    ensures { OnOk result (places.new.items ≡ places.old.items ++ due_among due.now first seats.now) }
{
    for index in 0..seats.len() {
        let seat = &seats[index];
        push_if(places, first + index, is_due(due, first + index, seat))?;
    }
    Ok(())
}

// The places of the due among all seats.
fn places_among(alloc: Global, seats: &Seats, due: &Due) -> Result<Vec<usize>, Memory>
    ensures { IfOk result (λ places. (c : Shown) → IsDueAlone c due.now (seats_in seats.now.runs.items)
        → AreTheDue c 0 places.items (seats_in seats.now.runs.items)) }
{
    let mut places = Vec::new(alloc);
    let mut first = 0usize;
    for run in seats.runs.as_slice() {
        let count = run.seats.len();
        push_due(run.seats.as_slice(), first, due, &mut places)?;
        first += count;
    }
    Ok(places)
}

// The place alone, where there is a seat.
fn place_alone(alloc: Global, seats: &Seats, place: usize) -> Result<Vec<usize>, Memory>
    ensures { IfOk result (λ places. (c : Shown) → IsDueAlone c (Due.Seat place) (seats_in seats.now.runs.items)
        → AreTheDue c 0 places.items (seats_in seats.now.runs.items)) }
{
    let mut places = Vec::new(alloc);
    if place < seats.count {
        places.push(place)?;
    }
    Ok(places)
}

/// The places of the seats that are due, ascending.
pub fn places_due(alloc: Global, seats: &Seats, due: &Due) -> Result<Vec<usize>, Memory>
    ensures { IfOk result (λ places. (c : Shown) → IsDueAlone c due.now (seats_in seats.now.runs.items)
        → AreTheDue c 0 places.items (seats_in seats.now.runs.items)) }
{
    match due {
        Due::Nobody => Ok(Vec::new(alloc)),
        Due::Seat(place) => place_alone(alloc, seats, *place),
        Due::Openers { .. } => places_among(alloc, seats, due),
        Due::Everybody => places_among(alloc, seats, due),
    }
}
