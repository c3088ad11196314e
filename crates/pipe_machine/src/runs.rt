// The seats of a pipe in runs.
ghost use Rattle.std.specs.Prelude.{◌≡◌, ◌≤◌, ◌<◌, ◌++◌, ◌∷◌, [], length, take, drop, true, IfOk, OnOk, OnErr};
ghost use Rattle.pipe_machine.specs.Runs.{seats_in};
ghost use Rattle.std.specs.Coded.{Coded-set, coded_ℕ};
ghost use Rattle.pipe_machine.specs.Seats.{are_ordered, is_at, place_in, seat_in, seated};

use crate::seats::{Seat, begun, is_before};
use doc_items::Memory;
use std::alloc::{AllocError, Global};
use wave_base::SessionName;

// The most seats that a run has before it is parted.
const MOST: usize = 256;

/// Seats that stand one after the other.
pub struct Run {
    pub seats: Vec<Seat>,
}

impl Drop for Run {
    fn drop(self) {
        let Run { seats: _seats } = self;
    }
}

/// The seat at a place.
pub fn seat_at(runs: &[Run], place: usize) -> &Seat
    requires { place < length (seats_in runs.now) }
    ensures { result.now ≡ seat_in place (seats_in runs.now) }
{
    let Some((first, rest)) = runs.split_first() else {
        unreachable!()
    };
    if place < first.seats.len() {
        &first.seats[place]
    } else {
        seat_at(rest, place - first.seats.len())
    }
}

/// The place of the first seat whose name isn't before this one, among so many.
pub fn place_of(runs: &[Run], count: usize, name: &SessionName) -> usize
    requires ordered { are_ordered (seats_in runs.now) ≡ true }
    requires all { count ≡ length (seats_in runs.now) }
    ensures value { result ≡ place_in name.now 0 (seats_in runs.now) }
    ensures within { result ≤ count }
{
    let mut low = 0usize;
    let mut high = count;
    while low < high {
        let middle = low + (high - low) / 2;
        if is_before(seat_at(runs, middle), name) {
            low = middle + 1;
        } else {
            high = middle;
        }
    }
    low
}

// One more seat, in the run in which the place is, or at the end of the one before. The error is want of memory.
fn insert(runs: &mut [Run], place: usize, seat: Seat) -> Result<(), Memory>
    requires some { 0 < length runs.old }
    requires inside { place ≤ length (seats_in runs.old) }
    ensures put { OnOk result (seats_in runs.new ≡ take place (seats_in runs.old) ++ seat ∷ drop place (seats_in runs.old)) }
    ensures same { OnErr result (seats_in runs.new ≡ seats_in runs.old) }
{
    let Some((first, rest)) = runs.split_first_mut() else {
        unreachable!()
    };
    let count = first.seats.len();
    if place <= count {
        first.seats.insert(place, seat)?;
        Ok(())
    } else {
        insert(rest, place - count, seat)
    }
}

// Which run has the seat at a place, or the last.
fn run_of(runs: &[Run], place: usize) -> usize {
    let mut left = place;
    for index in 0..runs.len() {
        let count = runs[index].seats.len();
        if left <= count {
            return index;
        }
        left -= count;
    }
    runs.len().saturating_sub(1)
}

// Parts the run there in two, where it is full. The error is want of memory.
fn part(alloc: Global, runs: &mut Vec<Run>, index: usize) -> Result<(), Memory>
    ensures same { seats_in runs.new.items ≡ seats_in runs.old.items }
    ensures some { length runs.old.items ≤ length runs.new.items }
{
    if index >= runs.len() || runs[index].seats.len() < MOST {
        return Ok(());
    }
    let empty = Run {
        seats: Vec::new(alloc),
    };
    runs.insert(index + 1, empty)?;
    let tail = runs[index].seats.split_off(MOST / 2)?;
    runs[index + 1].seats = tail;
    Ok(())
}

// Makes a run where there is none. The error is want of memory.
fn begin(alloc: Global, runs: &mut Vec<Run>) -> Result<(), Memory>
    ensures same { seats_in runs.new.items ≡ seats_in runs.old.items }
    ensures some { OnOk result (0 < length runs.new.items) }
{
    if !runs.is_empty() {
        return Ok(());
    }
    runs.push(Run {
        seats: Vec::new(alloc),
    })?;
    Ok(())
}

/// One more seat, before the one at this place. The error is want of memory.
pub fn insert_at(alloc: Global, runs: &mut Vec<Run>, place: usize, seat: Seat) -> Result<(), Memory>
    requires inside { place ≤ length (seats_in runs.old.items) }
    ensures put { OnOk result (seats_in runs.new.items ≡ take place (seats_in runs.old.items) ++ seat
        ∷ drop place (seats_in runs.old.items)) }
    ensures same { OnErr result (seats_in runs.new.items ≡ seats_in runs.old.items) }
{
    begin(alloc, runs)?;
    let index = run_of(runs.as_slice(), place);
    part(alloc, runs, index)?;
    insert(runs.as_mut_slice(), place, seat)
}

// Whether the seat at the place has the name.
fn is_at(runs: &[Run], count: usize, name: &SessionName, place: usize) -> bool
    requires all { count ≡ length (seats_in runs.now) }
    ensures { result ≡ is_at name.now place (seats_in runs.now) }
{
    if place < count {
        name.text() == seat_at(runs, place).name.text()
    } else {
        false
    }
}

/// The seats of a pipe, in runs.
pub struct Seats {
    pub(crate) runs: Vec<Run>,
    pub(crate) count: usize,
    ghost counted: { count ≡ length (seats_in runs.items) } by { Coded-set coded_ℕ _ _ },
}

impl Drop for Seats {
    fn drop(self) {
        let Seats {
            runs: _runs,
            count: _count,
        } = self;
    }
}

impl Seats {
    /// No seat.
    pub fn new(alloc: Global) -> Seats
        ensures { seats_in result.runs.items ≡ [] }
    {
        Seats {
            runs: Vec::new(alloc),
            count: 0,
        }
    }

    // One more, before the one at this place. The error is want of memory.
    fn put(&mut self, alloc: Global, place: usize, seat: Seat) -> Result<(), Memory>
        requires inside { place ≤ length (seats_in self.old.runs.items) }
        ensures put { OnOk result (seats_in self.new.runs.items ≡ take place (seats_in self.old.runs.items) ++ seat
            ∷ drop place (seats_in self.old.runs.items)) }
        ensures same { OnErr result (seats_in self.new.runs.items ≡ seats_in self.old.runs.items) }
    {
        let Some(count) = self.count.checked_add(1) else {
            return Err(AllocError);
        };
        insert_at(alloc, &mut self.runs, place, seat)?;
        self.count = count;
        Ok(())
    }

    /// The place of the seat of this name, which is a new session's where there was none. The error is want of memory,
    /// after which all is as it was.
    #[tactic(auto, using(crate::proofs::Seating::seated_within, crate::proofs::Seating::seated_name))]
    pub fn seat_of(&mut self, alloc: Global, name: SessionName) -> Result<usize, Memory>
        requires { are_ordered (seats_in self.old.runs.items) ≡ true }
        ensures place { IfOk result (λ i. i ≡ place_in name 0 (seats_in self.old.runs.items)) }
        ensures seats { OnOk result (seats_in self.new.runs.items ≡ seated name (seats_in self.old.runs.items)) }
        ensures same { OnErr result (seats_in self.new.runs.items ≡ seats_in self.old.runs.items) }
        ensures within { IfOk result (λ i. i < length (seats_in self.new.runs.items)) }
        ensures named { IfOk result (λ i. (seat_in i (seats_in self.new.runs.items)).name ≡ name) }
    {
        let place = place_of(self.runs.as_slice(), self.count, &name);
        if !is_at(self.runs.as_slice(), self.count, &name, place) {
            self.put(alloc, place, begun(alloc, name))?;
        }
        Ok(place)
    }
}
