// Where the deltas stand that a robot is shown.
ghost use Rattle.std.specs.Prelude.{◌≡◌, ◌≤◌, ◌∷◌, ◌&&◌, not, cond, length, map, reverse, IfOk, OnOk};
ghost use Rattle.robot_host.specs.Places.{AreNext};
ghost use Rattle.robot_host.specs.Views.{is_among, view};

use crate::presence::was_participant;
use crate::seat::Seat;
use delta_history::History;
use doc_items::Memory;
use std::alloc::Global;
use wave_base::Address;
use wavelet_op::AppliedDelta;

/// Whether an address is one of the robots'.
fn is_robot(seats: &[Seat], address: &Address) -> bool
    ensures { result ≡ is_among address.now (map (λ s. s.address) seats.now) }
{
    for seat in seats {
        if *address == seat.address {
            return true;
        }
    }
    false
}

// Whether the delta is shown to a robot that is a participant after it, or isn't.
fn is_shown(seats: &[Seat], delta: &AppliedDelta, here: bool) -> bool
    ensures { result ≡ (not (is_among delta.now.id.author (map (λ s. s.address) seats.now)) && here) }
{
    if is_robot(seats, &delta.id.author) {
        return false;
    }
    here
}

// Puts the place after the others, where the delta there is shown.
fn put_if(shown: bool, place: usize, places: &mut Vec<usize>) -> Result<(), Memory>
    ensures { OnOk result (reverse places.new.items ≡ cond shown (place ∷ reverse places.old.items) (reverse places.old.items)) }
{
    if shown {
        places.push(place)?;
    }
    Ok(())
}

/// The places of the deltas, from the first `from` on, that the robot of this address is shown; the last one first. The error is want
/// of memory.
pub(crate) fn places_from(
    alloc: Global,
    seats: &[Seat],
    address: &Address,
    history: &History,
    from: usize,
) -> Result<Vec<usize>, Memory>
    requires { from ≤ length history.now.deltas }
    ensures { IfOk result (λ list. AreNext (map (λ s. s.address) seats.now) address.now history.now
        (view (map (λ s. s.address) seats.now) address.now history.now from) (reverse list.items)) }
{
    let deltas = history.deltas();
    let mut here = history.state().has(address);
    let mut places = Vec::new(alloc);
    let mut left = deltas.len();
    while left > from {
        left -= 1;
        let delta = &deltas[left];
        put_if(is_shown(seats, delta, here), left, &mut places)?;
        here = was_participant(delta, address, here);
    }
    Ok(places)
}
