// Deltas found in the list of a history without walking it.
ghost use Rattle.std.specs.Prelude.{◌≡◌, ◌≤◌, nat_lt, length, drop};
ghost use Rattle.delta_history.specs.Places.{started_below, IsRisingFrom, place_from};

use wave_base::DeltaId;
use wavelet_op::AppliedDelta;

// Whether a delta was applied below a version.
fn starts_below(delta: &AppliedDelta, version: u64) -> bool
    ensures { result ≡ nat_lt delta.now.from.version version }
{
    delta.from.version < version
}

/// How many of the deltas were applied below a version, which is looked for by halves.
pub fn started_below(deltas: &[AppliedDelta], version: u64) -> usize
    requires { IsRisingFrom 0 deltas.now }
    ensures value { result ≡ started_below version deltas.now }
    ensures bound { result ≤ length deltas.now }
{
    let mut low = 0usize;
    let mut high = deltas.len();
    while low < high {
        let middle = low + (high - low) / 2;
        if starts_below(&deltas[middle], version) {
            low = middle + 1;
        } else {
            high = middle;
        }
    }
    low
}

/// The place of the first delta of the id, from a place on.
pub(crate) fn place_from(deltas: &[AppliedDelta], from: usize, id: &DeltaId) -> Option<usize>
    requires { from ≤ length deltas.now }
    ensures { result ≡ place_from id.now from (drop from deltas.now) }
{
    for place in from..deltas.len() {
        let delta = &deltas[place];
        if *id == delta.id {
            return Some(place);
        }
    }
    None
}
