// Versions and places in the list of deltas.
ghost use Rattle.std.specs.Prelude.{◌≡◌, ◌≤◌, length, IfSome};
ghost use Rattle.delta_history.specs.Histories.{head_of};
ghost use Rattle.delta_history.specs.Places.{count_at};
ghost use Rattle.wave_playback.specs.Places.{version_at};

use delta_history::{History, started_below};

/// The version after the first `place` deltas.
pub(crate) fn version_at(history: &History, place: usize) -> u64
    ensures { result ≡ version_at history.now place }
{
    match history.deltas().get(place) {
        Some(delta) => delta.from.version,
        None => {
            let head = history.head();
            head.version
        }
    }
}

/// How many deltas lead up to a version; None where it is no delta end.
pub(crate) fn place_of(history: &History, version: u64) -> Option<usize>
    ensures value { result ≡ count_at version (head_of history.now).at history.now.deltas }
    ensures bound { IfSome result (λ k. k ≤ length history.now.deltas) }
{
    let place = started_below(history.deltas(), version);
    if version_at(history, place) == version {
        Some(place)
    } else {
        None
    }
}
