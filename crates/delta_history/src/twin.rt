ghost use Rattle.std.specs.Prelude.{◌≡◌, Some, None};

use wavelet_state::WaveletState;

/// A second state of a history, from which the next one is made without a copy of the documents.
#[derive(Drop)]
pub(crate) enum Twin {
    /// The state at the head.
    Level(WaveletState),
    /// The state before the last delta.
    Behind(WaveletState),
}

/// This second state takes the place of the one before.
pub(crate) fn keep(place: &mut Option<Twin>, twin: Twin)
    ensures { place.new ≡ Some twin }
{
    let _before = place.replace(twin);
}

/// There is no second state.
pub(crate) fn forget(place: &mut Option<Twin>)
    ensures { place.new ≡ None }
{
    let _before = place.take();
}
