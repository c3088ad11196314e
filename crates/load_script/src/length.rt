// How long a document is.
ghost use Rattle.std.specs.Prelude.{◌≡◌, length};
ghost use Rattle.wavelet_op.specs.States.{document_of};

use wave_base::DocumentName;
use wavelet_state::WaveletState;

/// The number of items of a document.
pub(crate) fn length(state: &WaveletState, document: &DocumentName) -> u64
    ensures { result ≡ length (document_of state.now document.now) }
{
    match state.rope(document) {
        Some(rope) => rope.len(),
        None => 0,
    }
}
