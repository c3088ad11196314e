// The domains of wavelets.
ghost use Rattle.std.specs.Prelude.{◌≡◌};
ghost use Rattle.wavelet_shelf.specs.Walks.{as_hosted};
ghost use Rattle.hosted_copies.specs.Domains.{is_hosted_by, is_shown_by};

use delta_history::History;
use wave_base::{Domain, WaveletName};

/// Whether the domain hosts the wavelet of the name.
pub fn is_hosted_by(domain: &Domain, name: &WaveletName) -> bool
    ensures { result ≡ is_hosted_by domain.now name.now }
{
    name.host() == domain.text()
}

/// Whether the domain hosts the history, and it has a delta.
pub(crate) fn is_shown_by(domain: &Domain, history: &History) -> bool
    ensures { result ≡ is_shown_by domain.now (as_hosted history.now) }
{
    !history.deltas().is_empty() && is_hosted_by(domain, history.name())
}
