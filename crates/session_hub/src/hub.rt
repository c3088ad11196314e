ghost use Rattle.std.specs.Prelude.{◌≡◌};

use crate::shard::Shard;
use turn_cells::Cells;
use wave_base::Domain;
use wave_outside::Folder;

/// The wavelets that a domain hosts, and its copies of what others host, in sixteen shards. Its peers are the domains whose wavelets it may
/// have copies of.
pub struct Hub<F: Folder + Drop> {
    pub(crate) domain: Domain,
    pub(crate) peers: Vec<Domain>,
    pub(crate) cells: Cells<Shard<F>>,
}

impl<F: Folder + Drop> Drop for Hub<F> {
    fn drop(self) {
        let Hub {
            domain: _domain,
            peers: _peers,
            cells: _cells,
        } = self;
    }
}

impl<F: Folder + Drop> Hub<F> {
    /// The domain whose wavelets these are.
    pub fn domain(&self) -> &Domain
        ensures { result.now ≡ self.now.domain }
    {
        &self.domain
    }

    /// The domains whose servers it dials.
    pub fn peers(&self) -> &[Domain]
        ensures { result.now ≡ self.now.peers.items }
    {
        self.peers.as_slice()
    }

    // The cells alone.
    pub(crate) fn into_cells(self) -> Cells<Shard<F>>
        ensures { result ≡ self.cells }
    {
        let Hub {
            domain: _domain,
            peers: _peers,
            cells,
        } = self;
        cells
    }
}

/// What its holder has seen of each shard of a hub, and its right to take turns there.
pub type Passes<F> = turn_cells::Passes<Shard<F>>;
