// Hubs that are new.
ghost use Rattle.std.specs.Prelude.{◌≡◌, ◌<◌, ℕ, filter, IfOk};
ghost use Rattle.hosted_copies.specs.Domains.{hosted_by};
ghost use Rattle.turn_cells.specs.Cells.{IsUnused};
ghost use Rattle.wavelet_shelf.specs.Parts.{is_in};
ghost use Rattle.wavelet_shelf.specs.Shelves.{hosted_of};
ghost use Rattle.shard_marks.specs.Passes.{marks_of};
ghost use Rattle.session_hub.specs.Hubs.{AreOfHub, server_of};
ghost use Rattle.shard_marks.specs.Marks.{founded, loaded};
ghost use Rattle.shard_marks.specs.Servers.{server};

use crate::founding::shards_of;
use crate::hub::{Hub, Passes};
use doc_items::Memory;
use std::alloc::Global;
use turn_cells::Cells;
use wave_base::Domain;
use wave_outside::Folder;
use wavelet_shelf::Shelf;

impl<F: Folder + Drop> Hub<F> {
    /// The wavelets of a shelf that the domain hosts, with these peers, and passes that have seen a mark for each of their deltas. Those of
    /// other hosts stay untouched in their shelves, and are no copies of the hub. The error is want of memory.
    pub fn new(
        alloc: Global,
        domain: Domain,
        peers: Vec<Domain>,
        shelf: Shelf<F>,
    ) -> Result<(Hub<F>, Passes<F>), Memory>
        ensures own { IfOk result (λ made. AreOfHub made.0 made.1) }
        ensures domain { IfOk result (λ made. made.0.domain ≡ domain) }
        ensures server { IfOk result (λ made. server_of made.0 ≡ server domain peers.items) }
        ensures seen { IfOk result
            (λ made. (k : ℕ) → k < 16 → marks_of made.1 k
            ≡ founded domain k (loaded (filter (λ h. is_in k h.name) (hosted_by domain (hosted_of shelf))))) }
        ensures unused { IfOk result (λ made. (k : ℕ) → k < 16 → IsUnused made.1 k) }
    {
        let parts = shelf.divide(alloc)?;
        let shards = shards_of(alloc, &domain, parts)?;
        let (cells, passes) = Cells::new(alloc, shards)?;
        let hub = Hub {
            domain,
            peers,
            cells,
        };
        Ok((hub, passes))
    }
}
