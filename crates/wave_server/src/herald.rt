// Who tells sessions what came from peers.
ghost use Rattle.std.specs.Prelude.{◌<◌};
ghost use Rattle.turn_cells.specs.Cells.{Begins};
ghost use Rattle.session_hub.specs.Hubs.{AreOfHub};

use session_hub::{Hub, Passes};
use shard_marks::News;
use wave_outside::{Folder, Gate};

/// The number under which the peers' links take turns at the gate. No session has it.
const PEERS: u64 = u64::MAX - 2;

/// The number of shards.
const SHARDS: u8 = 16;

/// A gate, and how long each shard's history was when its news were told last.
pub(crate) struct Herald<G> {
    gate: G,
    told: [u64; 16],
}

impl<G: Drop> Drop for Herald<G> {
    fn drop(self) {
        let Herald {
            gate: _gate,
            told: _told,
        } = self;
    }
}

impl<G: Gate> Herald<G> {
    /// At this gate.
    pub fn new(gate: &G) -> Herald<G> {
        Herald {
            gate: gate.another(),
            told: [0; 16],
        }
    }

    /// From now on the server is woken by the news of every shard: among them are submissions that wait for a peer.
    pub fn listen(&mut self) {
        for shard in 0..SHARDS {
            self.gate.before(PEERS, shard);
            self.gate.after(PEERS, shard);
        }
    }

    // Wakes those who wait for news of the shard, where it has grown since they were told last.
    fn tell_of<F: Folder + Drop>(&mut self, hub: &Hub<F>, passes: &mut Passes<F>, shard: u8)
        requires own { AreOfHub hub.now passes.old }
        requires shard { shard < 16 }
        ensures own { AreOfHub hub.now passes.new }
        ensures later { Begins passes.old passes.new }
    {
        match hub.news(passes, shard, self.told[shard as usize]) {
            News::Nothing => {}
            News::Grown { length } => {
                self.gate.news(PEERS, shard);
                self.told[shard as usize] = length;
            }
        }
    }

    /// Wakes those who wait for news, of each shard that has grown since they were told last.
    pub fn tell<F: Folder + Drop>(&mut self, hub: &Hub<F>, passes: &mut Passes<F>)
        requires own { AreOfHub hub.now passes.old }
        ensures own { AreOfHub hub.now passes.new }
        ensures later { Begins passes.old passes.new }
    {
        for shard in 0..SHARDS {
            self.tell_of(hub, passes, shard);
        }
    }
}
