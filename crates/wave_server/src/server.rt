// What a server meets, and what it leaves.
use session_hub::Passes;
use session_steps::EndCause;
use turn_lock::Spent;
use wave_outside::Folder;

/// A session that ended.
#[derive(Clone, Copy, Drop)]
pub struct Ended {
    /// The number of its link among those that were put back in this run, counted from 0.
    pub place: u64,
    /// Why it ended.
    pub cause: EndCause,
}

/// What a server meets: where links come from, what runs its sessions, and the gate at their turns. The other fields are handed in
/// empty, and `serve` fills them.
pub struct Server<N, F: Folder + Drop, P, G> {
    pub net: N,
    pub spawner: P,
    pub gate: G,
    /// The sessions that ended, in that order, where their number was given.
    pub ended: Vec<Ended>,
    /// What was seen of the hub.
    pub passes: Option<Passes<F>>,
    /// What tells that a shard has no turn left.
    pub spent: Option<Spent>,
}

impl<N: Drop, F: Folder + Drop, P: Drop, G: Drop> Drop for Server<N, F, P, G> {
    fn drop(self) {
        let Server {
            net: _net,
            spawner: _spawner,
            gate: _gate,
            ended: _ended,
            passes: _passes,
            spent: _spent,
        } = self;
    }
}
