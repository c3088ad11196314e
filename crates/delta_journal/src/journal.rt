// A journal over a disk.
ghost use Rattle.std.specs.Prelude.{◌^◌, ◌<◌, ◌≤◌, length, IsTrue};
ghost use Rattle.delta_journal.specs.Stage.{least_length};

use crate::stage::Stage;
use disk_model::Disk;

/// Records in a file on a disk, each whole on it before its gate is opened.
#[derive(Drop)]
pub struct Journal<K: Disk> {
    pub(crate) disk: K,
    /// The header and a closed gate.
    pub(crate) header: Vec<u8>,
    pub(crate) stage: Stage,
    /// The place of the gate in question.
    pub(crate) place: u64,
    ghost small: { place < 2 ^ 63 },
    ghost reached: { IsTrue K.tells → least_length stage place ≤ length (K.view disk).seen },
}
