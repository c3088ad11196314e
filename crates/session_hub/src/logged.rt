// The history of a shard.
ghost use Rattle.std.specs.Prelude.{◌≡◌, length};
ghost use Rattle.session_hub.specs.Entries.{entries_of};

use crate::shard::Shard;
use shard_marks::Mark;
use turn_lock::Logged;
use wave_outside::Folder;

impl<F: Folder + Drop> Logged for Shard<F> {
    type Entry = Mark;

    ghost entries = { entries_of };

    fn length(&self) -> u64 {
        self.records.len() as u64 + 1
    }
}
