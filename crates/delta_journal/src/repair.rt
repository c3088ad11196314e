// Taking back what an append left behind.
ghost use Rattle.std.specs.Prelude.{◌≡◌, false, OnOk, OnErr};
ghost use Rattle.disk_model.specs.Disk.{LeavesOnly, HasCause};
ghost use Rattle.delta_journal.specs.File.{StandsFor, StandsForEither};
ghost use Rattle.delta_journal.specs.Journal.{IsJournal, WhereHeld, EachImage, disk_of, on_disk, left_over, needs_repair};

use crate::Journal;
use crate::stage::CLOSED;
use crate::write::write_through;
use disk_model::{Disk, DiskFault};

impl<K: Disk> Journal<K> {
    /// Closes the gate again that an append may have opened, and syncs. With nothing to repair it does nothing.
    ///
    /// At `Ok` each image stands for the records from before that append. At `DiskFault` a repair is still pending.
    pub fn repair(&mut self) -> Result<(), DiskFault>
        ensures any_moment { WhereHeld self.old
            (λ name records. LeavesOnly (on_disk self.old) (on_disk self.new) (StandsForEither name records (left_over self.old))) }
        ensures held { WhereHeld self.old (λ name records. IsJournal name records self.new) }

        ensures every_image { OnOk result (WhereHeld self.old (λ name records. EachImage self.new (StandsFor name records))) }
        ensures done { OnOk result (needs_repair self.new ≡ false) }

        ensures left_over { OnErr result (left_over self.new ≡ left_over self.old) }
        ensures pending { OnErr result (needs_repair self.new ≡ needs_repair self.old) }
        ensures cause { HasCause (on_disk self.old) (on_disk self.new) result }
    {
        let Some(stage) = self.stage.repaired() else {
            return Ok(());
        };
        write_through(&mut self.disk, self.place, &[CLOSED])?;
        self.stage = stage;
        Ok(())
    }

    /// Whether a gate may be open that is to be closed before the next record.
    pub fn needs_repair(&self) -> bool
        ensures { result ≡ needs_repair self.now }
    {
        self.stage.is_unsure()
    }

    /// Gives the disk.
    pub fn close(self) -> K
        ensures { result ≡ disk_of self }
    {
        self.disk
    }
}
