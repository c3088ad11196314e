// Adding a record.
ghost use Rattle.std.specs.Prelude.{◌≡◌, ◌⊎◌, ◌+◌, ◌≤◌, ℕ, [], ◌∷◌, ◌++◌, length, false, IfOk, OnOk, OnErr, IsErrOf};
ghost use Rattle.disk_model.specs.Disk.{LeavesOnly, HasCause, Rose};
ghost use Rattle.delta_journal.specs.File.{StandsFor, StandsForEither};
ghost use Rattle.delta_journal.specs.Stage.{record_in, IsBlock};
ghost use Rattle.delta_journal.specs.Journal.{IsJournal, WhereHeld, EachImage, on_disk, left_over, needs_repair};
ghost use Rattle.delta_journal.specs.declared.stage.Stage.TheVariants.{Blank, Shut, Headed};

use crate::stage::{CLOSED, OPEN, Stage};
use crate::write::write_through;
use crate::{Journal, JournalFault};
use disk_model::{Disk, DiskFault};
use std::alloc::{AllocError, Global};

// The block of a record: its length, its bytes and a closed gate.
fn block_of(alloc: Global, bytes: &[u8]) -> Result<Vec<u8>, AllocError>
    ensures block { IfOk result (λ v. IsBlock v.items) }
    ensures record { IfOk result (λ v. record_in v.items ≡ bytes.now) }
{
    let mut block = Vec::new(alloc);
    block.extend_from_slice(&(bytes.len() as u64).to_be_bytes())?;
    block.extend_from_slice(bytes)?;
    block.push(CLOSED)?;
    Ok(block)
}

impl<K: Disk> Journal<K> {
    // Closes the first gate of a file that may have none.
    fn begin(&mut self) -> Result<(), DiskFault>
        requires blank { self.old.stage ≡ Blank }
        ensures any_moment { WhereHeld self.old
            (λ name records. LeavesOnly (on_disk self.old) (on_disk self.new) (StandsFor name records)) }
        ensures held { WhereHeld self.old (λ name records. IsJournal name records self.new) }
        ensures left_over { left_over self.new ≡ [] }
        ensures shut { OnOk result (self.new.stage ≡ Shut) }
        ensures cause { HasCause (on_disk self.old) (on_disk self.new) result }
    {
        write_through(&mut self.disk, 0, &[CLOSED])?;
        self.stage = Stage::Shut;
        self.place = 0;
        Ok(())
    }

    // Puts the header after the closed first gate, and opens that.
    fn open_header(&mut self) -> Result<(), DiskFault>
        requires shut { self.old.stage ≡ Shut }
        ensures any_moment { WhereHeld self.old
            (λ name records. LeavesOnly (on_disk self.old) (on_disk self.new) (StandsFor name records)) }
        ensures held { WhereHeld self.old (λ name records. IsJournal name records self.new) }
        ensures left_over { left_over self.new ≡ [] }
        ensures headed { OnOk result (self.new.stage ≡ Headed) }
        ensures cause { HasCause (on_disk self.old) (on_disk self.new) result }
    {
        write_through(&mut self.disk, self.place + 1, &self.header)?;
        self.stage = Stage::Opening;
        write_through(&mut self.disk, self.place, &[OPEN])?;
        self.stage = Stage::Headed;
        self.place += self.header.len() as u64;
        Ok(())
    }

    // Makes sure that the header is on the disk, after an open gate.
    fn write_header(&mut self) -> Result<(), DiskFault>
        requires whole { needs_repair self.old ≡ false }
        ensures any_moment { WhereHeld self.old
            (λ name records. LeavesOnly (on_disk self.old) (on_disk self.new) (StandsFor name records)) }
        ensures held { WhereHeld self.old (λ name records. IsJournal name records self.new) }
        ensures left_over { left_over self.new ≡ [] }
        ensures headed { OnOk result (self.new.stage ≡ Headed) }
        ensures cause { HasCause (on_disk self.old) (on_disk self.new) result }
    {
        match self.stage {
            Stage::Blank => {
                self.begin()?;
                self.open_header()
            }
            Stage::Shut => self.open_header(),
            Stage::Opening => Ok(()),
            Stage::Headed => Ok(()),
            Stage::Adding(_) => Ok(()),
        }
    }

    // Puts a record's block after the closed gate, and opens that.
    fn add(&mut self, block: Vec<u8>) -> Result<(), DiskFault>
        requires headed { self.old.stage ≡ Headed }
        requires block { IsBlock block.items }
        ensures any_moment { WhereHeld self.old
            (λ name records. LeavesOnly (on_disk self.old) (on_disk self.new) (StandsForEither name records (record_in block.items ∷ []))) }
        ensures ok { OnOk result (WhereHeld self.old (λ name records. IsJournal name (records ++ record_in block.items ∷ []) self.new)) }
        ensures done { OnOk result (self.new.stage ≡ Headed) }
        ensures err { OnErr result (WhereHeld self.old (λ name records. IsJournal name records self.new)) }
        ensures left_over { OnErr result ((left_over self.new ≡ []) ⊎ (left_over self.new ≡ record_in block.items ∷ [])) }
        ensures cause { HasCause (on_disk self.old) (on_disk self.new) result }
    {
        write_through(&mut self.disk, self.place + 1, &block)?;
        let size = block.len() as u64;
        self.stage = Stage::Adding(block);
        write_through(&mut self.disk, self.place, &[OPEN])?;
        self.stage = Stage::Headed;
        self.place += size;
        Ok(())
    }

    /// Adds a record: its bytes after the closed gate, with a closed gate after them and synced, and then its gate
    /// opened and synced. Where the file has no header yet, that is written first in the same way. All memory is
    /// taken before the first call on the disk.
    ///
    /// At `Ok` each image has the record. At `DiskFault` each image stands for the records from before, or for those
    /// and the new one, and a repair may be pending. At `Memory` nothing was done.
    pub fn append(&mut self, alloc: Global, bytes: &[u8]) -> Result<(), JournalFault>
        requires whole { needs_repair self.old ≡ false }
        ensures any_moment { WhereHeld self.old
            (λ name records. LeavesOnly (on_disk self.old) (on_disk self.new) (StandsForEither name records (bytes.now ∷ []))) }

        ensures ok { OnOk result (WhereHeld self.old (λ name records. IsJournal name (records ++ bytes.now ∷ []) self.new)) }
        ensures every_image { OnOk result
            (WhereHeld self.old (λ name records. EachImage self.new (StandsFor name (records ++ bytes.now ∷ [])))) }
        ensures done { OnOk result (needs_repair self.new ≡ false) }

        ensures err { OnErr result (WhereHeld self.old (λ name records. IsJournal name records self.new)) }
        ensures left_over { OnErr result ((left_over self.new ≡ []) ⊎ (left_over self.new ≡ bytes.now ∷ [])) }
        ensures memory { IsErrOf result JournalFault.Memory → self.new ≡ self.old }
        ensures later { (on_disk self.old).faults ≤ (on_disk self.new).faults }
        ensures failed { IsErrOf result JournalFault.DiskFault → Rose (on_disk self.old) (on_disk self.new) }
        ensures never_damaged { (offset : ℕ) → IsErrOf result (JournalFault.Damaged offset) → ⊥ }
    {
        let block = block_of(alloc, bytes)?;
        self.write_header()?;
        self.add(block)?;
        Ok(())
    }
}
