// Records as they are stored.
ghost use Rattle.std.specs.Prelude.{◌≡◌, ◌++◌, ◌∷◌, [], ℕ, List, IfOk, OnOk};

use std::alloc::{AllocError, AllocFailed, Global};
use std::marker::Model;

/// Bytes, which contracts see as a list.
#[derive(Drop)]
pub struct Bytes {
    bytes: Vec<u8>,
}

impl Model for Bytes {
    ghost Value = { List ℕ };

    ghost view = { λ b. b.bytes.items };
}

impl Bytes {
    /// These bytes.
    pub fn new(bytes: Vec<u8>) -> Bytes
        ensures { result ≡ bytes.items }
    {
        Bytes { bytes }
    }

    /// The bytes.
    pub fn as_slice(&self) -> &[u8]
        ensures { result.now ≡ self.now }
    {
        &self.bytes
    }

    /// The bytes, as they were handed in.
    pub fn into_vec(self) -> Vec<u8>
        ensures { result.items ≡ self }
    {
        self.bytes
    }

    /// The same bytes once more.
    pub fn copy(&self, alloc: Global) -> Result<Bytes, AllocError>
        ensures { IfOk result (λ copied. copied ≡ self.now) }
    {
        let bytes = self.bytes.to_vec(alloc)?;
        Ok(Bytes { bytes })
    }
}

/// A record as it is stored.
#[derive(Drop)]
pub struct Stored {
    /// The offset of its gate in the file, in bytes.
    pub offset: u64,
    /// Its bytes, without the gate and the length.
    pub bytes: Bytes,
}

impl Stored {
    /// The same record once more.
    pub fn copy(&self, alloc: Global) -> Result<Stored, AllocError>
        ensures { IfOk result (λ copied. copied ≡ self.now) }
    {
        let bytes = self.bytes.copy(alloc)?;
        Ok(Stored {
            offset: self.offset,
            bytes,
        })
    }
}

/// Stored records, which contracts see as a list.
#[derive(Drop)]
pub struct StoredRecords {
    records: Vec<Stored>,
}

impl Model for StoredRecords {
    ghost use Rattle.std.specs.Prelude.{List};
    ghost use Rattle.delta_journal.specs.declared.stored.Stored.{Stored};

    ghost Value = { List Stored };

    ghost view = { λ r. r.records.items };
}

impl StoredRecords {
    /// No records.
    pub fn new(alloc: Global) -> StoredRecords
        ensures { result ≡ [] }
    {
        StoredRecords {
            records: Vec::new(alloc),
        }
    }

    /// Puts a record after the others.
    pub(crate) fn push(&mut self, one: Stored) -> Result<(), AllocFailed<Stored>>
        ensures { OnOk result (self.new ≡ self.old ++ one ∷ []) }
    {
        self.records.push(one)
    }

    /// The records.
    pub fn as_slice(&self) -> &[Stored]
        ensures { result.now ≡ self.now }
    {
        &self.records
    }

    /// The records, as a vector.
    pub fn into_vec(self) -> Vec<Stored>
        ensures { result.items ≡ self }
    {
        self.records
    }

    /// The same records once more.
    pub fn copy(&self, alloc: Global) -> Result<StoredRecords, AllocError>
        ensures { IfOk result (λ copied. copied ≡ self.now) }
    {
        let mut copied = StoredRecords::new(alloc);
        for one in &self.records {
            copied.push(one.copy(alloc)?)?;
        }
        Ok(copied)
    }
}
