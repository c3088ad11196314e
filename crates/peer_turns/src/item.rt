// What copies tell of themselves.
ghost use Rattle.std.specs.Prelude.{◌≡◌, IfOk};

use doc_items::Memory;
use std::alloc::Global;
use wave_base::{HashedVersion, WaveletName};
use wavelet_op::Submission;

/// A submission that was handed in at a copy, and waits for the answer of the wavelet's host.
pub struct Relay {
    pub name: WaveletName,
    pub submission: Submission,
}

impl Drop for Relay {
    fn drop(self) {
        let Relay {
            name: _name,
            submission: _submission,
        } = self;
    }
}

impl Relay {
    /// An equal one.
    pub fn copy(&self, alloc: Global) -> Result<Relay, Memory>
        ensures { IfOk result (λ r. r ≡ self.now) }
    {
        let name = self.name.copy(alloc)?;
        let submission = self.submission.copy(alloc)?;
        Ok(Relay { name, submission })
    }

    /// The wavelet's name, and the submission.
    pub fn into_parts(self) -> (WaveletName, Submission)
        ensures { (result.0 ≡ self.name) × (result.1 ≡ self.submission) }
    {
        let Relay { name, submission } = self;
        (name, submission)
    }
}

/// How far a copy reaches: the version and the hash at the end of its history.
pub struct CopyAt {
    pub name: WaveletName,
    pub at: HashedVersion,
}

impl Drop for CopyAt {
    fn drop(self) {
        let CopyAt {
            name: _name,
            at: _at,
        } = self;
    }
}

impl CopyAt {
    /// An equal one.
    pub fn copy(&self, alloc: Global) -> Result<CopyAt, Memory>
        ensures { IfOk result (λ c. c ≡ self.now) }
    {
        let name = self.name.copy(alloc)?;
        Ok(CopyAt { name, at: self.at })
    }

    /// The wavelet's name, and how far the copy reaches.
    pub fn into_parts(self) -> (WaveletName, HashedVersion)
        ensures { (result.0 ≡ self.name) × (result.1 ≡ self.at) }
    {
        let CopyAt { name, at } = self;
        (name, at)
    }
}
