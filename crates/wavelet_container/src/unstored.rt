// What a container is made of, but for its disk.
ghost use Rattle.std.specs.Prelude.{◌≡◌, IfOk};
ghost use Rattle.std.specs.Coded.{Coded-set, coded_list, coded_ℕ};
ghost use Rattle.delta_journal.specs.Journal.{IsHeadingOf};

use delta_journal::Heading;
use doc_items::Memory;
use std::alloc::Global;
use wave_base::WaveletName;

/// A wavelet without a history, with what its journal will begin with: all the memory that a container takes over a new disk.
pub struct Unstored {
    pub(crate) name: WaveletName,
    pub(crate) heading: Heading,
    ghost heads: { IsHeadingOf name heading } by { Coded-set (coded_list coded_ℕ) _ _ },
}

impl Drop for Unstored {
    fn drop(self) {
        let Unstored {
            name: _name,
            heading: _heading,
        } = self;
    }
}

impl Unstored {
    /// The wavelet of this name. The error is want of memory.
    pub fn new(alloc: Global, name: WaveletName) -> Result<Unstored, Memory>
        ensures { IfOk result (λ u. u.name ≡ name) }
    {
        let heading = Heading::new(alloc, name.text())?;
        Ok(Unstored { name, heading })
    }

    // Its parts.
    pub(crate) fn into_parts(self) -> (WaveletName, Heading)
        ensures name { result.0 ≡ self.name }
        ensures heading { IsHeadingOf self.name result.1 }
    {
        let Unstored { name, heading } = self;
        (name, heading)
    }
}
