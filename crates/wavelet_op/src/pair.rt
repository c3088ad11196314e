ghost use Rattle.std.specs.Prelude.{◌≡◌, IfOk};

use crate::{Ops, WaveletOp};
use doc_items::Memory;
use std::alloc::Global;

/// Two operations, each taken past the other: the later one for the state that the earlier one gives, and the earlier one for the
/// state that the later one gives.
#[derive(Drop)]
pub struct OpPair {
    pub later: WaveletOp,
    pub earlier: WaveletOp,
}

/// Two lists of operations, each taken past the other: the later one for the state that the earlier one gives, and the earlier
/// one for the state that the later one gives.
#[derive(Drop)]
pub struct OpsPair {
    pub later: Ops,
    pub earlier: Ops,
}

impl OpPair {
    /// An equal pair.
    pub fn copy(&self, alloc: Global) -> Result<OpPair, Memory>
        ensures { IfOk result (λ p. p ≡ self.now) }
    {
        let later = self.later.copy(alloc)?;
        let earlier = self.earlier.copy(alloc)?;
        Ok(OpPair { later, earlier })
    }
}

impl OpsPair {
    /// An equal pair.
    pub fn copy(&self, alloc: Global) -> Result<OpsPair, Memory>
        ensures { IfOk result (λ p. p ≡ self.now) }
    {
        let later = self.later.copy(alloc)?;
        let earlier = self.earlier.copy(alloc)?;
        Ok(OpsPair { later, earlier })
    }
}
