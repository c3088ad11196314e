ghost use Rattle.std.specs.Prelude.{◌≡◌, IfOk};

use doc_items::Memory;
use std::alloc::Global;
use wavelet_op::Ops;

/// What a robot answers to a delta.
#[derive(Drop)]
pub enum Reaction {
    /// Nothing.
    Quiet,
    /// Operations on the wavelet, made at the end of the delta.
    Edit(Ops),
    /// It takes no part any more.
    Leave,
}

impl Reaction {
    /// An equal reaction. The error is want of memory.
    pub fn copy(&self, alloc: Global) -> Result<Reaction, Memory>
        ensures { IfOk result (λ r. r ≡ self.now) }
    {
        match self {
            Reaction::Quiet => Ok(Reaction::Quiet),
            Reaction::Edit(ops) => Ok(Reaction::Edit(ops.copy(alloc)?)),
            Reaction::Leave => Ok(Reaction::Leave),
        }
    }
}
