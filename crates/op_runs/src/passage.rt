// What a step passes of two operations.
ghost use Rattle.std.specs.Prelude.{◌≡◌, IfOk, OnOk};
ghost use Rattle.op_runs.specs.Passages.{goes_on, CanPass, IsPassed};

use change_table::Touched;
use doc_items::Memory;
use doc_op::Cursor;
use std::alloc::Global;

/// How many actions of two operations a step passes.
#[derive(Clone, Copy)]
pub enum Passage {
    /// None: both are at their end.
    End,
    /// So many of the first.
    First(u64),
    /// So many of the second.
    Second(u64),
    /// So many of each.
    Both(u64),
}

impl Passage {
    /// Takes the cursors past these actions, and notes the keys at which changes start or end on the way; false at the end of both. After
    /// want of memory nothing is left of the operation at whose cursor it was.
    pub fn pass(
        self,
        alloc: Global,
        first: &mut Cursor<'_>,
        second: &mut Cursor<'_>,
        touched: &mut Touched,
    ) -> Result<bool, Memory>
        requires { CanPass self first.old second.old }
        ensures goes_on { IfOk result (λ more. more ≡ goes_on self) }
        ensures passed { OnOk result (IsPassed self first.old second.old touched.old first.new second.new touched.new) }
    {
        match self {
            Passage::End => Ok(false),
            Passage::First(count) => {
                first.skip(alloc, count, touched)?;
                Ok(true)
            }
            Passage::Second(count) => {
                second.skip(alloc, count, touched)?;
                Ok(true)
            }
            Passage::Both(count) => {
                first.skip(alloc, count, touched)?;
                second.skip(alloc, count, touched)?;
                Ok(true)
            }
        }
    }
}
