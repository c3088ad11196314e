// What is to run over the next run of an output.
ghost use Rattle.std.specs.Prelude.{IfOk};
ghost use Rattle.change_table.specs.Joints.{IsTurn};
ghost use Rattle.doc_op.specs.Outputs.{shown_changes, IsReady};

use change_table::{ChangeTable, Joint};
use change_view::ChangeView;
use doc_items::{Boundary, Memory, Text};
use std::alloc::Global;

/// The changes that are to run over a run.
#[derive(Clone, Copy)]
pub(crate) enum Shown<'s, 'a> {
    /// The changes of this list.
    Listed(&'s ChangeView<'a>),
    /// The changes that two tables show together, which are the ones that ran last at each key but these.
    Joint { joint: Joint<'s>, keys: &'s [Text] },
}

impl<'s, 'a> Shown<'s, 'a> {
    /// The boundary that leads there from the written changes; None exactly where they are the same.
    pub fn turn_from(self, alloc: Global, written: &ChangeTable) -> Result<Option<Boundary>, Memory>
        requires { IsReady self written.now }
        ensures { IfOk result (λ turn. IsTurn turn written.now (shown_changes self.entry)) }
    {
        match self {
            Shown::Listed(changes) => written.turn_to(alloc, changes),
            Shown::Joint { joint, keys } => joint.turn_from(alloc, written, keys),
        }
    }
}
