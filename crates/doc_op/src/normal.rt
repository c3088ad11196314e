ghost use Rattle.std.specs.Prelude.{◌≡◌, ◌≤◌, List, IfOk};
ghost use Rattle.doc_items.specs.Limits.{max_count};
ghost use Rattle.doc_op.specs.Actions.{Action, actions};
ghost use Rattle.doc_op.specs.Cursors.{left};
ghost use Rattle.doc_op.specs.Lengths.{input_len, output_len};
ghost use Rattle.doc_op.specs.Normal.{normal_form, AreWritable};
ghost use Rattle.doc_op.specs.Refusals.{IsBuilt};

use crate::normal_output::NormalOutput;
use crate::{Cursor, DocOp};
use doc_items::Memory;
use std::alloc::Global;

impl DocOp {
    /// The operation in normal form: the one list of components that is written for its actions.
    pub fn normal(&self, alloc: Global) -> Result<DocOp, Memory>
        ensures normal { IfOk result (λ op. op ≡ normal_form (actions self.now)) }
        ensures actions { IfOk result (λ op. actions op ≡ actions self.now) }
    {
        // For the proof: what an operation takes and gives, a document may have.
        let _input = self.input_len();
        let _output = self.output_len();
        let cursor = Cursor::new(alloc, self)?;
        written(alloc, cursor)
    }
}

/// The normal form of actions that have a spelling has these very actions, so that it is the normal form of its own actions;
/// and a builder takes it, component by component.
#[tactic(auto, using(crate::proofs::NormalForm::same_actions, crate::proofs::NormalForm::same_again, crate::proofs::NormalForm::is_built))]
pub fn normal_form_holds()
    ensures actions { (acts : List Action) → AreWritable acts → actions (normal_form acts) ≡ acts }
    ensures again { (acts : List Action) → AreWritable acts → normal_form (actions (normal_form acts)) ≡ normal_form acts }
    ensures built { (acts : List Action) → AreWritable acts → input_len acts ≤ max_count → output_len acts ≤ max_count
        → IsBuilt (normal_form acts) }
{}

// The operation of the actions that are left.
fn written(alloc: Global, mut cursor: Cursor<'_>) -> Result<DocOp, Memory>
    requires input { input_len (left cursor) ≤ max_count }
    requires output { output_len (left cursor) ≤ max_count }
    ensures normal { IfOk result (λ op. op ≡ normal_form (left cursor.entry)) }
    ensures actions { IfOk result (λ op. actions op ≡ left cursor.entry) }
{
    let mut out = NormalOutput::new(alloc);
    loop {
        let count = out.add(alloc, &cursor)?;
        if count == 0 {
            return out.finish(alloc);
        }
        out.pass(alloc, &mut cursor, count)?;
    }
}
