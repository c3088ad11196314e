// Operations that leave the items before and after an edit as they are.
ghost use Rattle.std.specs.Prelude.{◌≡◌, ◌+◌, ◌≤◌, ◌++◌, IfOk};
ghost use Rattle.doc_items.specs.Limits.{max_count};
ghost use Rattle.doc_op.specs.Actions.{actions};
ghost use Rattle.doc_op.specs.Lengths.{input_len, output_len};
ghost use Rattle.doc_op.specs.Normal.{normal_form};
ghost use Rattle.op_build.specs.Plans.{retained};

use change_view::ChangeView;
use doc_items::Memory;
use doc_op::{DocOp, NormalBuilder};
use std::alloc::Global;

/// An operation that begins with so many items that stay.
pub(crate) fn begun(alloc: Global, count: u64) -> Result<NormalBuilder, Memory>
    requires { count ≤ max_count }
    ensures { IfOk result (λ out. out ≡ retained count) }
{
    let none = ChangeView::empty(alloc);
    let mut out = NormalBuilder::new(alloc);
    out.keep(alloc, count, &none)?;
    Ok(out)
}

/// The operation with so many items after that stay.
pub(crate) fn ended(alloc: Global, mut out: NormalBuilder, count: u64) -> Result<DocOp, Memory>
    requires input { input_len out + count ≤ max_count }
    requires output { output_len out + count ≤ max_count }
    ensures acts { IfOk result (λ op. actions op ≡ out ++ retained count) }
    ensures normal { IfOk result (λ op. op ≡ normal_form (actions op)) }
{
    let none = ChangeView::empty(alloc);
    out.keep(alloc, count, &none)?;
    let op = out.finish(alloc)?;
    Ok(op)
}
