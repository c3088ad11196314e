// The change of an element's attributes, turned back.
ghost use Rattle.std.specs.Prelude.{◌≡◌, IfOk};
ghost use Rattle.doc_op.specs.Apply.{attributes_agree, put_attributes};
ghost use Rattle.doc_op.specs.Runs.{part_change, IsFitPart};
ghost use Rattle.op_compose.specs.Chains.{attributes_back};

use change_view::ChangeView;
use doc_items::{Attributes, Memory};
use doc_op::AttributePart;
use std::alloc::Global;

/// Whether the attributes agree with the change turned back.
pub(crate) fn agree_back(
    alloc: Global,
    part: AttributePart<'_>,
    attributes: &Attributes,
) -> Result<bool, Memory>
    requires { IsFitPart part }
    ensures { IfOk result (λ t. t ≡ attributes_agree (attributes_back (part_change part.entry)) attributes.now) }
{
    match part {
        AttributePart::Update(changes) => {
            let view = ChangeView::of(alloc, changes)?;
            let turned = view.turned(alloc)?;
            Ok(turned.fits(attributes))
        }
        AttributePart::Replace { old: _, new } => Ok(new.same(attributes)),
    }
}

/// What the change, turned back, makes of the attributes.
pub(crate) fn put_back(
    alloc: Global,
    part: AttributePart<'_>,
    attributes: &Attributes,
) -> Result<Attributes, Memory>
    requires { IsFitPart part }
    ensures { IfOk result (λ m. m ≡ put_attributes (attributes_back (part_change part.entry)) attributes.now) }
{
    match part {
        AttributePart::Update(changes) => {
            let view = ChangeView::of(alloc, changes)?;
            let turned = view.turned(alloc)?;
            turned.put_on(alloc, attributes)
        }
        AttributePart::Replace { old, new: _ } => old.copy(),
    }
}
