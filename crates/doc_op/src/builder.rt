ghost use Rattle.std.specs.Prelude.{◌≡◌, ◌++◌, ◌∷◌, ◌⊎◌, [], OnOk, OnErr, IfErr, None, Some};
ghost use Rattle.doc_op.specs.Refusals.{refusal};

use crate::keys::bad_key;
use crate::running::RunningKeys;
use crate::{Component, DocOp, OpFault};
use doc_items::Memory;
use std::alloc::Global;
use std::marker::Model;

/// Makes an operation, component by component. It is seen as the components that it took.
pub struct Builder {
    op: DocOp,
    keys: RunningKeys,
}

impl Drop for Builder {
    fn drop(self) {
        let Builder {
            op: _op,
            keys: _keys,
        } = self;
    }
}

impl Model for Builder {
    ghost use Rattle.std.specs.Prelude.{List};
    ghost use Rattle.std.specs.Coded.{coded_list};
    ghost use Rattle.doc_op.specs.declared.component.Component.{Component};
    ghost use Rattle.doc_op.specs.contracts.component.Component as component_row;
    ghost use Rattle.doc_op.specs.Actions.{running};
    ghost use Rattle.doc_op.specs.Running.{Follows};

    ghost Value = { List Component };

    ghost coded = { coded_list component_row.the_row.coded };

    ghost view = { λ b. b.op };

    ghost invariant = { λ b. Follows (running b.op) b.keys };
}

impl Builder {
    /// A builder without components.
    pub fn new(alloc: Global) -> Builder
        ensures { result ≡ [] }
    {
        Builder {
            op: DocOp::new(alloc),
            keys: RunningKeys::new(alloc),
        }
    }

    /// Puts a component after the last. It is refused, and the builder as it was, with `ZeroCount` where a count, a text,
    /// an update's list or both lists of a boundary are zero or empty; then with `BadBoundary` at the first key of a boundary's
    /// ends and then changes, or of an update, that isn't greater in bytes than the one before it in its list, ends without
    /// running, or changes after it was named among the ends; then with `CountTooLarge` where the operation would take or give
    /// more than `MAX_COUNT` items.
    pub fn add(&mut self, alloc: Global, component: Component) -> Result<(), OpFault>
        ensures added { OnOk result (self.new ≡ self.old ++ component ∷ []) }
        ensures taken { OnOk result (refusal self.old component ≡ None) }
        ensures kept { OnErr result (self.new ≡ self.old) }
        ensures refused { IfErr result (λ e. (e ≡ OpFault.Memory) ⊎ (refusal self.old component ≡ Some e)) }
    {
        if component.len() == 0 {
            return Err(OpFault::ZeroCount);
        }
        if let Some(key) = bad_key(alloc, &self.keys, &component)? {
            return Err(OpFault::BadBoundary(key.copy(alloc)?));
        }
        if !self.op.has_room(&component) {
            return Err(OpFault::CountTooLarge);
        }
        self.append(alloc, component)?;
        Ok(())
    }

    // Puts a component after the last that isn't refused.
    fn append(&mut self, alloc: Global, component: Component) -> Result<(), Memory>
        requires { refusal self.old component ≡ None }
        ensures added { OnOk result (self.new ≡ self.old ++ component ∷ []) }
        ensures kept { OnErr result (self.new ≡ self.old) }
    {
        self.keys.reserve_for(alloc, &component)?;
        self.op.push(component)?;
        let Some(last) = self.op.as_slice().last() else {
            return Ok(());
        };
        self.keys.pass(last);
        Ok(())
    }

    /// The operation of these components.
    pub fn finish(self) -> DocOp
        ensures { result ≡ self }
    {
        let Builder { op, keys: _keys } = self;
        op
    }
}
