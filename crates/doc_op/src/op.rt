ghost use Rattle.std.specs.Prelude.{◌≡◌, ◌≤◌, ◌++◌, ◌∷◌, [], length, IfOk, OnOk, OnErr, slice_get, is_none, ◌↔◌, IsTrue, None};
ghost use Rattle.std.specs.Option.{option_copied};
ghost use Rattle.doc_items.specs.Limits.{max_count};
ghost use Rattle.doc_op.specs.Actions.{actions};
ghost use Rattle.doc_op.specs.Lengths.{input_len, output_len, inserted_len};
ghost use Rattle.doc_op.specs.Refusals.{count_fault, refusal, IsBuilt};
ghost use Rattle.doc_op.specs.Structure.{Structured, first_break};

use crate::Component;
use crate::depths::Depths;
use doc_items::{MAX_COUNT, Memory};
use std::alloc::Global;
use std::marker::Model;

/// An operation, seen as its components, which a builder took one by one.
#[derive(Drop)]
pub struct DocOp {
    components: Vec<Component>,
    input: u64,
    output: u64,
    inserted: u64,
}

impl Model for DocOp {
    ghost use Rattle.std.specs.Prelude.{List, ◌≡◌, ◌≤◌};
    ghost use Rattle.std.specs.Coded.{coded_list};
    ghost use Rattle.doc_op.specs.declared.component.Component.{Component};
    ghost use Rattle.doc_op.specs.contracts.component.Component as component_row;
    ghost use Rattle.doc_items.specs.Limits.{max_count};
    ghost use Rattle.doc_op.specs.Actions.{actions};
    ghost use Rattle.doc_op.specs.Lengths.{input_len, output_len, inserted_len};
    ghost use Rattle.doc_op.specs.Refusals.{IsBuilt};

    ghost Value = { List Component };

    ghost coded = { coded_list component_row.the_row.coded };

    ghost view = { λ o. o.components.items };

    ghost invariant = { λ o. (o.input ≡ input_len (actions o.components.items))
        × (o.output ≡ output_len (actions o.components.items))
        × (o.inserted ≡ inserted_len (actions o.components.items))
        × (o.input ≤ max_count) × (o.output ≤ max_count) × (o.inserted ≤ o.output)
        × IsBuilt o.components.items };
}

impl DocOp {
    /// The operation without components.
    pub(crate) fn new(alloc: Global) -> DocOp
        ensures { result ≡ [] }
    {
        DocOp {
            components: Vec::new(alloc),
            input: 0,
            output: 0,
            inserted: 0,
        }
    }

    /// The number of components.
    pub fn count(&self) -> u64
        ensures { result ≡ length self.now }
    {
        self.components.len() as u64
    }

    /// The component at a place, counted from 0; None exactly where the place isn't below the count.
    pub fn component(&self, place: u64) -> Option<&Component>
        ensures { option_copied result ≡ slice_get self.now place }
    {
        self.components.get(place as usize)
    }

    /// The components, in order.
    pub fn as_slice(&self) -> &[Component]
        ensures value { result.now ≡ self.now }
        ensures input { input_len (actions self.now) ≤ max_count }
        ensures output { output_len (actions self.now) ≤ max_count }
        ensures built { IsBuilt self.now }
    {
        self.components.as_slice()
    }

    /// How many items a document has that the operation applies to.
    pub fn input_len(&self) -> u64
        ensures value { result ≡ input_len (actions self.now) }
        ensures bound { result ≤ max_count }
    {
        self.input
    }

    /// How many items the document has afterwards.
    pub fn output_len(&self) -> u64
        ensures value { result ≡ output_len (actions self.now) }
        ensures bound { result ≤ max_count }
    {
        self.output
    }

    /// How many items the operation inserts.
    pub fn inserted(&self) -> u64
        ensures value { result ≡ inserted_len (actions self.now) }
        ensures bound { result ≤ max_count }
    {
        self.inserted
    }

    /// The index of the first component that breaks the rules of structure, or the number of components where an element is
    /// still open at the end; None exactly where the operation is structured. The rules are that inserted runs and deleted runs
    /// are balanced by themselves, and that neither holds a kept item or the other kind inside an element.
    pub fn first_break(&self) -> Option<u64>
        ensures { result ≡ first_break self.now }
    {
        let mut depths = Depths {
            inserted: 0,
            deleted: 0,
        };
        for (index, component) in self.components.as_slice().iter().enumerate() {
            let Some(behind) = depths.behind(component) else {
                return Some(index as u64);
            };
            depths = behind;
        }
        if depths.is_ground() {
            None
        } else {
            Some(self.components.len() as u64)
        }
    }

    /// Whether the operation is structured.
    pub fn is_structured(&self) -> bool
        ensures { IsTrue result ↔ Structured (actions self.now) }
    {
        match self.first_break() {
            Some(_) => false,
            None => true,
        }
    }

    /// An equal operation.
    pub fn copy(&self, alloc: Global) -> Result<DocOp, Memory>
        ensures { IfOk result (λ o. o ≡ self.now) }
    {
        let mut components = Vec::with_capacity(alloc, self.components.len())?;
        for component in self.components.as_slice() {
            components.push(component.copy(alloc)?)?;
        }
        Ok(DocOp {
            components,
            input: self.input,
            output: self.output,
            inserted: self.inserted,
        })
    }

    /// Whether the operation has room for the component: with it no more items are taken or given than a document may have.
    #[tactic(auto, using(crate::proofs::Lengths::added_lengths))]
    pub(crate) fn has_room(&self, component: &Component) -> bool
        ensures { result ≡ is_none (count_fault (self.now ++ component.now ∷ [])) }
    {
        let more = component.lengths();
        more.input <= MAX_COUNT - self.input && more.output <= MAX_COUNT - self.output
    }

    /// Puts a component after the last, which the operation has room for. After want of memory the operation is as it was.
    #[tactic(auto, using(crate::proofs::Lengths::added_lengths, crate::proofs::Built::built_more))]
    pub(crate) fn push(&mut self, component: Component) -> Result<(), Memory>
        requires room { count_fault (self.old ++ component ∷ []) ≡ None }
        requires taken { refusal self.old component ≡ None }
        ensures ok { OnOk result (self.new ≡ self.old ++ component ∷ []) }
        ensures err { OnErr result (self.new ≡ self.old) }
    {
        let more = component.lengths();
        self.components.push(component)?;
        self.input += more.input;
        self.output += more.output;
        self.inserted += more.inserted;
        Ok(())
    }
}
