// The edit that `echo` answers with.
ghost use Rattle.std.specs.Prelude.{◌≡◌, ◌∷◌, [], IfOk};
ghost use Rattle.wavelet_op.specs.States.{document_of};
ghost use Rattle.wavelet_op.specs.declared.op.WaveletOp.TheVariants.{Mutate};
ghost use Rattle.robot_host.specs.declared.reaction.Reaction.TheVariants.{Edit};
ghost use Rattle.robot_echo.specs.Echoes.{echo_name, is_elsewhere, are_elsewhere, IsMarked};

use doc_items::Memory;
use doc_op::DocOp;
use doc_rope::Rope;
use op_build::{BuildFault, type_at};
use robot_host::Reaction;
use std::alloc::{AllocError, Global};
use wave_base::DocumentName;
use wavelet_op::{Ops, WaveletOp};
use wavelet_state::WaveletState;

// Whether it is an operation on another document.
fn is_elsewhere(op: &WaveletOp, own: &DocumentName) -> bool
    requires { own.now ≡ echo_name }
    ensures { result ≡ is_elsewhere op.now }
{
    match op {
        WaveletOp::NoOp => false,
        WaveletOp::Add(_) => false,
        WaveletOp::Remove(_) => false,
        WaveletOp::Mutate { document, .. } => document != own,
        WaveletOp::SetRole { .. } => false,
    }
}

/// Whether one of the operations is on another document.
pub(crate) fn are_elsewhere(ops: &Ops, own: &DocumentName) -> bool
    requires { own.now ≡ echo_name }
    ensures { result ≡ are_elsewhere ops.now }
{
    for op in ops.as_slice() {
        if is_elsewhere(op, own) {
            return true;
        }
    }
    false
}

// One operation on the document.
fn edit_of(alloc: Global, own: &DocumentName, op: DocOp) -> Result<Reaction, Memory>
    ensures { IfOk result (λ r. r ≡ Edit (Mutate own.now op ∷ [])) }
{
    let document = own.copy(alloc)?;
    let mut list = Vec::new(alloc);
    list.push(WaveletOp::Mutate { document, op })?;
    match Ops::new(list) {
        Some(ops) => Ok(Reaction::Edit(ops)),
        None => unreachable!(),
    }
}

// The mark after these items.
fn marked(alloc: Global, items: &Rope, own: &DocumentName) -> Result<Reaction, Memory>
    requires { own.now ≡ echo_name }
    ensures { IfOk result (IsMarked items.now) }
{
    match type_at(alloc, items, items.len(), ".") {
        Ok(op) => edit_of(alloc, own, op),
        Err(BuildFault::ZeroCount) => unreachable!(),
        Err(BuildFault::OutOfRange) => unreachable!(),
        Err(BuildFault::CutsElement) => unreachable!(),
        Err(BuildFault::CountTooLarge) => Ok(Reaction::Quiet),
        Err(BuildFault::Memory) => Err(AllocError),
    }
}

/// The edit that puts the mark at the end of the document; nothing where it has no room.
pub(crate) fn mark(
    alloc: Global,
    state: &WaveletState,
    own: &DocumentName,
) -> Result<Reaction, Memory>
    requires { own.now ≡ echo_name }
    ensures { IfOk result (IsMarked (document_of state.now echo_name)) }
{
    match state.rope(own) {
        Some(items) => marked(alloc, items, own),
        None => marked(alloc, &Rope::new(alloc), own),
    }
}
