// What an edit comes to.
ghost use Rattle.std.specs.Prelude.{◌≡◌, ◌∷◌, [], Some, option_map, IfOk};
ghost use Rattle.wavelet_op.specs.declared.op.WaveletOp.TheVariants.{Mutate};
ghost use Rattle.client_edits.specs.Numbers.{built, build_number, talk_number};
ghost use Rattle.client_edits.specs.declared.built.Built.TheVariants.{Ops as BuiltOps};

use conversation::ConversationFault;
use doc_items::Memory;
use doc_op::DocOp;
use op_build::BuildFault;
use std::alloc::{AllocError, Global};
use wave_base::DocumentName;
use wavelet_op::{Ops, WaveletOp};

/// What an edit comes to at a screen.
#[derive(Drop)]
pub enum Built {
    /// The operations that it asks for.
    Ops(Ops),
    /// It is refused, with the number of the refusal.
    Refused(u64),
}

/// One operation on a wavelet. The error is want of memory, here and below.
pub(crate) fn one(alloc: Global, op: WaveletOp) -> Result<Built, Memory>
    ensures { IfOk result (λ b. b ≡ BuiltOps (op ∷ [])) }
{
    let mut list = Vec::new(alloc);
    list.push(op)?;
    match Ops::new(list) {
        Some(ops) => Ok(Built::Ops(ops)),
        None => unreachable!(),
    }
}

/// Two operations on a wavelet.
pub(crate) fn two(alloc: Global, first: WaveletOp, second: WaveletOp) -> Result<Built, Memory>
    ensures { IfOk result (λ b. b ≡ BuiltOps (first ∷ second ∷ [])) }
{
    let mut list = Vec::new(alloc);
    list.push(first)?;
    list.push(second)?;
    match Ops::new(list) {
        Some(ops) => Ok(Built::Ops(ops)),
        None => unreachable!(),
    }
}

/// An operation on a document.
pub(crate) fn mutation(
    alloc: Global,
    document: &DocumentName,
    op: DocOp,
) -> Result<WaveletOp, Memory>
    ensures { IfOk result (λ o. o ≡ Mutate document.now op) }
{
    let document = document.copy(alloc)?;
    Ok(WaveletOp::Mutate { document, op })
}

/// An operation on a document alone.
pub(crate) fn mutated(alloc: Global, document: &DocumentName, op: DocOp) -> Result<Built, Memory>
    ensures { IfOk result (λ b. b ≡ BuiltOps (Mutate document.now op ∷ [])) }
{
    let op = mutation(alloc, document, op)?;
    one(alloc, op)
}

/// What an edit of a document comes to that was refused.
pub(crate) fn refused(fault: BuildFault) -> Result<Built, Memory>
    ensures { IfOk result (λ b. built (build_number fault) ≡ Some b) }
{
    match fault {
        BuildFault::ZeroCount => Ok(Built::Refused(3)),
        BuildFault::OutOfRange => Ok(Built::Refused(12)),
        BuildFault::CutsElement => Ok(Built::Refused(13)),
        BuildFault::CountTooLarge => Ok(Built::Refused(5)),
        BuildFault::Memory => Err(AllocError),
    }
}

/// What an edit of a conversation comes to that was refused.
pub(crate) fn refused_talk(fault: ConversationFault) -> Result<Built, Memory>
    ensures { IfOk result (λ b. built (talk_number fault) ≡ Some b) }
{
    match fault {
        ConversationFault::NoBlip(_) => Ok(Built::Refused(16)),
        ConversationFault::TakenId(_) => Ok(Built::Refused(20)),
        ConversationFault::CountTooLarge => Ok(Built::Refused(5)),
        ConversationFault::Memory => Err(AllocError),
    }
}
