// How many bytes operations and deltas have.
ghost use Rattle.std.specs.Prelude.{◌≡◌, ◌+◌, length, IfOk};
ghost use Rattle.op_codec.specs.Spelling.{capped};
ghost use Rattle.wavelet_op.specs.Acts.{IsNormal, AreNormal};
ghost use Rattle.wavelet_codec.specs.Spelling.{op_bytes, ops_bytes, delta_bytes};

use doc_items::Memory;
use op_codec::normal_len;
use std::alloc::Global;
use wavelet_op::{AppliedDelta, Ops, WaveletOp};

// No more bytes than these are counted.
const LIMIT: u64 = 1 << 32;

// The format byte, the length of the author's text, and four numbers.
const HEAD_WITHOUT_AUTHOR: u64 = 37;

// Two numbers of bytes together.
fn plus(some: u64, more: u64) -> u64
    ensures { result ≡ capped (some + more) }
{
    some.saturating_add(more).min(LIMIT)
}

// An operation on a document is in normal form.
fn op_len(op: &WaveletOp) -> u64
    requires { IsNormal op.now }
    ensures { result ≡ capped (length (op_bytes op.now)) }
{
    match op {
        WaveletOp::NoOp => 1,
        WaveletOp::Add(address) => address.text().len() as u64 + 5,
        WaveletOp::Remove(address) => address.text().len() as u64 + 5,
        WaveletOp::Mutate { document, op } => {
            plus(document.text().len() as u64 + 5, normal_len(op))
        }
        WaveletOp::SetRole { address, .. } => address.text().len() as u64 + 7,
    }
}

/// The number of bytes of a list of operations on a wavelet, or 4,294,967,296 where there are as many or more. Operations on
/// documents count as their normal forms.
#[tactic(auto, using(crate::proofs::Meanings::same_bytes))]
pub fn ops_len(alloc: Global, ops: &Ops) -> Result<u64, Memory>
    ensures { IfOk result (λ n. n ≡ capped (length (ops_bytes ops.now))) }
{
    let normal = ops.normal(alloc)?;
    Ok(normal_ops_len(&normal))
}

/// `ops_len` of operations in normal form, which takes no memory.
#[tactic(auto, unfolding(crate::specs::Spelling::ops_bytes))]
pub fn normal_ops_len(ops: &Ops) -> u64
    requires { AreNormal ops.now }
    ensures { result ≡ capped (length (ops_bytes ops.now)) }
{
    let list = ops.as_slice();
    let mut size = 4;
    for op in list {
        size = plus(size, op_len(op));
    }
    size
}

/// The number of bytes of a delta, or 4,294,967,296 where there are as many or more. No memory is taken.
#[tactic(auto, unfolding(crate::specs::Spelling::delta_bytes, crate::specs::Spelling::number))]
pub fn applied_len(_alloc: Global, delta: &AppliedDelta) -> Result<u64, Memory>
    ensures { IfOk result (λ n. n ≡ capped (length (delta_bytes delta.now))) }
{
    let head = delta.id.author.text().len() as u64 + HEAD_WITHOUT_AUTHOR;
    Ok(plus(head, normal_ops_len(&delta.ops)))
}
