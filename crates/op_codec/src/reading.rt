// Operations at the front of bytes.
ghost use Rattle.std.specs.Prelude.{◌≡◌, ◌<◌, ◌++◌, ◌↔◌, [], ℕ, List, length, IsTrue, IfOk, MatchResult};
ghost use Rattle.doc_op.specs.declared.component.Component.{Component};
ghost use Rattle.doc_op.specs.Actions.{actions};
ghost use Rattle.doc_op.specs.Normal.{normal_form};
ghost use Rattle.doc_op.specs.Refusals.{IsBuilt};
ghost use Rattle.op_codec.specs.declared.fault.CodecFault.TheVariants.{Memory};
ghost use Rattle.op_codec.specs.Reading.{Gives, components_of, operation_at};
ghost use Rattle.op_codec.specs.Spelling.{spelling, limit, IsSpelled};
ghost use Rattle.op_codec.specs.Canonical.{IsSpelling, IsRead};

use crate::CodecFault;
use crate::component::component_at;
use crate::measure::{LIMIT, Meter};
use crate::number::count_at;
use crate::writing::write_components;
use doc_items::Memory;
use doc_op::{Builder, DocOp, OpFault};
use std::alloc::Global;

#[tactic(auto, using(crate::proofs::Loops::components_go_on, crate::proofs::Loops::components_fall, crate::proofs::Loops::components_break, crate::proofs::Loops::components_end))]
fn components_of(alloc: Global, count: u32, bytes: &[u8]) -> Result<(DocOp, &[u8]), CodecFault>
    ensures { Gives (λ r. (r.0, r.1.now)) result (components_of [] count bytes.now) }
{
    let mut builder = Builder::new(alloc);
    let mut rest = bytes;
    let mut left = count;
    while left > 0 {
        let (component, behind) = component_at(alloc, rest)?;
        match builder.add(alloc, component) {
            Ok(()) => {}
            Err(OpFault::Memory) => return Err(CodecFault::Memory),
            Err(_) => return Err(CodecFault::BadBytes),
        }
        rest = behind;
        left -= 1;
    }
    Ok((builder.finish(), rest))
}

/// The operation at the front of bytes, in normal form or not, and the bytes after it.
#[tactic(auto, unfolding(crate::specs::Reading::operation_at))]
pub(crate) fn operation_at(alloc: Global, bytes: &[u8]) -> Result<(DocOp, &[u8]), CodecFault>
    ensures { Gives (λ r. (r.0, r.1.now)) result (operation_at bytes.now) }
{
    let (count, rest) = count_at(bytes)?;
    components_of(alloc, count, rest)
}

/// An operation that was read, and how many bytes its spelling has.
#[derive(Drop)]
pub struct ReadOp {
    pub op: DocOp,
    pub used: u64,
}

/// The operation whose spelling stands at the front of the bytes. The error is `BadBytes` exactly where there is none: where the
/// bytes are no components in the order of the formats, where a builder refuses one, where they aren't in normal form, or are 2^32
/// bytes or more. No length is believed before its bytes are there.
pub fn read(alloc: Global, bytes: &[u8]) -> Result<ReadOp, CodecFault>
    ensures found { IfOk result (λ r. IsRead bytes.now r.op r.used) }
    ensures only { (cs : List Component) (rest : List ℕ) → IsSpelling cs → bytes.now ≡ spelling cs ++ rest
        → MatchResult result (λ r. (r.op ≡ cs) × (r.used ≡ length (spelling cs))) (λ e. e ≡ Memory) }
{
    let (op, rest) = operation_at(alloc, bytes)?;
    let used = bytes.len() - rest.len();
    if !is_normal(alloc, &op, &bytes[..used])? {
        return Err(CodecFault::BadBytes);
    }
    let used = used as u64;
    Ok(ReadOp { op, used })
}

// Whether these bytes, from which the operation was read, are those of its normal form.
fn is_normal(alloc: Global, op: &DocOp, bytes: &[u8]) -> Result<bool, Memory>
    requires read { bytes.now ≡ spelling op.now }
    requires spelled { IsSpelled op.now }
    requires built { IsBuilt op.now }
    ensures { IfOk result (λ b. IsTrue b ↔ ((normal_form (actions op.now) ≡ op.now) × (length bytes.now < limit))) }
{
    let normal = op.normal(alloc)?;
    // For the proof: an operation is as a builder takes it.
    let _components = normal.as_slice();
    spells(alloc, &normal, bytes)
}

// Whether these are the bytes of an operation, and fewer than the limit.
fn spells(alloc: Global, op: &DocOp, bytes: &[u8]) -> Result<bool, Memory>
    ensures same { IfOk result (λ b. IsTrue b ↔ ((spelling op.now ≡ bytes.now) × (length bytes.now < limit))) }
    ensures spelled { IfOk result (λ b. IsTrue b → IsSpelled op.now) }
{
    let size = bytes.len() as u64;
    if size >= LIMIT {
        return Ok(false);
    }
    let mut meter = Meter::new();
    meter.add_components(op);
    if meter.size() != size {
        return Ok(false);
    }
    let mut spelled = Vec::with_capacity(alloc, bytes.len())?;
    write_components(&mut spelled, op)?;
    Ok(spelled.as_slice() == bytes)
}
