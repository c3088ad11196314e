// Operations on wavelets at the front of bytes, and the bytes after them.
ghost use Rattle.std.specs.Prelude.{◌≡◌, [], length, IfOk};
ghost use Rattle.doc_op.specs.Actions.{actions};
ghost use Rattle.doc_op.specs.Normal.{normal_form};
ghost use Rattle.op_codec.specs.Reading.{Gives, list_of};
ghost use Rattle.wavelet_op.specs.Acts.{IsNormal, AreNormal};
ghost use Rattle.wavelet_codec.specs.Reading.{normal_at, role_at, roles_at, role_change_at, mutation_at, tagged_at, op_at, ops_at};

use crate::front::{address_at, document_at, length_at};
use doc_op::DocOp;
use op_codec::{CodecFault, read};
use std::alloc::Global;
use wave_base::{Address, DocumentName};
use wavelet_op::{MAX_OPS, Ops, Role, WaveletOp};

fn normal_at(alloc: Global, bytes: &[u8]) -> Result<(DocOp, &[u8]), CodecFault>
    ensures read { Gives (λ r. (r.0, r.1.now)) result (normal_at bytes.now) }
    ensures normal { IfOk result (λ r. r.0 ≡ normal_form (actions r.0)) }
{
    let front = read(alloc, bytes)?;
    let (_, rest) = bytes.split_at(front.used as usize);
    Ok((front.op, rest))
}

#[tactic(auto, unfolding(crate::specs::Reading::mutation_at))]
fn mutation_at(alloc: Global, bytes: &[u8]) -> Result<((DocumentName, DocOp), &[u8]), CodecFault>
    ensures read { Gives (λ r. (r.0, r.1.now)) result (mutation_at bytes.now) }
    ensures normal { IfOk result (λ r. r.0.1 ≡ normal_form (actions r.0.1)) }
{
    let (document, rest) = document_at(alloc, bytes)?;
    let (op, rest) = normal_at(alloc, rest)?;
    Ok(((document, op), rest))
}

#[tactic(auto, unfolding(crate::specs::Reading::role_at))]
fn role_at(bytes: &[u8]) -> Result<(Role, &[u8]), CodecFault>
    ensures { Gives (λ r. (r.0, r.1.now)) result (role_at bytes.now) }
{
    match bytes {
        [0, rest @ ..] => Ok((Role::Full, rest)),
        [1, rest @ ..] => Ok((Role::ReadOnly, rest)),
        [] => Err(CodecFault::BadBytes),
        [_, ..] => Err(CodecFault::BadBytes),
    }
}

#[tactic(auto, unfolding(crate::specs::Reading::roles_at))]
fn roles_at(bytes: &[u8]) -> Result<((Role, Role), &[u8]), CodecFault>
    ensures { Gives (λ r. (r.0, r.1.now)) result (roles_at bytes.now) }
{
    let (old, rest) = role_at(bytes)?;
    let (new, rest) = role_at(rest)?;
    Ok(((old, new), rest))
}

#[tactic(auto, unfolding(crate::specs::Reading::role_change_at))]
fn role_change_at(
    alloc: Global,
    bytes: &[u8],
) -> Result<((Address, (Role, Role)), &[u8]), CodecFault>
    ensures { Gives (λ r. (r.0, r.1.now)) result (role_change_at bytes.now) }
{
    let (address, rest) = address_at(alloc, bytes)?;
    let (roles, rest) = roles_at(rest)?;
    Ok(((address, roles), rest))
}

#[tactic(auto, unfolding(crate::specs::Reading::op_at))]
fn op_at(alloc: Global, bytes: &[u8]) -> Result<(WaveletOp, &[u8]), CodecFault>
    ensures read { Gives (λ r. (r.0, r.1.now)) result (op_at bytes.now) }
    ensures normal { IfOk result (λ r. IsNormal r.0) }
{
    match bytes {
        [tag, rest @ ..] => tagged_at(alloc, *tag, rest),
        [] => Err(CodecFault::BadBytes),
    }
}

#[tactic(auto, unfolding(crate::specs::Reading::tagged_at))]
fn tagged_at(alloc: Global, tag: u8, bytes: &[u8]) -> Result<(WaveletOp, &[u8]), CodecFault>
    ensures read { Gives (λ r. (r.0, r.1.now)) result (tagged_at tag bytes.now) }
    ensures normal { IfOk result (λ r. IsNormal r.0) }
{
    match tag {
        0 => Ok((WaveletOp::NoOp, bytes)),
        1 => {
            let (address, rest) = address_at(alloc, bytes)?;
            Ok((WaveletOp::Add(address), rest))
        }
        2 => {
            let (address, rest) = address_at(alloc, bytes)?;
            Ok((WaveletOp::Remove(address), rest))
        }
        3 => {
            let ((document, op), rest) = mutation_at(alloc, bytes)?;
            Ok((WaveletOp::Mutate { document, op }, rest))
        }
        4 => {
            let ((address, (old, new)), rest) = role_change_at(alloc, bytes)?;
            Ok((WaveletOp::SetRole { address, old, new }, rest))
        }
        _ => Err(CodecFault::BadBytes),
    }
}

#[tactic(auto, using(op_codec::proofs::Loops::list_goes_on, op_codec::proofs::Loops::list_breaks, op_codec::proofs::Loops::list_ends))]
fn ops_of(alloc: Global, count: u32, bytes: &[u8]) -> Result<(Vec<WaveletOp>, &[u8]), CodecFault>
    ensures read { Gives (λ r. (r.0.items, r.1.now)) result (list_of op_at [] count bytes.now) }
    ensures normal { IfOk result (λ r. AreNormal r.0.items) }
    ensures count { IfOk result (λ r. length r.0.items ≡ count) }
{
    let mut ops = Vec::new(alloc);
    let mut rest = bytes;
    let mut left = count;
    while left > 0 {
        let (op, behind) = op_at(alloc, rest)?;
        ops.push(op)?;
        rest = behind;
        left -= 1;
    }
    Ok((ops, rest))
}

/// 1 to 1,000 operations, each of which takes memory only once its bytes are there.
#[tactic(auto, unfolding(crate::specs::Reading::ops_at))]
pub(crate) fn ops_at(alloc: Global, bytes: &[u8]) -> Result<(Ops, &[u8]), CodecFault>
    ensures read { Gives (λ r. (r.0, r.1.now)) result (ops_at bytes.now) }
    ensures normal { IfOk result (λ r. AreNormal r.0) }
{
    let (count, rest) = length_at(bytes)?;
    if count == 0 || count as usize > MAX_OPS {
        return Err(CodecFault::BadBytes);
    }
    let (ops, rest) = ops_of(alloc, count, rest)?;
    match Ops::new(ops) {
        Some(ops) => Ok((ops, rest)),
        None => Err(CodecFault::BadBytes),
    }
}
