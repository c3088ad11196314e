// What is appended for operations and deltas. After want of memory a part of it may stand after what was there, until
// `write_applied` takes it back.
ghost use Rattle.std.specs.Prelude.{◌≡◌, ◌<◌, ◌++◌, ◌∷◌, length, OnErr, OnOk};
ghost use Rattle.std.specs.List.{AllByRecursion};
ghost use Rattle.std.specs.Int.{w32, to_be_bytes};
ghost use Rattle.std.specs.Io.{StartsWith};
ghost use Rattle.op_codec.specs.Spelling.{string, limit};
ghost use Rattle.wavelet_op.specs.Acts.{IsNormal, AreNormal};
ghost use Rattle.wavelet_codec.specs.Spelling.{role_byte, op_bytes, ops_bytes, number, id_bytes, delta_bytes, IsOp, IsId, IsDelta};

use crate::format::format;
use doc_items::Memory;
use op_codec::write_normal;
use std::alloc::Global;
use wave_base::DeltaId;
use wavelet_op::{AppliedDelta, Role, WaveletOp};

// The four low bytes of a length.
fn write_length(length: usize, out: &mut Vec<u8>) -> Result<(), Memory>
    ensures appended { OnOk result (out.new.items ≡ out.old.items ++ to_be_bytes w32 length) }
    ensures begins { OnErr result (StartsWith out.new.items out.old.items) }
{
    let bytes = (length as u64).to_be_bytes();
    let [_, _, _, _, low @ ..] = bytes.as_slice() else {
        unreachable!()
    };
    out.extend_from_slice(low)?;
    Ok(())
}

fn write_string(value: &str, out: &mut Vec<u8>) -> Result<(), Memory>
    ensures appended { OnOk result (out.new.items ≡ out.old.items ++ string value.now) }
    ensures begins { OnErr result (StartsWith out.new.items out.old.items) }
{
    write_length(value.len(), out)?;
    out.extend_from_slice(value.as_bytes())?;
    Ok(())
}

#[tactic(auto, unfolding(crate::specs::Spelling::number))]
fn write_number(value: u64, out: &mut Vec<u8>) -> Result<(), Memory>
    ensures appended { OnOk result (out.new.items ≡ out.old.items ++ number value) }
    ensures begins { OnErr result (StartsWith out.new.items out.old.items) }
{
    out.extend_from_slice(&value.to_be_bytes())?;
    Ok(())
}

fn write_numbers(first: u64, second: u64, out: &mut Vec<u8>) -> Result<(), Memory>
    ensures appended { OnOk result (out.new.items ≡ out.old.items ++ number first ++ number second) }
    ensures begins { OnErr result (StartsWith out.new.items out.old.items) }
{
    write_number(first, out)?;
    write_number(second, out)
}

fn role_byte(role: Role) -> u8
    ensures { result ≡ role_byte role }
{
    match role {
        Role::Full => 0,
        Role::ReadOnly => 1,
    }
}

fn write_op(op: &WaveletOp, out: &mut Vec<u8>) -> Result<(), Memory>
    requires short { length (op_bytes op.now) < limit }
    requires normal { IsNormal op.now }
    ensures appended { OnOk result (out.new.items ≡ out.old.items ++ op_bytes op.now) }
    ensures spelled { OnOk result (IsOp op.now) }
    ensures begins { OnErr result (StartsWith out.new.items out.old.items) }
{
    match op {
        WaveletOp::NoOp => {
            out.push(0)?;
            Ok(())
        }
        WaveletOp::Add(address) => {
            out.push(1)?;
            write_string(address.text(), out)
        }
        WaveletOp::Remove(address) => {
            out.push(2)?;
            write_string(address.text(), out)
        }
        WaveletOp::Mutate { document, op } => {
            out.push(3)?;
            write_string(document.text(), out)?;
            write_normal(op, out)
        }
        WaveletOp::SetRole { address, old, new } => {
            out.push(4)?;
            write_string(address.text(), out)?;
            out.push(role_byte(*old))?;
            out.push(role_byte(*new))?;
            Ok(())
        }
    }
}

#[tactic(auto, unfolding(crate::specs::Spelling::ops_bytes))]
fn write_ops(ops: &[WaveletOp], out: &mut Vec<u8>) -> Result<(), Memory>
    requires short { length (ops_bytes ops.now) < limit }
    requires normal { AreNormal ops.now }
    ensures appended { OnOk result (out.new.items ≡ out.old.items ++ ops_bytes ops.now) }
    ensures spelled { OnOk result (AllByRecursion IsOp ops.now) }
    ensures begins { OnErr result (StartsWith out.new.items out.old.items) }
{
    write_length(ops.len(), out)?;
    for op in ops {
        write_op(op, out)?;
    }
    Ok(())
}

fn write_id(id: &DeltaId, out: &mut Vec<u8>) -> Result<(), Memory>
    ensures appended { OnOk result (out.new.items ≡ out.old.items ++ id_bytes id.now) }
    ensures is { IsId id.now }
    ensures begins { OnErr result (StartsWith out.new.items out.old.items) }
{
    write_string(id.author.text(), out)?;
    write_number(id.client, out)?;
    write_number(id.number, out)
}

fn write_head(format: u8, id: &DeltaId, out: &mut Vec<u8>) -> Result<(), Memory>
    ensures appended { OnOk result (out.new.items ≡ out.old.items ++ format ∷ id_bytes id.now) }
    ensures is { OnOk result (IsId id.now) }
    ensures begins { OnErr result (StartsWith out.new.items out.old.items) }
{
    out.push(format)?;
    write_id(id, out)
}

// What follows the id of a delta.
fn write_rest(version: u64, time: u64, ops: &[WaveletOp], out: &mut Vec<u8>) -> Result<(), Memory>
    requires short { length (ops_bytes ops.now) < limit }
    requires normal { AreNormal ops.now }
    ensures appended { OnOk result (out.new.items ≡ out.old.items ++ (number version ++ (number time ++ ops_bytes ops.now))) }
    ensures spelled { OnOk result (AllByRecursion IsOp ops.now) }
    ensures begins { OnErr result (StartsWith out.new.items out.old.items) }
{
    write_numbers(version, time, out)?;
    write_ops(ops, out)
}

// The bytes of a delta with this format, id, version, time and operations.
fn write_parts(
    format: u8,
    id: &DeltaId,
    version: u64,
    time: u64,
    ops: &[WaveletOp],
    out: &mut Vec<u8>,
) -> Result<(), Memory>
    requires short { length (ops_bytes ops.now) < limit }
    requires normal { AreNormal ops.now }
    ensures appended { OnOk result (out.new.items
        ≡ out.old.items ++ format ∷ (id_bytes id.now ++ (number version ++ (number time ++ ops_bytes ops.now)))) }
    ensures spelled { OnOk result (AllByRecursion IsOp ops.now) }
    ensures is { OnOk result (IsId id.now) }
    ensures begins { OnErr result (StartsWith out.new.items out.old.items) }
{
    write_head(format, id, out)?;
    write_rest(version, time, ops, out)
}

/// Appends the bytes of a delta, which are fewer than 4,294,967,296. After want of memory `out` is as it was, with more room
/// perhaps.
#[tactic(auto, unfolding(crate::specs::Spelling::delta_bytes))]
pub fn write_applied(_alloc: Global, delta: &AppliedDelta, out: &mut Vec<u8>) -> Result<(), Memory>
    requires { length (delta_bytes delta.now) < limit }
    ensures appended { OnOk result (out.new.items ≡ out.old.items ++ delta_bytes delta.now) }
    ensures is { OnOk result (IsDelta delta.now) }
    ensures same { OnErr result (out.new.items ≡ out.old.items) }
{
    let ops = delta.ops.as_slice();
    let count = out.len();
    match write_parts(
        format(ops),
        &delta.id,
        delta.from.version,
        delta.time,
        ops,
        out,
    ) {
        Ok(()) => Ok(()),
        Err(memory) => {
            out.truncate(count);
            Err(memory)
        }
    }
}
