ghost use Rattle.std.specs.Prelude.{◌≡◌, ◌<◌, ◌++◌, length, IfOk, OnErr, OnOk};
ghost use Rattle.doc_op.specs.Actions.{actions};
ghost use Rattle.doc_op.specs.Normal.{normal_form};
ghost use Rattle.op_codec.specs.Spelling.{limit, capped};
ghost use Rattle.op_codec.specs.Canonical.{canonical, IsSpelling};

use crate::measure::Meter;
use crate::writing::write_components;
use doc_items::Memory;
use doc_op::DocOp;
use std::alloc::Global;

/// The number of bytes of an operation's spelling, or 4,294,967,296 where there are as many or more.
pub fn spelling_len(alloc: Global, op: &DocOp) -> Result<u64, Memory>
    ensures { IfOk result (λ n. n ≡ capped (length (canonical op.now))) }
{
    let normal = op.normal(alloc)?;
    Ok(normal_len(&normal))
}

/// `spelling_len` of an operation in normal form, which takes no memory.
pub fn normal_len(op: &DocOp) -> u64
    requires { op.now ≡ normal_form (actions op.now) }
    ensures { result ≡ capped (length (canonical op.now)) }
{
    let mut meter = Meter::new();
    meter.add_components(op);
    meter.size()
}

/// Appends the spelling of an operation, which has fewer than 4,294,967,296 bytes. After want of memory `out` is as it was,
/// with more room perhaps.
pub fn write(alloc: Global, op: &DocOp, out: &mut Vec<u8>) -> Result<(), Memory>
    requires { length (canonical op.now) < limit }
    ensures appended { OnOk result (out.new.items ≡ out.old.items ++ canonical op.now) }
    ensures spelling { OnOk result (IsSpelling (normal_form (actions op.now))) }
    ensures same { OnErr result (out.new.items ≡ out.old.items) }
{
    let normal = op.normal(alloc)?;
    write_normal(&normal, out)
}

/// `write` of an operation in normal form, which makes no other operation. After want of memory `out` is as it was, with more
/// room perhaps.
pub fn write_normal(op: &DocOp, out: &mut Vec<u8>) -> Result<(), Memory>
    requires short { length (canonical op.now) < limit }
    requires normal { op.now ≡ normal_form (actions op.now) }
    ensures appended { OnOk result (out.new.items ≡ out.old.items ++ canonical op.now) }
    ensures spelling { OnOk result (IsSpelling op.now) }
    ensures same { OnErr result (out.new.items ≡ out.old.items) }
{
    // For the proof: an operation is as a builder takes it.
    let _components = op.as_slice();
    let mut meter = Meter::new();
    meter.add_components(op);
    out.reserve(meter.size() as usize)?;
    let count = out.len();
    match write_components(out, op) {
        Ok(()) => Ok(()),
        Err(memory) => {
            out.truncate(count);
            Err(memory)
        }
    }
}
