//! The work that is measured.

use doc_op::DocOp;
use doc_rope::Rope;
use op_codec::{read, spelling_len, write};
use op_compose::compose;
use op_invert::invert_rope;
use op_transform::transform;
use op_validity::apply_rope;
use std::alloc::Global;

/// Less than this many bytes an operation's spelling has.
const LIMIT: u64 = 4_294_967_296;

/// Two operations, the spelling of the first, and a document on which they can be edits.
#[derive(Drop)]
pub struct Inputs {
    bytes: Vec<u8>,
    first: DocOp,
    second: DocOp,
    rope: Rope,
}

impl Inputs {
    /// The operations whose spellings stand one after the other, the third of which makes the document; None where they don't,
    /// and for want of memory.
    pub fn read(alloc: Global, all: &[u8]) -> Option<Inputs> {
        let first = read(alloc, all).ok()?;
        let (one, rest) = all.split_at_checked(first.used as usize)?;
        let second = read(alloc, rest).ok()?;
        let (_, rest) = rest.split_at_checked(second.used as usize)?;
        let made = read(alloc, rest).ok()?;
        let mut bytes = Vec::new(alloc);
        bytes.extend_from_slice(one).ok()?;
        let mut rope = Rope::new(alloc);
        apply_rope(alloc, &made.op, &mut rope).ok()?;
        Some(Inputs {
            bytes,
            first: first.op,
            second: second.op,
            rope,
        })
    }
}

/// What is done with them.
#[derive(Clone, Copy)]
pub enum Work {
    /// The first is read from its spelling.
    Read,
    /// The first is written.
    Write,
    /// The second is composed onto the first.
    Compose,
    /// The second, as the later one, and the first are taken past each other.
    Transform,
    /// The first is inverted at the document.
    Invert,
    /// The first and then the second are applied to the document.
    Edit,
}

impl Work {
    /// The work of that name.
    pub fn named(word: &str) -> Option<Work> {
        match word {
            "read" => Some(Work::Read),
            "write" => Some(Work::Write),
            "compose" => Some(Work::Compose),
            "transform" => Some(Work::Transform),
            "invert" => Some(Work::Invert),
            "edit" => Some(Work::Edit),
            _ => None,
        }
    }

    /// Does the work once, and tells how many components, bytes or items came of it; None where the operations refuse it, and
    /// for want of memory.
    pub fn once(self, alloc: Global, inputs: &mut Inputs) -> Option<u64> {
        match self {
            Work::Read => Some(read(alloc, &inputs.bytes).ok()?.used),
            Work::Write => written(alloc, &inputs.first),
            Work::Compose => {
                let op = compose(alloc, &inputs.first, &inputs.second).ok()?;
                Some(op.count())
            }
            Work::Transform => transformed(alloc, &inputs.second, &inputs.first),
            Work::Invert => {
                let inverse = invert_rope(alloc, &inputs.first, &inputs.rope).ok()?;
                Some(inverse.count())
            }
            Work::Edit => edited(alloc, inputs),
        }
    }
}

fn written(alloc: Global, op: &DocOp) -> Option<u64> {
    if spelling_len(alloc, op).ok()? >= LIMIT {
        return None;
    }
    let mut out = Vec::new(alloc);
    write(alloc, op, &mut out).ok()?;
    Some(out.len() as u64)
}

// The components of both results.
fn transformed(alloc: Global, later: &DocOp, earlier: &DocOp) -> Option<u64> {
    if !later.is_structured() || !earlier.is_structured() {
        return None;
    }
    let pair = transform(alloc, later, earlier).ok()?;
    pair.later.count().checked_add(pair.earlier.count())
}

// The items that the document has afterwards.
fn edited(alloc: Global, inputs: &mut Inputs) -> Option<u64> {
    apply_rope(alloc, &inputs.first, &mut inputs.rope).ok()?;
    apply_rope(alloc, &inputs.second, &mut inputs.rope).ok()?;
    Some(inputs.rope.len())
}
