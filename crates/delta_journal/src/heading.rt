// The header of a journal, made before its disk is there.
ghost use Rattle.std.specs.Prelude.{◌≡◌, ◌^◌, ◌<◌, ◌∷◌, ◌++◌, [], length, IfOk};
ghost use Rattle.delta_journal.specs.File.{header};
ghost use Rattle.delta_journal.specs.Journal.{IsHeadingOf};

use crate::stage::CLOSED;
use std::alloc::{AllocError, Global};

/// What a journal of some name begins with.
#[derive(Drop)]
pub struct Heading {
    /// The header and a closed gate.
    pub(crate) bytes: Vec<u8>,
}

// The header of a name after its gate, and a closed gate.
fn header_of(alloc: Global, name: &[u8]) -> Result<Vec<u8>, AllocError>
    requires { length name.now < 2 ^ 32 }
    ensures { IfOk result (λ v. v.items ≡ header name.now ++ 0 ∷ []) }
{
    let mut header = Vec::new(alloc);
    header.extend_from_slice(b"WAVEJNL1")?;
    header.extend_from_slice(&(name.len() as u32).to_be_bytes())?;
    header.extend_from_slice(name)?;
    header.push(CLOSED)?;
    Ok(header)
}

impl Heading {
    /// The heading of a journal of this name. The error is want of memory.
    pub fn new(alloc: Global, name: &str) -> Result<Heading, AllocError>
        requires short { length name.now < 2 ^ 32 }
        ensures { IfOk result (IsHeadingOf name.now) }
    {
        let bytes = header_of(alloc, name.as_bytes())?;
        Ok(Heading { bytes })
    }
}
