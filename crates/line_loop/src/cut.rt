// The input cut at line feeds, in whatever pieces it comes.
ghost use Rattle.std.specs.Prelude.{◌≡◌, ◌≤◌, ◌+◌, false, length, ◌<◌, IfSome, position};
ghost use Rattle.line_loop.specs.Lines.{has_line_feed, is_line_feed, max_line};

use doc_items::Memory;
use std::alloc::Global;

/// The most bytes of a line that is given to a machine whole.
pub const MAX_LINE: usize = 1 << 20;

/// The bytes of a line whose line feed has not come yet. Of a line that is too long, no more bytes are kept than show it.
#[derive(Drop)]
pub struct OpenLine {
    pub bytes: Vec<u8>,
    ghost unended: { has_line_feed bytes.items ≡ false },
    ghost kept: { length bytes.items ≤ max_line + 1 },
}

impl OpenLine {
    ghost use Rattle.std.specs.Prelude.{[], OnOk};
    ghost use Rattle.line_loop.specs.Lines.{IsCutInto};

    /// No line has begun.
    pub fn new(alloc: Global) -> OpenLine
        ensures { result.bytes.items ≡ [] }
    {
        OpenLine {
            bytes: Vec::new(alloc),
        }
    }

    /// Takes more of the line.
    pub fn keep(&mut self, more: &[u8]) -> Result<(), Memory>
        requires { has_line_feed more.now ≡ false }
        ensures { OnOk result (IsCutInto self.old.bytes.items more.now self.new.bytes.items []) }
    {
        let count = more.len().min(MAX_LINE + 1 - self.bytes.len());
        self.bytes.extend_from_slice(&more[..count])?;
        Ok(())
    }

    /// Begins another.
    pub fn clear(&mut self)
        ensures { self.new.bytes.items ≡ [] }
    {
        self.bytes.clear();
    }
}

/// Where the first line feed stands.
pub fn line_feed(bytes: &[u8]) -> Option<usize>
    ensures value { result ≡ position is_line_feed bytes.now }
    ensures bound { IfSome result (λ place. place < length bytes.now) }
{
    bytes.iter().position(|b| *b == b'\n')
}
