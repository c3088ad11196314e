ghost use Rattle.std.specs.Prelude.{◌≡◌, [], ◌∷◌, ◌++◌, cond, length, false, OnOk};

use crate::CommandMachine;
use doc_items::Memory;
use std::alloc::Global;

/// The line that has begun, as far as it is kept, and whether the run has ended.
#[derive(Drop)]
pub(crate) struct Begun {
    pub line: Vec<u8>,
    pub quit: bool,
}

impl Begun {
    /// No line has begun.
    pub fn new(alloc: Global) -> Begun
        ensures line { result.line.items ≡ [] }
        ensures quit { result.quit ≡ false }
    {
        Begun {
            line: Vec::new(alloc),
            quit: false,
        }
    }

    /// One byte more of the line.
    pub fn keep<M: CommandMachine>(&mut self, machine: &M, byte: u8) -> Result<(), Memory>
        ensures line { OnOk result
            (self.new.line.items ≡ cond (M.machine.keeps (length self.old.line.items))
            (self.old.line.items ++ byte ∷ []) self.old.line.items) }
        ensures quit { self.new.quit ≡ self.old.quit }
    {
        if machine.keeps(self.line.len()) {
            self.line.push(byte)?;
        }
        Ok(())
    }
}
