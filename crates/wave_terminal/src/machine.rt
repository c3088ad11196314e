// What obeys commands.
ghost use Rattle.std.specs.Prelude.{◌≡◌, ◌++◌, IfOk, OnOk};
ghost use Rattle.wave_terminal.specs.Machines.{Machine};

use doc_items::Memory;
use std::alloc::Global;

/// What obeys commands, one a line, and prints what they ask for.
pub trait CommandMachine {
    /// What its answers go by.
    ghost State: { Type 0 };

    /// The state that it is in.
    ghost state: { Self → State };

    /// What each line does.
    ghost machine: { Machine State };

    /// Whether one byte more is looked at of a line that has so many.
    fn keeps(&self, count: usize) -> bool
        ensures { result ≡ machine.keeps count };

    /// Does what a line says, appends what it prints, and tells whether it ends the run. The error is want of memory.
    fn obey(&mut self, alloc: Global, line: &[u8], out: &mut Vec<u8>) -> Result<bool, Memory>
        ensures state { OnOk result (state self.new ≡ (machine.told (state self.old) line.now).state) }
        ensures text { OnOk result (out.new.items ≡ out.old.items ++ (machine.told (state self.old) line.now).text) }
        ensures quit { IfOk result (λ quit. quit ≡ (machine.told (state self.old) line.now).quit) };
}
