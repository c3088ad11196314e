// A machine that writes each line again, after the time.
ghost use Rattle.std.specs.Prelude.{◌≡◌, ◌++◌, OnOk};
ghost use Rattle.line_loop.specs.Turns.{turn_at};
ghost use Rattle.test_lines.specs.Echoes.{echo};

use line_loop::{LineMachine, TurnFault};
use std::alloc::{AllocError, Global};

/// The machine, and how many lines it takes before its store fails.
#[derive(Drop)]
pub struct Echo {
    pub left: u64,
    pub faults: u64,
}

impl LineMachine for Echo {
    ghost use Rattle.std.specs.Prelude.{refl, ⊤};
    ghost use Rattle.test_lines.specs.Echoes.{echoes};

    ghost answers = { λ _ ts. echoes ts };

    ghost reached = { λ _ _ _. ⊤ };

    ghost since = { λ _ _ _. ⊤ };

    ghost tried = { λ _ _ _. ⊤ };

    ghost calm = { λ _. ⊤ };

    ghost faults = { λ m. m.faults };

    fn may_fail(&self) -> bool {
        true
    }

    fn turn(
        &mut self,
        _alloc: Global,
        line: &[u8],
        time: u64,
        out: &mut Vec<u8>,
    ) -> Result<(), TurnFault> {
        if self.left == 0 {
            self.faults = self.faults.saturating_add(1);
            return Err(TurnFault::Store);
        }
        self.left -= 1;
        write_echo(line, time, out)?;
        Ok(())
    }

    ghost silent = { λ _. refl };

    ghost at_start = { λ _. tt };

    ghost unmoved = { λ _. tt };
}

// Appends the echo of a line.
fn write_echo(line: &[u8], time: u64, out: &mut Vec<u8>) -> Result<(), AllocError>
    ensures { OnOk result (out.new.items ≡ out.old.items ++ echo (turn_at time line.now)) }
{
    out.push(b'0' + (time % 10) as u8)?;
    out.extend_from_slice(line)?;
    out.push(b'\n')?;
    Ok(())
}
