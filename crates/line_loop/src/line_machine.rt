// What takes the lines.
ghost use Rattle.std.specs.Prelude.{◌≡◌, ◌≤◌, ℕ, List, [], ◌∷◌, ◌++◌, OnOk, OnErr, IsErrOf};
ghost use Rattle.wave_outside.specs.Counts.{Rose};
ghost use Rattle.line_loop.specs.Turns.{Turn, turn_at};

use std::alloc::{AllocError, Global};

/// Why a machine didn't answer a line.
#[derive(Clone, Copy, Debug, PartialEq, Eq)]
pub enum TurnFault {
    /// What it stores things in failed, and its count of faults tells so.
    Store,
    /// Want of memory.
    Memory,
}

impl From<AllocError> for TurnFault {
    ghost use Rattle.std.specs.Prelude.{◌≡◌};
    ghost use Rattle.line_loop.specs.declared.line_machine.TurnFault.TheVariants.{Memory};

    ghost from_gives = { λ _ e. e ≡ Memory };

    fn from(_: AllocError) -> Self {
        TurnFault::Memory
    }
}

/// What answers lines, one after the other.
pub trait LineMachine {
    /// What it writes for these turns, one after the other.
    ghost answers: { Self → List Turn → List ℕ };

    /// The first is this machine, and answered these turns until it was the second.
    ghost reached: { Self → List Turn → Self → Type 0 };

    /// What stays so between two states of it, whatever became of these turns.
    ghost since: { Self → List Turn → Self → Type 0 };

    /// What holds between it before and after a turn that failed.
    ghost tried: { Self → Turn → Self → Type 0 };

    /// What holds of it while no turn fails.
    ghost calm: { Self → Type 0 };

    /// How many calls of what it stores things in have failed.
    ghost faults: { Self → ℕ };

    /// Whether a turn may fail for another cause than want of memory, as where it stores what it is given. The answers before such a
    /// turn are written first.
    fn may_fail(&self) -> bool;

    /// Takes a line, with the time, and appends its answer. After an error anything may have been appended.
    fn turn(
        &mut self,
        alloc: Global,
        line: &[u8],
        time: u64,
        out: &mut Vec<u8>,
    ) -> Result<(), TurnFault>
        ensures answered { OnOk result
            ((ts : List Turn) → out.old.items ++ answers self.old (turn_at time line.now ∷ ts) ≡ out.new.items ++ answers self.new ts) }
        ensures reached { OnOk result
            ((start : Self) (ts : List Turn) → reached start ts self.old → reached start (ts ++ turn_at time line.now ∷ []) self.new) }
        ensures since { (start : Self) (ts : List Turn) → since start ts self.old
            → since start (ts ++ turn_at time line.now ∷ []) self.new }
        ensures tried { OnErr result (tried self.old (turn_at time line.now) self.new) }
        ensures calm { OnOk result (calm self.old → calm self.new) }
        ensures later { faults self.old ≤ faults self.new }
        ensures failed { IsErrOf result TurnFault.Store → Rose (faults self.old) (faults self.new) };

    /// It writes nothing for no turn.
    ghost silent: { (m : Self) → answers m [] ≡ [] };

    /// It is where it began.
    ghost at_start: { (m : Self) → reached m [] m };

    /// Nothing happened since.
    ghost unmoved: { (m : Self) → since m [] m };
}
