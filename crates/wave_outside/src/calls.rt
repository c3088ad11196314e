// The calls of an object in memory, some of which fail.
use crate::Failed;
use crate::faults::Faults;

/// How many calls were made, the numbers of those that fail, and how many failed. The first call has number 0, and
/// numbers stay at the greatest u64.
#[derive(Drop)]
pub struct Calls {
    pub failing: Vec<u64>,
    pub made: u64,
    pub faults: Faults,
}

impl Calls {
    ghost use Rattle.std.specs.Prelude.{◌≡◌, is_err};
    ghost use Rattle.wave_outside.specs.Counts.{HasCause};
    ghost use Rattle.wave_outside.specs.Memory.{IsUncalled, WasCalled, fails_next};

    pub fn new(failing: Vec<u64>) -> Calls
        ensures { IsUncalled result failing.items }
    {
        Calls {
            failing,
            made: 0,
            faults: Faults::none(),
        }
    }

    /// Counts a call, which fails if its number is among those that fail.
    pub fn make(&mut self) -> Result<(), Failed>
        ensures fails { is_err result ≡ fails_next self.old }
        ensures cause { HasCause self.old.faults.count self.new.faults.count result }
        ensures counted { WasCalled self.old self.new result }
    {
        let number = self.made;
        self.made = number.saturating_add(1);
        if self.failing.contains(&number) {
            return Err(self.faults.raise());
        }
        Ok(())
    }
}
