ghost use Rattle.std.specs.Prelude.{◌≡◌, ◌≤◌, ◌+◌, ◌-◌, ◌^◌, min};
ghost use Rattle.wave_outside.specs.Counts.{raised};

/// A call on the outside failed. The count of faults of the object called shows it.
#[derive(Clone, Copy, Debug, PartialEq, Eq)]
pub struct Failed;

/// How many calls of an object have failed. The count stays at the greatest u64.
#[derive(Clone, Copy)]
pub struct Faults {
    pub count: u64,
}

impl Faults {
    pub fn none() -> Faults
        ensures { result.count ≡ 0 }
    {
        Faults { count: 0 }
    }

    /// Counts one more.
    pub fn raise(&mut self) -> Failed
        ensures count { self.new.count ≡ raised self.old.count }
        ensures later { self.old.count ≤ self.new.count }
    {
        self.count = self.count.saturating_add(1);
        Failed
    }

    /// Counts so many more.
    pub fn add(&mut self, more: u64)
        ensures { self.new.count ≡ min (self.old.count + more) (2 ^ 64 - 1) }
    {
        self.count = self.count.saturating_add(more);
    }
}
