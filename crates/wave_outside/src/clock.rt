ghost use Rattle.std.specs.Prelude.{◌≡◌, ◌+◌, ℕ, Bool, IsTrue};
ghost use Rattle.wave_outside.specs.Clocks.{tick};

/// What tells the time.
pub trait Clock {
    /// Whether the clock tells its readings to come. The system's doesn't.
    ghost tells: { Bool };

    /// The readings to come: the first has number 0.
    ghost readings: { Self → ℕ → ℕ };

    /// The next reading.
    fn now(&mut self) -> u64
        ensures value { IsTrue tells → result ≡ readings self.old 0 }
        ensures rest { IsTrue tells → (k : ℕ) → readings self.new k ≡ readings self.old (k + 1) };

    /// A clock with the same readings to come.
    fn another(&self) -> Self
    where
        Self: Sized,
        ensures { IsTrue tells → (k : ℕ) → readings result k ≡ readings self.now k };
}

/// A clock that reads `next`, and then `step` more each time, up to the greatest u64.
#[derive(Clone, Copy, Debug, Drop)]
pub struct TickClock {
    pub next: u64,
    pub step: u64,
}

impl Clock for TickClock {
    ghost use Rattle.std.specs.Prelude.{true};
    ghost use Rattle.wave_outside.specs.Clocks.{tick};

    ghost tells = { true };

    ghost readings = { λ c k. tick c.next c.step k };

    fn now(&mut self) -> u64 {
        let now = self.next;
        self.next = now.saturating_add(self.step);
        now
    }

    fn another(&self) -> TickClock {
        *self
    }
}
