// The system's clock.
use std::rt::Clock as Time;
use std::time::{SystemTime, UNIX_EPOCH};
use wave_outside::Clock;

/// Milliseconds since 1970-01-01 UTC. A reading that fails is the last one, or 0.
#[derive(Drop)]
pub struct SystemClock<R: Time + Copy> {
    rt: R,
    last: u64,
}

impl<R: Time + Copy> SystemClock<R> {
    pub fn new(rt: R) -> Self {
        SystemClock { rt, last: 0 }
    }
}

// The milliseconds since 1970-01-01 UTC.
fn milliseconds<R: Time>(rt: &R) -> Option<u64> {
    let now = SystemTime::now(rt).ok()?;
    let since = now.duration_since(UNIX_EPOCH).ok()?;
    u64::try_from(since.as_millis()).ok()
}

impl<R: Time + Copy> Clock for SystemClock<R> {
    ghost use Rattle.std.specs.Prelude.{false};

    ghost tells = { false };

    ghost readings = { λ _ _. 0 };

    fn now(&mut self) -> u64 {
        if let Some(now) = milliseconds(&self.rt) {
            self.last = now;
        }
        self.last
    }

    fn another(&self) -> Self {
        SystemClock {
            rt: self.rt,
            last: self.last,
        }
    }
}
