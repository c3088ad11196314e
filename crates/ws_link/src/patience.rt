//! How long who looks waits where nothing came.

/// How long a wait may last, which grows with each wait in a row, up to a limit. All times are in milliseconds.
#[derive(Clone, Copy)]
pub struct Patience {
    next: u64,
    shortest: u64,
    longest: u64,
}

impl Patience {
    /// The patience of a link which doesn't wait by itself, since its owner waits elsewhere.
    pub const fn none() -> Patience {
        Patience::between(0, 0)
    }

    /// The patience of a link which is all that its owner listens to, with its bell: these end each wait, so that a short one would only
    /// look in vain.
    pub const fn of_session() -> Patience {
        Patience::between(250, 1_000)
    }

    /// The patience of a link whose owner also looks elsewhere, where no bell is rung.
    pub const fn of_terminal() -> Patience {
        Patience::between(1, 50)
    }

    const fn between(shortest: u64, longest: u64) -> Patience {
        Patience {
            next: 0,
            shortest,
            longest,
        }
    }

    /// Whether it is that of a link which doesn't wait by itself.
    pub(crate) fn is_none(&self) -> bool {
        self.longest == 0
    }

    /// How many milliseconds the next wait may take: none at first, then the shortest time, and then twice as long as before.
    pub(crate) fn take(&mut self) -> u64 {
        let now = self.next;
        self.next = now.saturating_mul(2).max(self.shortest).min(self.longest);
        now
    }

    /// Something came or left.
    pub(crate) fn renew(&mut self) {
        self.next = 0;
    }
}
