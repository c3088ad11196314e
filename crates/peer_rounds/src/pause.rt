ghost use Rattle.std.specs.Prelude.{◌≡◌, ◌<◌, ◌==◌};
ghost use Rattle.federation_link.specs.declared.stepped.Stepped.{Stepped};
ghost use Rattle.peer_rounds.specs.Pauses.{IsUnpaused, IsShorter, PausesAfter};

use federation_link::Stepped;

/// The most turns that a peer pauses.
const MOST: u8 = 16;

/// How many turns a peer pauses still, and how many it pauses after the next cut.
#[derive(Clone, Copy, Debug, Drop, PartialEq, Eq)]
pub struct Pause {
    left: u8,
    next: u8,
}

impl Pause {
    /// No pause, and one of one turn after the next cut.
    pub(crate) fn none() -> Pause
        ensures { IsUnpaused result }
    {
        Pause { left: 0, next: 1 }
    }

    /// Whether no turn is left of it.
    pub(crate) fn is_over(self) -> bool
        ensures { result ≡ (self.left == 0) }
    {
        self.left == 0
    }

    /// The pause after one turn of it.
    pub(crate) fn shorter(self) -> Pause
        requires { 0 < self.left }
        ensures { IsShorter self result }
    {
        Pause {
            left: self.left - 1,
            next: self.next,
        }
    }

    /// The pause after a step that came to this.
    pub(crate) fn after(self, stepped: Stepped) -> Pause
        ensures { PausesAfter stepped self result }
    {
        match stepped {
            Stepped::Dialled => self,
            Stepped::Worked => Pause::none(),
            Stepped::Idle => Pause::none(),
            Stepped::Cut => Pause {
                left: self.next,
                next: self.next.saturating_add(self.next).min(MOST),
            },
        }
    }
}
