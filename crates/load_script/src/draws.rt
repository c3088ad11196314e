// The numbers that are drawn.
ghost use Rattle.std.specs.Prelude.{◌≡◌, ◌<◌};
ghost use Rattle.load_script.specs.Draws.{next, drawn};

use std::marker::Model;

/// Draws numbers. Seen as its state.
#[derive(Drop)]
pub(crate) struct Draws {
    state: u64,
}

impl Model for Draws {
    ghost use Rattle.std.specs.Prelude.{ℕ};

    ghost Value = { ℕ };

    ghost view = { λ d. d.state };
}

impl Draws {
    /// The draws that begin at a state.
    pub fn new(state: u64) -> Draws
        ensures { result ≡ state }
    {
        Draws { state }
    }

    /// Draws a number below the bound.
    #[tactic(auto, unfolding(crate::specs::Draws::drawn))]
    pub fn below(&mut self, bound: u64) -> u64
        requires { 0 < bound }
        ensures value { result ≡ drawn bound self.old }
        ensures bound { result < bound }
        ensures next { self.new ≡ next self.old }
    {
        self.state = next(self.state);
        (self.state >> 33) % bound
    }
}

// The state after a draw.
fn next(state: u64) -> u64
    ensures { result ≡ next state }
{
    state
        .wrapping_mul(6364136223846793005)
        .wrapping_add(1442695040888963407)
}
