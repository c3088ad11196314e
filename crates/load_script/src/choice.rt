// What a follower does in its turn.
ghost use Rattle.std.specs.Prelude.{◌≡◌, ◌<◌};
ghost use Rattle.load_script.specs.Loads.{choice_of};

/// What a follower does in its turn.
#[derive(Clone, Copy, Drop)]
pub(crate) enum Choice {
    Types,
    Erases,
    Exchanges,
}

impl Choice {
    /// The choice of a number below 4.
    pub fn of(number: u64) -> Choice
        requires { number < 4 }
        ensures { result ≡ choice_of number }
    {
        match number {
            0 => Choice::Types,
            1 => Choice::Types,
            2 => Choice::Erases,
            _ => Choice::Exchanges,
        }
    }
}
