// Why a run of commands stops.
use std::alloc::AllocError;
use wave_outside::Failed;

/// Why a run stopped before its end.
#[derive(Clone, Copy, Debug, PartialEq, Eq)]
pub(crate) enum Stop {
    /// The source failed.
    Source,
    /// The sink failed.
    Sink,
    /// Want of memory.
    Memory,
    /// So many bytes were read as one run reads at most.
    Limit,
}

impl From<AllocError> for Stop {
    ghost use Rattle.std.specs.Prelude.{◌≡◌};
    ghost use Rattle.wave_terminal.specs.declared.stop.Stop.TheVariants.{Memory};

    ghost from_gives = { λ _ e. e ≡ Memory };

    fn from(_: AllocError) -> Self {
        Stop::Memory
    }
}

impl From<Failed> for Stop {
    ghost use Rattle.std.specs.Prelude.{◌≡◌};
    ghost use Rattle.wave_terminal.specs.declared.stop.Stop.TheVariants.{Sink};

    ghost from_gives = { λ _ e. e ≡ Sink };

    fn from(_: Failed) -> Self {
        Stop::Sink
    }
}
