use std::alloc::AllocError;
use turn_lock::Spent;

/// Why a call had no turn at a copy.
#[derive(Clone, Copy, Drop)]
pub enum TurnFault {
    /// Want of memory.
    Memory,
    /// The shard has no turn left.
    Spent(Spent),
}

impl From<AllocError> for TurnFault {
    ghost use Rattle.std.specs.Prelude.{◌≡◌};
    ghost use Rattle.peer_turns.specs.declared.fault.TurnFault.TheVariants.{Memory};

    ghost from_gives = { λ _ e. e ≡ Memory };

    fn from(_: AllocError) -> Self {
        TurnFault::Memory
    }
}

impl From<Spent> for TurnFault {
    ghost use Rattle.std.specs.Prelude.{◌≡◌};
    ghost use Rattle.peer_turns.specs.declared.fault.TurnFault.TheVariants as fault;

    ghost from_gives = { λ s e. e ≡ fault.Spent s };

    fn from(spent: Spent) -> Self {
        TurnFault::Spent(spent)
    }
}
