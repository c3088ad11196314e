use std::alloc::AllocError;
use turn_lock::Spent;

/// Why a call of a hub gave no answer.
#[derive(Clone, Copy, Drop)]
pub enum HubFault {
    /// The shard has no turn left.
    Spent(Spent),
    /// Want of memory.
    Memory,
}

impl From<AllocError> for HubFault {
    ghost use Rattle.std.specs.Prelude.{◌≡◌};
    ghost use Rattle.session_hub.specs.declared.fault.HubFault.TheVariants.{Memory};

    ghost from_gives = { λ _ e. e ≡ Memory };

    fn from(_: AllocError) -> Self {
        HubFault::Memory
    }
}

impl From<Spent> for HubFault {
    ghost use Rattle.std.specs.Prelude.{◌≡◌};
    ghost use Rattle.session_hub.specs.declared.fault.HubFault.TheVariants as fault;

    ghost from_gives = { λ s e. e ≡ fault.Spent s };

    fn from(spent: Spent) -> Self {
        HubFault::Spent(spent)
    }
}
