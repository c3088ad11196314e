use peer_turns::TurnFault;
use std::alloc::AllocError;
use wave_outside::LinkFault;

/// Why a step stopped on its way.
#[derive(Clone, Copy, Drop)]
pub(crate) enum Stop {
    /// The link failed.
    Link,
    /// Want of memory, or a turn that was refused.
    Turn(TurnFault),
}

impl From<AllocError> for Stop {
    ghost use Rattle.std.specs.Prelude.{◌≡◌};
    ghost use Rattle.peer_turns.specs.declared.fault.TurnFault.TheVariants.{Memory};
    ghost use Rattle.federation_link.specs.declared.stop.Stop.TheVariants.{Turn};

    ghost from_gives = { λ _ e. e ≡ Turn Memory };

    fn from(_: AllocError) -> Self {
        Stop::Turn(TurnFault::Memory)
    }
}

impl From<TurnFault> for Stop {
    ghost use Rattle.std.specs.Prelude.{◌≡◌};
    ghost use Rattle.federation_link.specs.declared.stop.Stop.TheVariants.{Turn};

    ghost from_gives = { λ f e. e ≡ Turn f };

    fn from(fault: TurnFault) -> Self {
        Stop::Turn(fault)
    }
}

impl From<LinkFault> for Stop {
    ghost use Rattle.std.specs.Prelude.{◌≡◌};
    ghost use Rattle.federation_link.specs.Stops.{link_stop};

    ghost from_gives = { λ f e. e ≡ link_stop f };

    fn from(fault: LinkFault) -> Self {
        match fault {
            LinkFault::Failed => Stop::Link,
            LinkFault::Memory => Stop::Turn(TurnFault::Memory),
        }
    }
}
