ghost use Rattle.std.specs.Prelude.{◌≡◌};

use thiserror::Error;
use wave_base::HashedVersion;

/// Why a delta isn't taken into a history.
#[derive(Clone, Copy, Debug, Error)]
pub enum HistoryFault {
    /// It starts at `got`, and the history is at `have`.
    #[error("a delta that doesn't start at the head")]
    NotNext {
        have: HashedVersion,
        got: HashedVersion,
    },
    /// The history wouldn't be legal with it.
    #[error("a delta with which the history isn't legal")]
    NotLegal,
    /// Want of memory.
    #[error("out of memory")]
    Memory,
}

impl From<doc_items::Memory> for HistoryFault {
    ghost use Rattle.std.specs.Prelude.{◌≡◌};
    ghost use Rattle.delta_history.specs.declared.fault.HistoryFault.TheVariants.{Memory};

    ghost from_gives = { λ _ e. e ≡ Memory };

    fn from(_: doc_items::Memory) -> Self {
        HistoryFault::Memory
    }
}
