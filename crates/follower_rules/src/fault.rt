ghost use Rattle.std.specs.Prelude.{◌≡◌};

use thiserror::Error;

/// Why a follower refused a call.
#[derive(Clone, Copy, Debug, PartialEq, Eq, Error)]
pub enum FollowerFault {
    /// The operation of this index isn't valid where the ones before it lead from the screen.
    #[error("operation {0} isn't valid")]
    OpInvalid(u32),
    /// What is pending would insert more items than the deltas of a history may.
    #[error("too many items are pending")]
    EditFull,
    /// The operations have more bytes than a follower puts into a submission.
    #[error("the operations have too many bytes")]
    TooBig,
    /// Each number of a submission was used.
    #[error("no number is left for a submission")]
    NumbersSpent,
    /// Want of memory.
    #[error("out of memory")]
    Memory,
}

impl From<doc_items::Memory> for FollowerFault {
    ghost use Rattle.std.specs.Prelude.{◌≡◌};
    ghost use Rattle.follower_rules.specs.declared.fault.FollowerFault.TheVariants.{Memory};

    ghost from_gives = { λ _ e. e ≡ Memory };

    fn from(_: doc_items::Memory) -> Self {
        FollowerFault::Memory
    }
}
