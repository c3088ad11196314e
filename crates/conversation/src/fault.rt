use crate::Id;
use thiserror::Error;

/// Why an edit of a conversation has no operation.
#[derive(Debug, Drop, Error)]
pub enum ConversationFault {
    /// The blip or thread of this id isn't in the tree.
    #[error("no such blip")]
    NoBlip(Id),
    /// A new id is already that of a blip or thread, or of the other new one.
    #[error("an id that is taken")]
    TakenId(Id),
    /// The manifest would have more items than a document may have.
    #[error("more items than a document may have")]
    CountTooLarge,
    /// Want of memory.
    #[error("out of memory")]
    Memory,
}

impl From<doc_items::Memory> for ConversationFault {
    ghost use Rattle.std.specs.Prelude.{◌≡◌};
    ghost use Rattle.conversation.specs.declared.fault.ConversationFault.TheVariants.{Memory};

    ghost from_gives = { λ _ e. e ≡ Memory };

    fn from(_: doc_items::Memory) -> Self {
        ConversationFault::Memory
    }
}
