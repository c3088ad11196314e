use thiserror::Error;
use wave_base::SessionName;

/// Why bytes are no message: the first of these that holds.
#[derive(Clone, Copy, Debug, PartialEq, Eq)]
pub enum Kind {
    /// There are more of them than the limit.
    TooLong,
    /// They are no JSON in UTF-8.
    NotJson,
    /// They hand in more than 1,000 operations.
    TooMany,
    /// They are no message of the table.
    NotMessage,
}

/// Why no message was read.
#[derive(Clone, Copy, Debug, PartialEq, Eq, Error)]
pub enum MessageFault {
    /// The bytes are no message.
    #[error("no message")]
    BadMessage(Kind),
    /// Want of memory.
    #[error("out of memory")]
    Memory,
}

impl From<doc_items::Memory> for MessageFault {
    ghost use Rattle.std.specs.Prelude.{◌≡◌};
    ghost use Rattle.wave_messages.specs.declared.fault.MessageFault.TheVariants.{Memory};

    ghost from_gives = { λ _ e. e ≡ Memory };

    fn from(_: doc_items::Memory) -> Self {
        MessageFault::Memory
    }
}

/// Why no line was read.
#[derive(Debug, Drop, Error)]
pub enum LineFault {
    /// The bytes are no line. The answer goes to the session that they name, or where they name none to the one without a name.
    #[error("no line")]
    Bad {
        session: Option<SessionName>,
        kind: Kind,
    },
    /// Want of memory.
    #[error("out of memory")]
    Memory,
}

impl From<doc_items::Memory> for LineFault {
    ghost use Rattle.std.specs.Prelude.{◌≡◌};
    ghost use Rattle.wave_messages.specs.declared.fault.LineFault.TheVariants.{Memory};

    ghost from_gives = { λ _ e. e ≡ Memory };

    fn from(_: doc_items::Memory) -> Self {
        LineFault::Memory
    }
}
