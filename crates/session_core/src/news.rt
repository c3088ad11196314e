// What a session is sent, and what it is replied.
ghost use Rattle.std.specs.Prelude.{◌≡◌};
ghost use Rattle.session_core.specs.News.{reply_message};

use std::alloc::Global;
use wave_base::WaveletName;
use wave_messages::{Message, WrittenSnapshot};
use wavelet_op::AppliedDelta;

/// What a session is sent: a delta is lent, with the place that it has in the history of its wavelet.
pub enum News<'a> {
    /// A delta, as an `update`.
    Update {
        name: &'a WaveletName,
        place: usize,
        delta: &'a AppliedDelta,
    },
    /// A delta, as an `applied`.
    Applied {
        name: &'a WaveletName,
        place: usize,
        delta: &'a AppliedDelta,
    },
    /// Any other message.
    Message(Message),
}

impl<'a> Drop for News<'a> {
    fn drop(self) {
        match self {
            News::Update {
                name: _name,
                place: _place,
                delta: _delta,
            } => {}
            News::Applied {
                name: _name,
                place: _place,
                delta: _delta,
            } => {}
            News::Message(_message) => {}
        }
    }
}

/// A reply to a session.
pub enum Reply {
    /// A message.
    Message(Message),
    /// A snapshot, whose message is written already.
    Snapshot(WrittenSnapshot),
}

impl Drop for Reply {
    fn drop(self) {
        match self {
            Reply::Message(_message) => {}
            Reply::Snapshot(_snapshot) => {}
        }
    }
}

impl Reply {
    /// The message of the reply.
    pub fn into_message(self) -> Message
        ensures { result ≡ reply_message self }
    {
        match self {
            Reply::Message(message) => message,
            Reply::Snapshot(snapshot) => Message::Snapshot(snapshot.into_snapshot()),
        }
    }
}
