//! How much a socket may hold.
use tungstenite::WebSocketConfig;

/// How many bytes one read asks for, and how many a write may keep.
const BUFFER: usize = 16 << 10;

/// How far a message may be above what is allowed, and is still read, so that it can be answered.
const MARGIN: usize = 64 << 10;

/// The largest message that is read from a client.
pub const CLIENT_MESSAGE: usize = (1 << 20) + MARGIN;

/// The largest message that is read from another server, or by a client.
pub const PEER_MESSAGE: usize = (16 << 20) + MARGIN;

/// How many bytes may wait for a peer that doesn't read: two of the largest messages that may be sent.
pub const UNSENT: usize = 32 << 20;

/// How much the sockets of a net may hold.
#[derive(Clone, Copy)]
pub struct Limits {
    /// The largest message that is read from a link that was accepted. A larger one ends its link.
    pub accepted: usize,
    /// The same of a link that was dialled.
    pub dialled: usize,
    /// How many bytes may wait to be sent, beside the message that is leaving. A link at which there are more fails.
    pub unsent: usize,
}

impl Limits {
    /// The limits of a program to which only clients come.
    pub const fn for_clients() -> Limits {
        Limits {
            accepted: CLIENT_MESSAGE,
            dialled: PEER_MESSAGE,
            unsent: UNSENT,
        }
    }

    /// The limits of a program to which other servers come, too.
    pub const fn for_peers() -> Limits {
        Limits {
            accepted: PEER_MESSAGE,
            dialled: PEER_MESSAGE,
            unsent: UNSENT,
        }
    }

    pub(crate) fn of_accepted(&self) -> WebSocketConfig {
        config(self.accepted, self.unsent)
    }

    pub(crate) fn of_dialled(&self) -> WebSocketConfig {
        config(self.dialled, self.unsent)
    }
}

fn config(largest: usize, unsent: usize) -> WebSocketConfig {
    WebSocketConfig {
        read_buffer_size: BUFFER,
        write_buffer_size: BUFFER,
        max_write_buffer_size: unsent,
        max_message_size: Some(largest),
        max_frame_size: Some(largest),
        accept_unmasked_frames: false,
    }
}
