//! A socket whose handshake is done: what its reads and writes give, and what waits for it.
use crate::outbox::{Outbox, Unkept};
use mio::net::TcpStream;
use std::alloc::Global;
use std::io::ErrorKind;
use tungstenite::{Error, MaskKeys, Message, WebSocket};
use websocket::error::ProtocolError;

/// How many replies to pings may wait for a peer that takes nothing. At one more the socket fails.
const REPLIES: u32 = 1_000;

/// What a look gave.
#[derive(Drop)]
pub(crate) enum Heard {
    Message(Vec<u8>),
    /// Something that is no message of ours. There may be more to read.
    Other,
    /// Nothing is there to be read.
    Empty,
    Closed,
    Failed,
    Memory,
}

/// What became of a message that was to be written, or of the output that was to leave.
#[derive(Clone, Copy)]
pub(crate) enum Written {
    Taken,
    /// It waits for the peer.
    Waits,
    Failed,
    Memory,
}

/// A socket, with the messages that wait for it.
///
/// tungstenite keeps what it wrote of its output until all of it has left. So while the peer doesn't take it, further messages wait in
/// the outbox, and the output never holds more than a message, what one write may keep, and the replies to pings.
pub(crate) struct Socket<K: MaskKeys + Drop> {
    alloc: Global,
    socket: WebSocket<TcpStream, K>,
    outbox: Outbox,
    // Whether the output waits for the peer.
    full: bool,
    // How many replies came to the output since it last left whole.
    replies: u32,
}

impl<K: MaskKeys + Drop> Drop for Socket<K> {
    fn drop(self) {
        let Socket {
            alloc: _alloc,
            socket: _socket,
            outbox: _outbox,
            full: _full,
            replies: _replies,
        } = self;
    }
}

impl<K: MaskKeys + Drop> Socket<K> {
    /// A socket for which these messages wait.
    pub(crate) fn new(alloc: Global, socket: WebSocket<TcpStream, K>, outbox: Outbox) -> Socket<K> {
        Socket {
            alloc,
            socket,
            outbox,
            full: false,
            replies: 0,
        }
    }

    /// Takes a message. It leaves at the next look, if not now.
    pub(crate) fn send(&mut self, bytes: &[u8]) -> Written {
        if self.full || !self.outbox.is_empty() {
            return kept(self.outbox.keep(self.alloc, bytes));
        }
        let written = write_message(self.alloc, &mut self.socket, bytes);
        self.note(written)
    }

    /// Sends what waits, as far as the peer takes it, and reads until it would wait, or something came.
    pub(crate) fn look(&mut self) -> Heard {
        match self.send_waiting() {
            Written::Taken => self.read(),
            Written::Waits => self.read(),
            Written::Failed => Heard::Failed,
            Written::Memory => Heard::Memory,
        }
    }

    /// Sends what waits and a close frame, as far as the peer takes it.
    pub(crate) fn close(self) {
        let mut closing = self;
        let _written = closing.send_waiting();
        let _closed = closing.socket.close(None);
    }

    // Whether the output waits for the peer is what the last write tells.
    fn note(&mut self, written: Written) -> Written {
        self.full = match written {
            Written::Waits => true,
            Written::Taken => false,
            Written::Failed => false,
            Written::Memory => self.full,
        };
        written
    }

    /// Sends the output, and then one waiting message after another, as far as the peer takes them.
    pub(crate) fn send_waiting(&mut self) -> Written {
        let flushed = written_of(self.socket.flush());
        let mut written = self.note(flushed);
        if !self.full {
            self.replies = 0;
        }
        for _ in 0..self.outbox.len() {
            match written {
                Written::Taken => written = self.send_first(),
                Written::Waits => return Written::Waits,
                Written::Failed => return Written::Failed,
                Written::Memory => return Written::Memory,
            }
        }
        written
    }

    // Puts the first of the messages that wait into the output.
    fn send_first(&mut self) -> Written {
        let written = match self.outbox.first() {
            Some(bytes) => write_message(self.alloc, &mut self.socket, bytes.as_slice()),
            None => return Written::Taken,
        };
        match written {
            Written::Taken => self.outbox.drop_first(),
            Written::Waits => self.outbox.drop_first(),
            Written::Failed => {}
            Written::Memory => {}
        }
        self.note(written)
    }

    fn read(&mut self) -> Heard {
        let heard = read_message(self.alloc, &mut self.socket);
        if self.full && is_other(&heard) {
            self.replies = self.replies.saturating_add(1);
            if self.replies > REPLIES {
                return Heard::Failed;
            }
        }
        heard
    }
}

/// What becomes of a message that waits in an outbox, if it does.
pub(crate) fn kept(outcome: Result<(), Unkept>) -> Written {
    match outcome {
        Ok(()) => Written::Waits,
        Err(Unkept::Full) => Written::Failed,
        Err(Unkept::Memory) => Written::Memory,
    }
}

fn is_other(heard: &Heard) -> bool {
    match heard {
        Heard::Other => true,
        _ => false,
    }
}

// Reads until it would wait, or something came.
fn read_message<K: MaskKeys + Drop>(alloc: Global, socket: &mut WebSocket<TcpStream, K>) -> Heard {
    match socket.read() {
        Ok(Message::Text(text)) => bytes_of(alloc, text.as_str().as_bytes()),
        Ok(Message::Binary(bytes)) => bytes_of(alloc, bytes.as_slice()),
        Ok(_) => Heard::Other,
        Err(error) => fault_of(error),
    }
}

fn bytes_of(alloc: Global, bytes: &[u8]) -> Heard {
    match Vec::from_slice(alloc, bytes) {
        Ok(copy) => Heard::Message(copy),
        Err(_) => Heard::Memory,
    }
}

fn fault_of(error: Error) -> Heard {
    match error {
        Error::ConnectionClosed => Heard::Closed,
        Error::AlreadyClosed => Heard::Closed,
        // The stream ended without a close frame.
        Error::Protocol(ProtocolError::ResetWithoutClosingHandshake) => Heard::Closed,
        Error::OutOfMemory => Heard::Memory,
        Error::Io(fault) => {
            if fault.kind() == ErrorKind::WouldBlock {
                Heard::Empty
            } else {
                Heard::Failed
            }
        }
        _ => Heard::Failed,
    }
}

// Puts a message into the socket's output, as a text, or where it is no text as a binary.
fn write_message<K: MaskKeys + Drop>(
    alloc: Global,
    socket: &mut WebSocket<TcpStream, K>,
    bytes: &[u8],
) -> Written {
    match framed(alloc, bytes) {
        Some(message) => written_of(socket.write(message)),
        None => Written::Memory,
    }
}

fn framed(alloc: Global, bytes: &[u8]) -> Option<Message> {
    match std::str::from_utf8(bytes) {
        Ok(text) => Message::text(alloc, text).ok(),
        Err(_) => Message::binary(alloc, bytes).ok(),
    }
}

fn written_of(written: Result<(), Error>) -> Written {
    match written {
        Ok(()) => Written::Taken,
        Err(Error::OutOfMemory) => Written::Memory,
        Err(Error::Io(fault)) => {
            // The frame waits in the output.
            if fault.kind() == ErrorKind::WouldBlock {
                Written::Waits
            } else {
                Written::Failed
            }
        }
        Err(_) => Written::Failed,
    }
}
