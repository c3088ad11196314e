//! The server's handshake, step by step.
use mio::Token;
use mio::net::TcpStream;
use std::alloc::Global;
use std::time::{Duration, Instant};
use tungstenite::handshake::server;
use tungstenite::{
    HandshakeError, MidHandshake, NoCallback, NoMask, ServerHandshake, WebSocket, WebSocketConfig,
};

/// How long a handshake may take, in seconds.
const HANDSHAKE: u64 = 10;

/// Whether a handshake that began then takes too long. Where the clock fails none does.
pub(crate) fn is_late(began: Instant, now: Option<Instant>) -> bool {
    match now {
        Some(now) => now.saturating_duration_since(began) > Duration::from_secs(HANDSHAKE),
        None => false,
    }
}

type Shaking = MidHandshake<ServerHandshake<TcpStream, NoCallback>>;

/// A server's handshake that goes on.
pub(crate) struct Greeting {
    mid: Shaking,
    began: Instant,
    token: Token,
    // Whether a step may find something.
    ready: bool,
}

impl Drop for Greeting {
    fn drop(self) {
        let Greeting {
            mid: _mid,
            began: _began,
            token: _token,
            ready: _ready,
        } = self;
    }
}

/// How far a server's handshake is.
#[derive(Drop)]
pub(crate) enum Greeted {
    Done(WebSocket<TcpStream, NoMask>),
    Goes(Greeting),
    Failed,
}

impl Greeting {
    /// A handshake over a stream that is watched by this token.
    pub(crate) fn new(
        alloc: Global,
        stream: TcpStream,
        token: Token,
        began: Instant,
        config: WebSocketConfig,
    ) -> Greeting {
        Greeting {
            mid: server::start(alloc, stream, NoCallback, Some(config)),
            began,
            token,
            ready: true,
        }
    }

    /// A socket with this token is ready.
    pub(crate) fn hear(&mut self, token: Token) {
        if self.token == token {
            self.ready = true;
        }
    }

    /// Whether a step may find something.
    pub(crate) fn is_ready(&self) -> bool {
        self.ready
    }

    /// Whether it takes too long.
    pub(crate) fn is_late(&self, now: Option<Instant>) -> bool {
        is_late(self.began, now)
    }

    /// Whether it began before the other.
    pub(crate) fn is_older(&self, other: &Greeting) -> bool {
        self.began < other.began
    }

    /// Goes on with the handshake until it would wait, or ends it where it takes too long.
    pub(crate) fn step(self, now: Option<Instant>) -> Greeted {
        if self.is_late(now) {
            return Greeted::Failed;
        }
        self.go_on()
    }

    fn go_on(self) -> Greeted {
        let Greeting {
            mid,
            began,
            token,
            ready: _ready,
        } = self;
        match mid.handshake() {
            Ok(socket) => Greeted::Done(socket),
            Err(HandshakeError::Interrupted(mid)) => Greeted::Goes(Greeting {
                mid,
                began,
                token,
                ready: false,
            }),
            Err(HandshakeError::Failure(_)) => Greeted::Failed,
        }
    }
}
