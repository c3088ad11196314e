//! The client's handshake, step by step, and what is sent before its end.
use crate::greeting::is_late;
use crate::outbox::Outbox;
use crate::socket::{Socket, Written, kept};
use mio::net::TcpStream;
use std::alloc::Global;
use std::random::RandomSource;
use std::time::{Clock, Instant};
use tungstenite::handshake::client;
use tungstenite::{ClientHandshake, HandshakeError, MidHandshake, RandomKeys, WebSocketConfig};

type Shaking<R> = MidHandshake<ClientHandshake<TcpStream, RandomKeys<R>>>;

/// The socket of a client.
pub(crate) type Dialled<R> = Socket<RandomKeys<R>>;

/// A client's handshake that goes on.
pub(crate) struct Asking<R: RandomSource + Clock + Copy + Drop> {
    rt: R,
    mid: Shaking<R>,
    began: Instant,
    // Messages that leave once the handshake is done.
    outbox: Outbox,
}

impl<R: RandomSource + Clock + Copy + Drop> Drop for Asking<R> {
    fn drop(self) {
        let Asking {
            rt: _rt,
            mid: _mid,
            began: _began,
            outbox: _outbox,
        } = self;
    }
}

/// How far a client's handshake is.
#[derive(Drop)]
pub(crate) enum Asked<R: RandomSource + Clock + Copy + Drop> {
    Done(Dialled<R>),
    Goes(Asking<R>),
    Failed,
}

impl<R: RandomSource + Clock + Copy + Drop> Asking<R> {
    /// Begins a handshake with the server of this address.
    pub(crate) fn new(
        rt: R,
        alloc: Global,
        stream: TcpStream,
        uri: &str,
        config: WebSocketConfig,
    ) -> Option<Asking<R>> {
        let request = client::request_of(alloc, uri).ok()?;
        let mut nonce = [0u8; 16];
        rt.fill_bytes(&mut nonce).ok()?;
        let began = Instant::now(&rt).ok()?;
        let keys = RandomKeys::new(rt);
        let mid = client::start(alloc, nonce, keys, request, stream, Some(config)).ok()?;
        Some(Asking {
            rt,
            mid,
            began,
            outbox: Outbox::new(alloc, config.max_write_buffer_size),
        })
    }

    /// Keeps a message until the handshake is done.
    pub(crate) fn keep(&mut self, alloc: Global, bytes: &[u8]) -> Written {
        kept(self.outbox.keep(alloc, bytes))
    }

    /// Goes on with the handshake until it would wait. At its end the messages that waited are those of the socket.
    pub(crate) fn step(self, alloc: Global) -> Asked<R> {
        let Asking {
            rt,
            mid,
            began,
            outbox,
        } = self;
        match mid.handshake() {
            Ok((socket, _response)) => Asked::Done(Socket::new(alloc, socket, outbox)),
            Err(HandshakeError::Interrupted(mid)) => {
                if is_late(began, Instant::now(&rt).ok()) {
                    return Asked::Failed;
                }
                Asked::Goes(Asking {
                    rt,
                    mid,
                    began,
                    outbox,
                })
            }
            Err(HandshakeError::Failure(_)) => Asked::Failed,
        }
    }
}
