//! Where a server listens.
ghost use Rattle.std.specs.Prelude.{◌<◌, length, IfSome};

use crate::bells::Bells;
use crate::greeting::{Greeted, Greeting};
use crate::waiting::{SOCKET, Waiting};
use mio::Token;
use mio::net::{TcpListener, TcpStream};
use std::alloc::{AllocError, Global};
use std::io;
use std::io::ErrorKind;
use std::mem::replace;
use std::net::{Net as Sockets, SocketAddr};
use std::sync::Arc;
use std::time::{Clock, Instant};
use tungstenite::{NoMask, WebSocket, WebSocketConfig};

/// How long a rest at the door lasts at most, in milliseconds.
const LONG: u64 = 1_000;

/// How long it lasts where a connection waits for which there was no room.
const SHORT: u64 = 20;

/// How many handshakes go on at once. At one more the oldest is dropped.
const GREETINGS: usize = 256;

/// The first token of a handshake.
const FIRST: usize = 2;

/// The errors of the system that say that there was no room for a connection: too many descriptors in the system or in the process,
/// no memory, no buffers.
const NO_ROOM: [i32; 4] = [23, 24, 12, 105];

/// Where a server listens.
pub(crate) struct Door {
    listener: TcpListener,
    // The handshakes under way, in any order.
    greetings: Vec<Greeting>,
    next: usize,
    // Whether a connection may wait.
    awake: bool,
    // Whether there was no room for one.
    crowded: bool,
    // Whether a connection was asked for since the last rest.
    asked: bool,
    waiting: Waiting,
}

impl Drop for Door {
    fn drop(self) {
        let Door {
            listener: _listener,
            greetings: _greetings,
            next: _next,
            awake: _awake,
            crowded: _crowded,
            asked: _asked,
            waiting: _waiting,
        } = self;
    }
}

/// What a look at the door gave.
#[derive(Drop)]
pub(crate) enum Knock {
    Greeted(WebSocket<TcpStream, NoMask>),
    Nothing,
    Failed,
}

impl Door {
    pub(crate) fn open<R: Sockets>(
        rt: &R,
        alloc: Global,
        address: SocketAddr,
        bells: &Arc<Bells, Global>,
    ) -> io::Result<Door> {
        let mut listener = TcpListener::bind(rt, address)?;
        let mut waiting = Waiting::new(rt, alloc)?;
        waiting.watch(&mut listener, SOCKET)?;
        waiting.hang_at_door(bells)?;
        Ok(Door {
            listener,
            greetings: Vec::new(alloc),
            next: FIRST,
            awake: true,
            crowded: false,
            asked: false,
            waiting,
        })
    }

    /// Where it listens.
    pub(crate) fn address(&self) -> io::Result<SocketAddr> {
        self.listener.local_addr()
    }

    /// A link that doesn't wait by itself ends the rests at the door.
    pub(crate) fn watch(&self, stream: &mut TcpStream) -> io::Result<()> {
        self.waiting.watch(stream, SOCKET)
    }

    /// Takes in a connection, if one waits, and goes on with each handshake, until one is done. It doesn't wait.
    pub(crate) fn knock<C: Clock>(
        &mut self,
        clock: &C,
        alloc: Global,
        config: WebSocketConfig,
    ) -> Knock {
        self.asked = true;
        if self.awake && self.take_in(clock, alloc, config).is_err() {
            return Knock::Failed;
        }
        match self.go_on(Instant::now(clock).ok()) {
            Some(socket) => Knock::Greeted(socket),
            None => Knock::Nothing,
        }
    }

    // Takes in the next connection, if one waits.
    fn take_in<C: Clock>(
        &mut self,
        clock: &C,
        alloc: Global,
        config: WebSocketConfig,
    ) -> io::Result<()> {
        match self.listener.accept() {
            Ok((stream, _peer)) => {
                let _greeted = self.greet(clock, alloc, config, stream);
                Ok(())
            }
            Err(fault) => self.refuse(fault),
        }
    }

    // There is no connection to take in.
    fn refuse(&mut self, fault: io::Error) -> io::Result<()> {
        match fault.kind() {
            ErrorKind::WouldBlock => {
                self.awake = false;
                Ok(())
            }
            ErrorKind::ConnectionAborted => Ok(()),
            _ => {
                if is_no_room(&fault) {
                    self.crowded = true;
                    Ok(())
                } else {
                    Err(fault)
                }
            }
        }
    }

    // Begins a handshake. A connection that there is no room for is dropped.
    fn greet<C: Clock>(
        &mut self,
        clock: &C,
        alloc: Global,
        config: WebSocketConfig,
        mut stream: TcpStream,
    ) -> io::Result<()> {
        let _quick = stream.set_nodelay(true);
        let token = self.token();
        self.waiting.watch(&mut stream, token)?;
        let began = Instant::now(clock)?;
        if self.greetings.len() >= GREETINGS {
            self.drop_oldest();
        }
        self.keep(Greeting::new(alloc, stream, token, began, config))?;
        Ok(())
    }

    fn keep(&mut self, greeting: Greeting) -> Result<(), AllocError> {
        self.greetings.push(greeting)?;
        Ok(())
    }

    // A token for the next handshake.
    fn token(&mut self) -> Token {
        let token = Token(self.next);
        self.next = self.next.wrapping_add(1).max(FIRST);
        token
    }

    fn drop_oldest(&mut self) {
        let mut oldest = 0usize;
        for place in 0..self.greetings.len() {
            if self.is_older(place, oldest) {
                oldest = place;
            }
        }
        if oldest < self.greetings.len() {
            let _oldest = self.greetings.swap_remove(oldest);
        }
    }

    // Whether the handshake at one place began before that at another.
    fn is_older(&self, place: usize, other: usize) -> bool {
        match self.greetings.get(place) {
            Some(greeting) => match self.greetings.get(other) {
                Some(other) => greeting.is_older(other),
                None => false,
            },
            None => false,
        }
    }

    // The place of a handshake that can go on, or that takes too long.
    fn next_place(&self, now: Option<Instant>) -> Option<usize>
        ensures { IfSome result (λ place. place < length self.now.greetings.items) }
    {
        for place in 0..self.greetings.len() {
            let greeting = &self.greetings[place];
            if greeting.is_ready() || greeting.is_late(now) {
                return Some(place);
            }
        }
        None
    }

    // Goes on with each handshake that can, until one is done.
    fn go_on(&mut self, now: Option<Instant>) -> Option<WebSocket<TcpStream, NoMask>> {
        for _ in 0..GREETINGS {
            let place = self.next_place(now)?;
            match self.greetings.swap_remove(place).step(now) {
                Greeted::Done(mut socket) => {
                    self.waiting.forget(socket.get_mut());
                    return Some(socket);
                }
                Greeted::Goes(greeting) => {
                    let _kept = self.keep(greeting);
                }
                Greeted::Failed => {}
            }
        }
        None
    }

    /// Sleeps until something may have come. Where no connection was asked for since the last rest, those that wait don't end it.
    pub(crate) fn rest(&mut self) {
        let asked = replace(&mut self.asked, false);
        if self.crowded {
            self.crowded = false;
            self.waiting.wait(SHORT);
        } else if !asked || (!self.awake && !self.is_greeting()) {
            self.waiting.wait(LONG);
        } else {
            return;
        }
        self.hear();
    }

    // Whether a handshake can go on.
    fn is_greeting(&self) -> bool {
        for greeting in &self.greetings {
            if greeting.is_ready() {
                return true;
            }
        }
        false
    }

    // Notes which sockets are ready.
    fn hear(&mut self) {
        for event in self.waiting.events().iter() {
            let token = event.token();
            if token == SOCKET {
                self.awake = true;
            }
            for greeting in &mut self.greetings {
                greeting.hear(token);
            }
        }
    }
}

fn is_no_room(fault: &io::Error) -> bool {
    match fault.raw_os_error() {
        Some(code) => NO_ROOM.contains(&code),
        None => false,
    }
}
