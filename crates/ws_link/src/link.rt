//! A link over a socket.
ghost use Rattle.std.specs.Prelude.{◌≡◌, ◌≤◌, [], false, IfErr};
ghost use Rattle.wave_outside.specs.Counts.{Rose, raised};
ghost use Rattle.wave_outside.specs.declared.link.LinkFault.TheVariants.{Failed};
ghost use Rattle.wave_outside.specs.declared.link.Polled.TheVariants.{Nothing};

use crate::dialling::{Asked, Asking, Dialled};
use crate::patience::Patience;
use crate::socket::{Heard, Socket, Written};
use crate::waiting::Waiting;
use std::alloc::Global;
use std::mem::replace;
use std::random::RandomSource;
use std::time::Clock;
use tungstenite::NoMask;
use wave_outside::{Faults, Link, LinkFault, Polled};

/// How far the socket is.
pub(crate) enum State<R: RandomSource + Clock + Copy + Drop> {
    Asking(Asking<R>),
    Served(Socket<NoMask>),
    Dialled(Dialled<R>),
    Gone,
}

impl<R: RandomSource + Clock + Copy + Drop> Drop for State<R> {
    fn drop(self) {
        match self {
            State::Asking(_asking) => {}
            State::Served(_socket) => {}
            State::Dialled(_socket) => {}
            State::Gone => {}
        }
    }
}

impl<R: RandomSource + Clock + Copy + Drop> State<R> {
    // A look at the socket, and the state after it.
    fn looked(self, alloc: Global) -> (State<R>, Heard) {
        match self {
            State::Asking(asking) => match asking.step(alloc) {
                Asked::Done(socket) => (State::Dialled(socket), Heard::Other),
                Asked::Goes(asking) => (State::Asking(asking), Heard::Empty),
                Asked::Failed => (State::Gone, Heard::Failed),
            },
            State::Served(mut socket) => {
                let heard = socket.look();
                (State::Served(socket), heard)
            }
            State::Dialled(mut socket) => {
                let heard = socket.look();
                (State::Dialled(socket), heard)
            }
            State::Gone => (State::Gone, Heard::Failed),
        }
    }

    // Sends what waits, as far as the peer takes it, and reads nothing. A handshake under way goes on at a look alone.
    fn flush(&mut self) -> Written {
        match self {
            State::Asking(_asking) => Written::Waits,
            State::Served(socket) => socket.send_waiting(),
            State::Dialled(socket) => socket.send_waiting(),
            State::Gone => Written::Failed,
        }
    }

    fn give(&mut self, alloc: Global, bytes: &[u8]) -> Written {
        match self {
            State::Asking(asking) => asking.keep(alloc, bytes),
            State::Served(socket) => socket.send(bytes),
            State::Dialled(socket) => socket.send(bytes),
            State::Gone => Written::Failed,
        }
    }

    // Writes what waits, and a close frame, as far as the socket takes it.
    fn close(self) {
        match self {
            State::Asking(_asking) => {}
            State::Served(socket) => socket.close(),
            State::Dialled(socket) => socket.close(),
            State::Gone => {}
        }
    }
}

/// A link over a socket that doesn't block. It tells nothing of its content.
pub struct SocketLink<R: RandomSource + Clock + Copy + Drop> {
    state: State<R>,
    // Where it waits; None where its owner waits elsewhere.
    waiting: Option<Waiting>,
    patience: Patience,
    // Whether a look at the socket may find something.
    awake: bool,
    // Whether something was sent since the last look or flush.
    leaving: bool,
    faults: Faults,
    looks: u64,
    closed: bool,
}

impl<R: RandomSource + Clock + Copy + Drop> Drop for SocketLink<R> {
    fn drop(self) {
        let SocketLink {
            state: _state,
            waiting: _waiting,
            patience: _patience,
            awake: _awake,
            leaving: _leaving,
            faults: _faults,
            looks: _looks,
            closed: _closed,
        } = self;
    }
}

impl<R: RandomSource + Clock + Copy + Drop> SocketLink<R> {
    /// A link whose socket is in this state.
    pub(crate) fn over(
        state: State<R>,
        waiting: Option<Waiting>,
        patience: Patience,
    ) -> SocketLink<R>
        ensures { (result.faults.count ≡ 0) × (result.closed ≡ false) }
    {
        SocketLink {
            state,
            waiting,
            patience,
            awake: true,
            leaving: false,
            faults: Faults::none(),
            looks: 0,
            closed: false,
        }
    }

    /// How many calls have failed.
    pub(crate) fn faults(&self) -> u64
        ensures { result ≡ self.now.faults.count }
    {
        self.faults.count
    }

    /// Closes the link.
    pub(crate) fn leave(self) {
        let SocketLink {
            state,
            waiting: _waiting,
            patience: _patience,
            awake: _awake,
            leaving: _leaving,
            faults: _faults,
            looks: _looks,
            closed: _closed,
        } = self;
        state.close();
    }

    // Looks at the socket. What was sent leaves before.
    fn look(&mut self, alloc: Global) -> Heard
        ensures { (self.new.faults ≡ self.old.faults) × (self.new.looks ≡ self.old.looks) × (self.new.closed ≡ self.old.closed) }
    {
        self.leaving = false;
        let state = replace(&mut self.state, State::Gone);
        let (state, heard) = state.looked(alloc);
        self.state = state;
        heard
    }

    // Sleeps until the socket is ready or the bell rings.
    fn rest(&mut self)
        ensures { (self.new.faults ≡ self.old.faults) × (self.new.looks ≡ self.old.looks) × (self.new.closed ≡ self.old.closed) }
    {
        let time = self.patience.take();
        if time == 0 {
            return;
        }
        if let Some(waiting) = &mut self.waiting {
            waiting.wait(time);
            self.awake = waiting.may_find();
        }
    }

    // The link is of no more use.
    fn fail(&mut self) -> LinkFault
        ensures fault { result ≡ Failed }
        ensures rose { Rose self.old.faults.count self.new.faults.count }
        ensures later { self.old.faults.count ≤ self.new.faults.count }
        ensures same { (self.new.looks ≡ self.old.looks) × (self.new.closed ≡ self.old.closed) }
    {
        self.state = State::Gone;
        self.faults.raise().into()
    }

    // Nothing was there.
    fn nothing(&mut self) -> Polled
        ensures result { result ≡ Nothing }
        ensures looks { self.new.looks ≡ raised self.old.looks }
        ensures more_looks { self.old.looks ≤ self.new.looks }
        ensures same { (self.new.faults ≡ self.old.faults) × (self.new.closed ≡ self.old.closed) }
    {
        self.looks = self.looks.saturating_add(1);
        Polled::Nothing
    }

    // What was sent leaves, where nothing is there to be read.
    fn flush(&mut self) -> Result<(), LinkFault>
        ensures failed { IfErr result (λ e. e ≡ Failed → Rose self.old.faults.count self.new.faults.count) }
        ensures later { self.old.faults.count ≤ self.new.faults.count }
        ensures same { (self.new.looks ≡ self.old.looks) × (self.new.closed ≡ self.old.closed) }
    {
        if !replace(&mut self.leaving, false) {
            return Ok(());
        }
        match self.state.flush() {
            Written::Taken => Ok(()),
            Written::Waits => Ok(()),
            Written::Memory => Err(LinkFault::Memory),
            Written::Failed => Err(self.fail()),
        }
    }

    // Nothing is there to be read.
    fn idle(&mut self) -> Polled
        ensures result { result ≡ Nothing }
        ensures looks { self.new.looks ≡ raised self.old.looks }
        ensures more_looks { self.old.looks ≤ self.new.looks }
        ensures same { (self.new.faults ≡ self.old.faults) × (self.new.closed ≡ self.old.closed) }
    {
        self.rest();
        self.nothing()
    }
}

impl<R: RandomSource + Clock + Copy + Drop> Link for SocketLink<R> {
    ghost tells = { false };

    ghost events = { λ _. [] };

    ghost faults = { λ l. l.faults.count };

    ghost looks = { λ l. l.looks };

    ghost closed = { λ l. l.closed };

    fn poll(&mut self, alloc: Global) -> Result<Polled, LinkFault> {
        if self.closed {
            return Ok(Polled::Closed);
        }
        if !self.awake {
            self.flush()?;
            return Ok(self.idle());
        }
        match self.look(alloc) {
            Heard::Message(bytes) => {
                self.patience.renew();
                Ok(Polled::Message(bytes))
            }
            Heard::Other => Ok(self.nothing()),
            Heard::Empty => {
                // An event of the socket will tell when there is more.
                self.awake = self.waiting.is_none();
                Ok(self.idle())
            }
            Heard::Closed => {
                self.closed = true;
                self.state = State::Gone;
                Ok(Polled::Closed)
            }
            Heard::Failed => Err(self.fail()),
            Heard::Memory => Err(LinkFault::Memory),
        }
    }

    fn send(&mut self, alloc: Global, bytes: &[u8]) -> Result<(), LinkFault> {
        self.leaving = true;
        self.patience.renew();
        match self.state.give(alloc, bytes) {
            Written::Taken => Ok(()),
            Written::Waits => Ok(()),
            Written::Memory => Err(LinkFault::Memory),
            Written::Failed => Err(self.fail()),
        }
    }
}
