//! Sleeping until a socket is ready or a bell rings.
use crate::bells::{Bells, Seat};
use mio::event::Source;
use mio::net::TcpStream;
use mio::{Events, Interest, Poll, Token, Waker};
use std::alloc::Global;
use std::io;
use std::net::Net;
use std::sync::Arc;
use std::time::Duration;

/// The token of a bell.
const BELL: Token = Token(0);

/// The token of a socket that is the only one, or the one at the door.
pub(crate) const SOCKET: Token = Token(1);

/// How many events one wait gives.
const EVENTS: usize = 32;

/// Where one thread waits.
pub(crate) struct Waiting {
    // Dropped first, and with it the waker of this poll.
    seat: Option<Seat>,
    events: Events<Global>,
    poll: Poll,
}

impl Drop for Waiting {
    fn drop(self) {
        let Waiting {
            seat: _seat,
            events: _events,
            poll: _poll,
        } = self;
    }
}

impl Waiting {
    /// A place to wait, without a bell.
    pub(crate) fn new<R: Net>(rt: &R, alloc: Global) -> io::Result<Waiting> {
        let poll = Poll::new(rt)?;
        let events = Events::with_capacity(alloc, EVENTS)?;
        Ok(Waiting {
            seat: None,
            events,
            poll,
        })
    }

    /// Takes a bell for the link of a session, if one is left.
    pub(crate) fn hang(&mut self, bells: &Arc<Bells, Global>, session: u64) -> io::Result<()> {
        let waker = Waker::new(self.poll.registry(), BELL)?;
        self.seat = Seat::of_link(bells, session, waker);
        Ok(())
    }

    /// Takes the bell at the door.
    pub(crate) fn hang_at_door(&mut self, bells: &Arc<Bells, Global>) -> io::Result<()> {
        let waker = Waker::new(self.poll.registry(), BELL)?;
        self.seat = Seat::at_door(bells, waker);
        Ok(())
    }

    /// Ends a wait when the socket is ready.
    pub(crate) fn watch<S: Source>(&self, source: &mut S, token: Token) -> io::Result<()> {
        self.poll
            .registry()
            .register(source, token, Interest::READABLE | Interest::WRITABLE)
    }

    pub(crate) fn forget(&self, source: &mut TcpStream) {
        let _forgotten = self.poll.registry().deregister(source);
    }

    /// Waits until a socket is ready, the bell is rung, or the time is over.
    pub(crate) fn wait(&mut self, milliseconds: u64) {
        let time = if self.lie_down() { 0 } else { milliseconds };
        if self
            .poll
            .poll(&mut self.events, Some(Duration::from_millis(time)))
            .is_err()
        {
            self.events.clear();
        }
        self.get_up();
    }

    // Whether the bell was rung before the wait.
    fn lie_down(&self) -> bool {
        match &self.seat {
            Some(seat) => seat.lie_down(),
            None => false,
        }
    }

    fn get_up(&self) {
        if let Some(seat) = &self.seat {
            seat.get_up();
        }
    }

    /// The tokens of what ended the last wait.
    pub(crate) fn events(&self) -> &Events<Global> {
        &self.events
    }

    /// Whether a look at the only socket may find something: an event of it came, or the time was over.
    pub(crate) fn may_find(&self) -> bool {
        let mut ready = self.events.is_empty();
        for event in self.events.iter() {
            if event.token() != BELL {
                ready = true;
            }
        }
        ready
    }
}
