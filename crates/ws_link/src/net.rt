//! The net over sockets.
ghost use Rattle.std.specs.Prelude.{◌≡◌, ◌≤◌, ◌<◌, ◌+◌, ◌^◌, [], false, map, Ok, IfOk, OnOk, vec_len, vec_capacity};
ghost use Rattle.wave_outside.specs.Counts.{raised, Rose};
ghost use Rattle.wave_outside.specs.Nets.{IfLink, IfNone, accepted_more, out_more};
ghost use Rattle.wave_outside.specs.declared.net.Accepted.TheVariants.{Nothing};

use crate::bells::Bells;
use crate::dialling::Asking;
use crate::door::{Door, Knock};
use crate::limits::Limits;
use crate::link::{SocketLink, State};
use crate::outbox::Outbox;
use crate::patience::Patience;
use crate::socket::Socket;
use crate::waiting::{SOCKET, Waiting};
use mio::net::TcpStream;
use std::alloc::{AllocError, Global};
use std::io;
use std::io::ErrorKind;
use std::net::{Net as Sockets, SocketAddr, ToSocketAddrs};
use std::random::RandomSource;
use std::snapshot::Snapshot;
use std::sync::Arc;
use std::time::Clock;
use tungstenite::{NoMask, WebSocket};
use wave_outside::{Accepted, Faults, Net, NetFault};

/// The sockets of a program. Links that are put back are closed. The links that are accepted are numbered from 0, and each has the bell
/// of the session of its number.
pub struct SocketNet<R: Sockets + RandomSource + Clock + Copy + Drop> {
    rt: R,
    bells: Arc<Bells, Global>,
    limits: Limits,
    // That of the links that are dialled.
    patience: Patience,
    door: Option<Door>,
    door_faults: Faults,
    line: Faults,
    looks: u64,
    accepted: u64,
    out: usize,
    // What the links were that were put back. It has no bytes.
    back: Vec<Snapshot<SocketLink<R>>>,
    ghost room: { vec_len back + out ≤ vec_capacity back },
}

impl<R: Sockets + RandomSource + Clock + Copy + Drop> Drop for SocketNet<R> {
    fn drop(self) {
        let SocketNet {
            rt: _rt,
            bells: _bells,
            limits: _limits,
            patience: _patience,
            door: _door,
            door_faults: _door_faults,
            line: _line,
            looks: _looks,
            accepted: _accepted,
            out: _out,
            back: _back,
        } = self;
    }
}

impl<R: Sockets + RandomSource + Clock + Copy + Drop> SocketNet<R> {
    /// A net that listens nowhere yet. The links that it dials have this patience; with none of their own they end the rests at the
    /// door.
    pub fn new(
        rt: R,
        alloc: Global,
        bells: Arc<Bells, Global>,
        limits: Limits,
        patience: Patience,
    ) -> SocketNet<R>
        ensures { (result.door_faults.count ≡ 0) × (result.line.count ≡ 0) × (result.accepted ≡ 0) × (result.back.items ≡ []) }
    {
        SocketNet {
            rt,
            bells,
            limits,
            patience,
            door: None,
            door_faults: Faults::none(),
            line: Faults::none(),
            looks: 0,
            accepted: 0,
            out: 0,
            back: Vec::new(alloc),
        }
    }

    /// Where it listens, which tells the port that the system chose.
    pub fn address(&self) -> Option<SocketAddr> {
        match &self.door {
            Some(door) => door.address().ok(),
            None => None,
        }
    }

    // Opens the door.
    fn open(&self, alloc: Global, address: &str) -> io::Result<Door> {
        let address = address_of(&self.rt, address)?;
        Door::open(&self.rt, alloc, address, &self.bells)
    }

    // The link of a socket whose handshake is done, which waits by itself.
    fn link(
        &self,
        alloc: Global,
        mut socket: WebSocket<TcpStream, NoMask>,
    ) -> io::Result<SocketLink<R>>
        ensures { IfOk result (λ l. (l.faults.count ≡ 0) × (l.closed ≡ false)) }
    {
        let mut waiting = Waiting::new(&self.rt, alloc)?;
        waiting.watch(socket.get_mut(), SOCKET)?;
        waiting.hang(&self.bells, self.accepted)?;
        let outbox = Outbox::new(alloc, self.limits.unsent);
        let socket = Socket::new(alloc, socket, outbox);
        Ok(SocketLink::over(State::Served(socket), Some(waiting), Patience::of_session()))
    }

    // Begins to dial.
    fn ask(&self, alloc: Global, address: &str) -> io::Result<SocketLink<R>>
        ensures { IfOk result (λ l. (l.faults.count ≡ 0) × (l.closed ≡ false)) }
    {
        let mut stream = TcpStream::connect(&self.rt, address_of(&self.rt, address)?)?;
        let _quick = stream.set_nodelay(true);
        let waiting = self.waiting(alloc, &mut stream)?;
        let uri = uri_of(alloc, address)?;
        let config = self.limits.of_dialled();
        match Asking::new(self.rt, alloc, stream, uri.as_str(), config) {
            Some(asking) => Ok(SocketLink::over(State::Asking(asking), waiting, self.patience)),
            None => Err(io::Error::from(ErrorKind::Other)),
        }
    }

    // Where the link over a stream that is dialled waits, if it does.
    fn waiting(&self, alloc: Global, stream: &mut TcpStream) -> io::Result<Option<Waiting>> {
        if self.patience.is_none() {
            if let Some(door) = &self.door {
                door.watch(stream)?;
            }
            return Ok(None);
        }
        let waiting = Waiting::new(&self.rt, alloc)?;
        waiting.watch(stream, SOCKET)?;
        Ok(Some(waiting))
    }

    // Takes the room to put one more link back.
    fn reserve(&mut self) -> Result<(), AllocError>
        ensures back { (self.new.back.items ≡ self.old.back.items) × (self.new.out ≡ self.old.out)
            × (self.new.accepted ≡ self.old.accepted) }
        ensures same { (self.new.door_faults ≡ self.old.door_faults) × (self.new.line ≡ self.old.line) × (self.new.looks ≡ self.old.looks) }
        ensures room { OnOk result ((vec_len self.new.back + self.new.out + 1 ≤ vec_capacity self.new.back) × (self.new.out + 1 < 2 ^ 64)) }
    {
        let Some(more) = self.out.checked_add(1) else {
            return Err(AllocError);
        };
        self.back.reserve(more)
    }

    // Looks at the door.
    fn knock(&mut self, alloc: Global) -> Knock
        ensures back { (self.new.back ≡ self.old.back) × (self.new.out ≡ self.old.out) × (self.new.accepted ≡ self.old.accepted) }
        ensures same { (self.new.door_faults ≡ self.old.door_faults) × (self.new.line ≡ self.old.line) × (self.new.looks ≡ self.old.looks) }
    {
        let config = self.limits.of_accepted();
        match &mut self.door {
            Some(door) => door.knock(&self.rt, alloc, config),
            None => Knock::Failed,
        }
    }

    // Hands out the link of a socket, for which there is room. Where the system has none for it, it is dropped.
    fn admit(
        &mut self,
        alloc: Global,
        socket: WebSocket<TcpStream, NoMask>,
    ) -> Accepted<SocketLink<R>>
        requires { (vec_len self.old.back + self.old.out + 1 ≤ vec_capacity self.old.back) × (self.old.out + 1 < 2 ^ 64) }
        ensures nothing { IfNone result (Rose self.old.looks self.new.looks) }
        ensures more_looks { self.old.looks ≤ self.new.looks }
        ensures unused { IfLink result (λ l. (l.faults.count ≡ 0) × (l.closed ≡ false)) }
        ensures accepted { self.new.accepted ≡ accepted_more (Ok result) self.old.accepted }
        ensures out { self.new.out ≡ out_more (Ok result) self.old.out }
        ensures same { (self.new.back ≡ self.old.back) × (self.new.door_faults ≡ self.old.door_faults) × (self.new.line ≡ self.old.line) }
    {
        match self.link(alloc, socket) {
            Ok(link) => {
                self.accepted = self.accepted.saturating_add(1);
                self.out += 1;
                Accepted::Link(link)
            }
            Err(_) => self.nothing(),
        }
    }

    // There is no new link.
    fn nothing(&mut self) -> Accepted<SocketLink<R>>
        ensures result { result ≡ Nothing }
        ensures looks { self.new.looks ≡ raised self.old.looks }
        ensures more_looks { self.old.looks ≤ self.new.looks }
        ensures back { (self.new.back ≡ self.old.back) × (self.new.out ≡ self.old.out) × (self.new.accepted ≡ self.old.accepted) }
        ensures same { (self.new.door_faults ≡ self.old.door_faults) × (self.new.line ≡ self.old.line) }
    {
        self.looks = self.looks.saturating_add(1);
        Accepted::Nothing
    }
}

// The first address of a host and port.
fn address_of<R: Sockets>(rt: &R, address: &str) -> io::Result<SocketAddr> {
    let mut found = address.to_socket_addrs(rt)?;
    match found.next() {
        Some(first) => Ok(first),
        None => Err(io::Error::from(ErrorKind::NotFound)),
    }
}

fn uri_of(alloc: Global, address: &str) -> Result<String, AllocError> {
    let mut uri = String::from_str(alloc, "ws://")?;
    uri.push_str(address)?;
    uri.push_str("/")?;
    Ok(uri)
}

// Want of memory, or the failure of which the count is to tell.
fn is_memory(fault: &io::Error) -> bool {
    fault.kind() == ErrorKind::OutOfMemory
}

impl<R: Sockets + RandomSource + Clock + Copy + Drop> Net for SocketNet<R> {
    type Link = SocketLink<R>;

    ghost tells = { false };

    ghost asked = { λ _. [] };

    ghost door = { λ n. n.door_faults.count };

    ghost line = { λ n. n.line.count };

    ghost looks = { λ n. n.looks };

    ghost accepted = { λ n. n.accepted };

    ghost out = { λ n. n.out };

    ghost back = { λ n. map (λ s. s.value) n.back.items };

    fn listen(&mut self, alloc: Global, address: &str) -> Result<(), NetFault> {
        self.door = None;
        match self.open(alloc, address) {
            Ok(door) => {
                self.door = Some(door);
                Ok(())
            }
            Err(fault) => {
                if is_memory(&fault) {
                    return Err(NetFault::Memory);
                }
                Err(self.door_faults.raise().into())
            }
        }
    }

    fn accept(&mut self, alloc: Global) -> Result<Accepted<SocketLink<R>>, NetFault> {
        self.reserve()?;
        match self.knock(alloc) {
            Knock::Greeted(socket) => Ok(self.admit(alloc, socket)),
            Knock::Nothing => Ok(self.nothing()),
            Knock::Failed => Err(self.door_faults.raise().into()),
        }
    }

    fn dial(&mut self, alloc: Global, address: &str) -> Result<SocketLink<R>, NetFault> {
        self.reserve()?;
        match self.ask(alloc, address) {
            Ok(link) => {
                self.out += 1;
                Ok(link)
            }
            Err(fault) => {
                if is_memory(&fault) {
                    return Err(NetFault::Memory);
                }
                Err(self.line.raise().into())
            }
        }
    }

    fn rest(&mut self) {
        if let Some(door) = &mut self.door {
            door.rest();
        }
    }

    fn put(&mut self, link: SocketLink<R>) {
        self.line.add(link.faults());
        self.out -= 1;
        self.back.push_reserved(Snapshot::of(&link));
        link.leave();
    }
}
