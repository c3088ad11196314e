// A net over the loopback that dials itself, and the two ends of its links.
use std::alloc::Global;
use std::io::Write;
use std::net::TcpStream;
use std::sync::Arc;
use wave_outside::{Accepted, Link, Net, Polled};
use ws_link::{Bells, Limits, Patience, SocketLink, SocketNet};

pub type OwnNet = SocketNet<HostRuntime>;

pub type OwnLink = SocketLink<HostRuntime>;

/// How often something is looked for that is there at once. A look may wait.
pub const LOOKS: u64 = 100;

/// The opening of RFC 6455, section 1.3.
pub const HELLO: &[u8] =
    b"GET /chat HTTP/1.1\r\nHost: server.example.com\r\nUpgrade: websocket\r\nConnection: Upgrade\r\nSec-WebSocket-Key: dGhlIHNhbXBsZSBub25jZQ==\r\nSec-WebSocket-Version: 13\r\n\r\n";

/// A net that listens at a port which the system chose.
pub fn listening(
    rt: HostRuntime,
    bells: Arc<Bells, Global>,
    limits: Limits,
    patience: Patience,
) -> Option<OwnNet> {
    let alloc: Global = rt.alloc();
    let mut net = SocketNet::new(rt, alloc, bells, limits, patience);
    match net.listen(alloc, "127.0.0.1:0") {
        Ok(()) => Some(net),
        Err(_) => None,
    }
}

/// The same with bells of its own.
pub fn own_net(rt: HostRuntime, limits: Limits, patience: Patience) -> Option<OwnNet> {
    let alloc: Global = rt.alloc();
    let bells = Bells::new(alloc, 4).ok()?;
    listening(rt, Arc::new(alloc, bells).ok()?, limits, patience)
}

/// An address of the loopback.
pub fn address_of(alloc: Global, port: u16) -> Option<String> {
    format!(in alloc; "127.0.0.1:{port}").ok()
}

/// A stream to a net, on which these bytes were sent.
pub fn knocked(rt: &HostRuntime, net: &OwnNet, bytes: &[u8]) -> Option<TcpStream> {
    let mut stream = TcpStream::connect(rt, net.address()?).ok()?;
    stream.write_all(bytes).ok()?;
    Some(stream)
}

/// A link that a net dials to itself.
pub fn dialled(alloc: Global, net: &mut OwnNet) -> Option<OwnLink> {
    let address = address_of(alloc, net.address()?.port())?;
    net.dial(alloc, address.as_str()).ok()
}

/// The next link that comes within so many looks.
pub fn came(alloc: Global, net: &mut OwnNet, looks: u64) -> Option<OwnLink> {
    for _ in 0..looks {
        match net.accept(alloc) {
            Ok(Accepted::Link(link)) => return Some(link),
            Ok(Accepted::Nothing) => net.rest(),
            Err(_) => return None,
        }
    }
    None
}

/// The other end of a link that was dialled.
pub fn accepted(alloc: Global, net: &mut OwnNet, client: &mut OwnLink) -> Option<OwnLink> {
    for _ in 0..LOOKS {
        let _polled = client.poll(alloc);
        match net.accept(alloc) {
            Ok(Accepted::Link(link)) => return Some(link),
            Ok(Accepted::Nothing) => net.rest(),
            Err(_) => return None,
        }
    }
    None
}

/// The two ends of a link.
pub struct Ends {
    pub client: OwnLink,
    pub server: OwnLink,
}

impl Drop for Ends {
    fn drop(self) {
        let Ends {
            client: _client,
            server: _server,
        } = self;
    }
}

/// A link that the net dials to itself.
pub fn connected(alloc: Global, net: &mut OwnNet) -> Option<Ends> {
    let mut client = dialled(alloc, net)?;
    let server = accepted(alloc, net, &mut client)?;
    Some(Ends { client, server })
}

// The next message, where the other end is looked at meanwhile.
fn heard(alloc: Global, from: &mut OwnLink, to: &mut OwnLink) -> Option<Vec<u8>> {
    for _ in 0..LOOKS {
        let _polled = from.poll(alloc);
        if let Ok(Polled::Message(bytes)) = to.poll(alloc) {
            return Some(bytes);
        }
    }
    None
}

/// Whether this is the next message that comes.
pub fn is_heard(alloc: Global, from: &mut OwnLink, to: &mut OwnLink, bytes: &[u8]) -> bool {
    match heard(alloc, from, to) {
        Some(heard) => heard.as_slice() == bytes,
        None => false,
    }
}

/// Whether a message comes as it is sent.
pub fn is_carried(alloc: Global, from: &mut OwnLink, to: &mut OwnLink, bytes: &[u8]) -> bool {
    from.send(alloc, bytes).is_ok() && is_heard(alloc, from, to, bytes)
}

/// Whether a message comes as it is sent, both ways.
pub fn is_carried_both_ways(alloc: Global, ends: &mut Ends, bytes: &[u8]) -> bool {
    is_carried(alloc, &mut ends.client, &mut ends.server, bytes)
        && is_carried(alloc, &mut ends.server, &mut ends.client, bytes)
}

/// So many letters, in a pattern.
pub fn letters(alloc: Global, length: usize) -> Option<Vec<u8>> {
    let mut letters = Vec::new(alloc);
    for place in 0..length {
        letters.push(if place % 7 == 0 { b'a' } else { b'b' }).ok()?;
    }
    Some(letters)
}
