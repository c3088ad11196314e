// Handshakes that don't come to their end: what is no client of ours, who says nothing, and where nobody listens.
use crate::ends::{HELLO, LOOKS, OwnLink, OwnNet, address_of, came, connected, knocked, own_net};
use std::alloc::Global;
use std::io::{Read, Write};
use std::net::{TcpListener, TcpStream};
use std::time::{Duration, Instant};
use wave_outside::{Link, Net};
use ws_link::{Limits, Patience};

// What comes and is no opening, or isn't ended.
const STRANGERS: [&[u8]; 6] = [
    b"",
    b"GET /chat HTTP/1.1\r\nHost: server.example.com\r\n",
    b"GET / HTTP/1.1\r\nHost: a.com\r\n\r\n",
    b"POST / HTTP/1.1\r\n\r\n",
    b"GET / HTTP/1.1\r\nHost: a.com\r\nUpgrade: websocket\r\nConnection: Upgrade\r\nSec-WebSocket-Version: 13\r\n\r\n",
    b"\x16\x03\x01\x02\0\x01\0\x01\xfc\x03\x03\r\n\r\n",
];

// None of them is a session, nor is who sends a frame before its opening is answered. They hold up nobody who comes after them.
#[test]
fn strangers_are_no_sessions(rt: HostRuntime) {
    let alloc: Global = rt.alloc();
    let Some(mut host) = own_net(rt, Limits::for_clients(), Patience::of_terminal()) else {
        panic!(rt; "no net")
    };
    let mut strangers = Vec::new(alloc);
    for bytes in &STRANGERS {
        let Some(stream) = knocked(&rt, &host, bytes) else {
            panic!(rt; "no stream")
        };
        assert!(rt; strangers.push(stream).is_ok());
    }
    let Some(mut eager) = knocked(&rt, &host, HELLO) else {
        panic!(rt; "no stream")
    };
    assert!(rt; eager.write_all(b"\x81\x81\0\0\0\0x").is_ok());
    assert!(rt; connected(alloc, &mut host).is_some());
    assert!(rt; came(alloc, &mut host, 2).is_none());
}

// Whether a link fails, which is looked at in turn with the door.
fn is_failed(alloc: Global, net: &mut OwnNet, link: &mut OwnLink) -> bool {
    for _ in 0..LOOKS {
        if link.poll(alloc).is_err() {
            return true;
        }
        let _accepted = net.accept(alloc);
        net.rest();
    }
    false
}

// A port at which nobody listens: that of a net that is gone.
fn dead_port(rt: HostRuntime) -> Option<u16> {
    let gone = own_net(rt, Limits::for_clients(), Patience::none())?;
    Some(gone.address()?.port())
}

#[test]
fn nobody_listens(rt: HostRuntime) {
    let alloc: Global = rt.alloc();
    let Some(mut host) = own_net(rt, Limits::for_clients(), Patience::none()) else {
        panic!(rt; "no net")
    };
    let Some(port) = dead_port(rt) else {
        panic!(rt; "no port")
    };
    let Some(dead) = address_of(alloc, port) else {
        panic!(rt; "no memory")
    };
    if let Ok(mut link) = host.dial(alloc, dead.as_str()) {
        assert!(rt; is_failed(alloc, &mut host, &mut link));
    }
}

// How long it takes until a link fails that is dialled to a server which says nothing.
fn time_to_fail(rt: &HostRuntime, net: &mut OwnNet, mute: &TcpListener) -> Option<Duration> {
    let alloc: Global = rt.alloc();
    let address = address_of(alloc, mute.local_addr().ok()?.port())?;
    let began = Instant::now(rt).ok()?;
    let mut link = net.dial(alloc, address.as_str()).ok()?;
    if !is_failed(alloc, net, &mut link) {
        return None;
    }
    began.elapsed(rt).ok()
}

// Whether the end of a stream has come, with nothing before it.
fn is_ended(stream: &mut TcpStream) -> bool {
    let mut byte = [0u8; 1];
    match stream.read(&mut byte) {
        Ok(count) => count == 0,
        Err(_) => false,
    }
}

// A client that doesn't end its opening is let go of after ten seconds, and a server that says nothing fails the link that dialled it.
#[test]
fn a_handshake_takes_ten_seconds_at_most(rt: HostRuntime) {
    let alloc: Global = rt.alloc();
    let Some(mut host) = own_net(rt, Limits::for_clients(), Patience::none()) else {
        panic!(rt; "no net")
    };
    let Some(mut silent) = knocked(&rt, &host, b"GET /chat HTTP/1.1\r\n") else {
        panic!(rt; "no stream")
    };
    assert!(rt; came(alloc, &mut host, 2).is_none());
    let Ok(mute) = TcpListener::bind(&rt, "127.0.0.1:0") else {
        panic!(rt; "no listener")
    };
    let Some(time) = time_to_fail(&rt, &mut host, &mute) else {
        panic!(rt; "the link goes on")
    };
    assert!(rt; time >= Duration::from_secs(10));
    assert!(rt; came(alloc, &mut host, 1).is_none());
    assert!(rt; is_ended(&mut silent));
}
