// Frames that a client sends as bytes: what the server's polls find of them, and what it answers.
use crate::ends::{
    HELLO, LOOKS, OwnLink, OwnNet, came, connected, is_carried_both_ways, knocked, own_net,
};
use std::alloc::{AllocError, Global};
use std::io::{Read, Write};
use std::net::{Shutdown, TcpStream};
use wave_outside::{Accepted, Link, Net, Polled};
use ws_link::{Limits, Patience};

// The frames that a client sends before it sends no more, and what the polls of the server's link find up to its end: the length of each
// message, C for a close, F for a failure.
const FRAMES: [(&[u8], &str); 19] = [
    // A text, a binary message, a text in two pieces with a ping between them, and a text of RFC 6455, section 5.7.
    (b"\x81\x81\0\0\0\0x", "1C"),
    (b"\x82\x82\0\0\0\0\xff\xff", "2C"),
    (b"\x01\x81\0\0\0\0x\x89\x80\0\0\0\0\x80\x82\0\0\0\0yz", "3C"),
    (b"\x81\x85\x37\xfa\x21\x3d\x7f\x9f\x4d\x51\x58", "5C"),
    // A ping, a pong, a close, no frame at all, and half a frame.
    (b"\x89\x80\0\0\0\0", "C"),
    (b"\x8a\x80\0\0\0\0", "C"),
    (b"\x88\x82\0\0\0\0\x03\xe8", "C"),
    (b"", "C"),
    (b"\x81\x82\0\0\0\0x", "C"),
    // No mask, a reserved bit, and reserved kinds, after a text.
    (b"\x81\x81\0\0\0\0x\x81\x01x", "1F"),
    (b"\x81\x81\0\0\0\0x\xc1\x81\0\0\0\0x", "1F"),
    (b"\x81\x81\0\0\0\0x\x83\x80\0\0\0\0", "1F"),
    (b"\x81\x81\0\0\0\0x\x8b\x80\0\0\0\0", "1F"),
    // Bytes that are no text, in one piece and in two.
    (b"\x81\x81\0\0\0\0\xff", "F"),
    (b"\x01\x81\0\0\0\0\xe2\x80\x81\0\0\0\0x", "F"),
    // A frame of a byte more than the largest, and of the most that a head can tell.
    (b"\x81\xff\0\0\0\0\0\x11\0\x01\0\0\0\0", "F"),
    (b"\x82\xff\x7f\xff\xff\xff\xff\xff\xff\xff\0\0\0\0", "F"),
    // The second piece of nothing, and a ping in pieces.
    (b"\x80\x81\0\0\0\0x", "F"),
    (b"\x09\x80\0\0\0\0", "F"),
];

// A stream whose handshake is done, with the server's link.
fn met(rt: &HostRuntime, alloc: Global, net: &mut OwnNet) -> Option<(TcpStream, OwnLink)> {
    let stream = knocked(rt, net, HELLO)?;
    let link = came(alloc, net, LOOKS)?;
    Some((stream, link))
}

// What the polls of a link find, up to its end.
fn found(alloc: Global, link: &mut OwnLink) -> Result<String, AllocError> {
    let mut found = String::new(alloc);
    for _ in 0..LOOKS {
        match link.poll(alloc) {
            Ok(Polled::Message(bytes)) => {
                let length = bytes.len();
                let digits = format!(in alloc; "{length}")?;
                found.push_str(digits.as_str())?;
            }
            Ok(Polled::Nothing) => {}
            Ok(Polled::Closed) => {
                found.push('C')?;
                return Ok(found);
            }
            Err(_) => {
                found.push('F')?;
                return Ok(found);
            }
        }
    }
    Ok(found)
}

// Whether a link finds this of the frames that are sent.
fn is_found(
    alloc: Global,
    stream: &mut TcpStream,
    link: &mut OwnLink,
    frames: &[u8],
    expected: &str,
) -> bool {
    if stream.write_all(frames).is_err() || stream.shutdown(Shutdown::Write).is_err() {
        return false;
    }
    match found(alloc, link) {
        Ok(found) => found.as_str() == expected,
        Err(_) => false,
    }
}

// Another link goes on beside them all.
#[test]
fn frames_of_all_kinds(rt: HostRuntime) {
    let alloc: Global = rt.alloc();
    let Some(mut host) = own_net(rt, Limits::for_clients(), Patience::of_terminal()) else {
        panic!(rt; "no net")
    };
    let Some(mut other) = connected(alloc, &mut host) else {
        panic!(rt; "no link")
    };
    for row in &FRAMES {
        let (frames, expected) = *row;
        let Some((mut stream, mut link)) = met(&rt, alloc, &mut host) else {
            panic!(rt; "no session")
        };
        assert!(rt; is_found(alloc, &mut stream, &mut link, frames, expected));
        assert!(rt; is_carried_both_ways(alloc, &mut other, b"on"));
    }
}

// The frames that a client sends, and those that the server has answered when it lets go of the link after some looks.
const ANSWERS: [(&[u8], &[u8]); 4] = [
    (b"\x89\x82\0\0\0\0hi", b"\r\n\r\n\x8a\x02hi\x88\x00"),
    (b"\x89\x80\0\0\0\0", b"\r\n\r\n\x8a\x00\x88\x00"),
    (b"\x88\x82\0\0\0\0\x03\xe8", b"\r\n\r\n\x88\x02\x03\xe8"),
    (b"", b"\r\n\r\n\x88\x00"),
];

// What the server's answer to the opening has, by RFC 6455, section 1.3.
const ACCEPT: &str = " s3pPLMBiTxaQ9kYGzzhZRbK+xOo=\r\n";

fn look_at(alloc: Global, link: &mut OwnLink) {
    for _ in 0..8 {
        let _polled = link.poll(alloc);
    }
}

// Waits for the next link, sends these frames to it, looks at it eight times, which takes up to a quarter of a second, and puts it back.
fn is_left(alloc: Global, net: &mut OwnNet, stream: &mut TcpStream, frames: &[u8]) -> bool {
    for _ in 0..LOOKS {
        match net.accept(alloc) {
            Ok(Accepted::Link(mut link)) => {
                let sent = stream.write_all(frames).is_ok();
                look_at(alloc, &mut link);
                net.put(link);
                return sent;
            }
            Ok(Accepted::Nothing) => net.rest(),
            Err(_) => return false,
        }
    }
    false
}

// All that comes on a stream up to its end.
fn heard(alloc: Global, stream: &mut TcpStream) -> Option<Vec<u8>> {
    let mut heard = Vec::new(alloc);
    stream.read_to_end(&mut heard).ok()?;
    Some(heard)
}

#[test]
fn what_is_answered(rt: HostRuntime) {
    let alloc: Global = rt.alloc();
    let Some(mut host) = own_net(rt, Limits::for_clients(), Patience::of_terminal()) else {
        panic!(rt; "no net")
    };
    for row in &ANSWERS {
        let (frames, tail) = *row;
        let Some(mut stream) = knocked(&rt, &host, HELLO) else {
            panic!(rt; "no stream")
        };
        assert!(rt; is_left(alloc, &mut host, &mut stream, frames));
        let Some(answer) = heard(alloc, &mut stream) else {
            panic!(rt; "no answer")
        };
        let Ok(text) = String::from_utf8_lossy(alloc, answer.as_slice()) else {
            panic!(rt; "no memory")
        };
        assert!(rt; text.as_str().starts_with("HTTP/1.1 101 "));
        assert!(rt; text.as_str().contains(ACCEPT));
        assert!(rt; answer.as_slice().ends_with(tail));
    }
}
