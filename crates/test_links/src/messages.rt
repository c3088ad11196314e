// Messages between the two ends of a link.
use crate::ends::{
    LOOKS, OwnLink, OwnNet, accepted, connected, dialled, is_carried_both_ways, is_heard, letters,
    own_net,
};
use std::alloc::Global;
use wave_outside::{Accepted, Link, Net, Polled};
use ws_link::{Limits, Patience};

// Around these lengths the heads of frames differ; the last is the largest that a server without peers reads.
const LENGTHS: [usize; 9] = [
    0, 1, 125, 126, 65_535, 65_536, 1_048_576, 1_114_111, 1_114_112,
];

#[test]
fn messages_of_all_lengths(rt: HostRuntime) {
    let alloc: Global = rt.alloc();
    let Some(mut host) = own_net(rt, Limits::for_clients(), Patience::of_terminal()) else {
        panic!(rt; "no net")
    };
    let Some(mut pair) = connected(alloc, &mut host) else {
        panic!(rt; "no link")
    };
    for length in &LENGTHS {
        let Some(bytes) = letters(alloc, *length) else {
            panic!(rt; "no memory")
        };
        assert!(rt; is_carried_both_ways(alloc, &mut pair, bytes.as_slice()));
    }
    assert!(rt; is_carried_both_ways(alloc, &mut pair, b"\xff\xfe"));
}

// Whether a link tells soon that its peer closed it.
fn is_soon_closed(alloc: Global, link: &mut OwnLink) -> bool {
    for _ in 0..LOOKS {
        if let Ok(Polled::Closed) = link.poll(alloc) {
            return true;
        }
    }
    false
}

// What is sent before the handshake's end waits for it. A server that has peers reads what one without them wouldn't. After the
// other end is gone each poll tells it.
#[test]
fn what_is_sent_early_waits(rt: HostRuntime) {
    let alloc: Global = rt.alloc();
    let Some(mut host) = own_net(rt, Limits::for_peers(), Patience::of_terminal()) else {
        panic!(rt; "no net")
    };
    let Some(large) = letters(alloc, 2 << 20) else {
        panic!(rt; "no memory")
    };
    let Some(mut client) = dialled(alloc, &mut host) else {
        panic!(rt; "not dialled")
    };
    assert!(rt; client.send(alloc, b"one").is_ok());
    assert!(rt; client.send(alloc, large.as_slice()).is_ok());
    let Some(mut server) = accepted(alloc, &mut host, &mut client) else {
        panic!(rt; "no link")
    };
    assert!(rt; is_heard(alloc, &mut client, &mut server, b"one"));
    assert!(rt; is_heard(alloc, &mut client, &mut server, large.as_slice()));
    drop(server);
    assert!(rt; is_soon_closed(alloc, &mut client));
    assert!(rt; is_soon_closed(alloc, &mut client));
}

// Dials and accepts, and lets both ends go, one of them by the net.
fn visit(alloc: Global, net: &mut OwnNet) -> bool {
    let Some(mut client) = dialled(alloc, net) else {
        return false;
    };
    for _ in 0..LOOKS {
        let _polled = client.poll(alloc);
        match net.accept(alloc) {
            Ok(Accepted::Link(link)) => {
                net.put(link);
                return true;
            }
            Ok(Accepted::Nothing) => net.rest(),
            Err(_) => return false,
        }
    }
    false
}

// How many descriptors the process has, with the one by which they are counted.
fn descriptors(rt: &HostRuntime) -> Option<usize> {
    Some(std::fs::read_dir(rt, "/proc/self/fd").ok()?.count())
}

#[test]
fn no_descriptor_is_left(rt: HostRuntime) {
    let alloc: Global = rt.alloc();
    let Some(mut host) = own_net(rt, Limits::for_clients(), Patience::none()) else {
        panic!(rt; "no net")
    };
    let before = descriptors(&rt);
    assert!(rt; before.is_some());
    for _ in 0..200 {
        assert!(rt; visit(alloc, &mut host));
    }
    assert!(rt; descriptors(&rt) == before);
}

// How many messages of 64 KiB a link takes whose peer doesn't read, up to so many.
fn taken(alloc: Global, link: &mut OwnLink, most: u64) -> Option<u64> {
    let bytes = letters(alloc, 64 << 10)?;
    for count in 0..most {
        if link.send(alloc, bytes.as_slice()).is_err() {
            return Some(count);
        }
    }
    Some(most)
}

// The system's buffers take some of what is sent, and the link 1 MiB. Then it fails, and another link goes on.
#[test]
fn a_peer_that_does_not_read(rt: HostRuntime) {
    let alloc: Global = rt.alloc();
    let limits = Limits {
        unsent: 1 << 20,
        ..Limits::for_clients()
    };
    let Some(mut host) = own_net(rt, limits, Patience::of_terminal()) else {
        panic!(rt; "no net")
    };
    let Some(mut deaf) = connected(alloc, &mut host) else {
        panic!(rt; "no link")
    };
    let Some(mut other) = connected(alloc, &mut host) else {
        panic!(rt; "no link")
    };
    assert!(rt; taken(alloc, &mut deaf.server, 16) == Some(16));
    assert!(rt; is_carried_both_ways(alloc, &mut other, b"full"));
    let Some(more) = taken(alloc, &mut deaf.server, 1_000) else {
        panic!(rt; "no memory")
    };
    assert!(rt; more < 1_000);
    assert!(rt; deaf.server.poll(alloc).is_err());
    assert!(rt; is_carried_both_ways(alloc, &mut other, b"failed"));
}
