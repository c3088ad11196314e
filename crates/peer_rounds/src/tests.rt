//! What no clause says: that a peer is dialled and stepped in the rounds in which it should be, and what goes over its links.
ghost use Rattle.std.specs.Prelude.{◌≤◌};
ghost use Rattle.peer_rounds.specs.Peers.{held};

use crate::Peers;
use doc_items::Text;
use peer_turns::{CopyAt, MemoryTurns, Relay};
use std::alloc::{AllocError, Global};
use std::process::Abort;
use std::sync::Wait;
use std::test::Fail;
use wave_base::{Address, DeltaId, Domain, HashedVersion, WaveletName};
use wave_outside::{Kept, MemoryLink, MemoryNet, Polled};
use wavelet_op::{Ops, Submission, WaveletOp};

// A server with its peers, over a net in memory, at whose copy of a wavelet a submission waits.
struct Server {
    peers: Peers<MemoryLink>,
    net: MemoryNet,
    turns: MemoryTurns,
    ghost room: { held peers.list.items ≤ net.out },
}

impl Drop for Server {
    fn drop(self) {
        let Server {
            peers: _peers,
            net: _net,
            turns: _turns,
        } = self;
    }
}

// A link that answers these polls, each a letter, `n` for nothing and `c` for a close; the calls with these digits fail.
fn link(alloc: Global, row: &str) -> Result<MemoryLink, AllocError> {
    let mut polls = Vec::new(alloc);
    let mut failing = Vec::new(alloc);
    for letter in row.chars() {
        match letter.to_digit(10) {
            Some(digit) => failing.push(u64::from(digit))?,
            None => polls.push(if letter == 'n' {
                Polled::Nothing
            } else {
                Polled::Closed
            })?,
        }
    }
    Ok(MemoryLink::new(alloc, polls, failing))
}

// Links between commas.
fn links(alloc: Global, rows: &str) -> Result<Vec<MemoryLink>, AllocError> {
    let mut links = Vec::new(alloc);
    for row in rows.split(',') {
        if !row.is_empty() {
            links.push(link(alloc, row)?)?;
        }
    }
    Ok(links)
}

// What waits at the copy.
fn relay(alloc: Global) -> Result<Relay, Fail> {
    let mut list = Vec::new(alloc);
    list.push(WaveletOp::NoOp)?;
    let Some(ops) = Ops::new(list) else {
        return Err(Fail::new("no operations"));
    };
    let author = Address::parse(alloc, "bob@a.com")?;
    Ok(Relay {
        name: WaveletName::parse(alloc, "b.com/w1/b.com/conv+root")?,
        submission: Submission {
            id: DeltaId {
                author,
                client: 1,
                number: 1,
            },
            at: start(),
            ops,
        },
    })
}

// The end of the copy's history.
fn start() -> HashedVersion {
    HashedVersion {
        version: 0,
        hash: [0; 32],
    }
}

// One copy, at which one submission waits.
fn turns(alloc: Global) -> Result<MemoryTurns, Fail> {
    let mut relays = Vec::new(alloc);
    relays.push(relay(alloc)?)?;
    let mut copies = Vec::new(alloc);
    copies.push(CopyAt {
        name: WaveletName::parse(alloc, "b.com/w1/b.com/conv+root")?,
        at: start(),
    })?;
    Ok(MemoryTurns::new(alloc, relays, copies))
}

// A server with a peer that can be dialled so often as there are links.
fn server_of(alloc: Global, rows: &str) -> Result<Server, Fail> {
    let own = Domain::parse(alloc, "a.com")?;
    let mut pairs = Vec::new(alloc);
    pairs.push((
        Domain::parse(alloc, "b.com")?,
        Text::from_str(alloc, "b:1")?,
    ))?;
    Ok(Server {
        peers: Peers::new(alloc, &own, pairs.as_slice())?,
        net: MemoryNet::new(alloc, Vec::new(alloc), links(alloc, rows)?, Vec::new(alloc)),
        turns: turns(alloc)?,
    })
}

// The letter of a round: `d` where a link was dialled and begun, `c` where it was dialled in vain, `w` where a message came or a
// submission was sent, `.` where nothing was to be done.
fn letter(dialled: bool, worked: bool) -> char {
    match (dialled, worked) {
        (true, true) => 'd',
        (true, false) => 'c',
        (false, true) => 'w',
        (false, false) => '.',
    }
}

impl Server {
    fn round<R: Wait>(&mut self, rt: &R, alloc: Global) -> Result<char, Fail> {
        let before = self.net.asked().len();
        match self.peers.round(rt, alloc, &mut self.net, &mut self.turns) {
            Ok(worked) => Ok(letter(self.net.asked().len() > before, worked)),
            Err(_) => Err(Fail::new("a round without a turn")),
        }
    }

    // The letters of so many rounds.
    fn rounds<R: Wait>(&mut self, rt: &R, alloc: Global, count: usize) -> Result<String, Fail> {
        let mut letters = String::new(alloc);
        for _ in 0..count {
            letters.push(self.round(rt, alloc)?)?;
        }
        Ok(letters)
    }

    fn finish<R: Wait>(&mut self, rt: &R, alloc: Global) -> Result<(), Fail> {
        match self.peers.finish(rt, alloc, &mut self.net, &mut self.turns) {
            Ok(()) => Ok(()),
            Err(_) => Err(Fail::new("an end without a turn")),
        }
    }

    // The net, to which the links were put back.
    fn close(self) -> MemoryNet {
        let Server {
            peers,
            net,
            turns: _turns,
        } = self;
        let mut net = net;
        peers.close(&mut net);
        net
    }
}

// The letter of an event of a link: `p`, `h` and `r` for the three kinds of messages that are sent, `i` for an empty poll, `e` for the
// end.
fn event(kept: &Kept) -> char {
    match kept {
        Kept::Received(_) => '?',
        Kept::Idle => 'i',
        Kept::Ended => 'e',
        Kept::Sent(bytes) => {
            if bytes.as_slice().starts_with(b"{\"domain\":\"a.com\"") {
                'p'
            } else if bytes.as_slice().starts_with(b"{\"hash\"") {
                'h'
            } else if bytes.as_slice().starts_with(b"{\"author\":\"bob@a.com\"") {
                'r'
            } else {
                '?'
            }
        }
    }
}

// The events of the links that were put back, between commas.
fn events(alloc: Global, net: &MemoryNet) -> Result<String, AllocError> {
    let mut letters = String::new(alloc);
    for link in net.back() {
        for kept in link.kept() {
            letters.push(event(kept))?;
        }
        letters.push(',')?;
    }
    Ok(letters)
}

// The links that can be dialled; what the rounds come to; the events of each link at the end.
const ROWS: [[&str; 3]; 8] = [
    // The first round dials. What was sent once isn't sent again on the same link.
    ["nnn", "d..", "phriii,"],
    // A peer that nobody is at: the pauses grow up to 16 rounds.
    [
        "",
        "c.c..c....c........c................c................c",
        "",
    ],
    // A link that fails at its first call, its second and so on is dialled again after a pause, and told all again.
    ["n0,nnn", "c.d.", ",phrii,"],
    ["n1,nnn", "c.d.", "p,phrii,"],
    ["n2,nnn", "c.d.", "ph,phrii,"],
    ["n3,nnn", "d..d.", "phr,phrii,"],
    ["nn4,nnn", "d...d.", "phri,phrii,"],
    // A pause begins anew after a link was of use.
    ["nc,c,nc", "d...d...d...c..c", "phrie,phre,phrie,"],
];

fn is_so<R: Wait + Abort>(rt: &R, alloc: Global, row: &[&str; 3]) -> Result<(), Fail> {
    let mut server = server_of(alloc, row[0])?;
    let letters = server.rounds(rt, alloc, row[1].len())?;
    assert!(rt; letters.as_str() == row[1]);
    server.finish(rt, alloc)?;
    let net = server.close();
    assert!(rt; events(alloc, &net)?.as_str() == row[2]);
    Ok(())
}

#[test]
fn rounds_of_a_peer(rt: HostRuntime) -> Result<(), Fail> {
    for row in &ROWS {
        is_so(&rt, rt.alloc(), row)?;
    }
    Ok(())
}
