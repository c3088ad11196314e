//! One session.
ghost use Rattle.std.specs.Prelude.{⊤};

use crate::log::Log;
use std::alloc::Global;
use std::sync::{Arc, Wait};
use wave_outside::{Gate, Job, Link, Polled};

/// The only shard.
const SHARD: u8 = 0;

/// A session that is to be served.
pub struct Talk<L: Link, G: Gate + Drop> {
    pub log: Arc<Log, Global>,
    pub link: L,
    pub gate: G,
    pub number: u64,
}

impl<L: Link, G: Gate + Drop> Drop for Talk<L, G> {
    fn drop(self) {
        let Talk {
            log: _log,
            link: _link,
            gate: _gate,
            number: _number,
        } = self;
    }
}

impl<L: Link, G: Gate + Drop> Job for Talk<L, G> {
    type End = L;

    ghost may_give = { λ _ _. ⊤ };

    fn work<R: Wait>(self, rt: &R, alloc: Global) -> L {
        let Talk {
            log,
            mut link,
            mut gate,
            number,
        } = self;
        converse(rt, alloc, &log, &mut link, &mut gate, number);
        link
    }
}

// Delivers and takes in until the link has ended.
fn converse<R: Wait, L: Link, G: Gate>(
    rt: &R,
    alloc: Global,
    log: &Log,
    link: &mut L,
    gate: &mut G,
    number: u64,
) {
    let mut sent = 0usize;
    gate.before(number, SHARD);
    gate.after(number, SHARD);
    for _ in rt.forever() {
        if !deliver(rt, alloc, log, link, &mut sent) {
            return;
        }
        match link.poll(alloc) {
            Ok(Polled::Message(message)) => {
                if !take_in(rt, alloc, log, gate, number, message) {
                    return;
                }
            }
            Ok(Polled::Nothing) => {}
            Ok(Polled::Closed) => return,
            Err(_) => return,
        }
    }
    unreachable!()
}

// Sends what is new.
fn deliver<R: Wait, L: Link>(
    rt: &R,
    alloc: Global,
    log: &Log,
    link: &mut L,
    sent: &mut usize,
) -> bool {
    for place in *sent..log.len() {
        let Some(message) = log.get(rt, place) else {
            return false;
        };
        if link.send(alloc, message.as_slice()).is_err() {
            return false;
        }
        *sent = place.saturating_add(1);
    }
    true
}

fn take_in<R: Wait, G: Gate>(
    rt: &R,
    alloc: Global,
    log: &Log,
    gate: &mut G,
    number: u64,
    message: Vec<u8>,
) -> bool {
    gate.before(number, SHARD);
    let added = log.add(rt, alloc, message);
    gate.after(number, SHARD);
    gate.news(number, SHARD);
    added.is_ok()
}
