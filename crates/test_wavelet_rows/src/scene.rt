// A host's history and a follower of it, moved by commands.
use crate::fault::Fault;
use crate::wavelets::put_state;
use client_control::{Follower, Received, Taken};
use delta_history::History;
use doc_items::{MAX_COUNT, Memory};
use std::alloc::Global;
use test_row_words::{letters, number, put, put_either, put_number, words};
use test_wavelet_words::operations;
use wave_base::{Address, DeltaId, HashedVersion, WaveletName};
use wavelet_op::{AppliedDelta, Ops, Submission, transform_delta};
use wavelet_state::{MAX_INSERTED, Snapshot, WaveletState};

/// The host and the follower.
#[derive(Drop)]
pub struct Scene {
    host: History,
    follower: Follower,
    number: u64,
}

fn wavelet(alloc: Global) -> Result<WaveletName, Fault> {
    Ok(WaveletName::parse(alloc, "a.com/w+1/a.com/conv+root")?)
}

fn user(alloc: Global) -> Result<Address, Fault> {
    Ok(Address::parse(alloc, "al@a.com")?)
}

fn put_received(received: &Received, out: &mut String) -> Result<(), Fault> {
    match received {
        Received::Old => Ok(put(out, "Old")?),
        Received::Gap => Ok(put(out, "Gap")?),
        Received::Diverged { .. } => Ok(put(out, "Diverged")?),
        Received::OtherFlight { .. } => Ok(put(out, "OtherFlight")?),
        Received::NotNext { index } => Ok(write!(out, " => NotNext {index}")?),
        Received::Advanced => Ok(put(out, "Advanced")?),
    }
}

fn put_taken(taken: Taken, out: &mut String) -> Result<(), Fault> {
    match taken {
        Taken::Pending => Ok(put(out, "Pending")?),
        Taken::Old => Ok(put(out, "Old")?),
        Taken::Took => Ok(put(out, "Took")?),
    }
}

fn put_submission(sent: &Submission, out: &mut String) -> Result<(), Fault> {
    let (number, version, count) = (sent.id.number, sent.at.version, sent.ops.len());
    Ok(write!(out, " => {number} at {version} with {count}")?)
}

fn id(alloc: Global, author: &str, client: u64, number: u64) -> Result<DeltaId, Fault> {
    Ok(DeltaId {
        author: Address::parse(alloc, author)?,
        client: client.min(MAX_COUNT),
        number: number.min(MAX_COUNT),
    })
}

fn delta(
    alloc: Global,
    id: DeltaId,
    from: HashedVersion,
    ops: &Ops,
) -> Result<AppliedDelta, Fault> {
    let ops = ops.normal(alloc)?;
    Ok(AppliedDelta {
        id,
        from,
        time: 1000,
        ops,
    })
}

fn later(alloc: Global, ops: &Ops, earlier: &Ops) -> Result<Ops, Fault> {
    if !ops.is_structured() || !earlier.is_structured() {
        return Err(Fault::NotStructured);
    }
    Ok(transform_delta(alloc, ops, earlier)?.later.copy(alloc)?)
}

// Operations past the history's deltas from a version on.
fn past(alloc: Global, history: &History, base: u64, ops: &Ops) -> Result<Ops, Fault> {
    let mut passed = ops.copy(alloc)?;
    for delta in history.deltas() {
        if delta.from.version >= base {
            passed = later(alloc, &passed, &delta.ops)?;
        }
    }
    Ok(passed)
}

// What a submission is in the history.
fn applied(alloc: Global, history: &History, sent: &Submission) -> Result<AppliedDelta, Fault> {
    let ops = past(alloc, history, sent.at.version, &sent.ops)?;
    delta(alloc, sent.id.copy(alloc)?, history.head(), &ops)
}

fn find(history: &History, version: u64) -> Option<&AppliedDelta> {
    for delta in history.deltas() {
        if delta.from.version == version {
            return Some(delta);
        }
    }
    None
}

fn give(
    alloc: Global,
    follower: &mut Follower,
    delta: &AppliedDelta,
    out: &mut String,
) -> Result<(), Fault> {
    let received = follower.receive_update(alloc, delta)?;
    put_received(&received, out)
}

fn take_snapshot(
    follower: &mut Follower,
    snapshot: Option<Snapshot>,
    out: &mut String,
) -> Result<(), Fault> {
    let Some(snapshot) = snapshot else {
        return Err(Fault::Row);
    };
    if snapshot.name() == follower.name() {
        put_taken(follower.receive_snapshot(snapshot), out)
    } else {
        Err(Fault::Row)
    }
}

fn put_edit(
    alloc: Global,
    follower: &mut Follower,
    words: &str,
    out: &mut String,
) -> Result<(), Fault> {
    let ops = operations(alloc, words)?;
    follower.edit(alloc, ops)?;
    Ok(put(out, "queued")?)
}

// An edit after which what is pending inserts at most so many items.
fn put_within(
    alloc: Global,
    follower: &mut Follower,
    most: u64,
    words: &str,
    out: &mut String,
) -> Result<(), Fault> {
    let ops = operations(alloc, words)?;
    follower.edit_within(alloc, ops, most.min(MAX_INSERTED))?;
    Ok(put(out, "queued")?)
}

// The words of an insertion of so many characters into an empty document.
fn insertion(alloc: Global, count: &str) -> Result<String, Memory> {
    letters(alloc, "b+1: +", 'x', number(count))
}

fn put_screen(alloc: Global, follower: &Follower, out: &mut String) -> Result<(), Fault> {
    put_number(out, follower.at().version)?;
    put_either(out, follower.is_settled(), "settled", "pending")?;
    let screen = follower.screen(alloc)?;
    put_state(alloc, &screen, out)
}

fn put_lent(alloc: Global, follower: &Follower, out: &mut String) -> Result<(), Fault> {
    match follower.shown() {
        Some(screen) => put_state(alloc, screen, out),
        None => Ok(put(out, "not kept")?),
    }
}

fn put_pending(follower: &Follower, place: u64, out: &mut String) -> Result<(), Fault> {
    match follower.pending(place) {
        Some(ops) => Ok(put_number(out, ops.len())?),
        None => Ok(put(out, "none")?),
    }
}

fn take(alloc: Global, follower: &mut Follower, out: &mut String) -> Result<(), Fault> {
    match follower.take_submission(alloc)? {
        Some(sent) => put_submission(&sent, out),
        None => Ok(put(out, "none")?),
    }
}

impl Scene {
    pub fn new(alloc: Global) -> Result<Scene, Fault> {
        let host = History::new(alloc, wavelet(alloc)?);
        let follower = Follower::new(alloc, wavelet(alloc)?, user(alloc)?, 5);
        Ok(Scene {
            host,
            follower,
            number: 1,
        })
    }

    // Another's delta enters the history.
    fn grow(&mut self, alloc: Global, words: &str, out: &mut String) -> Result<(), Fault> {
        let ops = operations(alloc, words)?;
        let id = id(alloc, "bob@a.com", 1, self.number)?;
        self.number = self.number.wrapping_add(1);
        let next = delta(alloc, id, self.host.head(), &ops)?;
        self.host.push_applied(alloc, next)?;
        Ok(put(out, "grown")?)
    }

    // The submission in flight enters the history.
    fn accept(&mut self, alloc: Global, out: &mut String) -> Result<(), Fault> {
        let Some(sent) = self.follower.sent() else {
            return Ok(put(out, "nothing")?);
        };
        let next = applied(alloc, &self.host, sent)?;
        self.host.push_applied(alloc, next)?;
        Ok(put(out, "accepted")?)
    }

    // The delta that was applied at this version is given to the follower.
    fn give(&mut self, alloc: Global, version: u64, out: &mut String) -> Result<(), Fault> {
        match find(&self.host, version) {
            Some(delta) => give(alloc, &mut self.follower, delta, out),
            None => Ok(put(out, "no delta")?),
        }
    }

    // A delta that isn't of the history is given to the follower at this version.
    fn forge(
        &mut self,
        alloc: Global,
        from: HashedVersion,
        id: DeltaId,
        words: &str,
        out: &mut String,
    ) -> Result<(), Fault> {
        let ops = operations(alloc, words)?;
        let forged = delta(alloc, id, from, &ops)?;
        give(alloc, &mut self.follower, &forged, out)
    }

    // One at the follower's version.
    fn forge_next(
        &mut self,
        alloc: Global,
        author: &str,
        number: u64,
        words: &str,
        out: &mut String,
    ) -> Result<(), Fault> {
        let id = id(alloc, author, 5, number)?;
        let from = self.follower.at();
        self.forge(alloc, from, id, words, out)
    }

    // One at the follower's version with another hash.
    fn diverge(&mut self, alloc: Global, words: &str, out: &mut String) -> Result<(), Fault> {
        let from = HashedVersion {
            version: self.follower.at().version,
            hash: [7; 32],
        };
        let id = id(alloc, "bob@a.com", 9, 9)?;
        self.forge(alloc, from, id, words, out)
    }

    fn refuse(&mut self, alloc: Global, number: u64, out: &mut String) -> Result<(), Fault> {
        let id = id(alloc, "al@a.com", 5, number)?;
        Ok(put_either(out, self.follower.receive_refusal(&id), "dropped", "kept")?)
    }

    fn snapshot(&mut self, alloc: Global, out: &mut String) -> Result<(), Fault> {
        let name = wavelet(alloc)?;
        let state = self.host.state().copy(alloc)?;
        let made = Snapshot::new(name, self.host.head(), self.host.inserted(), state);
        take_snapshot(&mut self.follower, made, out)
    }

    // A snapshot with nothing in it, at a version and with so many items inserted.
    fn leap(&mut self, alloc: Global, rest: &str, out: &mut String) -> Result<(), Fault> {
        let (version, inserted) = words(rest);
        let at = HashedVersion {
            version: number(version).min(MAX_COUNT),
            hash: [3; 32],
        };
        let name = wavelet(alloc)?;
        let made = Snapshot::new(name, at, number(inserted), WaveletState::new(alloc));
        take_snapshot(&mut self.follower, made, out)
    }

    // A new follower, whose next submission has this number, goes on in the follower's place.
    fn renumber(&mut self, alloc: Global, next: u64, out: &mut String) -> Result<(), Fault> {
        let next = next.min(MAX_COUNT + 1);
        self.follower = Follower::numbered(alloc, wavelet(alloc)?, user(alloc)?, 5, next);
        Ok(put(out, "numbered")?)
    }

    // `edit` or `insert` within a bound of its own.
    fn within(&mut self, alloc: Global, rest: &str, out: &mut String) -> Result<(), Fault> {
        let (most, rest) = words(rest);
        let (verb, rest) = words(rest);
        match verb {
            "edit" => put_within(alloc, &mut self.follower, number(most), rest, out),
            "insert" => {
                let words = insertion(alloc, rest)?;
                put_within(alloc, &mut self.follower, number(most), words.as_str(), out)
            }
            _ => Err(Fault::Row),
        }
    }

    // The screen is kept.
    fn keep(&mut self, alloc: Global, out: &mut String) -> Result<(), Fault> {
        self.follower.keep_screen(alloc)?;
        put_lent(alloc, &self.follower, out)
    }

    // A copy goes on in the follower's place.
    fn copy(&mut self, alloc: Global, out: &mut String) -> Result<(), Fault> {
        self.follower = self.follower.copy(alloc)?;
        put_lent(alloc, &self.follower, out)
    }

    fn drop_pending(&mut self, out: &mut String) -> Result<(), Fault> {
        self.follower.drop_pending();
        Ok(put(out, "dropped")?)
    }

    // What the host and another do.
    fn outside(
        &mut self,
        alloc: Global,
        verb: &str,
        rest: &str,
        out: &mut String,
    ) -> Result<(), Fault> {
        match verb {
            "host" => self.grow(alloc, rest, out),
            "accept" => self.accept(alloc, out),
            "give" => self.give(alloc, number(rest), out),
            "diverge" => self.diverge(alloc, rest, out),
            "refuse" => self.refuse(alloc, number(rest), out),
            "own" => self.forge_next(alloc, "al@a.com", 1, rest, out),
            "forge" => self.forge_next(alloc, "bob@a.com", 77, rest, out),
            "swell" => {
                let words = insertion(alloc, rest)?;
                self.forge_next(alloc, "bob@a.com", 77, words.as_str(), out)
            }
            "snapshot" => self.snapshot(alloc, out),
            "leap" => self.leap(alloc, rest, out),
            "number" => self.renumber(alloc, number(rest), out),
            _ => Err(Fault::Row),
        }
    }

    // What the follower does.
    fn inside(
        &mut self,
        alloc: Global,
        verb: &str,
        rest: &str,
        out: &mut String,
    ) -> Result<(), Fault> {
        match verb {
            "edit" => put_edit(alloc, &mut self.follower, rest, out),
            "insert" => {
                let words = insertion(alloc, rest)?;
                put_edit(alloc, &mut self.follower, words.as_str(), out)
            }
            "within" => self.within(alloc, rest, out),
            "take" => take(alloc, &mut self.follower, out),
            "pending" => put_pending(&self.follower, number(rest), out),
            "version" => Ok(put_number(out, self.follower.at().version)?),
            "settled" => Ok(put_either(out, self.follower.is_settled(), "settled", "pending")?),
            "drop" => self.drop_pending(out),
            "screen" => put_screen(alloc, &self.follower, out),
            "lent" => put_lent(alloc, &self.follower, out),
            "keep" => self.keep(alloc, out),
            "copy" => self.copy(alloc, out),
            _ => self.outside(alloc, verb, rest, out),
        }
    }

    /// What a command gives.
    pub fn answer(&mut self, alloc: Global, command: &str, out: &mut String) -> Result<(), Fault> {
        let (verb, rest) = words(command);
        if let Err(fault) = self.inside(alloc, verb, rest, out) {
            write!(out, " => {fault:?}")?;
        }
        Ok(())
    }
}
