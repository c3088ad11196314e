// Shelves over a folder in memory: submissions, and what is read from the folder again.
ghost use Rattle.std.specs.Prelude.{◌≤◌, IfOk};

use crate::Fault;
use crate::runs::{Runs, no_files};
use crate::version::hashed;
use delta_history::Copies;
use doc_items::Memory;
use std::alloc::Global;
use std::mem::replace;
use test_disk_rows::{first_word, halves, number, put, put_digits};
use test_wavelet_words::{shown_state, submission};
use wave_base::{HashedVersion, WaveletName};
use wave_hash::zero_hash;
use wave_outside::MemoryFolder;
use wavelet_container::SubmitFault;
use wavelet_op::{Submission, Verdict};
use wavelet_shelf::{Shelf, ShelfFault, shard};

/// A shelf over a folder in memory.
pub(crate) type MemoryShelf = Shelf<MemoryFolder>;

fn hash_at(shelf: &MemoryShelf, name: &WaveletName, version: u64) -> [u8; 32] {
    match shelf.copy_of(name) {
        Some(history) => history.hash_at(version).unwrap_or([0; 32]),
        None => zero_hash(name),
    }
}

/// The version of the wavelet's history; 0 where it has no delta.
pub(crate) fn version_of(shelf: &MemoryShelf, name: &WaveletName) -> u64 {
    match shelf.copy_of(name) {
        Some(history) => history.head().version,
        None => 0,
    }
}

fn turned(hash: [u8; 32]) -> [u8; 32] {
    let mut hash = hash;
    hash[31] ^= 1;
    hash
}

/// A number up to 1000.
pub(crate) fn small(number: u64) -> Result<u64, Fault>
    ensures { IfOk result (λ n. n ≤ 1000) }
{
    if number > 1000 {
        return Err(Fault::BadRow);
    }
    Ok(number)
}

// The version of the history that a word names, with its hash, or with another one after `!`.
fn place(shelf: &MemoryShelf, name: &WaveletName, word: &str) -> Result<HashedVersion, Fault> {
    let (digits, wrong) = match word.strip_suffix('!') {
        Some(digits) => (digits, true),
        None => (word, false),
    };
    let version = number(digits)?;
    let hash = hash_at(shelf, name, version);
    let hash = if wrong { turned(hash) } else { hash };
    hashed(version, hash)
}

/// A verdict in words.
pub(crate) fn shown(alloc: Global, verdict: Verdict) -> Result<String, Memory> {
    match verdict {
        Verdict::Ack { at, to } => format!(in alloc; "ack {} {}", at, to.version),
        Verdict::NotParticipant => String::from_str(alloc, "absent"),
        Verdict::ReadOnly => String::from_str(alloc, "read only"),
        Verdict::UnknownVersion { head } => format!(in alloc; "unknown {}", head.version),
        Verdict::WrongHash { .. } => String::from_str(alloc, "wrong hash"),
        Verdict::Invalid { index } => format!(in alloc; "invalid {}", index),
        Verdict::Full { .. } => String::from_str(alloc, "full"),
    }
}

/// What became of a submission, in words.
pub(crate) fn outcome(alloc: Global, told: Result<Verdict, SubmitFault>) -> Result<String, Fault> {
    match told {
        Ok(verdict) => Ok(shown(alloc, verdict)?),
        Err(SubmitFault::DiskFault) => Ok(String::from_str(alloc, "disk fault")?),
        Err(SubmitFault::Memory) => Err(Fault::Memory),
    }
}

/// The submission of an author, a number and words, made at a version.
pub(crate) fn made(
    alloc: Global,
    author: &str,
    number: u64,
    at: HashedVersion,
    words: &str,
) -> Result<Submission, Fault> {
    let number = small(number)?;
    Ok(submission(alloc, author, number, at, words)?)
}

// The submission of a row to a wavelet.
fn made_for(
    alloc: Global,
    shelf: &MemoryShelf,
    name: &WaveletName,
    rest: &str,
) -> Result<Submission, Fault> {
    let (front, words) = halves(rest);
    let (author, front) = first_word(front);
    let (serial, version) = first_word(front);
    let at = place(shelf, name, version)?;
    made(alloc, author, number(serial)?, at, words)
}

/// What is answered to a row's submission to a wavelet.
pub(crate) fn answer(
    alloc: Global,
    shelf: &mut MemoryShelf,
    name: &WaveletName,
    rest: &str,
) -> Result<String, Fault> {
    let made = made_for(alloc, shelf, name, rest)?;
    outcome(alloc, shelf.submit(alloc, name, &made, 1000))
}

// Alice's submission of `noop` at the head.
fn noop(
    alloc: Global,
    shelf: &mut MemoryShelf,
    name: &WaveletName,
    number: u64,
) -> Result<(), Fault> {
    let version = version_of(shelf, name);
    let at = hashed(version, hash_at(shelf, name, version))?;
    let made = made(alloc, "alice@a.com", number, at, "noop")?;
    match shelf.submit(alloc, name, &made, 1000) {
        Ok(_) => Ok(()),
        Err(_) => Err(Fault::BadRow),
    }
}

fn noops(
    alloc: Global,
    shelf: &mut MemoryShelf,
    name: &WaveletName,
    first: u64,
    last: u64,
) -> Result<(), Fault> {
    for number in first..=last {
        noop(alloc, shelf, name, number)?;
    }
    Ok(())
}

// Appends each hosted wavelet with its version.
fn put_hosted(alloc: Global, shelf: &MemoryShelf, out: &mut String) -> Result<(), Memory> {
    for place in 0..u64::MAX {
        let Some(name) = shelf.hosted(place) else {
            return Ok(());
        };
        let version = version_of(shelf, name);
        let entry = format!(in alloc; "{} {}", name.text(), version)?;
        put(out, entry.as_str())?;
    }
    Ok(())
}

fn put_load(alloc: Global, loaded: Result<(), ShelfFault>, out: &mut String) -> Result<(), Memory> {
    match loaded {
        Ok(()) => put(out, "loaded"),
        Err(ShelfFault::Damaged { file, offset }) => {
            let told = format!(in alloc; "damaged {} {}", file.as_str(), offset)?;
            put(out, told.as_str())
        }
        Err(ShelfFault::Failed) => put(out, "failed"),
        Err(ShelfFault::Memory) => Err(std::alloc::AllocError),
    }
}

// Appends the hosted wavelets of a part, each after the part's number.
fn put_part(
    alloc: Global,
    shelf: &MemoryShelf,
    number: usize,
    out: &mut String,
) -> Result<(), Memory> {
    if shelf.hosted(0).is_some() {
        let told = format!(in alloc; "part {}", number)?;
        put(out, told.as_str())?;
    }
    put_hosted(alloc, shelf, out)
}

// Appends what the part of a wavelet answers to a row's submission.
fn go_on(
    alloc: Global,
    parts: &mut Vec<MemoryShelf>,
    name: &WaveletName,
    rest: &str,
    out: &mut String,
) -> Result<(), Fault> {
    let place = shard(name) as usize;
    match parts.get_mut(place) {
        Some(part) => {
            let told = answer(alloc, part, name, rest)?;
            Ok(put(out, told.as_str())?)
        }
        None => Err(Fault::BadRow),
    }
}

/// The shelf of the rows.
pub(crate) struct Shelves {
    shelf: MemoryShelf,
    parts: Vec<MemoryShelf>,
}

impl Drop for Shelves {
    fn drop(self) {
        let Shelves {
            shelf: _shelf,
            parts: _parts,
        } = self;
    }
}

impl Shelves {
    pub(crate) fn new(alloc: Global) -> Shelves {
        Shelves {
            shelf: Shelf::new(alloc),
            parts: Vec::new(alloc),
        }
    }

    /// `shelf`: a new one, over no folder.
    pub(crate) fn plain(&mut self, alloc: Global) {
        self.shelf = Shelf::new(alloc);
    }

    /// `load`: a new shelf over the folder, and what becomes of reading it.
    pub(crate) fn load(
        &mut self,
        alloc: Global,
        runs: &mut Runs,
        out: &mut String,
    ) -> Result<(), Fault> {
        let folder = replace(&mut runs.folder, no_files(alloc));
        let mut shelf = Shelf::over(alloc, folder);
        let loaded = shelf.load(alloc);
        self.shelf = shelf;
        Ok(put_load(alloc, loaded, out)?)
    }

    /// `close`: the shelf's folder is there again; `none` where it had none.
    pub(crate) fn close(
        &mut self,
        alloc: Global,
        runs: &mut Runs,
        out: &mut String,
    ) -> Result<(), Fault> {
        let shelf = replace(&mut self.shelf, Shelf::new(alloc));
        match shelf.close() {
            Some(folder) => {
                runs.folder = folder;
                Ok(())
            }
            None => Ok(put(out, "none")?),
        }
    }

    /// `submit NAME AUTHOR NUMBER VERSION | WORDS`: the verdict.
    pub(crate) fn submit(
        &mut self,
        alloc: Global,
        rest: &str,
        out: &mut String,
    ) -> Result<(), Fault> {
        let (name, rest) = first_word(rest);
        let name = WaveletName::parse(alloc, name)?;
        let told = answer(alloc, &mut self.shelf, &name, rest)?;
        Ok(put(out, told.as_str())?)
    }

    /// `noops NAME FIRST LAST`: alice's submissions of these numbers, each of `noop` at the head.
    pub(crate) fn noops(&mut self, alloc: Global, rest: &str) -> Result<(), Fault> {
        let (name, rest) = first_word(rest);
        let (first, last) = first_word(rest);
        let name = WaveletName::parse(alloc, name)?;
        noops(alloc, &mut self.shelf, &name, number(first)?, number(last)?)
    }

    /// `hosted`: the wavelets in order, each with its version.
    pub(crate) fn hosted(&self, alloc: Global, out: &mut String) -> Result<(), Fault> {
        Ok(put_hosted(alloc, &self.shelf, out)?)
    }

    /// `hash_at NAME VERSION`: the hash of a wavelet's history there, in digits.
    pub(crate) fn hash(&self, alloc: Global, rest: &str, out: &mut String) -> Result<(), Fault> {
        let (name, version) = first_word(rest);
        let name = WaveletName::parse(alloc, name)?;
        let hash = hash_at(&self.shelf, &name, number(version)?);
        put(out, "")?;
        Ok(put_digits(alloc, out, hash.as_slice())?)
    }

    /// `state NAME`: the state of a wavelet, in words.
    pub(crate) fn state(&self, alloc: Global, name: &str, out: &mut String) -> Result<(), Fault> {
        let name = WaveletName::parse(alloc, name)?;
        match self.shelf.copy_of(&name) {
            Some(history) => {
                let state = shown_state(alloc, history.state())?;
                Ok(put(out, state.as_str())?)
            }
            None => Err(Fault::BadRow),
        }
    }

    /// `divide`: the shelf in sixteen parts, each that has wavelets with its number and these.
    pub(crate) fn divide(&mut self, alloc: Global, out: &mut String) -> Result<(), Fault> {
        let shelf = replace(&mut self.shelf, Shelf::new(alloc));
        self.parts = shelf.divide(alloc)?;
        for (place, part) in self.parts.iter().enumerate() {
            put_part(alloc, part, place, out)?;
        }
        Ok(())
    }

    /// `part NAME AUTHOR NUMBER VERSION | WORDS`: the verdict in the wavelet's part.
    pub(crate) fn part(
        &mut self,
        alloc: Global,
        rest: &str,
        out: &mut String,
    ) -> Result<(), Fault> {
        let (name, rest) = first_word(rest);
        let name = WaveletName::parse(alloc, name)?;
        go_on(alloc, &mut self.parts, &name, rest, out)
    }
}
