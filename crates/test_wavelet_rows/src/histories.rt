// Histories: deltas in turn, what is found, states at versions.
use crate::fault::Fault;
use crate::wavelets::put_state;
use delta_history::History;
use doc_items::Memory;
use std::alloc::Global;
use test_row_words::{number, parts, put, put_command, put_hex, put_number, words};
use test_wavelet_words::{delta_at, id, shown_state};
use wave_base::{HashedVersion, WaveletName};
use wavelet_op::AppliedDelta;
use wavelet_state::WaveletState;

fn empty(alloc: Global) -> Result<History, Fault> {
    let name = WaveletName::parse(alloc, "a.com/w1/a.com/conv+root")?;
    Ok(History::new(alloc, name))
}

// `AUTHOR NUMBER OPERATIONS` at a version.
fn delta(alloc: Global, from: HashedVersion, rest: &str) -> Result<AppliedDelta, Fault> {
    let (author, more) = words(rest);
    let (of, ops) = words(more);
    Ok(delta_at(alloc, author, number(of).min(1000), from, ops)?)
}

fn push(alloc: Global, history: &mut History, delta: AppliedDelta) -> Result<(), Fault> {
    Ok(history.push_applied(alloc, delta)?)
}

// The delta is prepared and committed.
fn commit(alloc: Global, history: &mut History, delta: AppliedDelta) -> Result<(), Fault> {
    match history.prepare(alloc, delta) {
        Ok(prepared) => {
            history.commit(prepared);
            Ok(())
        }
        Err(fault) => Err(Fault::from(fault)),
    }
}

fn put_kept(alloc: Global, history: &History, rest: &str, out: &mut String) -> Result<(), Fault> {
    let (author, of) = words(rest);
    let id = id(alloc, author, number(of).min(1000))?;
    match history.kept(&id) {
        Some(kept) => {
            put_number(out, kept.at)?;
            put_version(kept.to, out)
        }
        None => Ok(put(out, "none")?),
    }
}

fn put_version(at: HashedVersion, out: &mut String) -> Result<(), Fault> {
    put_number(out, at.version)?;
    Ok(put_hex(out, &at.hash)?)
}

fn put_hash(history: &History, version: u64, out: &mut String) -> Result<(), Fault> {
    match history.hash_at(version) {
        Some(hash) => Ok(put_hex(out, &hash)?),
        None => Ok(put(out, "none")?),
    }
}

fn put_some_state(
    alloc: Global,
    state: &Option<WaveletState>,
    out: &mut String,
) -> Result<(), Fault> {
    match state {
        Some(state) => put_state(alloc, state, out),
        None => Ok(put(out, "none")?),
    }
}

fn put_state_at(
    alloc: Global,
    history: &History,
    version: u64,
    out: &mut String,
) -> Result<(), Fault> {
    let state = history.state_at(alloc, version)?;
    put_some_state(alloc, &state, out)
}

// What is told of a history.
fn told(
    alloc: Global,
    history: &History,
    verb: &str,
    rest: &str,
    out: &mut String,
) -> Result<(), Fault> {
    match verb {
        "head" => put_version(history.head(), out),
        "inserted" => Ok(put_number(out, history.inserted())?),
        "hash" => put_hash(history, number(rest), out),
        "at" => put_state_at(alloc, history, number(rest), out),
        "kept" => put_kept(alloc, history, rest, out),
        _ => Err(Fault::Row),
    }
}

// What becomes of a delta, and the state after it.
fn put_taken(
    alloc: Global,
    history: &History,
    taken: Result<(), Fault>,
    out: &mut String,
) -> Result<(), Fault> {
    match taken {
        Ok(()) => put(out, "taken")?,
        Err(fault) => write!(out, " => {fault:?}")?,
    }
    put_state(alloc, history.state(), out)
}

// `push` and `commit` take a delta at the head, `early` one that starts at the version 0.
fn step(
    alloc: Global,
    history: &mut History,
    command: &str,
    out: &mut String,
) -> Result<(), Fault> {
    let (verb, rest) = words(command);
    match verb {
        "push" => {
            let delta = delta(alloc, history.head(), rest)?;
            let taken = push(alloc, history, delta);
            put_taken(alloc, history, taken, out)
        }
        "commit" => {
            let delta = delta(alloc, history.head(), rest)?;
            let taken = commit(alloc, history, delta);
            put_taken(alloc, history, taken, out)
        }
        "early" => {
            let delta = delta(alloc, empty(alloc)?.head(), rest)?;
            let taken = push(alloc, history, delta);
            put_taken(alloc, history, taken, out)
        }
        _ => told(alloc, history, verb, rest, out),
    }
}

fn run_in(
    alloc: Global,
    history: &mut History,
    commands: &str,
    out: &mut String,
) -> Result<(), Fault> {
    for command in commands.split(" | ") {
        put_command(out, command)?;
        step(alloc, history, command, out)?;
    }
    Ok(())
}

// Commands on one history.
fn run(alloc: Global, rest: &str, out: &mut String) -> Result<(), Fault> {
    let mut history = empty(alloc)?;
    run_in(alloc, &mut history, rest, out)
}

fn note(alloc: Global, history: &History, states: &mut Vec<String>) -> Result<(), Memory> {
    states.push(shown_state(alloc, history.state())?)?;
    Ok(())
}

// One delta of one operation, and the state that it leads to is noted.
fn replay_one(
    alloc: Global,
    history: &mut History,
    states: &mut Vec<String>,
    words: &str,
) -> Result<(), Fault> {
    let at = history.head();
    let delta = delta_at(alloc, "alice@a.com", at.version.min(10_000), at, words)?;
    history.push_applied(alloc, delta)?;
    Ok(note(alloc, history, states)?)
}

// The edits of one document, which ` / ` parts.
fn replay_document(
    alloc: Global,
    history: &mut History,
    states: &mut Vec<String>,
    name: &str,
    edits: &str,
) -> Result<(), Fault> {
    for edit in edits.split(" / ") {
        let words = format!(in alloc; "{name}: {edit}")?;
        replay_one(alloc, history, states, words.as_str())?;
    }
    Ok(())
}

// The documents whose names begin with a letter.
fn replay_all(
    alloc: Global,
    history: &mut History,
    states: &mut Vec<String>,
    letter: char,
    documents: &str,
) -> Result<(), Fault> {
    for (number, edits) in documents.split(" | ").enumerate() {
        let name = format!(in alloc; "{letter}+{number}")?;
        replay_document(alloc, history, states, name.as_str(), edits)?;
    }
    Ok(())
}

fn is_told(alloc: Global, history: &History, version: u64, want: &str) -> Result<bool, Fault> {
    match history.state_at(alloc, version)? {
        Some(state) => Ok(shown_state(alloc, &state)?.as_str() == want),
        None => Ok(false),
    }
}

// At how many versions the state is as it was noted.
fn count_told(alloc: Global, history: &History, states: &[String]) -> Result<u64, Fault> {
    let mut told = 0u64;
    let mut version = 0u64;
    for state in states {
        version = version.wrapping_add(1);
        if is_told(alloc, history, version, state.as_str())? {
            told = told.wrapping_add(1);
        }
    }
    Ok(told)
}

fn replay_in(
    alloc: Global,
    history: &mut History,
    rest: &str,
    out: &mut String,
) -> Result<(), Fault> {
    let (letters, documents) = parts(rest);
    let mut states = Vec::new(alloc);
    replay_one(alloc, history, &mut states, "add alice@a.com")?;
    for letter in letters.chars() {
        replay_all(alloc, history, &mut states, letter, documents)?;
    }
    put_number(out, history.deltas().len() as u64)?;
    put_number(out, count_told(alloc, history, states.as_slice())?)?;
    put_state_at(alloc, history, 0, out)?;
    put_state_at(alloc, history, history.head().version.wrapping_add(1), out)
}

// `LETTERS | EDIT / EDIT / EDIT | ..`: the edits of each document, for each letter; the number of deltas, at how many versions the
// state is the one that was there then, and the states at 0 and past the head.
fn replay(alloc: Global, rest: &str, out: &mut String) -> Result<(), Fault> {
    let mut history = empty(alloc)?;
    replay_in(alloc, &mut history, rest, out)
}

/// The answers to `history` and `replay`.
pub fn call(alloc: Global, verb: &str, rest: &str, out: &mut String) -> Result<bool, Fault> {
    match verb {
        "history" => run(alloc, rest, out)?,
        "replay" => replay(alloc, rest, out)?,
        _ => return Ok(false),
    }
    Ok(true)
}
