// Chains of undo: `undo-chain STATE | COMMAND | ..`. The state has the members `participants` and `documents` of a snapshot. A
// command is `edit`, an edit of one's own, or `change`, one made by others, each with an object whose member `ops` has operations;
// `undo`; or `state`. The first three are answered by the number of entries and the first of them, the last by the state. Of a
// command only its verb is printed before its answer.
use crate::fault::Fault;
use serde_json::Value;
use snapshot_json::{documents_value, members_value, state_in};
use std::alloc::Global;
use test_row_words::{put, put_command, words};
use undo_control::UndoChain;
use wavelet_json::{ops_at, ops_value};
use wavelet_op::{Ops, WaveletFault};
use wavelet_state::WaveletState;

fn value_of(alloc: Global, text: &str) -> Result<Value, Fault> {
    match Value::from_str(alloc, text) {
        Ok(value) => Ok(value),
        Err(_) => Err(Fault::NotJson),
    }
}

fn state_of(alloc: Global, text: &str) -> Result<WaveletState, Fault> {
    match state_in(alloc, &value_of(alloc, text)?)? {
        Some(state) => Ok(state),
        None => Err(Fault::Row),
    }
}

fn ops_of(alloc: Global, text: &str) -> Result<Ops, Fault> {
    match ops_at(alloc, &value_of(alloc, text)?, "ops")? {
        Some(ops) => Ok(ops),
        None => Err(Fault::Row),
    }
}

fn put_entries(alloc: Global, chain: &UndoChain, out: &mut String) -> Result<(), Fault> {
    let count = chain.len();
    let Some(front) = chain.front() else {
        return Ok(write!(out, " => {count}")?);
    };
    let front = ops_value(alloc, front)?.to_string(alloc)?;
    Ok(write!(out, " => {count} {front}")?)
}

fn put_state(alloc: Global, chain: &UndoChain, out: &mut String) -> Result<(), Fault> {
    let members = members_value(alloc, chain.state())?.to_string(alloc)?;
    let documents = documents_value(alloc, chain.state())?.to_string(alloc)?;
    Ok(write!(out, " => {members} {documents}")?)
}

fn put_noted(
    alloc: Global,
    chain: &UndoChain,
    noted: Result<(), WaveletFault>,
    out: &mut String,
) -> Result<(), Fault> {
    match noted {
        Ok(()) => put_entries(alloc, chain, out),
        Err(fault) => Ok(write!(out, " => {fault:?}")?),
    }
}

fn undo(alloc: Global, chain: &mut UndoChain, out: &mut String) -> Result<(), Fault> {
    if chain.len() == 0 {
        return Ok(put(out, "nothing")?);
    }
    chain.note_undone(alloc)?;
    put_entries(alloc, chain, out)
}

fn play(
    alloc: Global,
    chain: &mut UndoChain,
    command: &str,
    out: &mut String,
) -> Result<(), Fault> {
    let (verb, rest) = words(command);
    put_command(out, verb)?;
    if verb == "edit" {
        let noted = chain.note_edit(alloc, &ops_of(alloc, rest)?);
        return put_noted(alloc, chain, noted, out);
    }
    if verb == "change" {
        let noted = chain.note_change(alloc, &ops_of(alloc, rest)?);
        return put_noted(alloc, chain, noted, out);
    }
    if verb == "undo" {
        return undo(alloc, chain, out);
    }
    put_state(alloc, chain, out)
}

fn play_all(
    alloc: Global,
    chain: &mut UndoChain,
    commands: &str,
    out: &mut String,
) -> Result<(), Fault> {
    for command in commands.split(" | ") {
        play(alloc, chain, command, out)?;
    }
    Ok(())
}

/// The answer to `undo-chain`.
pub fn call(alloc: Global, verb: &str, rest: &str, out: &mut String) -> Result<bool, Fault> {
    if verb != "undo-chain" {
        return Ok(false);
    }
    let (state, commands) = test_row_words::parts(rest);
    let mut chain = UndoChain::new(alloc, state_of(alloc, state)?);
    play_all(alloc, &mut chain, commands, out)?;
    Ok(true)
}
