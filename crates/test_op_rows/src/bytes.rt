// Operations as bytes and as JSON.
use crate::fault::Fault;
use doc_items::Memory;
use doc_op::DocOp;
use op_codec::{CodecFault, ReadOp, read, spelling_len, write};
use op_json::{from_value, to_value};
use serde_json::Value;
use std::alloc::Global;
use std::str;
use test_op_words::operation;
use test_row_words::{bytes_of, put, put_hex, put_number};

// The bytes of an operation, as they are written after one that stands there.
fn written(alloc: Global, op: &DocOp) -> Result<Vec<u8>, Memory> {
    let mut out = Vec::new(alloc);
    out.push(7)?;
    if spelling_len(alloc, op)? < 1_000_000 {
        write(alloc, op, &mut out)?;
    }
    Ok(out)
}

/// Puts the number of an operation's bytes, and the bytes as they are written after a byte 7.
pub fn put_spelling(alloc: Global, op: &DocOp, out: &mut String) -> Result<(), Fault> {
    let bytes = written(alloc, op)?;
    put_number(out, spelling_len(alloc, op)?)?;
    Ok(put_hex(out, bytes.as_slice())?)
}

fn spell(alloc: Global, rest: &str, out: &mut String) -> Result<(), Fault> {
    let op = operation(alloc, rest)?;
    put_spelling(alloc, &op, out)
}

// How many bytes were used, and what is written for the operation that was read.
fn read_bytes(alloc: Global, rest: &str, out: &mut String) -> Result<(), Fault> {
    let bytes = bytes_of(alloc, rest)?;
    let ReadOp { op, used } = read(alloc, bytes.as_slice())?;
    put_number(out, used)?;
    put_spelling(alloc, &op, out)
}

fn is_refused(alloc: Global, bytes: &[u8]) -> bool {
    match read(alloc, bytes) {
        Err(CodecFault::BadBytes) => true,
        _ => false,
    }
}

// How many beginnings of the bytes are refused.
fn count_cuts(alloc: Global, rest: &str, out: &mut String) -> Result<(), Fault> {
    let bytes = bytes_of(alloc, rest)?;
    let bytes = bytes.as_slice();
    let mut refused = 0u64;
    for len in 0..bytes.len() {
        if is_refused(alloc, &bytes[..len]) {
            refused = refused.wrapping_add(1);
        }
    }
    Ok(put_number(out, refused)?)
}

// Whether these bytes after a 7 begin the others.
fn is_start(out: &[u8], bytes: &[u8]) -> bool {
    match out {
        [7, rest @ ..] => bytes.starts_with(rest),
        _ => false,
    }
}

// Whether the bytes are refused, or spell what is written as they stand.
fn is_consistent(alloc: Global, bytes: &[u8]) -> Result<bool, Fault> {
    let Ok(ReadOp { op, used }) = read(alloc, bytes) else {
        return Ok(is_refused(alloc, bytes));
    };
    let out = written(alloc, &op)?;
    Ok(is_start(out.as_slice(), bytes) && out.len() as u64 == used.wrapping_add(1))
}

// The bytes, with one of them changed.
fn changed(alloc: Global, bytes: &[u8], index: usize, mask: u8) -> Result<Vec<u8>, Memory> {
    let mut copy = Vec::new(alloc);
    for (place, byte) in bytes.iter().enumerate() {
        if place == index {
            copy.push(*byte ^ mask)?;
        } else {
            copy.push(*byte)?;
        }
    }
    Ok(copy)
}

// How many changes of the byte at this place are told.
fn told(alloc: Global, bytes: &[u8], index: usize) -> Result<u64, Fault> {
    let mut told = 0u64;
    for mask in 1..=255u8 {
        let other = changed(alloc, bytes, index, mask)?;
        if is_consistent(alloc, other.as_slice())? {
            told = told.wrapping_add(1);
        }
    }
    Ok(told)
}

// How many changes of one byte are told: refused, or another spelling.
fn count_changes(alloc: Global, rest: &str, out: &mut String) -> Result<(), Fault> {
    let bytes = bytes_of(alloc, rest)?;
    let mut all = 0u64;
    for index in 0..bytes.len() {
        all = all.wrapping_add(told(alloc, bytes.as_slice(), index)?);
    }
    Ok(put_number(out, all)?)
}

fn put_json(alloc: Global, op: &DocOp, out: &mut String) -> Result<(), Fault> {
    let value = to_value(alloc, op)?;
    let bytes = value.to_vec(alloc)?;
    match str::from_utf8(bytes.as_slice()) {
        Ok(text) => Ok(put(out, text)?),
        Err(_) => Err(Fault::NotJson),
    }
}

fn put_value(alloc: Global, value: &Value, out: &mut String) -> Result<(), Fault> {
    let op = from_value(alloc, value)?;
    put_json(alloc, &op, out)
}

// The operation that is read from JSON, as JSON.
fn read_json(alloc: Global, rest: &str, out: &mut String) -> Result<(), Fault> {
    match Value::from_slice(alloc, rest.as_bytes()) {
        Ok(value) => put_value(alloc, &value, out),
        Err(_) => Err(Fault::NotJson),
    }
}

/// The answers to `spell`, `spelled`, `cuts`, `changes` and `json`.
pub fn call(alloc: Global, verb: &str, rest: &str, out: &mut String) -> Result<bool, Fault> {
    match verb {
        "spell" => spell(alloc, rest, out)?,
        "spelled" => read_bytes(alloc, rest, out)?,
        "cuts" => count_cuts(alloc, rest, out)?,
        "changes" => count_changes(alloc, rest, out)?,
        "json" => read_json(alloc, rest, out)?,
        _ => return Ok(false),
    }
    Ok(true)
}
