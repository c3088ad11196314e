// Deltas and their bytes.
use crate::fault::Fault;
use crate::wavelets::put_ops;
use doc_items::{MAX_COUNT, Memory};
use op_codec::CodecFault;
use std::alloc::Global;
use test_row_words::{bytes_of, number, put, put_hex, put_number, words};
use test_wavelet_words::{delta_at, operations};
use wave_base::HashedVersion;
use wavelet_codec::{applied_len, ops_len, read_applied, write_applied};
use wavelet_op::AppliedDelta;

// The bytes of a delta, as they are written after one that stands there.
fn written(alloc: Global, delta: &AppliedDelta) -> Result<Vec<u8>, Memory> {
    let mut out = Vec::new(alloc);
    out.push(7)?;
    if applied_len(alloc, delta)? < 1_000_000 {
        write_applied(alloc, delta, &mut out)?;
    }
    Ok(out)
}

// The number of bytes, and the bytes after a 7.
fn put_bytes(alloc: Global, delta: &AppliedDelta, out: &mut String) -> Result<(), Fault> {
    let bytes = written(alloc, delta)?;
    put_number(out, applied_len(alloc, delta)?)?;
    Ok(put_hex(out, bytes.as_slice())?)
}

// `AUTHOR NUMBER VERSION OPERATIONS`, of the client 1, at the time 1000.
fn put_delta(alloc: Global, rest: &str, out: &mut String) -> Result<(), Fault> {
    let (author, more) = words(rest);
    let (of, more) = words(more);
    let (version, ops) = words(more);
    let from = HashedVersion {
        version: number(version).min(MAX_COUNT),
        hash: [7; 32],
    };
    let delta = delta_at(alloc, author, number(of).min(MAX_COUNT), from, ops)?;
    put_bytes(alloc, &delta, out)
}

fn put_head(delta: &AppliedDelta, out: &mut String) -> Result<(), Fault> {
    put(out, delta.id.author.text())?;
    let (client, number) = (delta.id.client, delta.id.number);
    let (version, time) = (delta.from.version, delta.time);
    Ok(write!(out, " {client} {number} at {version} time {time}")?)
}

fn put_all(alloc: Global, delta: &AppliedDelta, out: &mut String) -> Result<(), Fault> {
    put_head(delta, out)?;
    if delta.from.hash != [9; 32] {
        put(out, "another hash")?;
    }
    put_ops(alloc, &delta.ops, out)?;
    put_bytes(alloc, delta, out)
}

// The delta of these bytes, in words and in bytes again.
fn read_delta(alloc: Global, rest: &str, out: &mut String) -> Result<(), Fault> {
    let bytes = bytes_of(alloc, rest)?;
    let delta = read_applied(alloc, bytes.as_slice(), &[9; 32])?;
    put_all(alloc, &delta, out)
}

fn is_refused(alloc: Global, bytes: &[u8]) -> bool {
    match read_applied(alloc, bytes, &[7; 32]) {
        Err(CodecFault::BadBytes) => true,
        Err(CodecFault::Memory) => false,
        Ok(_) => false,
    }
}

// How many beginnings of the bytes are refused.
fn count_cuts(alloc: Global, rest: &str, out: &mut String) -> Result<(), Fault> {
    let bytes = bytes_of(alloc, rest)?;
    let bytes = bytes.as_slice();
    let mut refused = 0u64;
    for len in 0..bytes.len() {
        if is_refused(alloc, &bytes[..len]) {
            refused = refused.wrapping_add(1);
        }
    }
    Ok(put_number(out, refused)?)
}

fn put_len(alloc: Global, rest: &str, out: &mut String) -> Result<(), Fault> {
    let ops = operations(alloc, rest)?;
    Ok(put_number(out, ops_len(alloc, &ops)?)?)
}

/// The answers to `delta-bytes`, `read-delta`, `cuts-delta` and `len`.
pub fn call(alloc: Global, verb: &str, rest: &str, out: &mut String) -> Result<bool, Fault> {
    match verb {
        "delta-bytes" => put_delta(alloc, rest, out)?,
        "read-delta" => read_delta(alloc, rest, out)?,
        "cuts-delta" => count_cuts(alloc, rest, out)?,
        "len" => put_len(alloc, rest, out)?,
        _ => return Ok(false),
    }
    Ok(true)
}
