// Names, ids and hashes.
ghost use Rattle.std.specs.Prelude.{◌≤◌};
ghost use Rattle.doc_items.specs.Limits.{max_count};

use crate::fault::Fault;
use doc_items::MAX_COUNT;
use std::alloc::Global;
use std::cmp::Ordering;
use test_row_words::{bytes_of, number, parts, put, put_either, put_hex, words};
use wave_base::{Address, DeltaId, DocumentName, Domain, HashedVersion, SessionName, WaveletName};
use wave_hash::{next_hash, zero_hash};

fn put_address(alloc: Global, rest: &str, out: &mut String) -> Result<(), Fault> {
    let address = Address::parse(alloc, rest)?;
    put(out, address.text())?;
    Ok(put(out, address.domain())?)
}

fn put_wavelet(alloc: Global, rest: &str, out: &mut String) -> Result<(), Fault> {
    let name = WaveletName::parse(alloc, rest)?;
    put(out, name.text())?;
    Ok(put(out, name.host())?)
}

fn put_order(order: Ordering, out: &mut String) -> Result<(), Fault> {
    match order {
        Ordering::Less => Ok(put(out, "less")?),
        Ordering::Equal => Ok(put(out, "equal")?),
        Ordering::Greater => Ok(put(out, "greater")?),
    }
}

fn put_session_order(alloc: Global, rest: &str, out: &mut String) -> Result<(), Fault> {
    let (first, second) = parts(rest);
    let first = SessionName::parse(alloc, first)?.copy(alloc)?;
    let second = SessionName::parse(alloc, second)?;
    put_order(first.cmp(&second), out)?;
    Ok(put_either(out, first == second, "same", "other")?)
}

// `AUTHOR CLIENT NUMBER`
fn id(alloc: Global, rest: &str) -> Result<DeltaId, Fault> {
    let (author, more) = words(rest);
    let (client, of) = words(more);
    let author = Address::parse(alloc, author)?;
    Ok(DeltaId {
        author,
        client: number(client).min(MAX_COUNT),
        number: number(of).min(MAX_COUNT),
    })
}

fn put_id_order(alloc: Global, rest: &str, out: &mut String) -> Result<(), Fault> {
    let (first, second) = parts(rest);
    let first = id(alloc, first)?.copy(alloc)?;
    let second = id(alloc, second)?;
    put_order(first.cmp(&second), out)?;
    Ok(put_either(out, first == second, "same", "other")?)
}

// `VERSION BYTE`, with that byte 32 times as the hash.
fn version(rest: &str) -> HashedVersion {
    let (version, byte) = words(rest);
    HashedVersion {
        version: number(version).min(MAX_COUNT),
        hash: [(number(byte) % 256) as u8; 32],
    }
}

fn put_versions(rest: &str, out: &mut String) -> Result<(), Fault> {
    let (first, second) = parts(rest);
    Ok(put_either(out, version(first) == version(second), "same", "other")?)
}

// The hash before the first delta, and the one after these bytes.
fn put_hashes(alloc: Global, rest: &str, out: &mut String) -> Result<(), Fault> {
    let (name, bytes) = parts(rest);
    let name = WaveletName::parse(alloc, name)?;
    let bytes = bytes_of(alloc, bytes)?;
    let zero = zero_hash(&name);
    put_hex(out, &zero)?;
    Ok(put_hex(out, &next_hash(&zero, bytes.as_slice()))?)
}

/// The answers to `address`, `domain`, `wavelet-name`, `document-name`, `session-name`, `sessions`, `ids`, `versions` and `hashes`.
pub fn call(alloc: Global, verb: &str, rest: &str, out: &mut String) -> Result<bool, Fault> {
    match verb {
        "address" => put_address(alloc, rest, out)?,
        "domain" => put(out, Domain::parse(alloc, rest)?.text())?,
        "wavelet-name" => put_wavelet(alloc, rest, out)?,
        "document-name" => put(out, DocumentName::parse(alloc, rest)?.text())?,
        "session-name" => put(out, SessionName::parse(alloc, rest)?.text())?,
        "sessions" => put_session_order(alloc, rest, out)?,
        "ids" => put_id_order(alloc, rest, out)?,
        "versions" => put_versions(rest, out)?,
        "hashes" => put_hashes(alloc, rest, out)?,
        _ => return Ok(false),
    }
    Ok(true)
}
