// Operations on wavelets: past each other, composed, applied to states.
use crate::fault::Fault;
use doc_items::Memory;
use std::alloc::Global;
use test_op_words::shown;
use test_row_words::{number, parts, put, put_command, put_either, put_number};
use test_wavelet_words::{operations, shown_state};
use wave_base::{Address, DocumentName, HashedVersion, WaveletName};
use wavelet_op::{Ops, OpsPair, Role, WaveletOp, compact, transform_delta, transform_op};
use wavelet_state::{Snapshot, WaveletState, apply_delta, apply_op};

fn role_word(role: Role) -> &'static str {
    match role {
        Role::Full => "full",
        Role::ReadOnly => "read",
    }
}

fn show(alloc: Global, op: &WaveletOp) -> Result<String, Memory> {
    match op {
        WaveletOp::NoOp => format!(in alloc; "noop"),
        WaveletOp::Add(address) => format!(in alloc; "add {}", address.text()),
        WaveletOp::Remove(address) => format!(in alloc; "remove {}", address.text()),
        WaveletOp::Mutate { document, op } => {
            let words = shown(alloc, op)?;
            format!(in alloc; "{}: {}", document.text(), words.as_str())
        }
        WaveletOp::SetRole { address, old, new } => {
            format!(in alloc;
                "role {} {} {}",
                address.text(),
                role_word(*old),
                role_word(*new)
            )
        }
    }
}

/// Puts operations as words after ` => `.
pub fn put_ops(alloc: Global, ops: &Ops, out: &mut String) -> Result<(), Fault> {
    let mut sign = " => ";
    for op in ops.as_slice() {
        out.push_str(sign)?;
        out.push_str(show(alloc, op)?.as_str())?;
        sign = "; ";
    }
    Ok(())
}

fn past(alloc: Global, later: &Ops, earlier: &Ops) -> Result<OpsPair, Fault> {
    if !later.is_structured() || !earlier.is_structured() {
        return Err(Fault::NotStructured);
    }
    Ok(transform_delta(alloc, later, earlier)?)
}

fn put_past_each(alloc: Global, later: &Ops, earlier: &Ops, out: &mut String) -> Result<(), Fault> {
    let pair = past(alloc, later, earlier)?;
    put_ops(alloc, &pair.later, out)?;
    put_ops(alloc, &pair.earlier, out)
}

// Two lists past each other.
fn put_past(alloc: Global, rest: &str, out: &mut String) -> Result<(), Fault> {
    let (later, earlier) = parts(rest);
    let later = operations(alloc, later)?;
    let earlier = operations(alloc, earlier)?;
    put_past_each(alloc, &later, &earlier, out)
}

fn put_one_past(
    alloc: Global,
    later: &WaveletOp,
    earlier: &WaveletOp,
    out: &mut String,
) -> Result<(), Fault> {
    if !later.is_structured() || !earlier.is_structured() {
        return Err(Fault::NotStructured);
    }
    let pair = transform_op(alloc, later, earlier)?;
    put(out, show(alloc, &pair.later)?.as_str())?;
    Ok(put(out, show(alloc, &pair.earlier)?.as_str())?)
}

fn first(ops: &Ops) -> Result<&WaveletOp, Fault> {
    match ops.as_slice().first() {
        Some(op) => Ok(op),
        None => Err(Fault::Row),
    }
}

// One operation past another.
fn put_one(alloc: Global, rest: &str, out: &mut String) -> Result<(), Fault> {
    let (later, earlier) = parts(rest);
    let later = operations(alloc, later)?;
    let earlier = operations(alloc, earlier)?;
    put_one_past(alloc, first(&later)?, first(&earlier)?, out)
}

fn put_compact(alloc: Global, rest: &str, out: &mut String) -> Result<(), Fault> {
    let ops = operations(alloc, rest)?;
    let fewer = compact(alloc, &ops)?;
    put_ops(alloc, &fewer, out)
}

fn nothing(alloc: Global, count: u64) -> Result<Vec<WaveletOp>, Fault> {
    let mut list = Vec::new(alloc);
    for _ in 0..count {
        if list.push(WaveletOp::NoOp).is_err() {
            return Err(Fault::Memory);
        }
    }
    Ok(list)
}

// How many operations a delta of so many has.
fn put_many(alloc: Global, rest: &str, out: &mut String) -> Result<(), Fault> {
    match Ops::new(nothing(alloc, number(rest))?) {
        Some(ops) => Ok(put_number(out, ops.copy(alloc)?.len())?),
        None => Ok(put(out, "none")?),
    }
}

/// Puts a state as words after ` => `.
pub fn put_state(alloc: Global, state: &WaveletState, out: &mut String) -> Result<(), Fault> {
    let words = shown_state(alloc, state)?;
    Ok(put(out, words.as_str())?)
}

fn put_delta(
    alloc: Global,
    state: &mut WaveletState,
    words: &str,
    out: &mut String,
) -> Result<(), Fault> {
    let ops = operations(alloc, words)?;
    if let Err(fault) = apply_delta(alloc, state, &ops) {
        write!(out, " => {fault:?}")?;
    }
    put_state(alloc, state, out)
}

fn put_deltas_in(
    alloc: Global,
    state: &mut WaveletState,
    rest: &str,
    out: &mut String,
) -> Result<(), Fault> {
    for words in rest.split(" | ") {
        put_command(out, words)?;
        put_delta(alloc, state, words, out)?;
    }
    Ok(())
}

// Deltas in turn on the state without anything, and the state after each.
fn put_deltas(alloc: Global, rest: &str, out: &mut String) -> Result<(), Fault> {
    let mut state = WaveletState::new(alloc);
    put_deltas_in(alloc, &mut state, rest, out)
}

// What one operation comes to, and whether Bob and the document `b+1` are there.
fn put_step(
    alloc: Global,
    state: &mut WaveletState,
    words: &str,
    out: &mut String,
) -> Result<(), Fault> {
    let ops = operations(alloc, words)?;
    if let Err(fault) = apply_op(alloc, state, first(&ops)?) {
        write!(out, " => {fault:?}")?;
    }
    let bob = Address::parse(alloc, "bob@a.com")?;
    put_either(out, state.has(&bob), "Bob", "no Bob")?;
    let name = DocumentName::parse(alloc, "b+1")?;
    Ok(put_either(
        out,
        state.rope(&name).is_some(),
        "a document",
        "no document",
    )?)
}

fn put_steps_in(
    alloc: Global,
    state: &mut WaveletState,
    rest: &str,
    out: &mut String,
) -> Result<(), Fault> {
    for words in rest.split(" | ") {
        put_command(out, words)?;
        put_step(alloc, state, words, out)?;
    }
    Ok(())
}

// Operations in turn, each for itself.
fn put_steps(alloc: Global, rest: &str, out: &mut String) -> Result<(), Fault> {
    let mut state = WaveletState::new(alloc);
    put_steps_in(alloc, &mut state, rest, out)
}

const AT: HashedVersion = HashedVersion {
    version: 2,
    hash: [0; 32],
};

fn put_copy(alloc: Global, snapshot: &Snapshot, out: &mut String) -> Result<(), Fault> {
    let copy = snapshot.copy(alloc)?;
    put_number(out, copy.inserted())?;
    put_state(alloc, copy.state(), out)
}

fn put_snapshot_of(
    alloc: Global,
    state: &mut WaveletState,
    inserted: u64,
    words: &str,
    out: &mut String,
) -> Result<(), Fault> {
    let ops = operations(alloc, words)?;
    apply_delta(alloc, state, &ops)?;
    let name = WaveletName::parse(alloc, "a.com/w+1/a.com/conv+root")?;
    match Snapshot::new(name, AT, inserted, state.copy(alloc)?) {
        Some(snapshot) => put_copy(alloc, &snapshot, out),
        None => Ok(put(out, "none")?),
    }
}

// `INSERTED | OPERATIONS`: the snapshot of a state, with so many items inserted.
fn put_snapshot(alloc: Global, rest: &str, out: &mut String) -> Result<(), Fault> {
    let (inserted, words) = parts(rest);
    let mut state = WaveletState::new(alloc);
    put_snapshot_of(alloc, &mut state, number(inserted), words, out)
}

/// The answers to `past`, `one`, `compact`, `many`, `deltas`, `steps` and `snapshot`.
pub fn call(alloc: Global, verb: &str, rest: &str, out: &mut String) -> Result<bool, Fault> {
    match verb {
        "past" => put_past(alloc, rest, out)?,
        "one" => put_one(alloc, rest, out)?,
        "compact" => put_compact(alloc, rest, out)?,
        "many" => put_many(alloc, rest, out)?,
        "deltas" => put_deltas(alloc, rest, out)?,
        "steps" => put_steps(alloc, rest, out)?,
        "snapshot" => put_snapshot(alloc, rest, out)?,
        _ => return Ok(false),
    }
    Ok(true)
}
