// Operations: read, measured, in normal form, composed, past each other.
use crate::bytes::put_spelling;
use crate::documents::put_document;
use crate::fault::Fault;
use doc_items::Document;
use doc_op::{DocOp, OpFault};
use op_compose::compose;
use op_transform::{Pair, transform};
use op_validity::apply;
use std::alloc::Global;
use test_op_words::{operation, shown};
use test_row_words::{parts, put};

fn put_op(alloc: Global, op: &DocOp, out: &mut String) -> Result<(), Fault> {
    let words = shown(alloc, op)?;
    Ok(put(out, words.as_str())?)
}

fn put_refusal(fault: &OpFault, out: &mut String) -> Result<(), Fault> {
    match fault {
        OpFault::BadBoundary(key) => {
            put(out, "BadBoundary ")?;
            Ok(out.push_str(key.as_str())?)
        }
        OpFault::ZeroCount => Ok(put(out, "ZeroCount")?),
        OpFault::CountTooLarge => Ok(put(out, "CountTooLarge")?),
        OpFault::Memory => Ok(put(out, "Memory")?),
    }
}

fn put_read(alloc: Global, rest: &str, out: &mut String) -> Result<(), Fault> {
    match operation(alloc, rest) {
        Ok(op) => put_op(alloc, &op, out),
        Err(fault) => put_refusal(&fault, out),
    }
}

fn put_measures(op: &DocOp, out: &mut String) -> Result<(), Fault> {
    let count = op.count();
    if op.component(count).is_some() {
        return Err(Fault::Row);
    }
    let (input, output, inserted) = (op.input_len(), op.output_len(), op.inserted());
    write!(
        out,
        " => {count} components, {input} in, {output} out, {inserted} inserted"
    )?;
    if let Some(place) = op.first_break() {
        write!(out, ", breaks at {place}")?;
    }
    Ok(())
}

fn measure(alloc: Global, rest: &str, out: &mut String) -> Result<(), Fault> {
    let op = operation(alloc, rest)?.copy(alloc)?;
    put_measures(&op, out)
}

fn put_normal(alloc: Global, rest: &str, out: &mut String) -> Result<(), Fault> {
    let op = operation(alloc, rest)?;
    let normal = op.normal(alloc)?;
    put_op(alloc, &normal, out)
}

fn composed(alloc: Global, rest: &str) -> Result<DocOp, Fault> {
    let (first, second) = parts(rest);
    let first = operation(alloc, first)?;
    let second = operation(alloc, second)?;
    Ok(compose(alloc, &first, &second)?)
}

fn past(alloc: Global, later: &DocOp, earlier: &DocOp) -> Result<Pair, Fault> {
    if !later.is_structured() || !earlier.is_structured() {
        return Err(Fault::NotStructured);
    }
    Ok(transform(alloc, later, earlier)?)
}

fn transformed(alloc: Global, rest: &str) -> Result<Pair, Fault> {
    let (later, earlier) = parts(rest);
    let later = operation(alloc, later)?;
    let earlier = operation(alloc, earlier)?;
    past(alloc, &later, &earlier)
}

fn put_pair(alloc: Global, pair: &Pair, out: &mut String) -> Result<(), Fault> {
    put_op(alloc, &pair.later, out)?;
    put_op(alloc, &pair.earlier, out)
}

fn applied(alloc: Global, document: &mut Document, op: &str) -> Result<(), Fault> {
    let op = operation(alloc, op)?;
    Ok(apply(alloc, &op, document)?)
}

// The document after `first` and then `second`.
fn put_end_in(
    alloc: Global,
    start: &str,
    first: &str,
    second: &DocOp,
    document: &mut Document,
    out: &mut String,
) -> Result<(), Fault> {
    applied(alloc, document, start)?;
    applied(alloc, document, first)?;
    apply(alloc, second, document)?;
    put_document(alloc, document, out)
}

fn put_end(
    alloc: Global,
    start: &str,
    first: &str,
    second: &DocOp,
    out: &mut String,
) -> Result<(), Fault> {
    put_end_in(alloc, start, first, second, &mut Document::new(alloc), out)
}

fn put_ends_of(
    alloc: Global,
    start: &str,
    both: &str,
    pair: &Pair,
    out: &mut String,
) -> Result<(), Fault> {
    let (later, earlier) = parts(both);
    put_end(alloc, start, earlier, &pair.later, out)?;
    put_end(alloc, start, later, &pair.earlier, out)
}

fn put_ends(alloc: Global, rest: &str, out: &mut String) -> Result<(), Fault> {
    let (start, both) = parts(rest);
    let pair = transformed(alloc, both)?;
    put_ends_of(alloc, start, both, &pair, out)
}

// The composition of an operation with one after it, and its bytes.
fn put_composition(
    alloc: Global,
    first: &str,
    second: &DocOp,
    out: &mut String,
) -> Result<(), Fault> {
    let first = operation(alloc, first)?;
    let both = compose(alloc, &first, second)?;
    put_op(alloc, &both, out)?;
    put_spelling(alloc, &both, out)
}

fn put_square_of(
    alloc: Global,
    start: &str,
    both: &str,
    pair: &Pair,
    out: &mut String,
) -> Result<(), Fault> {
    put_pair(alloc, pair, out)?;
    put_composition(alloc, parts(both).1, &pair.later, out)?;
    put_ends_of(alloc, start, both, pair, out)
}

fn put_square(alloc: Global, rest: &str, out: &mut String) -> Result<(), Fault> {
    let (start, both) = parts(rest);
    let pair = transformed(alloc, both)?;
    put_square_of(alloc, start, both, &pair, out)
}

/// The answers to `op`, `measure`, `normal`, `compose`, `transform`, `ends` and `square`.
pub fn call(alloc: Global, verb: &str, rest: &str, out: &mut String) -> Result<bool, Fault> {
    match verb {
        "op" => put_read(alloc, rest, out)?,
        "measure" => measure(alloc, rest, out)?,
        "normal" => put_normal(alloc, rest, out)?,
        "compose" => put_op(alloc, &composed(alloc, rest)?, out)?,
        "transform" => put_pair(alloc, &transformed(alloc, rest)?, out)?,
        "ends" => put_ends(alloc, rest, out)?,
        "square" => put_square(alloc, rest, out)?,
        _ => return Ok(false),
    }
    Ok(true)
}
