// Inverses of operations on documents, as a list and in pieces.
use crate::fault::Fault;
use doc_items::Document;
use doc_op::DocOp;
use doc_rope::Rope;
use op_invert::{invert, invert_rope};
use op_validity::{CheckFault, apply};
use std::alloc::Global;
use test_op_words::{operation, shown, shown_document};
use test_row_words::{parts, put};

fn document(alloc: Global, words: &str) -> Result<Document, Fault> {
    let mut document = Document::new(alloc);
    apply(alloc, &operation(alloc, words)?, &mut document)?;
    Ok(document)
}

// The inverse as words, or why there is none.
fn words_of(alloc: Global, inverse: &Result<DocOp, CheckFault>) -> Result<String, Fault> {
    match inverse {
        Ok(undo) => Ok(shown(alloc, undo)?),
        Err(fault) => Ok(format!(in alloc; "{fault:?}")?),
    }
}

fn put_alike(
    alloc: Global,
    list: &Result<DocOp, CheckFault>,
    pieces: &Result<DocOp, CheckFault>,
    out: &mut String,
) -> Result<(), Fault> {
    let list = words_of(alloc, list)?;
    let pieces = words_of(alloc, pieces)?;
    put(out, list.as_str())?;
    if pieces.as_str() != list.as_str() {
        put(out, pieces.as_str())?;
    }
    Ok(())
}

// The inverse for a list, after that for the same items in pieces where it is another.
fn put_inverse(
    alloc: Global,
    op: &DocOp,
    document: &Document,
    out: &mut String,
) -> Result<Result<DocOp, CheckFault>, Fault> {
    let rope = Rope::from_list(alloc, document.copy(alloc)?)?;
    let list = invert(alloc, op, document);
    let pieces = invert_rope(alloc, op, &rope);
    put_alike(alloc, &list, &pieces, out)?;
    Ok(list)
}

fn put_after(
    alloc: Global,
    op: &DocOp,
    document: &mut Document,
    out: &mut String,
) -> Result<(), Fault> {
    apply(alloc, op, document)?;
    let words = shown_document(alloc, document)?;
    Ok(put(out, words.as_str())?)
}

fn put_undone(
    alloc: Global,
    op: &DocOp,
    document: &mut Document,
    out: &mut String,
) -> Result<(), Fault> {
    if let Ok(undo) = put_inverse(alloc, op, document, out)? {
        put_after(alloc, op, document, out)?;
        put_after(alloc, &undo, document, out)?;
    }
    Ok(())
}

fn undone(alloc: Global, rest: &str, out: &mut String) -> Result<(), Fault> {
    let (start, op) = parts(rest);
    let op = operation(alloc, op)?;
    put_undone(alloc, &op, &mut document(alloc, start)?, out)
}

/// The answer to `invert`.
pub fn call(alloc: Global, verb: &str, rest: &str, out: &mut String) -> Result<bool, Fault> {
    match verb {
        "invert" => undone(alloc, rest, out)?,
        _ => return Ok(false),
    }
    Ok(true)
}
