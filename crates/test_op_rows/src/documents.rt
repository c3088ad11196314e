// Operations on documents, as a list and in pieces.
use crate::fault::Fault;
use doc_items::Document;
use doc_op::DocOp;
use doc_rope::Rope;
use op_validity::{CheckFault, apply, apply_rope, check, check_rope};
use std::alloc::Global;
use test_op_words::{operation, shown_document};
use test_row_words::{letters, number, parts, put};

/// The document that an operation makes.
pub fn document(alloc: Global, words: &str) -> Result<Document, Fault> {
    let mut document = Document::new(alloc);
    apply(alloc, &operation(alloc, words)?, &mut document)?;
    Ok(document)
}

/// The same in pieces.
pub fn pieces(alloc: Global, words: &str) -> Result<Rope, Fault> {
    Ok(Rope::from_list(alloc, document(alloc, words)?)?)
}

/// Puts a document after ` => `.
pub fn put_document(alloc: Global, document: &Document, out: &mut String) -> Result<(), Fault> {
    let words = shown_document(alloc, document)?;
    Ok(put(out, words.as_str())?)
}

// What the check and the edit came to, where it isn't an edit.
fn outcome(
    alloc: Global,
    checked: Result<(), CheckFault>,
    applied: Result<(), CheckFault>,
) -> Result<String, Fault> {
    let mut out = String::new(alloc);
    if checked != applied {
        out.push_str("checked otherwise, ")?;
    }
    if let Err(fault) = applied {
        write!(out, "{fault:?} leaves ")?;
    }
    Ok(out)
}

fn edit_list(alloc: Global, op: &DocOp, plain: &mut Document) -> Result<String, Fault> {
    let checked = check(alloc, op, plain);
    let applied = apply(alloc, op, plain);
    let mut out = outcome(alloc, checked, applied)?;
    out.push_str(shown_document(alloc, plain)?.as_str())?;
    Ok(out)
}

fn show_pieces(alloc: Global, rope: &Rope) -> Result<String, Fault> {
    let list = rope.list(alloc)?;
    Ok(shown_document(alloc, &list)?)
}

fn edit_pieces(alloc: Global, op: &DocOp, rope: &mut Rope) -> Result<String, Fault> {
    let checked = check_rope(alloc, op, rope);
    let applied = apply_rope(alloc, op, rope);
    let mut out = outcome(alloc, checked, applied)?;
    out.push_str(show_pieces(alloc, rope)?.as_str())?;
    Ok(out)
}

fn list_after(alloc: Global, start: &str, op: &DocOp) -> Result<String, Fault> {
    let mut plain = document(alloc, start)?;
    edit_list(alloc, op, &mut plain)
}

fn pieces_after(alloc: Global, start: &str, op: &DocOp) -> Result<String, Fault> {
    let mut rope = pieces(alloc, start)?;
    edit_pieces(alloc, op, &mut rope)
}

// The document after an edit, as a list and in pieces.
fn both_after(alloc: Global, start: &str, op: &str) -> Result<(String, String), Fault> {
    let op = operation(alloc, op)?;
    let list = list_after(alloc, start, &op)?;
    let pieces = pieces_after(alloc, start, &op)?;
    Ok((list, pieces))
}

fn apply_both(alloc: Global, rest: &str, out: &mut String) -> Result<(), Fault> {
    let (start, op) = parts(rest);
    let (list, pieces) = both_after(alloc, start, op)?;
    put(out, list.as_str())?;
    if pieces.as_str() != list.as_str() {
        put(out, pieces.as_str())?;
    }
    Ok(())
}

// The bytes of the document after an edit of so many letters, where list and pieces are alike.
fn across(alloc: Global, rest: &str, out: &mut String) -> Result<(), Fault> {
    let (count, op) = parts(rest);
    let start = letters(alloc, "+", 'a', number(count))?;
    let (list, pieces) = both_after(alloc, start.as_str(), op)?;
    if pieces.as_str() != list.as_str() {
        return Ok(put(out, "not alike")?);
    }
    let len = list.len();
    Ok(write!(out, " => {len} bytes alike")?)
}

/// The answers to `apply` and `across`.
pub fn call(alloc: Global, verb: &str, rest: &str, out: &mut String) -> Result<bool, Fault> {
    match verb {
        "apply" => apply_both(alloc, rest, out)?,
        "across" => across(alloc, rest, out)?,
        _ => return Ok(false),
    }
    Ok(true)
}
