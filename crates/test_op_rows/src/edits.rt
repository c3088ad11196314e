// Edits that are made from plain intents, for a document as a list and in pieces.
use crate::alike::Alike;
use crate::documents::{document, pieces, put_document};
use crate::fault::Fault;
use doc_items::{Attributes, Document};
use doc_op::DocOp;
use op_build::{Items, annotate, erase, insert_element, set_attribute, type_at};
use op_validity::apply;
use std::alloc::Global;
use test_op_words::shown;
use test_row_words::{number, parts, put, words};

fn value(word: &str) -> Option<&str> {
    if word == "_" { None } else { Some(word) }
}

fn annotated<D: Items>(alloc: Global, document: &D, from: u64, more: &str) -> Result<DocOp, Fault> {
    let (count, more) = words(more);
    let (key, new) = words(more);
    Ok(annotate(alloc, document, from, number(count), key, value(new))?)
}

fn element<D: Items>(alloc: Global, document: &D, from: u64, more: &str) -> Result<DocOp, Fault> {
    let (kind, id) = words(more);
    let mut attributes = Attributes::new(alloc);
    attributes.set(alloc, "id", Some(id))?;
    Ok(insert_element(alloc, document, from, kind, &attributes)?)
}

fn attribute<D: Items>(alloc: Global, document: &D, from: u64, more: &str) -> Result<DocOp, Fault> {
    let (key, new) = words(more);
    Ok(set_attribute(alloc, document, from, key, value(new))?)
}

// The operation of an intent.
fn made<D: Items>(alloc: Global, document: &D, verb: &str, intent: &str) -> Result<DocOp, Fault> {
    let (place, more) = words(intent);
    let from = number(place);
    match verb {
        "type" => Ok(type_at(alloc, document, from, more)?),
        "erase" => Ok(erase(alloc, document, from, number(more))?),
        "annotate" => annotated(alloc, document, from, more),
        "element" => element(alloc, document, from, more),
        _ => attribute(alloc, document, from, more),
    }
}

// The operation's words, or why there is none.
fn shown_made(alloc: Global, made: Result<DocOp, Fault>) -> Result<String, Fault> {
    match made {
        Ok(op) => Ok(shown(alloc, &op)?),
        Err(fault) => {
            let mut out = String::new(alloc);
            write!(out, "{fault:?}")?;
            Ok(out)
        }
    }
}

fn made_in_pieces(alloc: Global, start: &str, verb: &str, intent: &str) -> Result<String, Fault> {
    let rope = pieces(alloc, start)?;
    shown_made(alloc, made(alloc, &rope, verb, intent))
}

fn put_after(
    alloc: Global,
    op: &DocOp,
    plain: &mut Document,
    out: &mut String,
) -> Result<(), Fault> {
    let words = shown(alloc, op)?;
    put(out, words.as_str())?;
    apply(alloc, op, plain)?;
    put_document(alloc, plain, out)
}

fn put_made(
    alloc: Global,
    verb: &str,
    intent: &str,
    plain: &mut Document,
    out: &mut String,
) -> Result<(), Fault> {
    match made(alloc, plain, verb, intent) {
        Ok(op) => put_after(alloc, &op, plain, out),
        Err(fault) => Ok(write!(out, " => {fault:?}")?),
    }
}

// The operation for the document in pieces, and for the one that is a list, and the document after it.
fn put_edit(alloc: Global, verb: &str, rest: &str, out: &mut String) -> Result<(), Fault> {
    let (start, intent) = parts(rest);
    let in_pieces = made_in_pieces(alloc, start, verb, intent)?;
    put(out, in_pieces.as_str())?;
    let mut plain = document(alloc, start)?;
    put_made(alloc, verb, intent, &mut plain, out)
}

// The operation for a document of so many letters.
fn put_alike(alloc: Global, rest: &str, out: &mut String) -> Result<(), Fault> {
    let (count, edit) = parts(rest);
    let (verb, intent) = words(edit);
    let one = document(alloc, "+x")?;
    let Some(item) = one.item(0) else {
        return Err(Fault::Row);
    };
    let many = Alike {
        count: number(count),
        item: item.copy(alloc)?,
    };
    let shown = shown_made(alloc, made(alloc, &many, verb, intent))?;
    Ok(put(out, shown.as_str())?)
}

/// The answers to `type`, `erase`, `annotate`, `element`, `attribute` and `alike`.
pub fn call(alloc: Global, verb: &str, rest: &str, out: &mut String) -> Result<bool, Fault> {
    match verb {
        "type" | "erase" | "annotate" | "element" | "attribute" => {
            put_edit(alloc, verb, rest, out)?;
        }
        "alike" => put_alike(alloc, rest, out)?,
        _ => return Ok(false),
    }
    Ok(true)
}
