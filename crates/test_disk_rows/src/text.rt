// Parts of rows, and what they stand for.
use crate::Fault;
use doc_items::Memory;
use std::alloc::Global;

/// Both sides of the first ` | `; the second is empty where there is none, and the first where it comes at once.
pub fn halves(rest: &str) -> (&str, &str) {
    match rest.strip_prefix("| ") {
        Some(second) => ("", second),
        None => rest.split_once(" | ").unwrap_or((rest, "")),
    }
}

/// The first word, and what comes after the space.
pub fn first_word(rest: &str) -> (&str, &str) {
    rest.split_once(' ').unwrap_or((rest, ""))
}

pub fn number(word: &str) -> Result<u64, Fault> {
    match word.parse::<u64>() {
        Ok(number) => Ok(number),
        Err(_) => Err(Fault::BadRow),
    }
}

/// The numbers, apart by spaces.
pub fn numbers(alloc: Global, words: &str) -> Result<Vec<u64>, Fault> {
    let mut all = Vec::new(alloc);
    for word in words.split(' ') {
        all.push(number(word)?)?;
    }
    Ok(all)
}

/// Appends ` => ` and an answer.
pub fn put(out: &mut String, answer: &str) -> Result<(), Memory> {
    out.push_str(" => ")?;
    out.push_str(answer)
}

/// Appends bytes that are a text.
pub fn put_bytes(out: &mut String, bytes: &[u8]) -> Result<(), Fault> {
    Ok(out.push_str(text_of(bytes)?)?)
}

// Appends bytes so many times.
fn repeat(out: &mut Vec<u8>, count: u64, bytes: &[u8]) -> Result<(), Memory> {
    for _ in 0..count {
        out.extend_from_slice(bytes)?;
    }
    Ok(())
}

fn put_filling(alloc: Global, out: &mut Vec<u8>, filling: &str) -> Result<(), Fault> {
    let (count, text) = first_word(filling);
    let count = number(count)?;
    match text.strip_prefix("0x") {
        Some(digits) => Ok(repeat(out, count, bytes_of(alloc, digits)?.as_slice())?),
        None => Ok(repeat(out, count, text.as_bytes())?),
    }
}

fn put_piece(alloc: Global, out: &mut Vec<u8>, piece: &str) -> Result<(), Fault> {
    match piece.rsplit_once("<<") {
        Some((before, filling)) => {
            out.extend_from_slice(before.as_bytes())?;
            put_filling(alloc, out, filling)
        }
        None => Ok(out.extend_from_slice(piece.as_bytes())?),
    }
}

/// The bytes that a row's text stands for: `<<N TEXT>>` in it is so many times that text, or the bytes of digits after `0x`.
pub fn filled(alloc: Global, text: &str) -> Result<Vec<u8>, Fault> {
    let mut out = Vec::new(alloc);
    for piece in text.split(">>") {
        put_piece(alloc, &mut out, piece)?;
    }
    Ok(out)
}

/// Bytes as a text.
pub fn text_of(bytes: &[u8]) -> Result<&str, Fault> {
    match std::str::from_utf8(bytes) {
        Ok(text) => Ok(text),
        Err(_) => Err(Fault::BadRow),
    }
}

/// The bytes of hexadecimal digits; `-` stands for none.
pub fn bytes_of(alloc: Global, digits: &str) -> Result<Vec<u8>, Fault> {
    if digits == "-" {
        return Ok(Vec::new(alloc));
    }
    match hex::decode(alloc, digits.as_bytes()) {
        Ok(bytes) => Ok(bytes),
        Err(_) => Err(Fault::BadRow),
    }
}

/// Appends the digits of bytes, or `-`.
pub fn put_digits(alloc: Global, out: &mut String, bytes: &[u8]) -> Result<(), Memory> {
    if bytes.is_empty() {
        return out.push_str("-");
    }
    let digits = hex::encode(alloc, bytes)?;
    out.push_str(digits.as_str())
}
