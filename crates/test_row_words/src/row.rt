// What rows and answers are made of.
use doc_items::Memory;
use std::alloc::Global;

/// The first part of a row and the rest of it.
pub fn parts(rest: &str) -> (&str, &str) {
    rest.split_once(" | ").unwrap_or((rest, ""))
}

/// The first word and the rest.
pub fn words(rest: &str) -> (&str, &str) {
    rest.split_once(' ').unwrap_or((rest, ""))
}

/// The number of this word, 0 where it is none.
pub fn number(word: &str) -> u64 {
    word.parse::<u64>().unwrap_or(0)
}

/// Puts a word after ` => `.
pub fn put(out: &mut String, word: &str) -> Result<(), Memory> {
    out.push_str(" => ")?;
    Ok(out.push_str(word)?)
}

/// Puts one of two words after ` => `.
pub fn put_either(
    out: &mut String,
    is_first: bool,
    first: &str,
    second: &str,
) -> Result<(), Memory> {
    if is_first {
        put(out, first)
    } else {
        put(out, second)
    }
}

/// Puts a number after ` => `.
pub fn put_number(out: &mut String, number: u64) -> Result<(), Memory> {
    Ok(write!(out, " => {number}")?)
}

/// Puts a command of a scene on a line of its own.
pub fn put_command(out: &mut String, command: &str) -> Result<(), Memory> {
    out.push_str("\n  ")?;
    Ok(out.push_str(command)?)
}

fn digit(byte: u8) -> u8 {
    if byte < b'a' {
        byte.wrapping_sub(b'0')
    } else {
        byte.wrapping_sub(b'a').wrapping_add(10)
    }
}

/// The bytes that hexadecimal digits tell.
pub fn bytes_of(alloc: Global, hex: &str) -> Result<Vec<u8>, Memory> {
    let mut bytes = Vec::new(alloc);
    let mut high = None;
    for byte in hex.as_bytes() {
        match high {
            None => high = Some(digit(*byte)),
            Some(first) => {
                bytes.push((first << 4) | digit(*byte))?;
                high = None;
            }
        }
    }
    Ok(bytes)
}

fn digit_of(value: u8) -> char {
    if value < 10 {
        char::from(b'0'.wrapping_add(value))
    } else {
        char::from(b'a'.wrapping_add(value).wrapping_sub(10))
    }
}

/// Puts bytes as hexadecimal digits after ` => `.
pub fn put_hex(out: &mut String, bytes: &[u8]) -> Result<(), Memory> {
    out.push_str(" => ")?;
    for byte in bytes {
        out.push(digit_of(*byte >> 4))?;
        out.push(digit_of(*byte & 15))?;
    }
    Ok(())
}

/// A sign, and a letter so often.
pub fn letters(alloc: Global, sign: &str, letter: char, count: u64) -> Result<String, Memory> {
    let mut words = String::from_str(alloc, sign)?;
    for _ in 0..count {
        words.push(letter)?;
    }
    Ok(words)
}
