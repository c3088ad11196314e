// Documents in pieces beside plain lists.
use crate::fault::Fault;
use doc_items::{Attributes, Content, Document, Item, Memory, Notes, Text};
use doc_rope::{Reader, Rope};
use std::alloc::Global;
use test_row_words::{number, parts, put_command, put_either, put_number, words};

// The code of the first letter.
const FIRST: u32 = 19_968;

fn letter(number: u32) -> char {
    match char::from_u32(number) {
        Some(letter) => letter,
        None => '?',
    }
}

fn put_item(alloc: Global, document: &mut Document, content: Content) -> Result<(), Fault> {
    if document.len() > 1_000_000 {
        return Err(Fault::Row);
    }
    let notes = Notes::new(alloc);
    Ok(document.push(Item { content, notes })?)
}

// A number of letters.
fn short(word: &str) -> u32 {
    (number(word) % (1 << 32)) as u32
}

// So many letters, each the one after the one before it.
fn add_letters(
    alloc: Global,
    document: &mut Document,
    first: u32,
    count: u32,
) -> Result<(), Fault> {
    for index in 0..count {
        let letter = letter(first.wrapping_add(index));
        put_item(alloc, document, Content::Character(letter))?;
    }
    Ok(())
}

fn letters(alloc: Global, first: u32, count: u32) -> Result<Document, Fault> {
    let mut document = Document::new(alloc);
    add_letters(alloc, &mut document, first, count)?;
    Ok(document)
}

fn content(alloc: Global, sign: char) -> Result<Content, Fault> {
    if sign == '<' {
        return Ok(Content::Start {
            kind: Text::from_str(alloc, "p")?,
            attributes: Attributes::new(alloc),
        });
    }
    if sign == '>' {
        return Ok(Content::End);
    }
    Ok(Content::Character(sign))
}

// `<` and `>` are the start and the end of an element.
fn add_contents(alloc: Global, document: &mut Document, signs: &str) -> Result<(), Fault> {
    for sign in signs.chars() {
        put_item(alloc, document, content(alloc, sign)?)?;
    }
    Ok(())
}

fn contents(alloc: Global, signs: &str) -> Result<Document, Fault> {
    let mut document = Document::new(alloc);
    add_contents(alloc, &mut document, signs)?;
    Ok(document)
}

// Whether a list nests, and the number of its items.
fn balance(alloc: Global, rest: &str, out: &mut String) -> Result<(), Fault> {
    let list = contents(alloc, rest)?;
    put_either(out, list.is_balanced(), "nests", "doesn't")?;
    put_number(out, list.copy(alloc)?.len())?;
    let rope = Rope::from_list(alloc, list)?;
    Ok(put_either(out, rope.is_balanced(), "nests", "doesn't")?)
}

// A splice that fails where its place isn't in the rope.
fn splice(rope: &mut Rope, from: u64, count: u64, items: Document) -> Result<(), Fault> {
    let len = rope.len();
    if from > len || count > len - from || len > 1_000_000 || items.len() > 1_000_000 {
        return Err(Fault::Row);
    }
    rope.splice(from, count, items)?;
    Ok(())
}

fn push_letter(rope: &Rope, place: u64, out: &mut String) -> Result<(), Fault> {
    match rope.item(place) {
        Some(item) => push_content(&item.content, out),
        None => Ok(out.push_str(" none")?),
    }
}

fn push_content(content: &Content, out: &mut String) -> Result<(), Fault> {
    match content {
        Content::Character(letter) => {
            let offset = (*letter as u32).wrapping_sub(FIRST);
            Ok(write!(out, " {offset}")?)
        }
        Content::Start { .. } => Ok(out.push_str(" <")?),
        Content::End => Ok(out.push_str(" >")?),
    }
}

// `FROM COUNT SIGNS` is a splice, and `FROM COUNT` alone a deletion; `front COUNT` puts so many letters in front one by one; `at`
// shows items.
fn step(alloc: Global, rope: &mut Rope, command: &str, out: &mut String) -> Result<(), Fault> {
    let (first, more) = words(command);
    match first {
        "front" => put_front(alloc, rope, number(more))?,
        "at" => push_letter(rope, number(more), out)?,
        _ => {
            let (count, signs) = words(more);
            splice(rope, number(first), number(count), contents(alloc, signs)?)?;
        }
    }
    put_number(out, rope.len())?;
    Ok(put_either(out, rope.copy(alloc)?.is_balanced(), "nests", "doesn't")?)
}

fn put_front(alloc: Global, rope: &mut Rope, count: u64) -> Result<(), Fault> {
    let mut first = FIRST;
    for _ in 0..count {
        splice(rope, 0, 0, letters(alloc, first, 1)?)?;
        first = first.wrapping_add(1);
    }
    Ok(())
}

fn run_steps(alloc: Global, rope: &mut Rope, steps: &str, out: &mut String) -> Result<(), Fault> {
    for command in steps.split(" | ") {
        put_command(out, command)?;
        step(alloc, rope, command, out)?;
    }
    Ok(())
}

fn of_letters(alloc: Global, count: &str) -> Result<Rope, Fault> {
    let letters = letters(alloc, FIRST, short(count))?;
    Ok(Rope::from_list(alloc, letters)?)
}

// Splices of so many letters.
fn run_rope(alloc: Global, rest: &str, out: &mut String) -> Result<(), Fault> {
    let (count, steps) = parts(rest);
    let mut rope = of_letters(alloc, count)?;
    run_steps(alloc, &mut rope, steps, out)
}

fn is_letter(item: &Item, letter: char) -> bool {
    match &item.content {
        Content::Character(c) => *c == letter,
        Content::Start { .. } => false,
        Content::End => false,
    }
}

fn holds(rope: &Rope, place: u64, letter: char) -> bool {
    match rope.item(place) {
        Some(item) => is_letter(item, letter),
        None => false,
    }
}

fn run_holds(rope: &Rope, place: u64, letter: char) -> bool {
    match rope.run(place) {
        Some(run) => match run.first() {
            Some(item) => is_letter(item, letter),
            None => false,
        },
        None => false,
    }
}

fn are_letters(items: &[Item], letters: &[char]) -> bool {
    for (item, letter) in items.iter().zip(letters.iter()) {
        if !is_letter(item, *letter) {
            return false;
        }
    }
    items.len() == letters.len()
}

fn each_holds(rope: &Rope, plain: &[char]) -> bool {
    for (index, letter) in plain.iter().enumerate() {
        if !holds(rope, index as u64, *letter) || !run_holds(rope, index as u64, *letter) {
            return false;
        }
    }
    let past = plain.len() as u64;
    rope.item(past).is_none() && rope.run(past).is_none()
}

// Whether list, copy, item and run give these letters.
fn is_list(alloc: Global, rope: &Rope, plain: &[char]) -> Result<bool, Fault> {
    let list = rope.copy(alloc)?.list(alloc)?;
    Ok(are_letters(list.as_slice(), plain) && each_holds(rope, plain))
}

fn plain_letters(alloc: Global, first: u32, count: u32) -> Result<Vec<char>, Memory> {
    let mut plain = Vec::new(alloc);
    for index in 0..count {
        plain.push(letter(first.wrapping_add(index)))?;
    }
    Ok(plain)
}

fn is_reversed(alloc: Global, rope: &Rope, count: u32) -> Result<bool, Fault> {
    let mut plain = plain_letters(alloc, FIRST, count)?;
    plain.reverse();
    is_list(alloc, rope, plain.as_slice())
}

fn put_reversed(alloc: Global, rope: &mut Rope, count: u32, out: &mut String) -> Result<(), Fault> {
    put_front(alloc, rope, count as u64)?;
    Ok(put_either(
        out,
        is_reversed(alloc, rope, count)?,
        "reversed",
        "otherwise",
    )?)
}

// So many letters, each put in front of the others.
fn reverse(alloc: Global, rest: &str, out: &mut String) -> Result<(), Fault> {
    let mut rope = Rope::new(alloc);
    put_reversed(alloc, &mut rope, short(rest), out)
}

// A splice of a plain list.
fn splice_plain(
    alloc: Global,
    plain: &[char],
    from: usize,
    count: usize,
    items: &[char],
) -> Result<Vec<char>, Memory> {
    let mut spliced = Vec::new(alloc);
    for (index, letter) in plain.iter().enumerate() {
        if index == from {
            spliced.extend_from_slice(items)?;
        }
        if index < from || index - from >= count {
            spliced.push(*letter)?;
        }
    }
    if from == plain.len() {
        spliced.extend_from_slice(items)?;
    }
    Ok(spliced)
}

// A stretch of a list of this length, and how many letters come in its place, by a number drawn.
fn stretch(random: u32, len: usize) -> (usize, usize, u32) {
    let from = (random >> 8) as usize % (len.min(1_000_000) + 1);
    let left = len.saturating_sub(from).min(1_000_000);
    let count = (random >> 5) as usize % 700 % (left + 1);
    (from, count, (random >> 11) % 650)
}

fn splice_both(
    alloc: Global,
    rope: &mut Rope,
    plain: &[char],
    random: u32,
) -> Result<Vec<char>, Fault> {
    let (from, count, more) = stretch(random, plain.len());
    let items = letters(alloc, FIRST, more)?;
    splice(rope, from as u64, count as u64, items)?;
    let items = plain_letters(alloc, FIRST, more)?;
    Ok(splice_plain(alloc, plain, from, count, items.as_slice())?)
}

// How many of the splices leave the rope as a plain list is.
fn count_alike(alloc: Global, rope: &mut Rope, count: u32, rounds: u64) -> Result<u64, Fault> {
    let mut plain = plain_letters(alloc, FIRST, count)?;
    let mut random: u32 = 1;
    let mut alike = 0u64;
    for _ in 0..rounds {
        random = random.wrapping_mul(1_664_525).wrapping_add(1_013_904_223);
        plain = splice_both(alloc, rope, plain.as_slice(), random)?;
        if is_list(alloc, rope, plain.as_slice())? {
            alike = alike.wrapping_add(1);
        }
    }
    Ok(alike)
}

// Splices that are drawn, of so many letters.
fn draw_splices(alloc: Global, rest: &str, out: &mut String) -> Result<(), Fault> {
    let (count, rounds) = words(rest);
    let mut rope = of_letters(alloc, count)?;
    let alike = count_alike(alloc, &mut rope, short(count), number(rounds))?;
    Ok(put_number(out, alike)?)
}

fn push_first(reader: &Reader<'_>, out: &mut String) -> Result<(), Fault> {
    match reader.first() {
        Some(item) => push_content(&item.content, out),
        None => Ok(out.push_str(" none")?),
    }
}

// The first item before each skip, and after the last.
fn read_over(rope: &Rope, skips: &str, out: &mut String) -> Result<(), Fault> {
    let mut reader = rope.reader();
    out.push_str(" =>")?;
    for skip in skips.split(' ') {
        push_first(&reader, out)?;
        let count = number(skip);
        if count <= reader.len() {
            reader.skip(count);
        }
    }
    push_first(&reader, out)
}

fn read_letters(alloc: Global, rest: &str, out: &mut String) -> Result<(), Fault> {
    let (count, skips) = parts(rest);
    let rope = of_letters(alloc, count)?;
    read_over(&rope, skips, out)
}

/// The answers to `balance`, `rope`, `reverse`, `splices` and `reader`.
pub fn call(alloc: Global, verb: &str, rest: &str, out: &mut String) -> Result<bool, Fault> {
    match verb {
        "balance" => balance(alloc, rest, out)?,
        "rope" => run_rope(alloc, rest, out)?,
        "reverse" => reverse(alloc, rest, out)?,
        "splices" => draw_splices(alloc, rest, out)?,
        "reader" => read_letters(alloc, rest, out)?,
        _ => return Ok(false),
    }
    Ok(true)
}
