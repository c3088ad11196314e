// Changes that run, and spans of them.
ghost use Rattle.std.specs.Prelude.{◌≡◌, ◌+◌, IfOk};
ghost use Rattle.annotation_track.specs.Spans.{total};

use crate::fault::Fault;
use annotation_track::{Span, Spans, Track, meet_tracks};
use doc_items::{Boundary, Change, Changes, Keys, Memory, Text};
use std::alloc::Global;
use test_row_words::{parts, put_number, words};

// The number of changes that run before a boundary with one change, and after it.
fn put_running(alloc: Global, rest: &str, out: &mut String) -> Result<(), Memory> {
    let mut track = Track::new(alloc);
    put_number(out, track.running().as_slice().len() as u64)?;
    let key = Text::from_str(alloc, rest)?;
    let new = Some(Text::from_str(alloc, "1")?);
    let mut list = Vec::new(alloc);
    list.push(Change {
        key,
        old: None,
        new,
    })?;
    let end = Keys::from_vec(Vec::new(alloc));
    let change = Changes::from_vec(list);
    let boundary = Boundary { end, change };
    track.step(alloc, &boundary)?;
    put_number(out, track.running().as_slice().len() as u64)
}

fn span(alloc: Global, count: u64, key: &str) -> Result<Span, Memory>
    ensures { IfOk result (λ made. made.count ≡ count) }
{
    let mut list = Vec::new(alloc);
    list.push(Change {
        key: Text::from_str(alloc, key)?,
        old: None,
        new: None,
    })?;
    Ok(Span {
        count,
        changes: Changes::from_vec(list),
    })
}

fn spans(alloc: Global, first: Span, second: Span) -> Result<Spans, Memory>
    ensures { IfOk result (λ both. total both ≡ first.count + second.count) }
{
    let mut list = Vec::new(alloc);
    list.push(first)?;
    list.push(second)?;
    Ok(Spans::from_vec(list))
}

fn put_spans(spans: &Spans, out: &mut String) -> Result<(), Memory> {
    out.push_str(" =>")?;
    for span in spans.as_slice() {
        let count = span.count;
        write!(out, " {count}")?;
        for change in span.changes.as_slice() {
            out.push(' ')?;
            out.push_str(change.key.as_str())?;
        }
    }
    Ok(())
}

fn put_both(both: &(Spans, Spans), out: &mut String) -> Result<(), Memory> {
    put_spans(&both.0, out)?;
    put_spans(&both.1, out)
}

// Spans of 3 and 2 items beside ones of 1 and 4, with these keys, cut where either ends one.
fn put_met(alloc: Global, rest: &str, out: &mut String) -> Result<(), Memory> {
    let (first, second) = parts(rest);
    let (a, b) = words(first);
    let (c, d) = words(second);
    let first = spans(alloc, span(alloc, 3, a)?, span(alloc, 2, b)?)?;
    let second = spans(alloc, span(alloc, 1, c)?, span(alloc, 4, d)?)?;
    let both = meet_tracks(alloc, &first, &second)?;
    put_both(&both, out)
}

/// The answers to `running` and `met`.
pub fn call(alloc: Global, verb: &str, rest: &str, out: &mut String) -> Result<bool, Fault> {
    match verb {
        "running" => put_running(alloc, rest, out)?,
        "met" => put_met(alloc, rest, out)?,
        _ => return Ok(false),
    }
    Ok(true)
}
