ghost use Rattle.std.specs.Prelude.{◌≡◌, ◌<◌, ◌≤◌, ◌+◌, ◌^◌, ◌∷◌, ◌++◌, [], List, IfOk, OnOk, IsTrue, MatchOption};
ghost use Rattle.doc_items.specs.declared.change.Change.{Change};
ghost use Rattle.annotation_track.specs.declared.spans.Span.{Span};
ghost use Rattle.annotation_track.specs.Spans.{total};
ghost use Rattle.annotation_track.specs.Meets.{left, Alike, IsHead, IsMet, IsMeeting, Goes};

use crate::spans::{Span, Spans};
use doc_items::{Changes, Memory};
use std::alloc::Global;

/// The spans that are left of a list, of whose first some items were passed.
#[derive(Clone, Copy)]
pub(crate) struct Left<'a> {
    rest: &'a [Span],
    passed: u64,
}

impl<'a> Left<'a> {
    fn new(spans: &'a [Span]) -> Left<'a>
        ensures { Alike spans.now (left result) }
    {
        Left {
            rest: spans,
            passed: 0,
        }
    }

    /// How many items are left of the first span that has some, and its changes.
    fn head(&mut self) -> Option<(u64, &'a Changes)>
        ensures { MatchOption result (Alike (left self.old) []) (λ h. IsHead self.old h.0 h.1.now self.new) }
    {
        while let Some((span, rest)) = self.rest.split_first() {
            if self.passed < span.count {
                return Some((span.count - self.passed, &span.changes));
            }
            self.rest = rest;
            self.passed = 0;
        }
        None
    }
}

fn push(alloc: Global, spans: &mut Vec<Span>, count: u64, changes: &Changes) -> Result<(), Memory>
    ensures { OnOk result (spans.new.items ≡ spans.old.items ++ record { count = count; changes = changes.now } ∷ []) }
{
    let changes = changes.copy(alloc)?;
    spans.push(Span { count, changes })?;
    Ok(())
}

// Cuts one span more; false where nothing is left.
fn step<'a>(
    alloc: Global,
    l: &mut Left<'a>,
    r: &mut Left<'a>,
    one: &mut Vec<Span>,
    two: &mut Vec<Span>,
) -> Result<bool, Memory>
    ensures goes { IfOk result
        (λ more. (first second : List Span) → IsMeeting first second (left l.old) (left r.old) one.old.items two.old.items
        → Goes more first second l.new r.new one.new.items two.new.items) }
    ensures fewer { IfOk result (λ more. IsTrue more → total (left l.new) < total (left l.old)) }
{
    let Some((count, changes)) = l.head() else {
        return Ok(false);
    };
    let Some((other, others)) = r.head() else {
        return Ok(false);
    };
    let common = count.min(other);
    push(alloc, one, common, changes)?;
    push(alloc, two, common, others)?;
    l.passed += common;
    r.passed += common;
    Ok(true)
}

/// Both lists of spans, cut at the places where either of them ends a span: item by item each has the changes that it had.
/// Spans without items are left out.
pub fn meet_tracks(alloc: Global, first: &Spans, second: &Spans) -> Result<(Spans, Spans), Memory>
    requires { total first.now ≡ total second.now }
    ensures { IfOk result (λ met. IsMet first.now second.now met.0 met.1) }
{
    let mut l = Left::new(first.as_slice());
    let mut r = Left::new(second.as_slice());
    let mut one = Vec::new(alloc);
    let mut two = Vec::new(alloc);
    'meet: loop {
        if !step(alloc, &mut l, &mut r, &mut one, &mut two)? {
            return Ok((Spans::from_vec(one), Spans::from_vec(two)));
        }
    }
}
