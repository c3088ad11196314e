// Two lists of changes side by side.
ghost use Rattle.std.specs.Prelude.{◌≡◌, ◌+◌, ◌<◌, [], ◌∷◌, length, map, true, T, Option, MatchOption, IfOk, IfSome};
ghost use Rattle.std.specs.Option.{option_map};
ghost use Rattle.change_view.specs.Rules.{combined, passing};
ghost use Rattle.change_view.specs.Lists.{entry_of, alone, alone_second, met, pairs, made, all_pass};
ghost use Rattle.change_view.specs.Walks.{meeting, ahead, left};

use crate::entry::ChangeRef;
use crate::rule::{Rule, Test};
use doc_items::Memory;
use std::alloc::Global;
use std::cmp::Ordering;

/// A key of either list, with what each has there.
#[derive(Clone, Copy)]
pub(crate) struct Met<'a> {
    pub key: &'a str,
    pub first: Option<ChangeRef<'a>>,
    pub second: Option<ChangeRef<'a>>,
}

/// What is ahead of two lists.
#[derive(Clone, Copy)]
pub(crate) struct Walk<'s, 'a> {
    pub first: &'s [ChangeRef<'a>],
    pub second: &'s [ChangeRef<'a>],
}

impl<'s, 'a> Walk<'s, 'a> {
    /// Goes past the least key ahead; None at the end of both.
    pub fn next(&mut self) -> Option<Met<'a>>
        ensures met { MatchOption result (ahead self.old ≡ []) (λ m. ahead self.old ≡ meeting m ∷ ahead self.new) }
        ensures shorter { IfSome result (λ _. left self.new < left self.old) }
    {
        match split(self.first) {
            None => match split(self.second) {
                None => None,
                Some((y, ys)) => Some(self.second_alone(y, ys)),
            },
            Some((x, xs)) => match split(self.second) {
                None => Some(self.first_alone(x, xs)),
                Some((y, ys)) => match x.key.cmp(y.key) {
                    Ordering::Less => Some(self.first_alone(x, xs)),
                    Ordering::Equal => Some(self.both(x, xs, y, ys)),
                    Ordering::Greater => Some(self.second_alone(y, ys)),
                },
            },
        }
    }

    fn first_alone(&mut self, x: ChangeRef<'a>, xs: &'s [ChangeRef<'a>]) -> Met<'a>
        ensures met { meeting result ≡ alone (entry_of x.entry) }
        ensures first { self.new.first.now ≡ xs.entry.now }
        ensures second { self.new.second.now ≡ self.old.second.now }
    {
        self.first = xs;
        Met {
            key: x.key,
            first: Some(x),
            second: None,
        }
    }

    fn second_alone(&mut self, y: ChangeRef<'a>, ys: &'s [ChangeRef<'a>]) -> Met<'a>
        ensures met { meeting result ≡ alone_second (entry_of y.entry) }
        ensures first { self.new.first.now ≡ self.old.first.now }
        ensures second { self.new.second.now ≡ ys.entry.now }
    {
        self.second = ys;
        Met {
            key: y.key,
            first: None,
            second: Some(y),
        }
    }

    fn both(
        &mut self,
        x: ChangeRef<'a>,
        xs: &'s [ChangeRef<'a>],
        y: ChangeRef<'a>,
        ys: &'s [ChangeRef<'a>],
    ) -> Met<'a>
        ensures met { meeting result ≡ met (entry_of x.entry) (entry_of y.entry) }
        ensures first { self.new.first.now ≡ xs.entry.now }
        ensures second { self.new.second.now ≡ ys.entry.now }
    {
        self.first = xs;
        self.second = ys;
        Met {
            key: x.key,
            first: Some(x),
            second: Some(y),
        }
    }
}

// The first change and the others.
fn split<'s, 'a>(list: &'s [ChangeRef<'a>]) -> Option<(ChangeRef<'a>, &'s [ChangeRef<'a>])>
    ensures { MatchOption result (list.now ≡ []) (λ p. list.now ≡ p.0 ∷ p.1.now) }
{
    match list {
        [] => None,
        [first, others @ ..] => Some((*first, others)),
    }
}

/// What the rule makes of the two lists, key by key.
pub(crate) fn merged<'a>(
    alloc: Global,
    first: &[ChangeRef<'a>],
    second: &[ChangeRef<'a>],
    rule: Rule,
) -> Result<Vec<ChangeRef<'a>>, Memory>
    ensures { IfOk result (λ v. map entry_of v.items ≡ made (combined rule) (pairs (map entry_of first.now) (map entry_of second.now))) }
{
    let mut out = Vec::with_capacity(alloc, first.len() + second.len())?;
    let mut walk = Walk { first, second };
    while let Some(met) = walk.next() {
        if let Some(change) = rule.combine(met.key, met.first, met.second) {
            out.push(change)?;
        }
    }
    Ok(out)
}

/// Whether the two lists pass the test at each key.
pub(crate) fn passes<'a>(first: &[ChangeRef<'a>], second: &[ChangeRef<'a>], test: Test) -> bool
    ensures { result ≡ all_pass (passing test) (pairs (map entry_of first.now) (map entry_of second.now)) }
{
    let mut walk = Walk { first, second };
    while let Some(met) = walk.next() {
        if !test.holds(met.first, met.second) {
            return false;
        }
    }
    true
}
