// A walk over the keys of a map with their values.
ghost use Rattle.std.specs.Prelude.{◌≡◌, length, []};
ghost use Rattle.std.specs.Iterator.{YieldsFirstBy, item_count};
ghost use Rattle.std.specs.Map.Iter.{deref_pair};

use std::collections::btree_map::Iter;
use std::marker::Model;

/// The keys of a map with their values that are left of a walk, in byte order of the keys.
#[derive(Drop)]
pub struct Pairs<'a> {
    rest: Option<Iter<'a, String, String>>,
}

impl<'a> Model for Pairs<'a> {
    ghost use Rattle.std.specs.Prelude.{List, String};
    ghost use Rattle.std.specs.Global.{Global};
    ghost use Rattle.doc_items.specs.Maps.{listed};

    ghost Value = { List (String Global × String Global) };

    ghost view = { λ p. listed p.rest };
}

impl<'a> Pairs<'a> {
    pub(crate) fn of(rest: Iter<'a, String, String>) -> Pairs<'a>
        ensures { result ≡ rest.entry }
    {
        Pairs { rest: Some(rest) }
    }

    pub(crate) fn none() -> Pairs<'a>
        ensures { result ≡ [] }
    {
        Pairs { rest: None }
    }
}

impl<'a> Iterator for Pairs<'a> {
    type Item = (&'a String, &'a String);

    ghost next_gives = { YieldsFirstBy deref_pair (λ s. s) };

    ghost remaining = { item_count (λ s. s) };

    fn next(&mut self) -> Option<(&'a String, &'a String)> {
        match &mut self.rest {
            Some(rest) => rest.next(),
            None => None,
        }
    }
}
