// What two tables show together.
ghost use Rattle.std.specs.Prelude.{◌≡◌, IfOk, IfSome};
ghost use Rattle.std.specs.Option.{option_map};
ghost use Rattle.std.specs.FinMap as finite;
ghost use Rattle.change_view.specs.Lists.{value_of};
ghost use Rattle.change_view.specs.Sets.{passes};
ghost use Rattle.change_table.specs.Keys.{AgreeBut, PassBut};
ghost use Rattle.change_table.specs.Joints.{together, IsTurn};

use crate::ChangeTable;
use crate::turn::Turn;
use change_view::{ChangeRef, Rule, Test};
use doc_items::{Boundary, Memory, Text};
use std::alloc::Global;

/// The changes that a rule makes of those in two tables, key by key.
#[derive(Clone, Copy)]
pub struct Joint<'a> {
    pub first: &'a ChangeTable,
    pub second: &'a ChangeTable,
    pub rule: Rule,
}

impl<'a> Joint<'a> {
    /// The change of a key; None exactly where the key has none.
    pub fn at(self, key: &'a str) -> Option<ChangeRef<'a>>
        ensures value { option_map value_of result ≡ finite.get (together self.entry) key.entry.now }
        ensures key { IfSome result (λ c. c.key.now ≡ key.entry.now) }
    {
        self.rule
            .combine(key, self.first.at(key), self.second.at(key))
    }

    /// Whether the two tables pass the test at each key. They do at each but these, which alone are looked at.
    pub fn passes(self, test: Test, keys: &[Text]) -> bool
        requires { PassBut keys.now test self.first.now self.second.now }
        ensures { result ≡ passes test self.entry.first.now self.entry.second.now }
    {
        for key in keys {
            let key = key.as_str();
            if !test.holds(self.first.at(key), self.second.at(key)) {
                return false;
            }
        }
        true
    }

    /// The boundary that leads from the written changes to these, which are the same at each key but these keys; None exactly where
    /// they are the same there too.
    pub fn turn_from(
        self,
        alloc: Global,
        written: &ChangeTable,
        keys: &[Text],
    ) -> Result<Option<Boundary>, Memory>
        requires { AgreeBut keys.now written.now (together self) }
        ensures { IfOk result (λ turn. IsTurn turn written.now (together self.entry)) }
    {
        if keys.is_empty() {
            return Ok(None);
        }
        let mut turn = Turn::new(alloc);
        for key in keys {
            let key = key.as_str();
            turn.add(alloc, key, written.at(key), self.at(key))?;
        }
        let boundary = turn.boundary(alloc)?;
        Ok(boundary)
    }
}
