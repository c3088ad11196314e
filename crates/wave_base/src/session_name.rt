ghost use Rattle.std.specs.Prelude.{◌≡◌, ◌≤◌, ◌==◌, length, true, IfOk, IfErr};
ghost use Rattle.std.specs.Cmp.{partial_order_from_own_ties};
ghost use Rattle.std.specs.Cmp.Lexicographic.{slice_cmp, pointwise};
ghost use Rattle.std.specs.Cmp.Rules.{comparing, hashing};
ghost use Rattle.std.specs.Ordering.{nat_cmp, as_partial_cmp};
ghost use Rattle.std.specs.Hash as fed;
ghost use Rattle.std.proofs.Common.{rules};
ghost use Rattle.wave_base.specs.Grammar.{is_id};
ghost use Rattle.wave_base.specs.Faults.{IsNameFault};

use crate::BaseFault;
use crate::grammar::is_id;
use doc_items::Memory;
use std::alloc::Global;
use std::cmp::Ordering;
use std::hash::{Hash, Hasher};
use std::marker::Model;

/// The name of a session: an id, of 1 to 128 bytes, as that of a document. Seen as its bytes.
#[derive(Debug, Drop)]
pub struct SessionName {
    text: String,
}

impl Model for SessionName {
    ghost use Rattle.std.specs.Prelude.{List, ℕ, string_bytes, ◌≡◌, true};
    ghost use Rattle.wave_base.specs.Grammar.{is_id};

    ghost Value = { List ℕ };

    ghost view = { λ n. string_bytes n.text };

    ghost invariant = { λ n. is_id (string_bytes n.text) ≡ true };
}

impl SessionName {
    /// The name of this text; `BadName` exactly where the text isn't in the grammar.
    pub fn parse(alloc: Global, text: &str) -> Result<SessionName, BaseFault>
        ensures same { IfOk result (λ n. n ≡ text.now) }
        ensures good { IfOk result (λ _. is_id text.now ≡ true) }
        ensures refused { IfErr result (IsNameFault (is_id text.now)) }
    {
        if !is_id(text) {
            return Err(BaseFault::BadName);
        }
        let text = String::from_str(alloc, text)?;
        Ok(SessionName { text })
    }

    /// The text, at most 128 bytes.
    pub fn text(&self) -> &str
        ensures same { result.now ≡ self.now }
        ensures good { is_id self.now ≡ true }
        ensures bound { length self.now ≤ 128 }
    {
        self.text.as_str()
    }

    /// An equal name.
    pub fn copy(&self, alloc: Global) -> Result<SessionName, Memory>
        ensures { IfOk result (λ n. n ≡ self.now) }
    {
        let text = String::from_str(alloc, self.text.as_str())?;
        Ok(SessionName { text })
    }
}

impl PartialEq for SessionName {
    ghost eq = { pointwise ◌==◌ };

    ghost laws = { Prim.search (comparing, rules) };

    fn eq(&self, other: &SessionName) -> bool {
        self.text.as_str() == other.text.as_str()
    }
}

impl Eq for SessionName {
    ghost laws = { Prim.search (comparing, rules) };
}

impl Ord for SessionName {
    ghost cmp = { slice_cmp nat_cmp };

    ghost total = { Prim.search (comparing, rules) };

    ghost matches_partial_cmp = { Prim.search (comparing, rules) };

    ghost matches_eq = { Prim.search (comparing, rules) };

    fn cmp(&self, other: &SessionName) -> Ordering {
        self.text.as_str().cmp(other.text.as_str())
    }
}

impl PartialOrd for SessionName {
    ghost partial_cmp = { as_partial_cmp (slice_cmp nat_cmp) };

    ghost laws = { partial_order_from_own_ties (Prim.search (comparing, rules)) (Prim.search (comparing, rules)) };

    fn partial_cmp(&self, other: &SessionName) -> Option<Ordering> {
        Some(self.cmp(other))
    }
}

impl Hash for SessionName {
    ghost hash_input = { fed.str };

    ghost respects_eq = { Prim.search (hashing, rules) };

    fn hash<H: Hasher>(&self, state: &mut H) {
        self.text.as_str().hash(state);
    }
}
