ghost use Rattle.std.specs.Prelude.{◌≡◌, ◌≤◌, ◌==◌, length, true, IfOk, IfErr};
ghost use Rattle.std.specs.Cmp.{partial_order_from_own_ties};
ghost use Rattle.std.specs.Cmp.Lexicographic.{slice_cmp, pointwise};
ghost use Rattle.std.specs.Cmp.Rules.{comparing, hashing};
ghost use Rattle.std.specs.Ordering.{nat_cmp, as_partial_cmp};
ghost use Rattle.std.specs.Hash as fed;
ghost use Rattle.std.proofs.Common.{rules};
ghost use Rattle.wave_base.specs.Grammar.{is_id};
ghost use Rattle.wave_base.specs.Faults.{IsNameFault};

use crate::BaseFault;
use crate::grammar::is_id;
use doc_items::Memory;
use std::alloc::Global;
use std::cmp::Ordering;
use std::hash::{Hash, Hasher};
use std::marker::Model;

/// The name of a document: an id, which is 1 to 128 of `A` to `Z`, `a` to `z`, `0` to `9`, `+`, `-`, `.`, `_`, `~` and `*`. Seen as
/// its bytes.
#[derive(Debug, Drop)]
pub struct DocumentName {
    text: String,
}

impl Model for DocumentName {
    ghost use Rattle.std.specs.Prelude.{List, ℕ, string_bytes, ◌≡◌, true};
    ghost use Rattle.wave_base.specs.Grammar.{is_id};

    ghost Value = { List ℕ };

    ghost view = { λ n. string_bytes n.text };

    ghost invariant = { λ n. is_id (string_bytes n.text) ≡ true };
}

impl DocumentName {
    /// The name of this text; `BadName` exactly where the text isn't in the grammar.
    pub fn parse(alloc: Global, text: &str) -> Result<DocumentName, BaseFault>
        ensures same { IfOk result (λ n. n ≡ text.now) }
        ensures good { IfOk result (λ _. is_id text.now ≡ true) }
        ensures refused { IfErr result (IsNameFault (is_id text.now)) }
    {
        if !is_id(text) {
            return Err(BaseFault::BadName);
        }
        let text = String::from_str(alloc, text)?;
        Ok(DocumentName { text })
    }

    /// The text, at most 128 bytes.
    pub fn text(&self) -> &str
        ensures same { result.now ≡ self.now }
        ensures good { is_id self.now ≡ true }
        ensures bound { length self.now ≤ 128 }
    {
        self.text.as_str()
    }

    /// An equal name.
    pub fn copy(&self, alloc: Global) -> Result<DocumentName, Memory>
        ensures { IfOk result (λ n. n ≡ self.now) }
    {
        let text = String::from_str(alloc, self.text.as_str())?;
        Ok(DocumentName { text })
    }
}

impl PartialEq for DocumentName {
    ghost eq = { pointwise ◌==◌ };

    ghost laws = { Prim.search (comparing, rules) };

    fn eq(&self, other: &DocumentName) -> bool {
        self.text.as_str() == other.text.as_str()
    }
}

impl Eq for DocumentName {
    ghost laws = { Prim.search (comparing, rules) };
}

impl Ord for DocumentName {
    ghost cmp = { slice_cmp nat_cmp };

    ghost total = { Prim.search (comparing, rules) };

    ghost matches_partial_cmp = { Prim.search (comparing, rules) };

    ghost matches_eq = { Prim.search (comparing, rules) };

    fn cmp(&self, other: &DocumentName) -> Ordering {
        self.text.as_str().cmp(other.text.as_str())
    }
}

impl PartialOrd for DocumentName {
    ghost partial_cmp = { as_partial_cmp (slice_cmp nat_cmp) };

    ghost laws = { partial_order_from_own_ties (Prim.search (comparing, rules)) (Prim.search (comparing, rules)) };

    fn partial_cmp(&self, other: &DocumentName) -> Option<Ordering> {
        Some(self.cmp(other))
    }
}

impl Hash for DocumentName {
    ghost hash_input = { fed.str };

    ghost respects_eq = { Prim.search (hashing, rules) };

    fn hash<H: Hasher>(&self, state: &mut H) {
        self.text.as_str().hash(state);
    }
}
