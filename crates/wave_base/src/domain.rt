ghost use Rattle.std.specs.Prelude.{◌≡◌, ◌≤◌, ◌==◌, length, true, IfOk, IfErr};
ghost use Rattle.std.specs.Cmp.{partial_order_from_own_ties};
ghost use Rattle.std.specs.Cmp.Lexicographic.{slice_cmp, pointwise};
ghost use Rattle.std.specs.Cmp.Rules.{comparing, hashing};
ghost use Rattle.std.specs.Ordering.{nat_cmp, as_partial_cmp};
ghost use Rattle.std.specs.Hash as fed;
ghost use Rattle.std.proofs.Common.{rules};
ghost use Rattle.wave_base.specs.Grammar.{is_domain};
ghost use Rattle.wave_base.specs.Faults.{IsAddressFault};

use crate::BaseFault;
use crate::grammar::is_domain;
use doc_items::Memory;
use std::alloc::Global;
use std::cmp::Ordering;
use std::hash::{Hash, Hasher};
use std::marker::Model;

/// A domain: labels of `a` to `z`, `0` to `9` and `-`, with a dot between each two, at most 255 bytes in all. Seen as its bytes.
#[derive(Debug, Drop)]
pub struct Domain {
    text: String,
}

impl Model for Domain {
    ghost use Rattle.std.specs.Prelude.{List, ℕ, string_bytes, ◌≡◌, true};
    ghost use Rattle.wave_base.specs.Grammar.{is_domain};

    ghost Value = { List ℕ };

    ghost view = { λ n. string_bytes n.text };

    ghost invariant = { λ n. is_domain (string_bytes n.text) ≡ true };
}

impl Domain {
    /// The domain of this text; `BadAddress` exactly where the text isn't in the grammar.
    pub fn parse(alloc: Global, text: &str) -> Result<Domain, BaseFault>
        ensures same { IfOk result (λ n. n ≡ text.now) }
        ensures good { IfOk result (λ _. is_domain text.now ≡ true) }
        ensures refused { IfErr result (IsAddressFault (is_domain text.now)) }
    {
        if !is_domain(text) {
            return Err(BaseFault::BadAddress);
        }
        let text = String::from_str(alloc, text)?;
        Ok(Domain { text })
    }

    /// The text, at most 255 bytes.
    pub fn text(&self) -> &str
        ensures same { result.now ≡ self.now }
        ensures good { is_domain self.now ≡ true }
        ensures bound { length self.now ≤ 255 }
    {
        self.text.as_str()
    }

    /// An equal domain.
    pub fn copy(&self, alloc: Global) -> Result<Domain, Memory>
        ensures { IfOk result (λ n. n ≡ self.now) }
    {
        let text = String::from_str(alloc, self.text.as_str())?;
        Ok(Domain { text })
    }
}

impl PartialEq for Domain {
    ghost eq = { pointwise ◌==◌ };

    ghost laws = { Prim.search (comparing, rules) };

    fn eq(&self, other: &Domain) -> bool {
        self.text.as_str() == other.text.as_str()
    }
}

impl Eq for Domain {
    ghost laws = { Prim.search (comparing, rules) };
}

impl Ord for Domain {
    ghost cmp = { slice_cmp nat_cmp };

    ghost total = { Prim.search (comparing, rules) };

    ghost matches_partial_cmp = { Prim.search (comparing, rules) };

    ghost matches_eq = { Prim.search (comparing, rules) };

    fn cmp(&self, other: &Domain) -> Ordering {
        self.text.as_str().cmp(other.text.as_str())
    }
}

impl PartialOrd for Domain {
    ghost partial_cmp = { as_partial_cmp (slice_cmp nat_cmp) };

    ghost laws = { partial_order_from_own_ties (Prim.search (comparing, rules)) (Prim.search (comparing, rules)) };

    fn partial_cmp(&self, other: &Domain) -> Option<Ordering> {
        Some(self.cmp(other))
    }
}

impl Hash for Domain {
    ghost hash_input = { fed.str };

    ghost respects_eq = { Prim.search (hashing, rules) };

    fn hash<H: Hasher>(&self, state: &mut H) {
        self.text.as_str().hash(state);
    }
}
