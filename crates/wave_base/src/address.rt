ghost use Rattle.std.specs.Prelude.{◌≡◌, ◌≤◌, ◌==◌, length, true, IfOk, IfErr};
ghost use Rattle.std.specs.Cmp.{partial_order_from_own_ties};
ghost use Rattle.std.specs.Cmp.Lexicographic.{slice_cmp, pointwise};
ghost use Rattle.std.specs.Cmp.Rules.{comparing, hashing};
ghost use Rattle.std.specs.Ordering.{nat_cmp, as_partial_cmp};
ghost use Rattle.std.specs.Hash as fed;
ghost use Rattle.std.proofs.Common.{rules};
ghost use Rattle.wave_base.specs.Grammar.{is_address, is_domain, domain_of};
ghost use Rattle.wave_base.specs.Faults.{IsAddressFault};

use crate::BaseFault;
use crate::grammar::is_address;
use crate::scanner::text_after;
use doc_items::Memory;
use std::alloc::Global;
use std::cmp::Ordering;
use std::hash::{Hash, Hasher};
use std::marker::Model;

/// An address: a user of 1 to 64 of `a` to `z`, `0` to `9`, `.`, `_`, `+` and `-`, then `@`, then a domain. Seen as its bytes.
#[derive(Debug, Drop)]
pub struct Address {
    text: String,
}

impl Model for Address {
    ghost use Rattle.std.specs.Prelude.{List, ℕ, string_bytes, ◌≡◌, true};
    ghost use Rattle.wave_base.specs.Grammar.{is_address};

    ghost Value = { List ℕ };

    ghost view = { λ n. string_bytes n.text };

    ghost invariant = { λ n. is_address (string_bytes n.text) ≡ true };
}

impl Address {
    /// The address of this text; `BadAddress` exactly where the text isn't in the grammar.
    pub fn parse(alloc: Global, text: &str) -> Result<Address, BaseFault>
        ensures same { IfOk result (λ n. n ≡ text.now) }
        ensures good { IfOk result (λ _. is_address text.now ≡ true) }
        ensures refused { IfErr result (IsAddressFault (is_address text.now)) }
    {
        if !is_address(text) {
            return Err(BaseFault::BadAddress);
        }
        let text = String::from_str(alloc, text)?;
        Ok(Address { text })
    }

    /// The text, at most 320 bytes.
    pub fn text(&self) -> &str
        ensures same { result.now ≡ self.now }
        ensures good { is_address self.now ≡ true }
        ensures bound { length self.now ≤ 320 }
    {
        self.text.as_str()
    }

    /// The domain, as a text.
    pub fn domain(&self) -> &str
        ensures part { result.now ≡ domain_of self.now }
        ensures good { is_domain result.now ≡ true }
    {
        text_after(self.text.as_str(), '@')
    }

    /// An equal address.
    pub fn copy(&self, alloc: Global) -> Result<Address, Memory>
        ensures { IfOk result (λ n. n ≡ self.now) }
    {
        let text = String::from_str(alloc, self.text.as_str())?;
        Ok(Address { text })
    }
}

impl PartialEq for Address {
    ghost eq = { pointwise ◌==◌ };

    ghost laws = { Prim.search (comparing, rules) };

    fn eq(&self, other: &Address) -> bool {
        self.text.as_str() == other.text.as_str()
    }
}

impl Eq for Address {
    ghost laws = { Prim.search (comparing, rules) };
}

impl Ord for Address {
    ghost cmp = { slice_cmp nat_cmp };

    ghost total = { Prim.search (comparing, rules) };

    ghost matches_partial_cmp = { Prim.search (comparing, rules) };

    ghost matches_eq = { Prim.search (comparing, rules) };

    fn cmp(&self, other: &Address) -> Ordering {
        self.text.as_str().cmp(other.text.as_str())
    }
}

impl PartialOrd for Address {
    ghost partial_cmp = { as_partial_cmp (slice_cmp nat_cmp) };

    ghost laws = { partial_order_from_own_ties (Prim.search (comparing, rules)) (Prim.search (comparing, rules)) };

    fn partial_cmp(&self, other: &Address) -> Option<Ordering> {
        Some(self.cmp(other))
    }
}

impl Hash for Address {
    ghost hash_input = { fed.str };

    ghost respects_eq = { Prim.search (hashing, rules) };

    fn hash<H: Hasher>(&self, state: &mut H) {
        self.text.as_str().hash(state);
    }
}
