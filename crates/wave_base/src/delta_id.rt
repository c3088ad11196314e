ghost use Rattle.std.specs.Prelude.{◌≡◌, ◌≤◌, IfOk};
ghost use Rattle.std.specs.Cmp.{partial_order_from_own_ties};
ghost use Rattle.std.specs.Cmp.Rules.{comparing};
ghost use Rattle.std.specs.Ordering.{as_partial_cmp};
ghost use Rattle.std.proofs.Common.{rules};
ghost use Rattle.doc_items.specs.Limits.{max_count};
ghost use Rattle.wave_base.specs.Versions.{same_id, id_cmp};

use crate::Address;
use doc_items::Memory;
use std::alloc::Global;
use std::cmp::Ordering;
use std::marker::Model;

/// By what a delta is known: no two deltas of a history have the same.
#[derive(Debug)]
pub struct DeltaId {
    /// Who made the delta.
    pub author: Address,
    /// The key of the author's client, at most 2^53 - 1.
    pub client: u64,
    /// The number that the client gave the delta, at most 2^53 - 1.
    pub number: u64,
}

impl Drop for DeltaId {
    fn drop(self) {
        let DeltaId {
            author: _author,
            client: _client,
            number: _number,
        } = self;
    }
}

impl Model for DeltaId {
    ghost use Rattle.std.specs.Prelude.{◌≤◌};
    ghost use Rattle.doc_items.specs.Limits.{max_count};
    ghost use Rattle.wave_base.specs.Versions.{IdOf};

    ghost Value = { IdOf };

    ghost view = { λ i. record { author = i.author; client = i.client; number = i.number } };

    ghost invariant = { λ i. (i.client ≤ max_count) × (i.number ≤ max_count) };

    ghost inverse = { λ i. record { author = i.author; client = i.client; number = i.number } };
}

impl DeltaId {
    /// An equal id.
    pub fn copy(&self, alloc: Global) -> Result<DeltaId, Memory>
        ensures { IfOk result (λ i. i ≡ self.now) }
    {
        let author = self.author.copy(alloc)?;
        Ok(DeltaId {
            author,
            client: self.client,
            number: self.number,
        })
    }
}

impl PartialEq for DeltaId {
    ghost eq = { same_id };

    ghost laws = { Prim.search (comparing, rules) };

    fn eq(&self, other: &DeltaId) -> bool {
        self.author == other.author && self.client == other.client && self.number == other.number
    }
}

impl Eq for DeltaId {
    ghost laws = { Prim.search (comparing, rules) };
}

impl Ord for DeltaId {
    ghost cmp = { id_cmp };

    ghost total = { Prim.search (comparing, rules) };

    ghost matches_partial_cmp = { Prim.search (comparing, rules) };

    ghost matches_eq = { Prim.search (comparing, rules) };

    fn cmp(&self, other: &DeltaId) -> Ordering {
        self.author
            .cmp(&other.author)
            .then(self.client.cmp(&other.client))
            .then(self.number.cmp(&other.number))
    }
}

impl PartialOrd for DeltaId {
    ghost partial_cmp = { as_partial_cmp id_cmp };

    ghost laws = { partial_order_from_own_ties (Prim.search (comparing, rules)) (Prim.search (comparing, rules)) };

    fn partial_cmp(&self, other: &DeltaId) -> Option<Ordering> {
        Some(self.cmp(other))
    }
}
