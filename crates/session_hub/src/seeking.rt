// What is asked of the copies of a shard.
ghost use Rattle.std.specs.Prelude.{◌≡◌, ℕ, List, map, IfOk};
ghost use Rattle.peer_turns.specs.declared.item.CopyAt.{CopyAt};
ghost use Rattle.peer_turns.specs.declared.item.Relay.{Relay};
ghost use Rattle.replica_store.specs.Listings.{IsSought};
ghost use Rattle.shard_marks.specs.Marks.{copied};
ghost use Rattle.session_hub.specs.Entries.{entries_of};
ghost use Rattle.session_hub.specs.Items.{relay_in, reach_in, items_of};

use crate::shard::Shard;
use doc_items::Memory;
use peer_turns::{CopyAt, Relay};
use replica_store::Sought;
use std::alloc::Global;
use wave_base::Domain;
use wave_outside::Folder;

/// What is asked for.
#[derive(Clone, Copy, Drop)]
pub enum Wanted {
    /// Submissions that wait for an answer of a domain.
    Relays,
    /// How far the copies reach whose host a domain is.
    Reaches,
}

/// A thing of either kind.
pub enum Item {
    Relay(Relay),
    Reach(CopyAt),
}

impl Drop for Item {
    fn drop(self) {
        match self {
            Item::Relay(_relay) => {}
            Item::Reach(_reach) => {}
        }
    }
}

impl Item {
    /// The submission, where it is one.
    pub fn into_relay(self) -> Option<Relay>
        ensures { result ≡ relay_in self }
    {
        match self {
            Item::Relay(relay) => Some(relay),
            Item::Reach(_reach) => None,
        }
    }

    /// How far a copy reaches, where it says so.
    pub fn into_reach(self) -> Option<CopyAt>
        ensures { result ≡ reach_in self }
    {
        match self {
            Item::Relay(_relay) => None,
            Item::Reach(reach) => Some(reach),
        }
    }
}

// As an item.
fn as_relay(sought: Sought<Relay>) -> Sought<Item>
    ensures { (xs : List Relay) (p : ℕ) → IsSought xs p sought → IsSought (map (λ r. Item.Relay r) xs) p result }
{
    match sought {
        Sought::Found(relay) => Sought::Found(Item::Relay(relay)),
        Sought::Past(left) => Sought::Past(left),
    }
}

// As an item.
fn as_reach(sought: Sought<CopyAt>) -> Sought<Item>
    ensures { (xs : List CopyAt) (p : ℕ) → IsSought xs p sought → IsSought (map (λ c. Item.Reach c) xs) p result }
{
    match sought {
        Sought::Found(reach) => Sought::Found(Item::Reach(reach)),
        Sought::Past(left) => Sought::Past(left),
    }
}

impl<F: Folder + Drop> Shard<F> {
    /// What is at a place of what is wanted of the copies, for a domain. The error is want of memory.
    pub(crate) fn seek(
        &self,
        alloc: Global,
        wanted: Wanted,
        domain: &Domain,
        place: u64,
    ) -> Result<Sought<Item>, Memory>
        ensures { IfOk result (IsSought (items_of wanted domain.now (copied self.now.domain self.now.number (entries_of self.now))) place) }
    {
        match wanted {
            Wanted::Relays => Ok(as_relay(self.replicas.relay_at(alloc, domain, place)?)),
            Wanted::Reaches => Ok(as_reach(self.replicas.reach_at(alloc, domain, place)?)),
        }
    }
}
