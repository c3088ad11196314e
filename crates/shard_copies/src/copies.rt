ghost use Rattle.std.specs.Prelude.{◌≡◌, ◌≢◌, [], IfSome, option_copied};
ghost use Rattle.delta_history.specs.Copying.{AreAscending, IsKeptOutcome};
ghost use Rattle.wavelet_shelf.specs.Hosting.{names_of, HaveDeltas};
ghost use Rattle.wavelet_shelf.specs.Shelves.{hosted_of};
ghost use Rattle.hosted_copies.specs.Domains.{hosted_by};
ghost use Rattle.hosted_copies.specs.Shown.{IsSameShown};
ghost use Rattle.replica_store.specs.Worlds.{worlds_of};
ghost use Rattle.shard_copies.specs.Kept.{copy_kept, drop_kept, outcome_kept, shown_kept};
ghost use Rattle.shard_copies.specs.Shown.{shown_among};

use delta_history::{Copies, History};
use hosted_copies::{HostedCopies, is_hosted_by};
use replica_store::Replicas;
use wave_base::{DeltaId, WaveletName};
use wave_outside::Folder;
use wavelet_op::Verdict;

/// What a domain hosts on a shelf, and copies of what others host.
#[derive(Drop)]
pub struct ShardCopies<'a, F: Folder> {
    pub hosted: HostedCopies<'a, F>,
    pub replicas: &'a Replicas,
}

// The history of a copy, where it has a delta.
fn kept_copy<'a>(replicas: &'a Replicas, name: &WaveletName) -> Option<&'a History>
    ensures value { option_copied result ≡ copy_kept replicas.now name.now }
    ensures named { IfSome result (λ h. h.now.name ≡ name.now) }
    ensures some { IfSome result (λ h. h.now.deltas ≢ []) }
{
    let history = replicas.get(name)?.history();
    if history.deltas().is_empty() {
        None
    } else {
        Some(history)
    }
}

// Whether the host of a copy gives it no more.
fn kept_drop(replicas: &Replicas, name: &WaveletName) -> bool
    ensures { result ≡ drop_kept replicas.now name.now }
{
    match replicas.get(name) {
        Some(copy) => copy.dropped(),
        None => false,
    }
}

// The outcome that a copy knows for an id.
fn kept_outcome(replicas: &Replicas, name: &WaveletName, id: &DeltaId) -> Option<Verdict>
    ensures value { result ≡ outcome_kept replicas.now name.now id.now }
    ensures kept { IsKeptOutcome (copy_kept replicas.now name.now) id.now result }
{
    replicas.get(name)?.outcome(id)
}

impl<'a, F: Folder> ShardCopies<'a, F> {
    /// The law of these copies: sessions see the histories that the domain hosts, which have deltas and whose names ascend, and the
    /// copies as they are in the world.
    pub fn are_shown(&self)
        ensures same { IsSameShown (shown_kept self.now.hosted.domain.now self.now.hosted.shelf.now self.now.replicas.now)
            (shown_among self.now.hosted.domain.now (hosted_by self.now.hosted.domain.now (hosted_of self.now.hosted.shelf.now))
            (worlds_of self.now.replicas.now)) }
        ensures deltas { HaveDeltas (hosted_by self.now.hosted.domain.now (hosted_of self.now.hosted.shelf.now)) }
        ensures ascending { AreAscending (names_of (hosted_by self.now.hosted.domain.now (hosted_of self.now.hosted.shelf.now))) }
    {
        self.hosted.are_hosted();
        self.replicas.are_named();
    }
}

impl<'a, F: Folder> Copies for ShardCopies<'a, F> {
    ghost use Rattle.shard_copies.specs.Kept.{shown_kept};

    ghost copies = { λ s n. (shown_kept s.hosted.domain.now s.hosted.shelf.now s.replicas.now).copy n };

    ghost hosts = { λ s. (shown_kept s.hosted.domain.now s.hosted.shelf.now s.replicas.now).hosts };

    ghost drops = { λ s n. (shown_kept s.hosted.domain.now s.hosted.shelf.now s.replicas.now).drops n };

    ghost outcomes = { λ s n i. (shown_kept s.hosted.domain.now s.hosted.shelf.now s.replicas.now).outcome n i };

    fn copy_of(&self, name: &WaveletName) -> Option<&History> {
        if is_hosted_by(self.hosted.domain, name) {
            self.hosted.copy_of(name)
        } else {
            kept_copy(self.replicas, name)
        }
    }

    fn hosted(&self, place: u64) -> Option<&WaveletName> {
        self.hosted.hosted(place)
    }

    fn dropped(&self, name: &WaveletName) -> bool {
        if is_hosted_by(self.hosted.domain, name) {
            false
        } else {
            kept_drop(self.replicas, name)
        }
    }

    fn outcome(&self, name: &WaveletName, id: &DeltaId) -> Option<Verdict> {
        if is_hosted_by(self.hosted.domain, name) {
            self.hosted.outcome(name, id)
        } else {
            kept_outcome(self.replicas, name, id)
        }
    }
}
