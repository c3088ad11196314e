// What a domain hosts on a shelf, as copies.
ghost use Rattle.std.specs.Prelude.{◌≡◌, ◌≢◌, ◌+◌, ◌++◌, [], IfSome, IsSome, length, option_copied, slice_get};
ghost use Rattle.std.specs.Option.{option_map};
ghost use Rattle.delta_history.specs.Copying.{AreAscending, IsKeptOutcome};
ghost use Rattle.wavelet_shelf.specs.Hosting.{names_of};
ghost use Rattle.wavelet_shelf.specs.Shelves.{hosted_of};
ghost use Rattle.wavelet_shelf.specs.Walks.{histories_of, as_hosted};
ghost use Rattle.hosted_copies.specs.Domains.{hosted_by, hosted_from, one_of};

use crate::domain::{is_hosted_by, is_shown_by};
use delta_history::{Copies, History};
use wave_base::{DeltaId, Domain, WaveletName};
use wave_outside::Folder;
use wavelet_op::Verdict;
use wavelet_shelf::Shelf;

/// What a domain hosts on a shelf. Wavelets there of other hosts are no copies.
#[derive(Drop)]
pub struct HostedCopies<'a, F: Folder> {
    pub domain: &'a Domain,
    pub shelf: &'a Shelf<F>,
}

impl<'a, F: Folder> HostedCopies<'a, F> {
    ghost use Rattle.wavelet_shelf.specs.Hosting.{HaveDeltas};
    ghost use Rattle.hosted_copies.specs.Domains.{shown_by};
    ghost use Rattle.hosted_copies.specs.Shown.{shown_in, IsSameShown};

    /// The number of histories on the shelf, also of those that aren't copies.
    pub fn count(&self) -> usize
        ensures { result ≡ length (histories_of self.now.shelf.now) }
    {
        self.shelf.count()
    }

    /// The history at a place among all of the shelf's, where the domain hosts it and it has a delta.
    pub fn history(&self, place: usize) -> Option<&'a History>
        ensures { hosted_from self.now.domain.now self.now.shelf.now place ≡ one_of (option_map as_hosted (option_copied result))
            ++ hosted_from self.now.domain.now self.now.shelf.now (place + 1) }
    {
        let history = self.shelf.history(place)?;
        if is_shown_by(self.domain, history) {
            Some(history)
        } else {
            None
        }
    }

    // The name at a place among those of the copies.
    fn name_at(&self, place: u64) -> Option<&'a WaveletName>
        ensures { option_copied result ≡ slice_get (names_of (hosted_by self.now.domain.now (hosted_of self.now.shelf.now))) place }
    {
        let mut left = place;
        for at in 0..self.count() {
            if let Some(history) = self.history(at) {
                if left == 0 {
                    return Some(history.name());
                }
                left -= 1;
            }
        }
        None
    }

    /// The law of these copies: they are the histories that the domain hosts, which have deltas, and whose names ascend.
    pub fn are_hosted(&self)
        ensures same { IsSameShown (shown_by self.now.domain.now self.now.shelf.now)
            (shown_in (hosted_by self.now.domain.now (hosted_of self.now.shelf.now))) }
        ensures deltas { HaveDeltas (hosted_by self.now.domain.now (hosted_of self.now.shelf.now)) }
        ensures ascending { AreAscending (names_of (hosted_by self.now.domain.now (hosted_of self.now.shelf.now))) }
    {
        self.shelf.copies_are_hosted();
    }
}

impl<'a, F: Folder> Copies for HostedCopies<'a, F> {
    ghost use Rattle.std.specs.Prelude.{false};
    ghost use Rattle.wavelet_shelf.specs.Hosting.{names_of};
    ghost use Rattle.wavelet_shelf.specs.Shelves.{hosted_of};
    ghost use Rattle.hosted_copies.specs.Domains.{hosted_by, copy_by, outcome_by};

    ghost copies = { λ s n. copy_by s.domain.now s.shelf.now n };

    ghost hosts = { λ s. names_of (hosted_by s.domain.now (hosted_of s.shelf.now)) };

    ghost drops = { λ _ _. false };

    ghost outcomes = { λ s n i. outcome_by s.domain.now s.shelf.now n i };

    fn copy_of(&self, name: &WaveletName) -> Option<&History> {
        if is_hosted_by(self.domain, name) {
            self.shelf.copy_of(name)
        } else {
            None
        }
    }

    fn hosted(&self, place: u64) -> Option<&WaveletName> {
        self.are_hosted();
        self.name_at(place)
    }

    fn dropped(&self, _name: &WaveletName) -> bool {
        false
    }

    fn outcome(&self, name: &WaveletName, id: &DeltaId) -> Option<Verdict> {
        if is_hosted_by(self.domain, name) {
            self.shelf.outcome(name, id)
        } else {
            None
        }
    }
}
