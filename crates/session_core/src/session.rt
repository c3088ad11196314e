// A session: for whom it speaks, and what it has open.
ghost use Rattle.std.specs.Prelude.{◌≡◌};
ghost use Rattle.session_core.specs.Rules.{fresh, has_user, has_peer};

use crate::lists::{Domains, Openings, Tellings, Waitings};
use std::alloc::Global;
use wave_base::{Address, DeltaId, Domain, WaveletName};

/// For whom a session speaks.
pub enum Party {
    /// Nobody yet.
    Nobody,
    /// A user, whose `hello` was accepted.
    User(Address),
    /// Another domain, whose `peer` was accepted.
    Domain(Domain),
}

impl Drop for Party {
    fn drop(self) {
        match self {
            Party::Nobody => {}
            Party::User(_part0) => {}
            Party::Domain(_part0) => {}
        }
    }
}

/// A wavelet that is open, and up to which version its deltas were sent.
pub struct Opening {
    pub name: WaveletName,
    pub sent: u64,
}

impl Drop for Opening {
    fn drop(self) {
        let Opening {
            name: _name,
            sent: _sent,
        } = self;
    }
}

/// A submission that waits for its outcome.
pub struct Waiting {
    pub name: WaveletName,
    pub id: DeltaId,
}

impl Drop for Waiting {
    fn drop(self) {
        let Waiting {
            name: _name,
            id: _id,
        } = self;
    }
}

/// A hosted wavelet of which a peer was told, up to which version its deltas were sent, and whether the peer counts as told of it.
pub struct Telling {
    pub name: WaveletName,
    pub sent: u64,
    pub told: bool,
}

impl Drop for Telling {
    fn drop(self) {
        let Telling {
            name: _name,
            sent: _sent,
            told: _told,
        } = self;
    }
}

/// A session of a client or of another domain.
pub struct Session {
    /// The domain that is served here; a session of a pipe has none.
    pub domain: Option<Domain>,
    /// The domains that may speak for themselves, and to which submissions are passed on.
    pub peers: Domains,
    pub party: Party,
    pub openings: Openings,
    pub waiting: Waitings,
    pub tellings: Tellings,
}

impl Drop for Session {
    fn drop(self) {
        let Session {
            domain: _domain,
            peers: _peers,
            party: _party,
            openings: _openings,
            waiting: _waiting,
            tellings: _tellings,
        } = self;
    }
}

impl Session {
    /// A session of a server for this domain, with these peers; one of a pipe has no domain and no peers.
    pub fn new(alloc: Global, domain: Option<Domain>, peers: Vec<Domain>) -> Session
        ensures { result ≡ fresh domain peers.items }
    {
        Session {
            domain,
            peers: Domains::from_vec(peers),
            party: Party::Nobody,
            openings: Openings::new(alloc),
            waiting: Waitings::new(alloc),
            tellings: Tellings::new(alloc),
        }
    }

    /// Whether a `hello` was accepted.
    pub fn has_user(&self) -> bool
        ensures { result ≡ has_user self.now }
    {
        match &self.party {
            Party::Nobody => false,
            Party::User(_) => true,
            Party::Domain(_) => false,
        }
    }

    /// Whether a `peer` was accepted.
    pub fn has_peer(&self) -> bool
        ensures { result ≡ has_peer self.now }
    {
        match &self.party {
            Party::Nobody => false,
            Party::User(_) => false,
            Party::Domain(_) => true,
        }
    }
}
