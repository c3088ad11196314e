// The lists that a session holds, each seen as a list.
ghost use Rattle.std.specs.Prelude.{◌≡◌, [], ◌<◌, ◌+◌, ◌++◌, ◌∷◌, length, take, drop, IfOk, IfSome, OnOk, OnErr};
ghost use Rattle.session_core.specs.Rules.{place_of, without};
ghost use Rattle.session_core.specs.Answers.{sent_at, place_told, set_sent_in, told_at};
ghost use Rattle.session_core.specs.Deliveries.{telling_of};

use crate::session::{Opening, Telling, Waiting};
use doc_items::Memory;
use std::alloc::Global;
use std::marker::Model;
use wave_base::{Domain, WaveletName};

/// Domains, in order.
#[derive(Drop)]
pub struct Domains {
    list: Vec<Domain>,
}

impl Model for Domains {
    ghost use Rattle.std.specs.Prelude.{List, ℕ};

    ghost Value = { List (List ℕ) };

    ghost view = { λ d. d.list.items };
}

impl Domains {
    /// The list of these domains.
    pub fn from_vec(list: Vec<Domain>) -> Domains
        ensures { result ≡ list.items }
    {
        Domains { list }
    }

    /// The domains, in order.
    pub fn as_slice(&self) -> &[Domain]
        ensures { result.now ≡ self.now }
    {
        self.list.as_slice()
    }
}

/// What is open, in order of opening.
#[derive(Drop)]
pub struct Openings {
    list: Vec<Opening>,
}

impl Model for Openings {
    ghost use Rattle.std.specs.Prelude.{List};
    ghost use Rattle.session_core.specs.declared.session.Opening.{Opening};

    ghost Value = { List Opening };

    ghost view = { λ o. o.list.items };
}

fn place_in(list: &[Opening], name: &WaveletName) -> Option<usize>
    ensures value { result ≡ place_of name.now list.now }
    ensures within { IfSome result (λ i. i < length list.now) }
{
    for place in 0..list.len() {
        if list[place].name == *name {
            return Some(place);
        }
    }
    None
}

impl Openings {
    /// Nothing is open.
    pub fn new(alloc: Global) -> Openings
        ensures { result ≡ [] }
    {
        Openings {
            list: Vec::new(alloc),
        }
    }

    /// What is open, in order.
    pub fn as_slice(&self) -> &[Opening]
        ensures { result.now ≡ self.now }
    {
        self.list.as_slice()
    }

    /// The wavelet is open, after the others. After want of memory all is as it was.
    pub fn push(&mut self, opening: Opening) -> Result<(), Memory>
        ensures ok { OnOk result (self.new ≡ self.old ++ opening ∷ []) }
        ensures err { OnErr result (self.new ≡ self.old) }
    {
        self.list.push(opening)?;
        Ok(())
    }

    /// The place of a wavelet; None exactly where it isn't open.
    pub fn place_of(&self, name: &WaveletName) -> Option<usize>
        ensures value { result ≡ place_of name.now self.now }
        ensures within { IfSome result (λ i. i < length self.now) }
    {
        place_in(self.list.as_slice(), name)
    }

    /// The wavelet is open, its deltas sent up to this version: at its place where it was open, else after the others. After want of
    /// memory all is as it was.
    pub fn set(&mut self, name: WaveletName, sent: u64) -> Result<(), Memory>
        ensures ok { OnOk result (self.new ≡ sent_at name sent self.old) }
        ensures err { OnErr result (self.new ≡ self.old) }
    {
        match self.place_of(&name) {
            Some(place) => {
                self.list[place].sent = sent;
                Ok(())
            }
            None => {
                self.list.push(Opening { name, sent })?;
                Ok(())
            }
        }
    }

    /// The wavelet at a place was sent up to this version.
    pub fn set_sent(&mut self, place: usize, sent: u64)
        requires { place < length self.old }
        ensures { self.new ≡ set_sent_in place sent self.old }
    {
        self.list[place].sent = sent;
    }

    /// The wavelet at a place is open no more.
    pub fn remove(&mut self, place: usize)
        requires { place < length self.old }
        ensures { self.new ≡ without place self.old }
    {
        drop(self.list.remove(place));
    }
}

/// Submissions that wait for their outcomes, in order.
#[derive(Drop)]
pub struct Waitings {
    list: Vec<Waiting>,
}

impl Model for Waitings {
    ghost use Rattle.std.specs.Prelude.{List};
    ghost use Rattle.session_core.specs.declared.session.Waiting.{Waiting};

    ghost Value = { List Waiting };

    ghost view = { λ w. w.list.items };
}

impl Waitings {
    /// None waits.
    pub fn new(alloc: Global) -> Waitings
        ensures { result ≡ [] }
    {
        Waitings {
            list: Vec::new(alloc),
        }
    }

    /// Those that wait, in order.
    pub fn as_slice(&self) -> &[Waiting]
        ensures { result.now ≡ self.now }
    {
        self.list.as_slice()
    }

    /// The number of those that wait.
    pub fn len(&self) -> usize
        ensures { result ≡ length self.now }
    {
        self.list.len()
    }

    /// The one at a place waits no more.
    pub fn remove(&mut self, place: usize)
        requires { place < length self.old }
        ensures { self.new ≡ take place self.old ++ drop (place + 1) self.old }
    {
        drop(self.list.remove(place));
    }

    /// One more waits, after the others. After want of memory all is as it was.
    pub fn push(&mut self, waiting: Waiting) -> Result<(), Memory>
        ensures ok { OnOk result (self.new ≡ self.old ++ waiting ∷ []) }
        ensures err { OnErr result (self.new ≡ self.old) }
    {
        self.list.push(waiting)?;
        Ok(())
    }
}

// The place of a wavelet among those of which a peer was told.
fn place_told(list: &[Telling], name: &WaveletName) -> Option<usize>
    ensures value { result ≡ place_told name.now list.now }
    ensures within { IfSome result (λ i. i < length list.now) }
{
    for place in 0..list.len() {
        if list[place].name == *name {
            return Some(place);
        }
    }
    None
}

/// What a peer was told of hosted wavelets.
#[derive(Drop)]
pub struct Tellings {
    list: Vec<Telling>,
}

impl Model for Tellings {
    ghost use Rattle.std.specs.Prelude.{List};
    ghost use Rattle.session_core.specs.declared.session.Telling.{Telling};

    ghost Value = { List Telling };

    ghost view = { λ t. t.list.items };
}

impl Tellings {
    /// The peer was told nothing.
    pub fn new(alloc: Global) -> Tellings
        ensures { result ≡ [] }
    {
        Tellings {
            list: Vec::new(alloc),
        }
    }

    /// What it was told, in order.
    pub fn as_slice(&self) -> &[Telling]
        ensures { result.now ≡ self.now }
    {
        self.list.as_slice()
    }

    /// What it was told of a wavelet: up to which version, and whether it counts as told. After want of memory all is as it was.
    pub fn set(&mut self, name: WaveletName, sent: u64, told: bool) -> Result<(), Memory>
        ensures ok { OnOk result (self.new ≡ told_at name sent told self.old) }
        ensures err { OnErr result (self.new ≡ self.old) }
    {
        match place_told(self.list.as_slice(), &name) {
            Some(place) => {
                self.list[place] = Telling { name, sent, told };
                Ok(())
            }
            None => {
                self.list.push(Telling { name, sent, told })?;
                Ok(())
            }
        }
    }

    /// Up to which version it was told of a wavelet, and whether it counts as told.
    pub fn get(&self, name: &WaveletName) -> (u64, bool)
        ensures { result ≡ ((telling_of name.now self.now).sent, (telling_of name.now self.now).told) }
    {
        for telling in self.list.as_slice() {
            if telling.name == *name {
                return (telling.sent, telling.told);
            }
        }
        (0, false)
    }

    /// An equal list.
    pub fn copy(&self, alloc: Global) -> Result<Tellings, Memory>
        ensures { IfOk result (λ t. t ≡ self.now) }
    {
        let mut list = Vec::with_capacity(alloc, self.list.len())?;
        for telling in self.list.as_slice() {
            let name = telling.name.copy(alloc)?;
            list.push(Telling {
                name,
                sent: telling.sent,
                told: telling.told,
            })?;
        }
        Ok(Tellings { list })
    }
}
