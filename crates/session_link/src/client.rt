// A session, with what it was sent.
ghost use Rattle.std.specs.Prelude.{◌≡◌, ◌≢◌, ◌<◌, ℕ, true, false, slice_index_or, Some, IfOk, OnOk, OnErr};
ghost use Rattle.session_core.specs.Rules.{fresh, has_peer, taken_bytes};
ghost use Rattle.session_link.specs.Opened.{AreSameNotes, IsNoted, IsNotedFor};

use doc_items::Memory;
use session_core::{Request, Session, SubmitAnswer};
use std::alloc::Global;
use wave_base::Domain;

/// The session of a client, or of a peer.
pub(crate) struct Client {
    pub(crate) session: Session,
    /// Up to which length of each shard's history it was sent what is new; 0 where something may be due.
    pub(crate) sent: [u64; 16],
    /// Whether something of the shard was asked for. Of another shard nothing is ever sent to it.
    pub(crate) opened: [bool; 16],
}

impl Drop for Client {
    fn drop(self) {
        let Client {
            session: _session,
            sent: _sent,
            opened: _opened,
        } = self;
    }
}

// The domains again, in order. The error is want of memory, here and below.
fn copies(alloc: Global, domains: &[Domain]) -> Result<Vec<Domain>, Memory>
    ensures { IfOk result (λ made. made.items ≡ domains.now) }
{
    let mut made = Vec::with_capacity(alloc, domains.len())?;
    for domain in domains {
        made.push(domain.copy(alloc)?)?;
    }
    Ok(made)
}

impl Client {
    /// A new session of a server for this domain, with these peers.
    pub(crate) fn new(alloc: Global, domain: &Domain, peers: &[Domain]) -> Result<Client, Memory>
        ensures session { IfOk result (λ c. c.session ≡ fresh (Some domain.now) peers.now) }
        ensures due { IfOk result (λ c. (k : ℕ) → slice_index_or c.sent k 0 ≡ 0) }
    {
        let domain = domain.copy(alloc)?;
        let peers = copies(alloc, peers)?;
        Ok(Client {
            session: Session::new(alloc, Some(domain), peers),
            sent: [0; 16],
            opened: [false; 16],
        })
    }

    /// Whether something of a shard was asked for.
    pub(crate) fn has_opened(&self, shard: u8) -> bool
        requires { shard < 16 }
        ensures { result ≡ slice_index_or self.now.opened shard false }
    {
        self.opened[shard as usize]
    }

    /// Notes that it was sent what is new up to this length of a shard's history.
    pub(crate) fn note(&mut self, shard: u8, length: u64)
        requires { shard < 16 }
        ensures here { slice_index_or self.new.sent shard 0 ≡ length }
        ensures others { (k : ℕ) → k ≢ shard → slice_index_or self.new.sent k 0 ≡ slice_index_or self.old.sent k 0 }
        ensures opened { self.new.opened ≡ self.old.opened }
        ensures session { self.new.session ≡ self.old.session }
    {
        self.sent[shard as usize] = length;
    }

    /// Notes that something of a shard was asked for, of which something may be due.
    pub(crate) fn note_opened(&mut self, shard: u8)
        requires { shard < 16 }
        ensures noted { IsNoted shard self.old.sent self.new.sent self.old.opened self.new.opened }
        ensures session { self.new.session ≡ self.old.session }
    {
        self.sent[shard as usize] = 0;
        self.opened[shard as usize] = true;
    }

    /// Notes what was answered to a submission to a wavelet of a shard: the outcome of one that waits is due later.
    pub(crate) fn note_answer(&mut self, shard: u8, answer: &SubmitAnswer)
        requires { shard < 16 }
        ensures noted { IsNotedFor answer.now shard self.old.sent self.new.sent self.old.opened self.new.opened }
        ensures session { self.new.session ≡ self.old.session }
    {
        match answer {
            SubmitAnswer::Verdict(_) => {}
            SubmitAnswer::Queued => self.note_opened(shard),
            SubmitAnswer::NoHost => {}
            SubmitAnswer::Store => {}
        }
    }

    // Notes that something of every shard may be due where the session has become a peer's, or was one's and isn't any more.
    fn note_peer(&mut self, had_peer: bool)
        ensures kept { has_peer self.new.session ≡ had_peer → AreSameNotes self.old.sent self.new.sent self.old.opened self.new.opened }
        ensures due { has_peer self.new.session ≢ had_peer → (k : ℕ) → slice_index_or self.new.sent k 0 ≡ 0 }
        ensures flagged { has_peer self.new.session ≢ had_peer → (k : ℕ) → k < 16 → slice_index_or self.new.opened k false ≡ true }
        ensures session { self.new.session ≡ self.old.session }
    {
        if self.session.has_peer() != had_peer {
            self.sent = [0; 16];
            self.opened = [true; 16];
        }
    }

    /// What a message asks for. Once it made the session a peer's, something of every shard may be due.
    pub(crate) fn take(&mut self, alloc: Global, bytes: &[u8]) -> Result<Request, Memory>
        ensures ok { IfOk result (λ r. (self.new.session, r) ≡ taken_bytes self.old.session bytes.now) }
        ensures kept { has_peer self.new.session ≡ has_peer self.old.session
            → AreSameNotes self.old.sent self.new.sent self.old.opened self.new.opened }
        ensures due { has_peer self.new.session ≢ has_peer self.old.session → (k : ℕ) → slice_index_or self.new.sent k 0 ≡ 0 }
        ensures flagged { has_peer self.new.session ≢ has_peer self.old.session
            → (k : ℕ) → k < 16 → slice_index_or self.new.opened k false ≡ true }
    {
        let had_peer = self.session.has_peer();
        let taken = self.session.take_message(alloc, bytes);
        self.note_peer(had_peer);
        taken
    }
}
