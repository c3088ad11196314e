// What a message asks for, by the rules of a session.
ghost use Rattle.std.specs.Prelude.{◌≡◌, ◌≤◌, cond, Some, None, IfOk, OnErr};
ghost use Rattle.std.specs.List.{list_any};
ghost use Rattle.doc_items.specs.Limits.{max_count};
ghost use Rattle.doc_items.specs.Maps.{same_text};
ghost use Rattle.session_core.specs.Rules.{is_new, fits_domain, is_user, greeted, is_peer, met, in_domain, is_own, is_hosted, is_reached, place_of, closed_at, asked_open, submitted_as, submitted, closed, told_have, relay_by, relayed, taken_kind, taken, reason_of, limit_of, taken_bytes};

use crate::Request;
use crate::lists::Domains;
use crate::session::{Party, Session};
use doc_items::{MAX_COUNT, Memory, Text};
use std::alloc::{AllocError, Global};
use wave_base::{Address, BaseFault, DeltaId, Domain, HashedVersion, WaveletName};
use wave_messages::{
    BadReason, ClosedReason, ForServer, Kind, MAX_CLIENT, MAX_PEER, Message, MessageFault, read,
};
use wavelet_op::{Ops, Submission};

fn bad(reason: BadReason) -> Request
    ensures { result ≡ Request.Reply (Message.Bad reason) }
{
    Request::Reply(Message::Bad(reason))
}

/// Why a message that could not be read was bad, as its sender is told.
pub fn reason_of(kind: Kind) -> BadReason
    ensures { result ≡ reason_of kind }
{
    match kind {
        Kind::TooLong => BadReason::TooLong,
        Kind::NotJson => BadReason::NotJson,
        Kind::TooMany => BadReason::TooMany,
        Kind::NotMessage => BadReason::NotMessage,
    }
}

fn limit_of(party: &Party) -> u64
    ensures { result ≡ limit_of party.now }
{
    match party {
        Party::Nobody => MAX_CLIENT,
        Party::User(_) => MAX_CLIENT,
        Party::Domain(_) => MAX_PEER,
    }
}

// Whether the host of a wavelet is this domain.
fn is_own(host: &str, domain: &Option<Domain>) -> bool
    ensures { result ≡ is_own host.now domain.now }
{
    match domain {
        Some(domain) => host == domain.text(),
        None => false,
    }
}

impl Domains {
    // Whether the domain of this text is among them.
    fn has(&self, domain: &str) -> bool
        ensures { result ≡ list_any (λ peer. same_text domain.now peer) self.now }
    {
        self.as_slice().iter().any(|peer| domain == peer.text())
    }
}

impl Session {
    fn is_new(&self) -> bool
        ensures { result ≡ is_new self.now }
    {
        match &self.party {
            Party::Nobody => true,
            Party::User(_) => false,
            Party::Domain(_) => false,
        }
    }

    // Whether the address is of this domain, where there is one.
    fn fits_domain(&self, address: &Address) -> bool
        ensures { result ≡ fits_domain self.now address.now }
    {
        match &self.domain {
            Some(domain) => address.domain() == domain.text(),
            None => true,
        }
    }

    fn is_peer(&self, domain: &str) -> bool
        ensures { result ≡ is_peer self.now domain.now }
    {
        self.peers.has(domain)
    }

    fn is_hosted(&self, name: &WaveletName) -> bool
        ensures { result ≡ is_hosted self.now name.now }
    {
        is_own(name.host(), &self.domain)
    }

    fn is_reached(&self, name: &WaveletName) -> bool
        ensures { result ≡ is_reached self.now name.now }
    {
        if self.domain.is_none() {
            return true;
        }
        self.is_hosted(name) || self.is_peer(name.host())
    }

    // ---- who it is

    // The address of a text, where it may be the user's.
    fn user_of(&self, alloc: Global, text: &str) -> Result<Option<Address>, Memory>
        ensures { IfOk result (λ user. user ≡ cond (is_user self.now text.now) (Some text.now) None) }
    {
        let address = match Address::parse(alloc, text) {
            Ok(address) => address,
            Err(BaseFault::Memory) => return Err(AllocError),
            Err(BaseFault::BadAddress) => return Ok(None),
            Err(BaseFault::BadName) => return Ok(None),
        };
        if self.fits_domain(&address) {
            Ok(Some(address))
        } else {
            Ok(None)
        }
    }

    fn greet(&mut self, alloc: Global, text: Text) -> Result<Request, Memory>
        ensures ok { IfOk result (λ r. (self.new, r) ≡ greeted self.old text) }
        ensures same { OnErr result (self.new ≡ self.old) }
    {
        if !self.is_new() {
            return Ok(bad(BadReason::BadUser));
        }
        match self.user_of(alloc, text.as_str())? {
            Some(user) => {
                self.party = Party::User(user);
                Ok(Request::Reply(Message::Welcome { user: text }))
            }
            None => Ok(bad(BadReason::BadUser)),
        }
    }

    fn meet(&mut self, alloc: Global, domain: Domain) -> Result<Request, Memory>
        ensures ok { IfOk result (λ r. (self.new, r) ≡ met self.old domain) }
        ensures same { OnErr result (self.new ≡ self.old) }
    {
        if !self.is_new() || !self.is_peer(domain.text()) {
            return Ok(bad(BadReason::BadUser));
        }
        let user = Text::from_str(alloc, domain.text())?;
        self.party = Party::Domain(domain);
        Ok(Request::Reply(Message::Welcome { user }))
    }

    fn meet_in_domain(&mut self, alloc: Global, domain: Domain) -> Result<Request, Memory>
        ensures ok { IfOk result (λ r. (self.new, r) ≡ in_domain self.old (met self.old domain)) }
        ensures same { OnErr result (self.new ≡ self.old) }
    {
        if self.domain.is_none() {
            return Ok(bad(BadReason::NotMessage));
        }
        self.meet(alloc, domain)
    }

    // ---- from a client

    fn ask_open(&self, name: WaveletName, at: Option<HashedVersion>) -> Request
        ensures { (self.now, result) ≡ asked_open self.now name at }
    {
        match &self.party {
            Party::Nobody => bad(BadReason::BadUser),
            Party::User(_) => {
                if self.is_reached(&name) {
                    Request::Attach { name, at }
                } else {
                    bad(BadReason::NoHost)
                }
            }
            Party::Domain(_) => bad(BadReason::NotMessage),
        }
    }

    // The user's submission, where the wavelet's host is reached.
    fn submit_as(
        &self,
        alloc: Global,
        user: &Address,
        name: WaveletName,
        serial: (u64, u64),
        at: HashedVersion,
        ops: Ops,
    ) -> Result<Request, Memory>
        requires client { serial.0 ≤ max_count }
        requires number { serial.1 ≤ max_count }
        ensures { IfOk result (λ r. (self.now, r) ≡ submitted_as self.now name serial.0 serial.1 at ops user.now) }
    {
        if !self.is_reached(&name) {
            return Ok(bad(BadReason::NoHost));
        }
        let author = user.copy(alloc)?;
        let id = DeltaId {
            author,
            client: serial.0,
            number: serial.1,
        };
        let submission = Submission { id, at, ops };
        Ok(Request::Submit { name, submission })
    }

    fn submit(
        &self,
        alloc: Global,
        name: WaveletName,
        serial: (u64, u64),
        at: HashedVersion,
        ops: Ops,
    ) -> Result<Request, Memory>
        ensures { IfOk result (λ r. (self.now, r) ≡ submitted self.now name serial.0 serial.1 at ops) }
    {
        if serial.0 > MAX_COUNT || serial.1 > MAX_COUNT {
            return Ok(bad(BadReason::NotMessage));
        }
        match &self.party {
            Party::Nobody => Ok(bad(BadReason::BadUser)),
            Party::User(user) => self.submit_as(alloc, user, name, serial, at, ops),
            Party::Domain(_) => Ok(bad(BadReason::NotMessage)),
        }
    }

    fn close_open(&mut self, name: WaveletName) -> Request
        ensures { (self.new, result) ≡ closed_at self.old name (place_of name self.old.openings) }
    {
        match self.openings.place_of(&name) {
            Some(place) => {
                self.openings.remove(place);
                Request::Reply(Message::Closed {
                    name,
                    reason: ClosedReason::Asked,
                })
            }
            None => bad(BadReason::NotOpen),
        }
    }

    fn close(&mut self, name: WaveletName) -> Request
        ensures { (self.new, result) ≡ closed self.old name }
    {
        match &self.party {
            Party::Nobody => bad(BadReason::BadUser),
            Party::User(_) => self.close_open(name),
            Party::Domain(_) => bad(BadReason::NotMessage),
        }
    }

    // ---- from a peer

    fn have(&self, name: WaveletName, at: HashedVersion) -> Request
        ensures { (self.now, result) ≡ told_have self.now name at }
    {
        if self.domain.is_none() {
            return bad(BadReason::NotMessage);
        }
        match &self.party {
            Party::Nobody => bad(BadReason::BadUser),
            Party::User(_) => bad(BadReason::NotMessage),
            Party::Domain(_) => {
                if self.is_hosted(&name) {
                    Request::Have { name, at }
                } else {
                    bad(BadReason::NoHost)
                }
            }
        }
    }

    // A submission that a peer passes on.
    fn relay_by(&self, name: WaveletName, submission: Submission, domain: &Domain) -> Request
        ensures { (self.now, result) ≡ relay_by self.now name submission domain.now }
    {
        if submission.id.author.domain() != domain.text() {
            return bad(BadReason::BadUser);
        }
        if self.is_hosted(&name) {
            Request::Submit { name, submission }
        } else {
            bad(BadReason::NoHost)
        }
    }

    fn relay(&self, name: WaveletName, submission: Submission) -> Request
        ensures { (self.now, result) ≡ relayed self.now name submission }
    {
        if self.domain.is_none() {
            return bad(BadReason::NotMessage);
        }
        match &self.party {
            Party::Nobody => bad(BadReason::BadUser),
            Party::User(_) => bad(BadReason::NotMessage),
            Party::Domain(domain) => self.relay_by(name, submission, domain),
        }
    }

    // ---- any message

    /// Takes a message that was read. A refused one is replied `bad`, and the session stays. The error is want of memory, after which
    /// it stays too.
    pub fn take(&mut self, alloc: Global, message: Message) -> Result<Request, Memory>
        ensures ok { IfOk result (λ r. (self.new, r) ≡ taken self.old message) }
        ensures same { OnErr result (self.new ≡ self.old) }
    {
        match message.for_server() {
            Some(message) => self.serve(alloc, message),
            None => Ok(bad(BadReason::NotMessage)),
        }
    }

    // Takes a message of a kind that a server takes.
    fn serve(&mut self, alloc: Global, message: ForServer) -> Result<Request, Memory>
        ensures ok { IfOk result (λ r. (self.new, r) ≡ taken_kind self.old message) }
        ensures same { OnErr result (self.new ≡ self.old) }
    {
        match message {
            ForServer::Hello { user } => self.greet(alloc, user),
            ForServer::OpenWavelet { name, at } => Ok(self.ask_open(name, at)),
            ForServer::Submit {
                name,
                client,
                number,
                at,
                ops,
            } => { self.submit(alloc, name, (client, number), at, ops) }
            ForServer::CloseWavelet { name } => Ok(self.close(name)),
            ForServer::Peer { domain } => self.meet_in_domain(alloc, domain),
            ForServer::Have { name, at } => Ok(self.have(name, at)),
            ForServer::Relay { name, submission } => Ok(self.relay(name, submission)),
        }
    }

    /// Reads a message of at most `MAX_PEER` bytes after an accepted `peer`, else of at most `MAX_CLIENT`, and takes it; bytes that are
    /// no message are replied `bad` with their kind. The error is want of memory, after which the session is as it was.
    pub fn take_message(&mut self, alloc: Global, bytes: &[u8]) -> Result<Request, Memory>
        ensures ok { IfOk result (λ r. (self.new, r) ≡ taken_bytes self.old bytes.now) }
        ensures same { OnErr result (self.new ≡ self.old) }
    {
        match read(alloc, bytes, limit_of(&self.party)) {
            Ok(message) => self.take(alloc, message),
            Err(MessageFault::BadMessage(kind)) => Ok(bad(reason_of(kind))),
            Err(MessageFault::Memory) => Err(AllocError),
        }
    }
}
