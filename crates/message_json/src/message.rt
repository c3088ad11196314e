// The messages, and those among them that a server takes.
ghost use Rattle.std.specs.Prelude.{◌≡◌};
ghost use Rattle.message_json.specs.Server.{for_server};

use doc_items::Text;
use wave_base::{DeltaId, Domain, HashedVersion, WaveletName};
use wavelet_json::{BadReason, ClosedReason, UnopenedReason};
use wavelet_op::{AppliedDelta, Ops, Submission, Verdict};
use wavelet_state::Snapshot;

/// A message. The first four kinds are from a client, the next ten to a client, and the others between domains.
pub enum Message {
    /// Who the client speaks for: any text, of which an address is accepted.
    Hello {
        user: Text,
    },
    /// The client wants a wavelet's deltas from a version on, or its state first.
    OpenWavelet {
        name: WaveletName,
        at: Option<HashedVersion>,
    },
    /// Operations that the client made at a version. The client's key and number are at most 2^53 - 1.
    Submit {
        name: WaveletName,
        client: u64,
        number: u64,
        at: HashedVersion,
        ops: Ops,
    },
    /// The client wants no more of a wavelet's deltas.
    CloseWavelet {
        name: WaveletName,
    },
    /// The user, or the peer's domain, was accepted.
    Welcome {
        user: Text,
    },
    /// The wavelet is open; deltas from this version on follow.
    Opened {
        name: WaveletName,
        version: u64,
    },
    /// The wavelet is open; this is its state, and later deltas follow.
    Snapshot(Snapshot),
    /// The wavelet isn't open.
    Unopened {
        name: WaveletName,
        reason: UnopenedReason,
    },
    /// The submission is in the history, as the delta at version `at`, after which the history is at `to`.
    Ack {
        name: WaveletName,
        client: u64,
        number: u64,
        at: u64,
        to: HashedVersion,
    },
    /// The submission isn't taken. The verdict is no acknowledgement; one that is is written as `Ack`.
    Refused {
        name: WaveletName,
        client: u64,
        number: u64,
        verdict: Verdict,
    },
    /// The submission waits for the wavelet's host.
    Queued {
        name: WaveletName,
        client: u64,
        number: u64,
    },
    /// A delta of an open wavelet.
    Update {
        name: WaveletName,
        delta: AppliedDelta,
    },
    /// The wavelet is open no more.
    Closed {
        name: WaveletName,
        reason: ClosedReason,
    },
    /// A message was refused.
    Bad(BadReason),
    /// For which domain the server speaks that dialled.
    Peer {
        domain: Domain,
    },
    /// How far the copy of a wavelet reaches.
    Have {
        name: WaveletName,
        at: HashedVersion,
    },
    /// A submission that was handed in at a copy.
    Relay {
        name: WaveletName,
        submission: Submission,
    },
    /// A delta of the host's history.
    Applied {
        name: WaveletName,
        delta: AppliedDelta,
    },
    /// What became of a relayed submission.
    Relayed {
        name: WaveletName,
        id: DeltaId,
        verdict: Verdict,
    },
    /// No participant of the domain is left.
    Dropped {
        name: WaveletName,
    },
}

impl Drop for Message {
    fn drop(self) {
        match self {
            Message::Hello { user: _user } => {}
            Message::OpenWavelet {
                name: _name,
                at: _at,
            } => {}
            Message::Submit {
                name: _name,
                client: _client,
                number: _number,
                at: _at,
                ops: _ops,
            } => {}
            Message::CloseWavelet { name: _name } => {}
            Message::Welcome { user: _user } => {}
            Message::Opened {
                name: _name,
                version: _version,
            } => {}
            Message::Snapshot(_whole) => {}
            Message::Unopened {
                name: _name,
                reason: _reason,
            } => {}
            Message::Ack {
                name: _name,
                client: _client,
                number: _number,
                at: _at,
                to: _to,
            } => {}
            Message::Refused {
                name: _name,
                client: _client,
                number: _number,
                verdict: _verdict,
            } => {}
            Message::Queued {
                name: _name,
                client: _client,
                number: _number,
            } => {}
            Message::Update {
                name: _name,
                delta: _delta,
            } => {}
            Message::Closed {
                name: _name,
                reason: _reason,
            } => {}
            Message::Bad(_whole) => {}
            Message::Peer { domain: _domain } => {}
            Message::Have {
                name: _name,
                at: _at,
            } => {}
            Message::Relay {
                name: _name,
                submission: _submission,
            } => {}
            Message::Applied {
                name: _name,
                delta: _delta,
            } => {}
            Message::Relayed {
                name: _name,
                id: _id,
                verdict: _verdict,
            } => {}
            Message::Dropped { name: _name } => {}
        }
    }
}

/// A message that a server takes of a client or of another server.
#[derive(Drop)]
pub enum ForServer {
    Hello {
        user: Text,
    },
    OpenWavelet {
        name: WaveletName,
        at: Option<HashedVersion>,
    },
    Submit {
        name: WaveletName,
        client: u64,
        number: u64,
        at: HashedVersion,
        ops: Ops,
    },
    CloseWavelet {
        name: WaveletName,
    },
    Peer {
        domain: Domain,
    },
    Have {
        name: WaveletName,
        at: HashedVersion,
    },
    Relay {
        name: WaveletName,
        submission: Submission,
    },
}

impl Message {
    /// The message by value, where a server takes its kind; else None.
    pub fn for_server(self) -> Option<ForServer>
        ensures { result ≡ for_server self }
    {
        match self {
            Message::Hello { user } => Some(ForServer::Hello { user }),
            Message::OpenWavelet { name, at } => Some(ForServer::OpenWavelet { name, at }),
            Message::Submit {
                name,
                client,
                number,
                at,
                ops,
            } => {
                Some(ForServer::Submit {
                    name,
                    client,
                    number,
                    at,
                    ops,
                })
            }
            Message::CloseWavelet { name } => Some(ForServer::CloseWavelet { name }),
            Message::Peer { domain } => Some(ForServer::Peer { domain }),
            Message::Have { name, at } => Some(ForServer::Have { name, at }),
            Message::Relay { name, submission } => Some(ForServer::Relay { name, submission }),
            Message::Welcome { user: _user } => None,
            Message::Opened {
                name: _name,
                version: _version,
            } => None,
            Message::Snapshot(_snapshot) => None,
            Message::Unopened {
                name: _name,
                reason: _reason,
            } => None,
            Message::Ack {
                name: _name,
                client: _client,
                number: _number,
                at: _at,
                to: _to,
            } => None,
            Message::Refused {
                name: _name,
                client: _client,
                number: _number,
                verdict: _verdict,
            } => None,
            Message::Queued {
                name: _name,
                client: _client,
                number: _number,
            } => None,
            Message::Update {
                name: _name,
                delta: _delta,
            } => None,
            Message::Closed {
                name: _name,
                reason: _reason,
            } => None,
            Message::Bad(_reason) => None,
            Message::Applied {
                name: _name,
                delta: _delta,
            } => None,
            Message::Relayed {
                name: _name,
                id: _id,
                verdict: _verdict,
            } => None,
            Message::Dropped { name: _name } => None,
        }
    }
}
