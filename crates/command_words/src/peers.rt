// The servers of other domains, as the value of an option names them.
ghost use Rattle.std.specs.Prelude.{◌≡◌, ◌==◌, ◌++◌, ◌∷◌, [], map, false, Some, None, OnOk, IfOk, IfErr, option_map, option_and_then};
ghost use Rattle.std.specs.List.{list_any, slice_split};
ghost use Rattle.std.specs.Option.{MatchOption};
ghost use Rattle.wave_base.specs.Grammar.{IsCut};
ghost use Rattle.command_words.specs.Peers.{equals, comma, pair, peer_of, all_of, is_named, are_apart, checked_apart, peers_of, peers_by};
ghost use Rattle.command_words.specs.Values.{is_value};

use crate::command::WordsFault;
use crate::name::Name;
use crate::values::is_value;
use doc_items::{Memory, Text};
use std::alloc::Global;
use std::marker::Model;
use wave_base::Domain;

/// The servers of other domains: for each its domain and the address at which it is dialled, in the order of the words.
#[derive(Debug, Drop)]
pub struct PeerList {
    list: Vec<(Domain, Text)>,
}

impl Model for PeerList {
    ghost use Rattle.std.specs.Prelude.{List};
    ghost use Rattle.command_words.specs.Peers.{Peer};

    ghost Value = { List Peer };

    ghost view = { λ p. p.list.items };
}

impl PeerList {
    /// The domains and addresses, in order.
    pub fn as_slice(&self) -> &[(Domain, Text)]
        ensures { result.now ≡ self.now }
    {
        self.list.as_slice()
    }
}

// What stands before and after the first `=`; None where there is none.
fn cut(text: &str) -> Option<(&str, &str)>
    ensures { MatchOption result (list_any (λ b. b == equals) text.now ≡ false) (λ p. IsCut equals text.now p.0.now p.1.now) }
{
    text.split_once('=')
}

// A domain and an address.
fn pair(alloc: Global, domain: &str, address: &str) -> Result<(Domain, Text), WordsFault>
    ensures ok { IfOk result (λ p. pair domain.now address.now ≡ Some p) }
    ensures refused { IfErr result (λ e. e ≡ WordsFault.Usage → pair domain.now address.now ≡ None) }
{
    if !is_value(address) {
        return Err(WordsFault::Usage);
    }
    match Domain::parsed(alloc, domain) {
        Ok(domain) => match Text::from_str(alloc, address) {
            Ok(address) => Ok((domain, address)),
            Err(_) => Err(WordsFault::Memory),
        },
        Err(fault) => Err(fault),
    }
}

// The peer that a part names.
fn peer_of(alloc: Global, part: &str) -> Result<(Domain, Text), WordsFault>
    ensures ok { IfOk result (λ p. peer_of part.now ≡ Some p) }
    ensures refused { IfErr result (λ e. e ≡ WordsFault.Usage → peer_of part.now ≡ None) }
{
    match cut(part) {
        Some((domain, address)) => pair(alloc, domain, address),
        None => Err(WordsFault::Usage),
    }
}

// The parts between commas.
fn parts_of(alloc: Global, text: &str) -> Result<Vec<&str>, Memory>
    ensures { IfOk result (λ v. map (λ s. s.now) v.items ≡ slice_split (λ b. b == comma) text.now) }
{
    text.split(',').collect(alloc)
}

// The peer of each part.
fn all_of(alloc: Global, parts: &[&str]) -> Result<Vec<(Domain, Text)>, WordsFault>
    ensures ok { IfOk result (λ v. all_of (map (λ s. s.now) parts.now) ≡ Some v.items) }
    ensures refused { IfErr result (λ e. e ≡ WordsFault.Usage → all_of (map (λ s. s.now) parts.now) ≡ None) }
{
    let mut list = Vec::new(alloc);
    for part in parts {
        match peer_of(alloc, part) {
            Ok(peer) => push(&mut list, peer)?,
            Err(fault) => return Err(fault),
        }
    }
    Ok(list)
}

// Adds a peer.
fn push(list: &mut Vec<(Domain, Text)>, peer: (Domain, Text)) -> Result<(), WordsFault>
    ensures added { OnOk result (list.new.items ≡ list.old.items ++ peer ∷ []) }
    ensures want { IfErr result (λ e. e ≡ WordsFault.Memory) }
{
    match list.push(peer) {
        Ok(()) => Ok(()),
        Err(_) => Err(WordsFault::Memory),
    }
}

// Whether one of them has this domain.
fn is_named(domain: &Domain, peers: &[(Domain, Text)]) -> bool
    ensures { result ≡ is_named domain.now peers.now }
{
    let Some((first, rest)) = peers.split_first() else {
        return false;
    };
    first.0 == *domain || is_named(domain, rest)
}

// Whether no two have one domain, and none has the own one.
fn are_apart(own: &Domain, peers: &[(Domain, Text)]) -> bool
    ensures { result ≡ are_apart own.now peers.now }
{
    let Some((first, rest)) = peers.split_first() else {
        return true;
    };
    first.0 != *own && !is_named(&first.0, rest) && are_apart(own, rest)
}

// The peers of a value.
fn peers_of(alloc: Global, own: &Domain, value: &str) -> Result<PeerList, WordsFault>
    ensures ok { IfOk result (λ ps. peers_of own.now value.now ≡ Some ps) }
    ensures refused { IfErr result (λ e. e ≡ WordsFault.Usage → peers_of own.now value.now ≡ None) }
{
    if !is_value(value) {
        return Err(WordsFault::Usage);
    }
    match parts_of(alloc, value) {
        Ok(parts) => apart_of(alloc, own, parts.as_slice()),
        Err(_) => Err(WordsFault::Memory),
    }
}

// The peer of each part, where they are apart.
fn apart_of(alloc: Global, own: &Domain, parts: &[&str]) -> Result<PeerList, WordsFault>
    ensures ok { IfOk result (λ ps. option_and_then (checked_apart own.now) (all_of (map (λ s. s.now) parts.now)) ≡ Some ps) }
    ensures refused { IfErr result (λ e. e ≡ WordsFault.Usage
        → option_and_then (checked_apart own.now) (all_of (map (λ s. s.now) parts.now)) ≡ None) }
{
    match all_of(alloc, parts) {
        Ok(list) => {
            if are_apart(own, list.as_slice()) {
                Ok(PeerList { list })
            } else {
                Err(WordsFault::Usage)
            }
        }
        Err(fault) => Err(fault),
    }
}

/// The peers of a server of the domain `own`, by the value of an option that may be there. Refusals: `Usage` where a part of it isn't a
/// domain, `=` and an address, where two parts have one domain or one has the own, and `Memory`.
pub(crate) fn peers_by(
    alloc: Global,
    own: &Domain,
    value: Option<&str>,
) -> Result<PeerList, WordsFault>
    ensures ok { IfOk result (λ ps. peers_by own.now (option_map (λ s. s.now) value.entry) ≡ Some ps) }
    ensures refused { IfErr result (λ e. e ≡ WordsFault.Usage → peers_by own.now (option_map (λ s. s.now) value.entry) ≡ None) }
{
    match value {
        Some(value) => peers_of(alloc, own, value),
        None => Ok(PeerList {
            list: Vec::new(alloc),
        }),
    }
}
