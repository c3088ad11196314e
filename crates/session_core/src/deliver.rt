// What a session is sent of the copies.
ghost use Rattle.std.specs.Prelude.{◌≡◌, ◌≤◌, ◌++◌, ◌∷◌, [], map, drop, slice_get, true, Some, IfOk, IfSome, OnOk, OnErr};
ghost use Rattle.std.specs.List.{list_any, All, AllByRecursion};
ghost use Rattle.std.specs.Option.{option_copied};
ghost use Rattle.delta_history.specs.Histories.{head_of};
ghost use Rattle.delta_history.specs.Places.{started_below};
ghost use Rattle.session_core.specs.Access.{Shown, shown_by, with_hosts, has_domain, is_of_domain, seen_from, MaySee};
ghost use Rattle.session_core.specs.Current.{IsWholeTo, are_sent};
ghost use Rattle.session_core.specs.News.{messages_of, deltas_of, ArePlaced, StayPlaced};
ghost use Rattle.wavelet_json.specs.declared.reason.ClosedReason.TheVariants.{Access};
ghost use Rattle.session_core.specs.Deliveries.{since, updates, applieds, outcome_sent, outcomes_sent, still_waiting, opening_sent, openings_sent, opening_kept, openings_kept, fated, host_news, host_told, telling_of, after_host, hosts_sent, hosts_told, delivered, after_delivery};

use crate::answers::{may_see, verdict_message};
use crate::lists::{Openings, Tellings, Waitings};
use crate::news::News;
use crate::session::{Opening, Party, Session, Waiting};
use delta_history::{Copies, History, started_below};
use doc_items::Memory;
use std::alloc::Global;
use wave_base::{Address, Domain, WaveletName};
use wave_messages::{ClosedReason, Message};
use wavelet_op::{AppliedDelta, Verdict};

// ---- deltas

// The place of the first delta of a history that was applied at a version or after it. At the head there is none.
#[tactic(auto, using(delta_history::proofs::Finding::rising, crate::proofs::Current::nothing_after))]
fn first_since(history: &History, version: u64) -> usize
    ensures value { result ≡ started_below version history.now.deltas }
    ensures whole { since (head_of history.now).at.version history.now ≡ [] }
{
    started_below(history.deltas(), version)
}

fn push_update<'a>(
    name: &'a WaveletName,
    place: usize,
    delta: &'a AppliedDelta,
    out: &mut Vec<News<'a>>,
) -> Result<(), Memory>
    ensures sent { OnOk result (messages_of out.new.items
        ≡ messages_of out.old.items ++ Message.Update name.entry.now delta.entry.now ∷ []) }
    ensures placed { OnOk result ((c : Shown) → slice_get (deltas_of (c.copy name.entry.now)) place ≡ Some delta.entry.now
        → StayPlaced c out.old.items out.new.items) }
{
    out.push(News::Update { name, place, delta })?;
    Ok(())
}

// The deltas of a wavelet from a place on, as updates.
fn push_updates<'a>(
    name: &'a WaveletName,
    history: &'a History,
    first: usize,
    out: &mut Vec<News<'a>>,
) -> Result<(), Memory>
    ensures sent { OnOk result (messages_of out.new.items
        ≡ messages_of out.old.items ++ updates name.entry.now (drop first history.entry.now.deltas)) }
    ensures placed { OnOk result ((c : Shown) → c.copy name.entry.now ≡ Some history.entry.now → StayPlaced c out.old.items out.new.items) }
{
    let deltas = history.deltas();
    for place in first..deltas.len() {
        push_update(name, place, &deltas[place], out)?;
    }
    Ok(())
}

fn push_applied<'a>(
    name: &'a WaveletName,
    place: usize,
    delta: &'a AppliedDelta,
    out: &mut Vec<News<'a>>,
) -> Result<(), Memory>
    ensures sent { OnOk result (messages_of out.new.items
        ≡ messages_of out.old.items ++ Message.Applied name.entry.now delta.entry.now ∷ []) }
    ensures placed { OnOk result ((c : Shown) → slice_get (deltas_of (c.copy name.entry.now)) place ≡ Some delta.entry.now
        → StayPlaced c out.old.items out.new.items) }
{
    out.push(News::Applied { name, place, delta })?;
    Ok(())
}

// The deltas of a wavelet from a place on, as a peer is sent them.
fn push_applieds<'a>(
    name: &'a WaveletName,
    history: &'a History,
    first: usize,
    out: &mut Vec<News<'a>>,
) -> Result<(), Memory>
    ensures sent { OnOk result (messages_of out.new.items
        ≡ messages_of out.old.items ++ applieds name.entry.now (drop first history.entry.now.deltas)) }
    ensures placed { OnOk result ((c : Shown) → c.copy name.entry.now ≡ Some history.entry.now → StayPlaced c out.old.items out.new.items) }
{
    let deltas = history.deltas();
    for place in first..deltas.len() {
        push_applied(name, place, &deltas[place], out)?;
    }
    Ok(())
}

// ---- outcomes

fn push_outcome<'a, C: Copies>(
    alloc: Global,
    copies: &C,
    waiting: &Waiting,
    out: &mut Vec<News<'a>>,
) -> Result<(), Memory>
    ensures sent { OnOk result (messages_of out.new.items
        ≡ messages_of out.old.items ++ outcome_sent waiting.now (C.outcomes copies.now waiting.now.name waiting.now.id)) }
    ensures placed { OnOk result (StayPlaced (shown_by C.Copies copies.now) out.old.items out.new.items) }
{
    match copies.outcome(&waiting.name, &waiting.id) {
        Some(verdict) => {
            let message = verdict_message(alloc, &waiting.name, &waiting.id, verdict)?;
            out.push(News::Message(message))?;
            Ok(())
        }
        None => Ok(()),
    }
}

fn push_outcomes<'a, C: Copies>(
    alloc: Global,
    copies: &C,
    list: &[Waiting],
    out: &mut Vec<News<'a>>,
) -> Result<(), Memory>
    ensures sent { OnOk result (messages_of out.new.items
        ≡ messages_of out.old.items ++ outcomes_sent (shown_by C.Copies copies.now) list.now) }
    ensures placed { OnOk result (StayPlaced (shown_by C.Copies copies.now) out.old.items out.new.items) }
{
    for waiting in list {
        push_outcome(alloc, copies, waiting, out)?;
    }
    Ok(())
}

// The outcome of a submission.
fn known<C: Copies>(copies: &C, waiting: &Waiting) -> Option<Verdict>
    ensures { result ≡ C.outcomes copies.now waiting.now.name waiting.now.id }
{
    copies.outcome(&waiting.name, &waiting.id)
}

impl Waitings {
    // Those that have no outcome yet wait on.
    fn settle<C: Copies>(&mut self, copies: &C)
        ensures { self.new ≡ still_waiting (shown_by C.Copies copies.now) self.old }
    {
        let mut place = 0usize;
        while place < self.len() {
            match known(copies, &self.as_slice()[place]) {
                Some(_) => self.remove(place),
                None => place += 1,
            }
        }
    }
}

// ---- open wavelets

fn push_closed<'a>(alloc: Global, name: &WaveletName, out: &mut Vec<News<'a>>) -> Result<(), Memory>
    ensures sent { OnOk result (messages_of out.new.items ≡ messages_of out.old.items ++ Message.Closed name.now Access ∷ []) }
    ensures placed { OnOk result ((c : Shown) → StayPlaced c out.old.items out.new.items) }
{
    let name = name.copy(alloc)?;
    let reason = ClosedReason::Access;
    out.push(News::Message(Message::Closed { name, reason }))?;
    Ok(())
}

// What there is to say of an open wavelet.
fn push_opening<'a, C: Copies>(
    alloc: Global,
    copies: &'a C,
    user: &Address,
    opening: &Opening,
    out: &mut Vec<News<'a>>,
) -> Result<(), Memory>
    ensures sent { OnOk result (messages_of out.new.items
        ≡ messages_of out.old.items
        ++ opening_sent (shown_by C.Copies copies.entry.now) user.now opening.now (C.copies copies.entry.now opening.now.name)) }
    ensures placed { OnOk result (StayPlaced (shown_by C.Copies copies.entry.now) out.old.items out.new.items) }
    ensures whole { OnOk result (IsWholeTo (shown_by C.Copies copies.entry.now) user.now opening.now) }
{
    let Some(history) = copies.copy_of(&opening.name) else {
        return Ok(());
    };
    if may_see(copies, &opening.name, history, user) {
        push_updates(
            history.name(),
            history,
            first_since(history, opening.sent),
            out,
        )
    } else {
        push_closed(alloc, &opening.name, out)
    }
}

fn push_openings<'a, C: Copies>(
    alloc: Global,
    copies: &'a C,
    user: &Address,
    list: &[Opening],
    out: &mut Vec<News<'a>>,
) -> Result<(), Memory>
    ensures sent { OnOk result (messages_of out.new.items
        ≡ messages_of out.old.items ++ openings_sent (shown_by C.Copies copies.entry.now) user.now list.now) }
    ensures placed { OnOk result (StayPlaced (shown_by C.Copies copies.entry.now) out.old.items out.new.items) }
    ensures whole { OnOk result (AllByRecursion (IsWholeTo (shown_by C.Copies copies.entry.now) user.now) list.now) }
{
    for opening in list {
        push_opening(alloc, copies, user, opening, out)?;
    }
    Ok(())
}

// What becomes of an open wavelet.
#[derive(Clone, Copy)]
pub(crate) enum Fate {
    /// It stays as it is.
    Stays,
    /// Its deltas were sent up to this version.
    Sent(u64),
    /// It is open no more.
    Ends,
}

fn fate_of<C: Copies>(copies: &C, user: &Address, opening: &Opening) -> Fate
    ensures { fated opening.now result
        ≡ opening_kept (shown_by C.Copies copies.now) user.now opening.now (C.copies copies.now opening.now.name) }
{
    let Some(history) = copies.copy_of(&opening.name) else {
        return Fate::Stays;
    };
    if may_see(copies, &opening.name, history, user) {
        Fate::Sent(history.head().version)
    } else {
        Fate::Ends
    }
}

impl Openings {
    // Those that end are taken out, and the others sent up to the head.
    fn settle<C: Copies>(&mut self, copies: &C, user: &Address)
        ensures { self.new ≡ openings_kept (shown_by C.Copies copies.now) user.now self.old }
    {
        let mut place = 0usize;
        while place < self.as_slice().len() {
            match fate_of(copies, user, &self.as_slice()[place]) {
                Fate::Stays => place += 1,
                Fate::Sent(version) => {
                    self.set_sent(place, version);
                    place += 1;
                }
                Fate::Ends => self.remove(place),
            }
        }
    }
}

// ---- hosted wavelets, for a peer

fn is_of_domain(address: &Address, domain: &Domain) -> bool
    ensures { result ≡ is_of_domain domain.now address.now }
{
    address.domain() == domain.text()
}

// Whether one of the addresses is of the domain.
fn any_of(list: &[&Address], domain: &Domain) -> bool
    ensures { result ≡ list_any (is_of_domain domain.now) (map (λ a. a.now) list.now) }
{
    for address in list {
        if is_of_domain(address, domain) {
            return true;
        }
    }
    false
}

// Whether an address of the domain is a participant.
fn has_domain(alloc: Global, history: &History, domain: &Domain) -> Result<bool, Memory>
    ensures { IfOk result (λ b. b ≡ has_domain history.now domain.now) }
{
    let list = history.state().participants(alloc)?;
    Ok(any_of(list.as_slice(), domain))
}

fn seen_from<'a, C: Copies>(
    alloc: Global,
    copies: &'a C,
    name: &WaveletName,
    domain: &Domain,
) -> Result<Option<&'a History>, Memory>
    ensures value { IfOk result (λ o. option_copied o ≡ seen_from (shown_by C.Copies copies.entry.now) name.now domain.now) }
    ensures there { IfOk result (λ o. IfSome (option_copied o) (λ h. C.copies copies.entry.now name.now ≡ Some h)) }
{
    let Some(history) = copies.copy_of(name) else {
        return Ok(None);
    };
    if has_domain(alloc, history, domain)? && !copies.dropped(name) {
        Ok(Some(history))
    } else {
        Ok(None)
    }
}

// What there is to say of a hosted wavelet, and what the peer was told then.
fn push_host<'a>(
    alloc: Global,
    name: &'a WaveletName,
    seen: Option<&'a History>,
    tellings: &mut Tellings,
    out: &mut Vec<News<'a>>,
) -> Result<(), Memory>
    ensures sent { OnOk result (messages_of out.new.items
        ≡ messages_of out.old.items ++ host_news name.entry.now (telling_of name.entry.now tellings.old) (option_copied seen.entry)) }
    ensures placed { OnOk result ((c : Shown) → IfSome (option_copied seen.entry) (λ h. c.copy name.entry.now ≡ Some h)
        → StayPlaced c out.old.items out.new.items) }
    ensures told { OnOk result (tellings.new
        ≡ host_told name.entry.now tellings.old (telling_of name.entry.now tellings.old) (option_copied seen.entry)) }
{
    let (sent, told) = tellings.get(name);
    match seen {
        Some(history) => {
            push_applieds(name, history, first_since(history, sent), out)?;
            tellings.set(name.copy(alloc)?, history.head().version, true)
        }
        None => {
            if !told {
                return Ok(());
            }
            out.push(News::Message(Message::Dropped {
                name: name.copy(alloc)?,
            }))?;
            tellings.set(name.copy(alloc)?, sent, false)
        }
    }
}

fn hosted_names<'a, C: Copies>(alloc: Global, copies: &'a C) -> Result<Vec<&'a WaveletName>, Memory>
    ensures { IfOk result (λ names. map (λ n. n.now) names.items ≡ C.hosts copies.entry.now) }
{
    let mut names = Vec::new(alloc);
    while let Some(name) = copies.hosted(names.len() as u64) {
        names.push(name)?;
    }
    Ok(names)
}

fn push_hosted<'a, C: Copies>(
    alloc: Global,
    copies: &'a C,
    domain: &Domain,
    name: &'a WaveletName,
    tellings: &mut Tellings,
    out: &mut Vec<News<'a>>,
) -> Result<(), Memory>
    ensures sent { OnOk result (messages_of out.new.items
        ≡ messages_of out.old.items
        ++ host_news name.entry.now (telling_of name.entry.now tellings.old)
        (seen_from (shown_by C.Copies copies.entry.now) name.entry.now domain.now)) }
    ensures placed { OnOk result (StayPlaced (shown_by C.Copies copies.entry.now) out.old.items out.new.items) }
    ensures told { OnOk result (tellings.new
        ≡ after_host (shown_by C.Copies copies.entry.now) domain.now tellings.old name.entry.now) }
{
    let seen = seen_from(alloc, copies, name, domain)?;
    push_host(alloc, name, seen, tellings, out)
}

// What there is to say of some of the hosted wavelets, and what the peer was told then.
fn push_each<'a, C: Copies>(
    alloc: Global,
    copies: &'a C,
    domain: &Domain,
    names: &[&'a WaveletName],
    tellings: &mut Tellings,
    out: &mut Vec<News<'a>>,
) -> Result<(), Memory>
    ensures sent { OnOk result (messages_of out.new.items
        ≡ messages_of out.old.items
        ++ hosts_sent (shown_by C.Copies copies.entry.now) domain.now tellings.old (map (λ n. n.now) names.now)) }
    ensures placed { OnOk result (StayPlaced (shown_by C.Copies copies.entry.now) out.old.items out.new.items) }
    ensures told { OnOk result (tellings.new
        ≡ hosts_told (shown_by C.Copies copies.entry.now) domain.now tellings.old (map (λ n. n.now) names.now)) }
{
    for name in names {
        push_hosted(alloc, copies, domain, name, tellings, out)?;
    }
    Ok(())
}

// What there is to say of some of the hosted wavelets.
fn push_named<'a, C: Copies>(
    alloc: Global,
    copies: &'a C,
    domain: &Domain,
    names: &[&'a WaveletName],
    tellings: &mut Tellings,
) -> Result<Vec<News<'a>>, Memory>
    ensures sent { IfOk result (λ out. messages_of out.items
        ≡ hosts_sent (shown_by C.Copies copies.entry.now) domain.now tellings.old (map (λ n. n.now) names.now)) }
    ensures placed { IfOk result (λ out. ArePlaced (shown_by C.Copies copies.entry.now) out.items) }
    ensures told { OnOk result (tellings.new
        ≡ hosts_told (shown_by C.Copies copies.entry.now) domain.now tellings.old (map (λ n. n.now) names.now)) }
{
    let mut out = Vec::new(alloc);
    push_each(alloc, copies, domain, names, tellings, &mut out)?;
    Ok(out)
}

fn push_hosts<'a, C: Copies>(
    alloc: Global,
    copies: &'a C,
    domain: &Domain,
    tellings: &mut Tellings,
) -> Result<Vec<News<'a>>, Memory>
    ensures sent { IfOk result (λ out. messages_of out.items
        ≡ hosts_sent (shown_by C.Copies copies.entry.now) domain.now tellings.old (C.hosts copies.entry.now)) }
    ensures placed { IfOk result (λ out. ArePlaced (shown_by C.Copies copies.entry.now) out.items) }
    ensures told { OnOk result (tellings.new
        ≡ hosts_told (shown_by C.Copies copies.entry.now) domain.now tellings.old (C.hosts copies.entry.now)) }
{
    let names = hosted_names(alloc, copies)?;
    push_named(alloc, copies, domain, names.as_slice(), tellings)
}

// ---- all

fn user_news<'a, C: Copies>(
    alloc: Global,
    copies: &'a C,
    user: &Address,
    waiting: &[Waiting],
    openings: &[Opening],
) -> Result<Vec<News<'a>>, Memory>
    ensures sent { IfOk result (λ out. messages_of out.items
        ≡ outcomes_sent (shown_by C.Copies copies.entry.now) waiting.now
        ++ openings_sent (shown_by C.Copies copies.entry.now) user.now openings.now) }
    ensures placed { IfOk result (λ out. ArePlaced (shown_by C.Copies copies.entry.now) out.items) }
    ensures whole { OnOk result (AllByRecursion (IsWholeTo (shown_by C.Copies copies.entry.now) user.now) openings.now) }
{
    let mut out = Vec::new(alloc);
    push_outcomes(alloc, copies, waiting, &mut out)?;
    push_openings(alloc, copies, user, openings, &mut out)?;
    Ok(out)
}

impl Session {
    /// What the copies give this session at this moment, and have not given it before. A user is sent first the outcome of each
    /// submission that waited and has one now, and then of each open wavelet of which there is a copy, in order of opening, its deltas
    /// that weren't sent, or, where the user is no participant at its head or the copy is dropped, that it is closed. A peer is sent, for
    /// each wavelet hosted here that has a delta, in byte order of names, its deltas that weren't sent where an address of its domain is
    /// a participant at the head, else once that it is dropped. Deltas are lent, each with its place in its history. Each wavelet that a
    /// user has open is sent up to its head then. After want of memory the session is as it was.
    #[tactic(auto, using(crate::proofs::Access::all_may_see))]
    pub fn deliver<'a, C: Copies>(
        &mut self,
        alloc: Global,
        copies: &'a C,
    ) -> Result<Vec<News<'a>>, Memory>
        ensures sent { IfOk result (λ out. messages_of out.items ≡ delivered (shown_by C.Copies copies.entry.now) self.old) }
        ensures after { OnOk result (self.new ≡ after_delivery (shown_by C.Copies copies.entry.now) self.old) }
        ensures access { IfOk result (λ out. All (MaySee (shown_by C.Copies copies.entry.now) self.old.party)
            (messages_of out.items)) }
        ensures placed { IfOk result (λ out. ArePlaced (shown_by C.Copies copies.entry.now) out.items) }
        ensures current { OnOk result (are_sent (shown_by C.Copies copies.entry.now) self.new ≡ true) }
        ensures same { OnErr result (self.new ≡ self.old) }
    {
        match &self.party {
            Party::Nobody => Ok(Vec::new(alloc)),
            Party::User(user) => {
                let out = user_news(
                    alloc,
                    copies,
                    user,
                    self.waiting.as_slice(),
                    self.openings.as_slice(),
                )?;
                self.openings.settle(copies, user);
                self.waiting.settle(copies);
                Ok(out)
            }
            Party::Domain(domain) => {
                let mut tellings = self.tellings.copy(alloc)?;
                let out = push_hosts(alloc, copies, domain, &mut tellings)?;
                self.tellings = tellings;
                Ok(out)
            }
        }
    }

    /// What the copies give a peer's session of these hosted names, looked at in their order and no others, as `deliver` gives it of
    /// all; what they give any other session. After want of memory the session is as it was.
    pub fn deliver_named<'a, C: Copies>(
        &mut self,
        alloc: Global,
        copies: &'a C,
        names: &[&'a WaveletName],
    ) -> Result<Vec<News<'a>>, Memory>
        ensures sent { IfOk result (λ out. messages_of out.items
            ≡ delivered (with_hosts (shown_by C.Copies copies.entry.now) (map (λ n. n.now) names.now)) self.old) }
        ensures after { OnOk result (self.new
            ≡ after_delivery (with_hosts (shown_by C.Copies copies.entry.now) (map (λ n. n.now) names.now)) self.old) }
        ensures placed { IfOk result (λ out. ArePlaced (shown_by C.Copies copies.entry.now) out.items) }
        ensures current { OnOk result (are_sent (shown_by C.Copies copies.entry.now) self.new ≡ true) }
        ensures same { OnErr result (self.new ≡ self.old) }
    {
        let Party::Domain(domain) = &self.party else {
            return self.deliver(alloc, copies);
        };
        let mut tellings = self.tellings.copy(alloc)?;
        let out = push_named(alloc, copies, domain, names, &mut tellings)?;
        self.tellings = tellings;
        Ok(out)
    }
}
