// What is answered to what a message asked for.
ghost use Rattle.std.specs.Prelude.{◌≡◌, ◌↔◌, ◌&&◌, not, true, cond, nat_le, length, Some, None, IfOk, OnOk, OnErr};
ghost use Rattle.std.specs.Option.{option_copied};
ghost use Rattle.delta_history.specs.Histories.{head_of, hash_found};
ghost use Rattle.wavelet_state.specs.Snapshots.{is_snapshot};
ghost use Rattle.session_core.specs.Rules.{has_user, has_peer, max_peer};
ghost use Rattle.session_core.specs.Access.{shown_by, is_member, seen_by, MaySee};
ghost use Rattle.session_core.specs.Answers.{verdict_message, told_verdict, is_waiting, with_waiting, answered, sent_at, with_sent, snapshot_of, is_sendable, attached_head, attached_hash, attached_seen, seen_for, attached, HasLongHead, told_at, had_hash, had_copy, had};
ghost use Rattle.session_core.specs.News.{reply_message};
ghost use Rattle.wavelet_json.specs.declared.reason.UnopenedReason.TheVariants.{TooLarge};
ghost use Rattle.session_core.specs.declared.request.SubmitAnswer.TheVariants as answer;

use crate::lists::Waitings;
use crate::news::Reply;
use crate::request::SubmitAnswer;
use crate::session::{Party, Session, Waiting};
use delta_history::{Copies, History};
use doc_items::Memory;
use std::alloc::Global;
use wave_base::{Address, DeltaId, HashedVersion, WaveletName};
use wave_messages::{
    BadReason, MAX_PEER, Message, UnopenedReason, WrittenSnapshot, write_snapshot,
};
use wavelet_op::Verdict;
use wavelet_state::Snapshot;

/// How a user is told a verdict on a submission. The error is want of memory, here and below.
pub(crate) fn verdict_message(
    alloc: Global,
    name: &WaveletName,
    id: &DeltaId,
    verdict: Verdict,
) -> Result<Message, Memory>
    ensures { IfOk result (λ m. m ≡ verdict_message name.now id.now verdict) }
{
    let name = name.copy(alloc)?;
    let client = id.client;
    let number = id.number;
    match verdict {
        Verdict::Ack { at, to } => Ok(Message::Ack {
            name,
            client,
            number,
            at,
            to,
        }),
        Verdict::NotParticipant => Ok(Message::Refused {
            name,
            client,
            number,
            verdict,
        }),
        Verdict::ReadOnly => Ok(Message::Refused {
            name,
            client,
            number,
            verdict,
        }),
        Verdict::UnknownVersion { .. } => Ok(Message::Refused {
            name,
            client,
            number,
            verdict,
        }),
        Verdict::WrongHash { .. } => Ok(Message::Refused {
            name,
            client,
            number,
            verdict,
        }),
        Verdict::Invalid { .. } => Ok(Message::Refused {
            name,
            client,
            number,
            verdict,
        }),
        Verdict::Full { .. } => Ok(Message::Refused {
            name,
            client,
            number,
            verdict,
        }),
    }
}

fn relayed_message(
    alloc: Global,
    name: &WaveletName,
    id: &DeltaId,
    verdict: Verdict,
) -> Result<Message, Memory>
    ensures { IfOk result (λ m. m ≡ Message.Relayed name.now id.now verdict) }
{
    let name = name.copy(alloc)?;
    let id = id.copy(alloc)?;
    Ok(Message::Relayed { name, id, verdict })
}

// How the party of a session is told a verdict on a submission.
fn told_verdict(
    alloc: Global,
    party: &Party,
    name: &WaveletName,
    id: &DeltaId,
    verdict: Verdict,
) -> Result<Message, Memory>
    ensures { IfOk result (λ m. m ≡ told_verdict party.now name.now id.now verdict) }
{
    match party {
        Party::Nobody => verdict_message(alloc, name, id, verdict),
        Party::User(_) => verdict_message(alloc, name, id, verdict),
        Party::Domain(_) => relayed_message(alloc, name, id, verdict),
    }
}

fn is_waiting(list: &[Waiting], name: &WaveletName, id: &DeltaId) -> bool
    ensures { result ≡ is_waiting list.now name.now id.now }
{
    for waiting in list {
        if waiting.name == *name && waiting.id == *id {
            return true;
        }
    }
    false
}

fn waiting(alloc: Global, name: &WaveletName, id: &DeltaId) -> Result<Waiting, Memory>
    ensures { IfOk result (λ w. w ≡ record { name = name.now; id = id.now }) }
{
    let name = name.copy(alloc)?;
    let id = id.copy(alloc)?;
    Ok(Waiting { name, id })
}

fn queued(alloc: Global, name: &WaveletName, id: &DeltaId) -> Result<Message, Memory>
    ensures { IfOk result (λ m. m ≡ Message.Queued name.now id.now.client id.now.number) }
{
    let name = name.copy(alloc)?;
    Ok(Message::Queued {
        name,
        client: id.client,
        number: id.number,
    })
}

impl Waitings {
    // The submission waits from now on, if it doesn't yet. After want of memory all is as it was.
    fn add(&mut self, alloc: Global, name: &WaveletName, id: &DeltaId) -> Result<(), Memory>
        ensures ok { OnOk result (self.new ≡ with_waiting self.old name.now id.now) }
        ensures same { OnErr result (self.new ≡ self.old) }
    {
        if is_waiting(self.as_slice(), name, id) {
            return Ok(());
        }
        self.push(waiting(alloc, name, id)?)
    }
}

impl Session {
    // The submission waits from now on, if it doesn't yet.
    fn wait(&mut self, alloc: Global, name: &WaveletName, id: &DeltaId) -> Result<Message, Memory>
        ensures ok { IfOk result (λ m. (self.new, m) ≡ answered self.old name.now id.now answer.Queued) }
        ensures same { OnErr result (self.new ≡ self.old) }
    {
        let message = queued(alloc, name, id)?;
        self.waiting.add(alloc, name, id)?;
        Ok(message)
    }

    /// The reply to a submission of this id, by what became of it. A user is told a verdict as `ack` or `refused`, a peer as `relayed`.
    /// One that waits is kept, once, until `deliver` gives its outcome. After want of memory the session is as it was.
    pub fn answer_submit(
        &mut self,
        alloc: Global,
        name: &WaveletName,
        id: &DeltaId,
        answer: &SubmitAnswer,
    ) -> Result<Message, Memory>
        ensures ok { IfOk result (λ m. (self.new, m) ≡ answered self.old name.now id.now answer.now) }
        ensures same { OnErr result (self.new ≡ self.old) }
    {
        match answer {
            SubmitAnswer::Verdict(verdict) => told_verdict(alloc, &self.party, name, id, *verdict),
            SubmitAnswer::Queued => self.wait(alloc, name, id),
            SubmitAnswer::NoHost => Ok(Message::Bad(BadReason::NoHost)),
            SubmitAnswer::Store => Ok(Message::Bad(BadReason::Store)),
        }
    }
}

// ---- open wavelets

// Whether the copy of a wavelet may be shown to a user.
pub(crate) fn may_see<C: Copies>(
    copies: &C,
    name: &WaveletName,
    history: &History,
    user: &Address,
) -> bool
    ensures { result ≡ is_member history.now user.now && not (C.drops copies.now name.now) }
{
    history.state().has(user) && !copies.dropped(name)
}

// The history that may be shown to a user.
fn seen_by<'a, C: Copies>(copies: &'a C, name: &WaveletName, user: &Address) -> Option<&'a History>
    ensures { option_copied result ≡ seen_by (shown_by C.Copies copies.entry.now) name.now user.now }
{
    let history = copies.copy_of(name)?;
    if may_see(copies, name, history, user) {
        Some(history)
    } else {
        None
    }
}

fn snapshot_of(
    alloc: Global,
    name: &WaveletName,
    history: &History,
) -> Result<Option<Snapshot>, Memory>
    ensures { IfOk result (λ s. s
        ≡ cond (is_snapshot (head_of history.now).count (head_of history.now).state) (Some (snapshot_of name.now history.now)) None) }
{
    let name = name.copy(alloc)?;
    let state = history.state().copy(alloc)?;
    Ok(Snapshot::new(name, history.head(), history.inserted(), state))
}

fn may_be_sent(bytes: &[u8]) -> bool
    ensures { result ≡ nat_le (length bytes.now) max_peer }
{
    bytes.len() as u64 <= MAX_PEER
}

// The snapshot, written, where it may be sent.
#[tactic(auto, unfolding(crate::specs::Answers::written_len))]
fn sendable(
    alloc: Global,
    name: &WaveletName,
    history: &History,
) -> Result<Option<WrittenSnapshot>, Memory>
    ensures { IfOk result (λ s. s ≡ cond (is_sendable (snapshot_of name.now history.now)) (Some (snapshot_of name.now history.now)) None) }
{
    let Some(snapshot) = snapshot_of(alloc, name, history)? else {
        return Ok(None);
    };
    let snapshot = write_snapshot(alloc, snapshot)?;
    if may_be_sent(snapshot.text()) {
        Ok(Some(snapshot))
    } else {
        Ok(None)
    }
}

fn unopened(alloc: Global, name: &WaveletName, reason: UnopenedReason) -> Result<Message, Memory>
    ensures { IfOk result (λ m. m ≡ Message.Unopened name.now reason) }
{
    let name = name.copy(alloc)?;
    Ok(Message::Unopened { name, reason })
}

impl Session {
    // The wavelet is open, and its deltas are sent up to this version.
    fn set_sent(&mut self, name: WaveletName, sent: u64) -> Result<(), Memory>
        ensures ok { OnOk result (self.new ≡ with_sent self.old name sent) }
        ensures same { OnErr result (self.new ≡ self.old) }
    {
        self.openings.set(name, sent)
    }

    fn attach_head(
        &mut self,
        alloc: Global,
        name: &WaveletName,
        history: &History,
    ) -> Result<Reply, Memory>
        ensures ok { IfOk result (λ r. (self.new, reply_message r) ≡ attached_head self.old name.now (snapshot_of name.now history.now)) }
        ensures same { OnErr result (self.new ≡ self.old) }
    {
        match sendable(alloc, name, history)? {
            Some(snapshot) => {
                self.set_sent(name.copy(alloc)?, history.head().version)?;
                Ok(Reply::Snapshot(snapshot))
            }
            None => Ok(Reply::Message(unopened(alloc, name, UnopenedReason::TooLarge)?)),
        }
    }

    fn attach_hash(
        &mut self,
        alloc: Global,
        name: &WaveletName,
        from: &HashedVersion,
        history: &History,
    ) -> Result<Message, Memory>
        ensures ok { IfOk result (λ m. (self.new, m)
            ≡ attached_hash self.old name.now from.now (head_of history.now).at (hash_found history.now from.now.version)) }
        ensures same { OnErr result (self.new ≡ self.old) }
    {
        let Some(hash) = history.hash_at(from.version) else {
            let head = history.head();
            return unopened(alloc, name, UnopenedReason::UnknownVersion { head });
        };
        if hash != from.hash {
            return unopened(alloc, name, UnopenedReason::WrongHash { host: hash });
        }
        let version = from.version;
        let name = name.copy(alloc)?;
        self.set_sent(name.copy(alloc)?, version)?;
        Ok(Message::Opened { name, version })
    }

    // What a history that may be shown is answered with. It is legal, so its state makes a snapshot.
    #[tactic(auto, using(delta_history::proofs::Items::head_fits))]
    fn attach_seen(
        &mut self,
        alloc: Global,
        name: &WaveletName,
        from: Option<&HashedVersion>,
        history: &History,
    ) -> Result<Reply, Memory>
        ensures ok { IfOk result (λ r. (self.new, reply_message r)
            ≡ attached_seen self.old name.now (option_copied from.entry) (Some history.now)) }
        ensures fits { is_snapshot (head_of history.now).count (head_of history.now).state ≡ true }
        ensures same { OnErr result (self.new ≡ self.old) }
    {
        // For the proof: the history is legal.
        let _deltas = history.deltas();
        match from {
            Some(from) => Ok(Reply::Message(self.attach_hash(alloc, name, from, history)?)),
            None => self.attach_head(alloc, name, history),
        }
    }

    // The history that may be shown to whoever it is.
    fn seen_history<'a, C: Copies>(&self, copies: &'a C, name: &WaveletName) -> Option<&'a History>
        ensures { option_copied result ≡ seen_for (shown_by C.Copies copies.entry.now) self.now.party name.now }
    {
        match &self.party {
            Party::Nobody => None,
            Party::User(user) => seen_by(copies, name, user),
            Party::Domain(_) => None,
        }
    }

    /// The reply to an `open`, with a version or without one. `NotParticipant` exactly where there is no copy, it is dropped, or the
    /// user isn't a participant at its head. With a version there comes next `UnknownVersion`, then `WrongHash`, else the wavelet is open
    /// from there; without one `TooLarge` exactly where the snapshot would be written with more than `MAX_PEER` bytes, else it is open
    /// from the head, whose state is sent. A wavelet that was open keeps its place. After want of memory the session is as it was.
    #[tactic(auto, using(crate::proofs::Access::attached_may_see, crate::proofs::Large::large_is))]
    pub fn answer_attach<C: Copies>(
        &mut self,
        alloc: Global,
        copies: &C,
        name: &WaveletName,
        from: Option<&HashedVersion>,
    ) -> Result<Reply, Memory>
        requires { has_user self.old ≡ true }
        ensures ok { IfOk result (λ r. (self.new, reply_message r)
            ≡ attached (shown_by C.Copies copies.now) self.old name.now (option_copied from.entry)) }
        ensures access { IfOk result (λ r. MaySee (shown_by C.Copies copies.now) self.old.party (reply_message r)) }
        ensures large { IfOk result (λ r. (reply_message r ≡ Message.Unopened name.now TooLarge)
            ↔ ((option_copied from.entry ≡ None) × HasLongHead (shown_by C.Copies copies.now) self.old.party name.now)) }
        ensures same { OnErr result (self.new ≡ self.old) }
    {
        match self.seen_history(copies, name) {
            Some(history) => self.attach_seen(alloc, name, from, history),
            None => Ok(Reply::Message(unopened(alloc, name, UnopenedReason::NotParticipant)?)),
        }
    }
}

impl Session {
    /// Notes that a peer has a wavelet up to this version, where it is one of the copy's delta ends with this hash: then its deltas are
    /// sent from there on, and the peer counts as told of it. There is no reply. After want of memory the session is as it was.
    pub fn answer_have<C: Copies>(
        &mut self,
        alloc: Global,
        copies: &C,
        name: &WaveletName,
        from: &HashedVersion,
    ) -> Result<(), Memory>
        requires { has_peer self.old ≡ true }
        ensures ok { OnOk result (self.new ≡ had (shown_by C.Copies copies.now) self.old name.now from.now) }
        ensures same { OnErr result (self.new ≡ self.old) }
    {
        let Some(history) = copies.copy_of(name) else {
            return Ok(());
        };
        let Some(hash) = history.hash_at(from.version) else {
            return Ok(());
        };
        if hash != from.hash {
            return Ok(());
        }
        let name = name.copy(alloc)?;
        self.tellings.set(name, from.version, true)?;
        Ok(())
    }
}
