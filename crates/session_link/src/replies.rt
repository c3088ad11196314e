// Replies to messages.
ghost use Rattle.std.specs.Prelude.{◌≡◌, ◌≢◌, ◌≤◌, ℕ, true, false, None, IfOk, IfSome, IfErr, OnOk, OnErr, option_copied, option_map};
ghost use Rattle.turn_cells.specs.Cells.{loads_at};
ghost use Rattle.turn_lock.specs.Turns.{turn_limit};
ghost use Rattle.message_json.specs.Write.{IsShort};
ghost use Rattle.session_core.specs.News.{reply_message};
ghost use Rattle.session_core.specs.Rules.{has_user, has_peer, is_new, taken_bytes};
ghost use Rattle.session_core.specs.declared.request.Request.TheVariants as ask;
ghost use Rattle.shard_marks.specs.Passes.{marks_of};
ghost use Rattle.session_hub.specs.Hubs.{AreOfHub, server_of};
ghost use Rattle.session_steps.specs.Clients.{IsSessionOf, MayAsk, AreSentTo};
ghost use Rattle.session_steps.specs.Going.{Grow, HasReplied, HasHalted};
ghost use Rattle.session_link.specs.Opened.{AreUnopened};

use crate::client::Client;
use crate::end::hub_cause;
use session_core::{Reply, Request, SubmitAnswer};
use session_hub::{Hub, Passes, Placed};
use session_steps::EndCause;
use std::alloc::Global;
use std::sync::Wait;
use turn_lock::Spent;
use wave_base::{HashedVersion, WaveletName};
use wave_outside::{Clock, Folder, Gate};
use wavelet_op::{Submission, Verdict};

// The reply to an `open`.
fn open<R: Wait, F: Folder + Drop, C: Clock, G: Gate>(
    rt: &R,
    alloc: Global,
    hub: &Hub<F>,
    passes: &mut Passes<F>,
    clock: &C,
    gate: &mut G,
    number: u64,
    client: &mut Client,
    name: &WaveletName,
    from: Option<&HashedVersion>,
) -> Result<Option<Reply>, EndCause>
    requires own { AreOfHub hub.now passes.old }
    requires client { IsSessionOf (server_of hub.now) client.old.session }
    requires user { has_user client.old.session ≡ true }
    requires sent { AreSentTo hub.now.domain (marks_of passes.old) client.old.session client.old.sent }
    requires quiet { AreUnopened hub.now.domain client.old.session client.old.opened }
    ensures own { AreOfHub hub.now passes.new }
    ensures later { Grow (marks_of passes.old) (marks_of passes.new) }
    ensures looked { (k : ℕ) → loads_at passes.new k ≡ loads_at passes.old k }
    ensures client { OnOk result (IsSessionOf (server_of hub.now) client.new.session) }
    ensures sent { OnOk result (AreSentTo hub.now.domain (marks_of passes.new) client.new.session client.new.sent) }
    ensures quiet { OnOk result (AreUnopened hub.now.domain client.new.session client.new.opened) }
    ensures replied { IfOk result (λ r. HasReplied C.Clock (server_of hub.now) passes.old passes.new clock.now clock.now
        (client.old.session, ask.Attach name.now (option_copied from.entry)) client.new.session (option_map reply_message r)) }
    ensures halted { OnErr result (HasHalted C.Clock (server_of hub.now) passes.old passes.new clock.now clock.now
        (client.old.session, ask.Attach name.now (option_copied from.entry))) }
    ensures short { IfOk result (λ r. IfSome r (λ m. IsShort (reply_message m))) }
    ensures cause { IfErr result (λ c. (c ≢ EndCause.Closed) × (c ≢ EndCause.Failed)) }
    ensures spent { IfErr result (λ c. (s : Spent) → c ≡ EndCause.Spent s → turn_limit ≤ s.ticket) }
{
    let shard = wavelet_shelf::shard(name);
    gate.before(number, shard);
    let attached = hub.attach(rt, alloc, passes, &mut client.session, name, from);
    gate.after(number, shard);
    match attached {
        Ok(attached) => {
            client.note_opened(shard);
            Ok(Some(attached.into_reply()))
        }
        Err(fault) => Err(hub_cause(fault)),
    }
}

// Tells the others where the answer to a submission came with a new delta, or may have, and where one waits, which is to be relayed.
fn tell<G: Gate>(gate: &mut G, number: u64, placed: &Placed) {
    match placed.answer {
        SubmitAnswer::Verdict(verdict) => {
            if let Verdict::Ack { .. } = verdict {
                gate.news(number, placed.look.shard);
            }
        }
        SubmitAnswer::Queued => gate.news(number, placed.look.shard),
        SubmitAnswer::NoHost => {}
        SubmitAnswer::Store => {}
    }
}

// The reply to a submission.
fn submit<R: Wait, F: Folder + Drop, C: Clock, G: Gate>(
    rt: &R,
    alloc: Global,
    hub: &Hub<F>,
    passes: &mut Passes<F>,
    clock: &mut C,
    gate: &mut G,
    number: u64,
    client: &mut Client,
    name: &WaveletName,
    submission: &Submission,
) -> Result<Option<Reply>, EndCause>
    requires own { AreOfHub hub.now passes.old }
    requires client { IsSessionOf (server_of hub.now) client.old.session }
    requires known { is_new client.old.session ≡ false }
    requires sent { AreSentTo hub.now.domain (marks_of passes.old) client.old.session client.old.sent }
    requires quiet { AreUnopened hub.now.domain client.old.session client.old.opened }
    ensures own { AreOfHub hub.now passes.new }
    ensures later { Grow (marks_of passes.old) (marks_of passes.new) }
    ensures looked { (k : ℕ) → loads_at passes.new k ≡ loads_at passes.old k }
    ensures client { OnOk result (IsSessionOf (server_of hub.now) client.new.session) }
    ensures sent { OnOk result (AreSentTo hub.now.domain (marks_of passes.new) client.new.session client.new.sent) }
    ensures quiet { OnOk result (AreUnopened hub.now.domain client.new.session client.new.opened) }
    ensures replied { IfOk result (λ r. HasReplied C.Clock (server_of hub.now) passes.old passes.new clock.old clock.new
        (client.old.session, ask.Submit name.now submission.now) client.new.session (option_map reply_message r)) }
    ensures halted { OnErr result (HasHalted C.Clock (server_of hub.now) passes.old passes.new clock.old clock.new
        (client.old.session, ask.Submit name.now submission.now)) }
    ensures short { IfOk result (λ r. IfSome r (λ m. IsShort (reply_message m))) }
    ensures cause { IfErr result (λ c. (c ≢ EndCause.Closed) × (c ≢ EndCause.Failed)) }
    ensures spent { IfErr result (λ c. (s : Spent) → c ≡ EndCause.Spent s → turn_limit ≤ s.ticket) }
{
    let shard = wavelet_shelf::shard(name);
    let time = clock.now();
    gate.before(number, shard);
    let placed = hub.submit(rt, alloc, passes, name, submission, time);
    gate.after(number, shard);
    match placed {
        Ok(placed) => {
            tell(gate, number, &placed);
            match client
                .session
                .answer_submit(alloc, name, &submission.id, &placed.answer)
            {
                Ok(message) => {
                    client.note_answer(shard, &placed.answer);
                    Ok(Some(Reply::Message(message)))
                }
                Err(_) => Err(EndCause::Memory),
            }
        }
        Err(fault) => Err(hub_cause(fault)),
    }
}

// Notes up to where a peer has a wavelet, which is due from there. There is no reply.
fn have<R: Wait, F: Folder + Drop, C: Clock, G: Gate>(
    rt: &R,
    alloc: Global,
    hub: &Hub<F>,
    passes: &mut Passes<F>,
    clock: &C,
    gate: &mut G,
    number: u64,
    client: &mut Client,
    name: &WaveletName,
    from: &HashedVersion,
) -> Result<Option<Reply>, EndCause>
    requires own { AreOfHub hub.now passes.old }
    requires client { IsSessionOf (server_of hub.now) client.old.session }
    requires peer { has_peer client.old.session ≡ true }
    requires sent { AreSentTo hub.now.domain (marks_of passes.old) client.old.session client.old.sent }
    requires quiet { AreUnopened hub.now.domain client.old.session client.old.opened }
    ensures own { AreOfHub hub.now passes.new }
    ensures later { Grow (marks_of passes.old) (marks_of passes.new) }
    ensures looked { (k : ℕ) → loads_at passes.new k ≡ loads_at passes.old k }
    ensures client { OnOk result (IsSessionOf (server_of hub.now) client.new.session) }
    ensures sent { OnOk result (AreSentTo hub.now.domain (marks_of passes.new) client.new.session client.new.sent) }
    ensures quiet { OnOk result (AreUnopened hub.now.domain client.new.session client.new.opened) }
    ensures replied { IfOk result (λ r. HasReplied C.Clock (server_of hub.now) passes.old passes.new clock.now clock.now
        (client.old.session, ask.Have name.now from.now) client.new.session (option_map reply_message r)) }
    ensures halted { OnErr result (HasHalted C.Clock (server_of hub.now) passes.old passes.new clock.now clock.now
        (client.old.session, ask.Have name.now from.now)) }
    ensures short { IfOk result (λ r. IfSome r (λ m. IsShort (reply_message m))) }
    ensures cause { IfErr result (λ c. (c ≢ EndCause.Closed) × (c ≢ EndCause.Failed)) }
    ensures spent { IfErr result (λ c. (s : Spent) → c ≡ EndCause.Spent s → turn_limit ≤ s.ticket) }
{
    let shard = wavelet_shelf::shard(name);
    gate.before(number, shard);
    let noted = hub.have(rt, alloc, passes, &mut client.session, name, from);
    gate.after(number, shard);
    match noted {
        Ok(_) => {
            client.note_opened(shard);
            Ok(None)
        }
        Err(fault) => Err(hub_cause(fault)),
    }
}

// The reply to what a message asked for; what a peer has, has none.
fn reply<R: Wait, F: Folder + Drop, C: Clock, G: Gate>(
    rt: &R,
    alloc: Global,
    hub: &Hub<F>,
    passes: &mut Passes<F>,
    clock: &mut C,
    gate: &mut G,
    number: u64,
    client: &mut Client,
    request: Request,
) -> Result<Option<Reply>, EndCause>
    requires own { AreOfHub hub.now passes.old }
    requires client { IsSessionOf (server_of hub.now) client.old.session }
    requires asks { MayAsk client.old.session request }
    requires sent { AreSentTo hub.now.domain (marks_of passes.old) client.old.session client.old.sent }
    requires quiet { AreUnopened hub.now.domain client.old.session client.old.opened }
    ensures own { AreOfHub hub.now passes.new }
    ensures later { Grow (marks_of passes.old) (marks_of passes.new) }
    ensures looked { (k : ℕ) → loads_at passes.new k ≡ loads_at passes.old k }
    ensures client { OnOk result (IsSessionOf (server_of hub.now) client.new.session) }
    ensures sent { OnOk result (AreSentTo hub.now.domain (marks_of passes.new) client.new.session client.new.sent) }
    ensures quiet { OnOk result (AreUnopened hub.now.domain client.new.session client.new.opened) }
    ensures replied { IfOk result (λ r. HasReplied C.Clock (server_of hub.now) passes.old passes.new clock.old clock.new
        (client.old.session, request) client.new.session (option_map reply_message r)) }
    ensures halted { OnErr result
        (HasHalted C.Clock (server_of hub.now) passes.old passes.new clock.old clock.new (client.old.session, request)) }
    ensures short { IfOk result (λ r. IfSome r (λ m. IsShort (reply_message m))) }
    ensures cause { IfErr result (λ c. (c ≢ EndCause.Closed) × (c ≢ EndCause.Failed)) }
    ensures spent { IfErr result (λ c. (s : Spent) → c ≡ EndCause.Spent s → turn_limit ≤ s.ticket) }
{
    match request {
        Request::Reply(message) => Ok(Some(Reply::Message(message))),
        Request::Attach { name, at } => {
            open(
                rt,
                alloc,
                hub,
                passes,
                clock,
                gate,
                number,
                client,
                &name,
                at.as_ref(),
            )
        }
        Request::Submit { name, submission } => {
            submit(
                rt,
                alloc,
                hub,
                passes,
                clock,
                gate,
                number,
                client,
                &name,
                &submission,
            )
        }
        Request::Have { name, at } => {
            have(
                rt, alloc, hub, passes, clock, gate, number, client, &name, &at,
            )
        }
    }
}

/// The reply to a message, if it has one.
pub(crate) fn reply_to<R: Wait, F: Folder + Drop, C: Clock, G: Gate>(
    rt: &R,
    alloc: Global,
    hub: &Hub<F>,
    passes: &mut Passes<F>,
    clock: &mut C,
    gate: &mut G,
    number: u64,
    client: &mut Client,
    bytes: &[u8],
) -> Result<Option<Reply>, EndCause>
    requires own { AreOfHub hub.now passes.old }
    requires client { IsSessionOf (server_of hub.now) client.old.session }
    requires sent { AreSentTo hub.now.domain (marks_of passes.old) client.old.session client.old.sent }
    requires quiet { AreUnopened hub.now.domain client.old.session client.old.opened }
    ensures own { AreOfHub hub.now passes.new }
    ensures later { Grow (marks_of passes.old) (marks_of passes.new) }
    ensures looked { (k : ℕ) → loads_at passes.new k ≡ loads_at passes.old k }
    ensures client { OnOk result (IsSessionOf (server_of hub.now) client.new.session) }
    ensures sent { OnOk result (AreSentTo hub.now.domain (marks_of passes.new) client.new.session client.new.sent) }
    ensures quiet { OnOk result (AreUnopened hub.now.domain client.new.session client.new.opened) }
    ensures replied { IfOk result (λ r. HasReplied C.Clock (server_of hub.now) passes.old passes.new clock.old clock.new
        (taken_bytes client.old.session bytes.now) client.new.session (option_map reply_message r)) }
    ensures halted { OnErr result
        (HasHalted C.Clock (server_of hub.now) passes.old passes.new clock.old clock.new (taken_bytes client.old.session bytes.now)) }
    ensures short { IfOk result (λ r. IfSome r (λ m. IsShort (reply_message m))) }
    ensures cause { IfErr result (λ c. (c ≢ EndCause.Closed) × (c ≢ EndCause.Failed)) }
    ensures spent { IfErr result (λ c. (s : Spent) → c ≡ EndCause.Spent s → turn_limit ≤ s.ticket) }
{
    match client.take(alloc, bytes) {
        Ok(request) => reply(rt, alloc, hub, passes, clock, gate, number, client, request),
        Err(_) => Err(EndCause::Memory),
    }
}
