// One session.
ghost use Rattle.std.specs.Prelude.{◌≡◌, ◌≢◌, ◌<◌, ◌≤◌, ◌+◌, ◌++◌, [], ℕ, true, false, option_map, IsTrue, IfSome, IfErr, OnOk, OnErr, MatchResult};
ghost use Rattle.turn_cells.specs.Cells.{Begins, loads_at};
ghost use Rattle.turn_lock.specs.Turns.{turn_limit};
ghost use Rattle.wave_outside.specs.Counts.{Rose};
ghost use Rattle.wave_outside.specs.Links.{received, sent};
ghost use Rattle.message_json.specs.Write.{IsShort};
ghost use Rattle.session_core.specs.News.{reply_message};
ghost use Rattle.shard_marks.specs.Passes.{marks_of};
ghost use Rattle.session_hub.specs.Hubs.{AreOfHub, server_of};
ghost use Rattle.session_steps.specs.Clients.{IsSessionOf, AreSentTo, AreSentAll};
ghost use Rattle.session_steps.specs.Going.{Grow, Origin, HaveLooked, GoesOn, HasEnded, reply_frames};
ghost use Rattle.session_steps.specs.Jobs.{IsEnded};
ghost use Rattle.session_steps.specs.Served.{poll_count};
ghost use Rattle.session_steps.specs.declared.end.EndCause.TheVariants.{Closed, Failed};
ghost use Rattle.session_link.specs.Opened.{AreUnopened};

use crate::client::Client;
use crate::end::link_cause;
use crate::news::catch_up_all;
use crate::replies::reply_to;
use session_core::Reply;
use session_hub::{Hub, Passes, frame};
use session_steps::EndCause;
use std::alloc::Global;
use std::sync::Wait;
use turn_lock::Spent;
use wave_outside::{Clock, Folder, Gate, Link, Polled};

// Sends a reply, where there is one.
#[tactic(auto, using(session_steps::proofs::Events::received_same, session_steps::proofs::Events::polls_same, session_steps::proofs::Events::sent_text))]
fn send_reply<L: Link>(alloc: Global, link: &mut L, reply: Option<Reply>) -> Result<(), EndCause>
    requires { IfSome reply (λ r. IsShort (reply_message r)) }
    ensures sent { IsTrue L.tells
        → OnOk result (sent (L.events link.new) ≡ sent (L.events link.old) ++ reply_frames (option_map reply_message reply)) }
    ensures unsent { IsTrue L.tells → OnErr result (sent (L.events link.new) ≡ sent (L.events link.old)) }
    ensures received { IsTrue L.tells → received (L.events link.new) ≡ received (L.events link.old) }
    ensures polls { IsTrue L.tells → poll_count (L.events link.new) ≡ poll_count (L.events link.old) }
    ensures unclosed { L.closed link.new ≡ L.closed link.old }
    ensures cause { IfErr result (λ c. (c ≢ EndCause.Closed) × ((s : Spent) → c ≢ EndCause.Spent s)) }
    ensures failed { IfErr result (λ c. c ≡ EndCause.Failed → Rose (L.faults link.old) (L.faults link.new)) }
    ensures faults { L.faults link.old ≤ L.faults link.new }
{
    let Some(reply) = reply else {
        return Ok(());
    };
    let text = match frame(alloc, reply) {
        Ok(text) => text,
        Err(_) => return Err(EndCause::Memory),
    };
    match link.send(alloc, text.as_slice()) {
        Ok(()) => Ok(()),
        Err(fault) => Err(link_cause(fault)),
    }
}

// One look at the link: a message that came is answered. The answer `Closed` says that the link was closed.
fn look<R: Wait, F: Folder + Drop, L: Link, C: Clock, G: Gate>(
    rt: &R,
    alloc: Global,
    hub: &Hub<F>,
    passes: &mut Passes<F>,
    link: &mut L,
    clock: &mut C,
    gate: &mut G,
    number: u64,
    client: &mut Client,
) -> Result<(), EndCause>
    requires own { AreOfHub hub.now passes.old }
    requires client { IsSessionOf (server_of hub.now) client.old.session }
    requires sent { AreSentTo hub.now.domain (marks_of passes.old) client.old.session client.old.sent }
    requires quiet { AreUnopened hub.now.domain client.old.session client.old.opened }
    requires all { AreSentAll (marks_of passes.old) 16 client.old.sent }
    ensures own { AreOfHub hub.now passes.new }
    ensures later { Grow (marks_of passes.old) (marks_of passes.new) }
    ensures looked { (k : ℕ) → loads_at passes.new k ≡ loads_at passes.old k }
    ensures client { OnOk result (IsSessionOf (server_of hub.now) client.new.session) }
    ensures sent { OnOk result (AreSentTo hub.now.domain (marks_of passes.new) client.new.session client.new.sent) }
    ensures quiet { OnOk result (AreUnopened hub.now.domain client.new.session client.new.opened) }
    ensures going { (o : Origin) → GoesOn C.Clock L.Link o (server_of hub.now) passes.old link.old clock.old client.old.session
        → OnOk result (GoesOn C.Clock L.Link o (server_of hub.now) passes.new link.new clock.new client.new.session) }
    ensures ended { (o : Origin) → GoesOn C.Clock L.Link o (server_of hub.now) passes.old link.old clock.old client.old.session
        → IfErr result (λ c. HasEnded C.Clock L.Link o (server_of hub.now) passes.new link.new clock.new c) }
    ensures polls { IsTrue L.tells → poll_count (L.events link.new) ≤ poll_count (L.events link.old) + 1 }
    ensures closed { IfErr result (λ c. c ≡ EndCause.Closed → L.closed link.new ≡ true) }
    ensures unclosed { L.closed link.old ≡ false
        → MatchResult result (λ _. L.closed link.new ≡ false) (λ c. c ≢ EndCause.Closed → L.closed link.new ≡ false) }
    ensures failed { IfErr result (λ c. c ≡ EndCause.Failed → Rose (L.faults link.old) (L.faults link.new)) }
    ensures spent { IfErr result (λ c. (s : Spent) → c ≡ EndCause.Spent s → turn_limit ≤ s.ticket) }
    ensures faults { L.faults link.old ≤ L.faults link.new }
{
    match link.poll(alloc) {
        Ok(Polled::Message(message)) => {
            match reply_to(
                rt,
                alloc,
                hub,
                passes,
                clock,
                gate,
                number,
                client,
                message.as_slice(),
            ) {
                Ok(reply) => match send_reply(alloc, link, reply) {
                    Ok(()) => Ok(()),
                    Err(cause) => Err(cause),
                },
                Err(cause) => Err(cause),
            }
        }
        Ok(Polled::Nothing) => Ok(()),
        Ok(Polled::Closed) => Err(EndCause::Closed),
        Err(fault) => Err(link_cause(fault)),
    }
}

// Sends what is new, and answers one message, if one came. The answer `Closed` says that the link was closed.
fn turn<R: Wait, F: Folder + Drop, L: Link, C: Clock, G: Gate>(
    rt: &R,
    alloc: Global,
    hub: &Hub<F>,
    passes: &mut Passes<F>,
    link: &mut L,
    clock: &mut C,
    gate: &mut G,
    number: u64,
    client: &mut Client,
) -> Result<(), EndCause>
    requires own { AreOfHub hub.now passes.old }
    requires client { IsSessionOf (server_of hub.now) client.old.session }
    requires sent { AreSentTo hub.now.domain (marks_of passes.old) client.old.session client.old.sent }
    requires quiet { AreUnopened hub.now.domain client.old.session client.old.opened }
    ensures own { AreOfHub hub.now passes.new }
    ensures later { Grow (marks_of passes.old) (marks_of passes.new) }
    ensures looked { IsTrue L.tells → HaveLooked (loads_at passes.old) (L.events link.old) (loads_at passes.new) (L.events link.new) }
    ensures client { OnOk result (IsSessionOf (server_of hub.now) client.new.session) }
    ensures sent { OnOk result (AreSentTo hub.now.domain (marks_of passes.new) client.new.session client.new.sent) }
    ensures quiet { OnOk result (AreUnopened hub.now.domain client.new.session client.new.opened) }
    ensures going { (o : Origin) → GoesOn C.Clock L.Link o (server_of hub.now) passes.old link.old clock.old client.old.session
        → OnOk result (GoesOn C.Clock L.Link o (server_of hub.now) passes.new link.new clock.new client.new.session) }
    ensures ended { (o : Origin) → GoesOn C.Clock L.Link o (server_of hub.now) passes.old link.old clock.old client.old.session
        → IfErr result (λ c. HasEnded C.Clock L.Link o (server_of hub.now) passes.new link.new clock.new c) }
    ensures closed { IfErr result (λ c. c ≡ EndCause.Closed → L.closed link.new ≡ true) }
    ensures unclosed { L.closed link.old ≡ false
        → MatchResult result (λ _. L.closed link.new ≡ false) (λ c. c ≢ EndCause.Closed → L.closed link.new ≡ false) }
    ensures failed { IfErr result (λ c. c ≡ EndCause.Failed → Rose (L.faults link.old) (L.faults link.new)) }
    ensures spent { IfErr result (λ c. (s : Spent) → c ≡ EndCause.Spent s → turn_limit ≤ s.ticket) }
    ensures faults { L.faults link.old ≤ L.faults link.new }
{
    match catch_up_all(rt, alloc, hub, passes, link, clock, gate, number, client) {
        Ok(()) => look(rt, alloc, hub, passes, link, clock, gate, number, client),
        Err(cause) => Err(cause),
    }
}

/// Serves one link until its peer closes it, it fails, or there is no turn or no memory left: each message that comes is answered, and
/// what is new in the wavelets that are open is sent. `Closed` exactly where the peer's close was received. What it did isn't kept: that
/// there is such a list of steps is what is promised.
pub fn serve_link<R: Wait, F: Folder + Drop, L: Link, C: Clock, G: Gate>(
    rt: &R,
    alloc: Global,
    hub: &Hub<F>,
    passes: &mut Passes<F>,
    link: &mut L,
    clock: &mut C,
    gate: &mut G,
    number: u64,
) -> EndCause
    requires own { AreOfHub hub.now passes.old }
    requires unused { L.events link.old ≡ [] }
    ensures own { AreOfHub hub.now passes.new }
    ensures later { Begins passes.old passes.new }
    ensures ended { IsTrue L.tells → IsEnded (server_of hub.now) passes.old passes.new C.tells (C.readings clock.old) (C.readings clock.new)
        (L.events link.new) result }
    ensures closed { result ≡ Closed → L.closed link.new ≡ true }
    ensures unclosed { L.closed link.old ≡ false → result ≢ Closed → L.closed link.new ≡ false }
    ensures failed { result ≡ Failed → Rose (L.faults link.old) (L.faults link.new) }
    ensures faults { L.faults link.old ≤ L.faults link.new }
    ensures spent { (s : Spent) → result ≡ EndCause.Spent s → turn_limit ≤ s.ticket }
{
    let mut client = match Client::new(alloc, hub.domain(), hub.peers()) {
        Ok(client) => client,
        Err(_) => return EndCause::Memory,
    };
    for _ in rt.forever() {
        match turn(
            rt,
            alloc,
            hub,
            passes,
            link,
            clock,
            gate,
            number,
            &mut client,
        ) {
            Ok(()) => {}
            Err(cause) => return cause,
        }
    }
    unreachable!()
}
