// What is new to a session.
ghost use Rattle.std.specs.Prelude.{◌≡◌, ◌≢◌, ◌<◌, ◌≤◌, ◌+◌, ℕ, true, false, slice_index_or, length, IsTrue, IfErr, OnOk, OnErr};
ghost use Rattle.turn_cells.specs.Cells.{AreOthersSame, loads_at};
ghost use Rattle.turn_lock.specs.Turns.{turn_limit};
ghost use Rattle.wave_outside.specs.Counts.{Rose};
ghost use Rattle.shard_marks.specs.Passes.{marks_of};
ghost use Rattle.session_hub.specs.Hubs.{AreOfHub, server_of};
ghost use Rattle.session_steps.specs.Clients.{IsSessionOf, AreSentTo, AreSentAll};
ghost use Rattle.session_steps.specs.Going.{Grow, Origin, GoesOn, HasBroken};
ghost use Rattle.session_steps.specs.Served.{poll_count};
ghost use Rattle.session_link.specs.Opened.{AreUnopened};

use crate::client::Client;
use crate::end::{hub_cause, link_cause};
use crate::sending::send_all;
use session_hub::{Hub, Passes};
use session_steps::EndCause;
use shard_marks::News;
use std::alloc::Global;
use std::sync::Wait;
use turn_lock::Spent;
use wave_outside::{Clock, Folder, Gate, Link};

// Sends what a shard has for the session.
fn deliver<R: Wait, F: Folder + Drop, L: Link, C: Clock, G: Gate>(
    rt: &R,
    alloc: Global,
    hub: &Hub<F>,
    passes: &mut Passes<F>,
    link: &mut L,
    clock: &C,
    gate: &mut G,
    number: u64,
    client: &mut Client,
    shard: u8,
) -> Result<(), EndCause>
    requires own { AreOfHub hub.now passes.old }
    requires shard { shard < 16 }
    requires client { IsSessionOf (server_of hub.now) client.old.session }
    requires sent { AreSentTo hub.now.domain (marks_of passes.old) client.old.session client.old.sent }
    requires quiet { AreUnopened hub.now.domain client.old.session client.old.opened }
    requires opened { slice_index_or client.old.opened shard false ≡ true }
    ensures own { AreOfHub hub.now passes.new }
    ensures later { Grow (marks_of passes.old) (marks_of passes.new) }
    ensures others { AreOthersSame shard passes.old passes.new }
    ensures looked { (k : ℕ) → loads_at passes.new k ≡ loads_at passes.old k }
    ensures client { OnOk result (IsSessionOf (server_of hub.now) client.new.session) }
    ensures sent { OnOk result (AreSentTo hub.now.domain (marks_of passes.new) client.new.session client.new.sent) }
    ensures quiet { OnOk result (AreUnopened hub.now.domain client.new.session client.new.opened) }
    ensures here { OnOk result (slice_index_or client.new.sent shard 0 ≡ length (marks_of passes.new shard)) }
    ensures there { (k : ℕ) → k ≢ shard → slice_index_or client.new.sent k 0 ≡ slice_index_or client.old.sent k 0 }
    ensures going { (o : Origin) → GoesOn C.Clock L.Link o (server_of hub.now) passes.old link.old clock.now client.old.session
        → OnOk result (GoesOn C.Clock L.Link o (server_of hub.now) passes.new link.new clock.now client.new.session) }
    ensures broken { (o : Origin) → GoesOn C.Clock L.Link o (server_of hub.now) passes.old link.old clock.now client.old.session
        → OnErr result (HasBroken C.Clock L.Link o (server_of hub.now) passes.new link.new clock.now) }
    ensures polls { IsTrue L.tells → poll_count (L.events link.new) ≡ poll_count (L.events link.old) }
    ensures unclosed { L.closed link.new ≡ L.closed link.old }
    ensures cause { IfErr result (λ c. c ≢ EndCause.Closed) }
    ensures failed { IfErr result (λ c. c ≡ EndCause.Failed → Rose (L.faults link.old) (L.faults link.new)) }
    ensures spent { IfErr result (λ c. (s : Spent) → c ≡ EndCause.Spent s → turn_limit ≤ s.ticket) }
    ensures faults { L.faults link.old ≤ L.faults link.new }
{
    gate.before(number, shard);
    let sent = client.sent[shard as usize];
    let delivered = hub.deliver(rt, alloc, passes, &mut client.session, shard, sent);
    gate.after(number, shard);
    match delivered {
        Ok(delivered) => {
            client.note(shard, delivered.look.length);
            match send_all(alloc, link, delivered.frames.as_slice()) {
                Ok(()) => Ok(()),
                Err(fault) => Err(link_cause(fault)),
            }
        }
        Err(fault) => Err(hub_cause(fault)),
    }
}

// Looks whether a shard has something for the session, and sends it. With no turn where nothing was opened at the shard.
fn catch_up<R: Wait, F: Folder + Drop, L: Link, C: Clock, G: Gate>(
    rt: &R,
    alloc: Global,
    hub: &Hub<F>,
    passes: &mut Passes<F>,
    link: &mut L,
    clock: &C,
    gate: &mut G,
    number: u64,
    client: &mut Client,
    shard: u8,
) -> Result<(), EndCause>
    requires own { AreOfHub hub.now passes.old }
    requires shard { shard < 16 }
    requires client { IsSessionOf (server_of hub.now) client.old.session }
    requires sent { AreSentTo hub.now.domain (marks_of passes.old) client.old.session client.old.sent }
    requires quiet { AreUnopened hub.now.domain client.old.session client.old.opened }
    ensures own { AreOfHub hub.now passes.new }
    ensures later { Grow (marks_of passes.old) (marks_of passes.new) }
    ensures others { AreOthersSame shard passes.old passes.new }
    ensures looked { loads_at passes.new shard ≡ loads_at passes.old shard + 1 }
    ensures client { OnOk result (IsSessionOf (server_of hub.now) client.new.session) }
    ensures sent { OnOk result (AreSentTo hub.now.domain (marks_of passes.new) client.new.session client.new.sent) }
    ensures quiet { OnOk result (AreUnopened hub.now.domain client.new.session client.new.opened) }
    ensures here { OnOk result (slice_index_or client.new.sent shard 0 ≡ length (marks_of passes.new shard)) }
    ensures there { (k : ℕ) → k ≢ shard → slice_index_or client.new.sent k 0 ≡ slice_index_or client.old.sent k 0 }
    ensures going { (o : Origin) → GoesOn C.Clock L.Link o (server_of hub.now) passes.old link.old clock.now client.old.session
        → OnOk result (GoesOn C.Clock L.Link o (server_of hub.now) passes.new link.new clock.now client.new.session) }
    ensures broken { (o : Origin) → GoesOn C.Clock L.Link o (server_of hub.now) passes.old link.old clock.now client.old.session
        → OnErr result (HasBroken C.Clock L.Link o (server_of hub.now) passes.new link.new clock.now) }
    ensures polls { IsTrue L.tells → poll_count (L.events link.new) ≡ poll_count (L.events link.old) }
    ensures unclosed { L.closed link.new ≡ L.closed link.old }
    ensures cause { IfErr result (λ c. c ≢ EndCause.Closed) }
    ensures failed { IfErr result (λ c. c ≡ EndCause.Failed → Rose (L.faults link.old) (L.faults link.new)) }
    ensures spent { IfErr result (λ c. (s : Spent) → c ≡ EndCause.Spent s → turn_limit ≤ s.ticket) }
    ensures faults { L.faults link.old ≤ L.faults link.new }
{
    match hub.news(passes, shard, client.sent[shard as usize]) {
        News::Nothing => Ok(()),
        News::Grown { length } => match client.has_opened(shard) {
            true => deliver(
                rt, alloc, hub, passes, link, clock, gate, number, client, shard,
            ),
            false => {
                client.note(shard, length);
                Ok(())
            }
        },
    }
}

/// Looks at each shard, and sends what it has for the session.
pub(crate) fn catch_up_all<R: Wait, F: Folder + Drop, L: Link, C: Clock, G: Gate>(
    rt: &R,
    alloc: Global,
    hub: &Hub<F>,
    passes: &mut Passes<F>,
    link: &mut L,
    clock: &C,
    gate: &mut G,
    number: u64,
    client: &mut Client,
) -> Result<(), EndCause>
    requires own { AreOfHub hub.now passes.old }
    requires client { IsSessionOf (server_of hub.now) client.old.session }
    requires sent { AreSentTo hub.now.domain (marks_of passes.old) client.old.session client.old.sent }
    requires quiet { AreUnopened hub.now.domain client.old.session client.old.opened }
    ensures own { AreOfHub hub.now passes.new }
    ensures later { Grow (marks_of passes.old) (marks_of passes.new) }
    ensures looked { (k : ℕ) → k < 16 → OnOk result (loads_at passes.old k + 1 ≤ loads_at passes.new k) }
    ensures loads { (k : ℕ) → loads_at passes.old k ≤ loads_at passes.new k }
    ensures client { OnOk result (IsSessionOf (server_of hub.now) client.new.session) }
    ensures sent { OnOk result (AreSentTo hub.now.domain (marks_of passes.new) client.new.session client.new.sent) }
    ensures quiet { OnOk result (AreUnopened hub.now.domain client.new.session client.new.opened) }
    ensures all { OnOk result (AreSentAll (marks_of passes.new) 16 client.new.sent) }
    ensures going { (o : Origin) → GoesOn C.Clock L.Link o (server_of hub.now) passes.old link.old clock.now client.old.session
        → OnOk result (GoesOn C.Clock L.Link o (server_of hub.now) passes.new link.new clock.now client.new.session) }
    ensures broken { (o : Origin) → GoesOn C.Clock L.Link o (server_of hub.now) passes.old link.old clock.now client.old.session
        → OnErr result (HasBroken C.Clock L.Link o (server_of hub.now) passes.new link.new clock.now) }
    ensures polls { IsTrue L.tells → poll_count (L.events link.new) ≡ poll_count (L.events link.old) }
    ensures unclosed { L.closed link.new ≡ L.closed link.old }
    ensures cause { IfErr result (λ c. c ≢ EndCause.Closed) }
    ensures failed { IfErr result (λ c. c ≡ EndCause.Failed → Rose (L.faults link.old) (L.faults link.new)) }
    ensures spent { IfErr result (λ c. (s : Spent) → c ≡ EndCause.Spent s → turn_limit ≤ s.ticket) }
    ensures faults { L.faults link.old ≤ L.faults link.new }
{
    for shard in 0..16u8 {
        catch_up(
            rt, alloc, hub, passes, link, clock, gate, number, client, shard,
        )?;
    }
    Ok(())
}
