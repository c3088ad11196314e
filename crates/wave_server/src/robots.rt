// Robots of a server.
ghost use Rattle.std.specs.Prelude.{◌≡◌, ◌≢◌, ◌<◌, IfOk, IfErr, IsSome, OnOk, MatchBool, true, false, is_some};
ghost use Rattle.std.specs.List.{AllByRecursion};
ghost use Rattle.robot_host.specs.Hosts.{host_as, AreFewer};
ghost use Rattle.turn_cells.specs.Cells.{Begins};
ghost use Rattle.wavelet_shelf.specs.FileNames.{shard_of};
ghost use Rattle.shard_marks.specs.Marks.{is_of};
ghost use Rattle.shard_marks.specs.Outcomes.{HasOutcome};
ghost use Rattle.shard_marks.specs.Passes.{HaveTurned, marks_of};
ghost use Rattle.session_hub.specs.Hubs.{AreOfHub};
ghost use Rattle.session_hub.specs.Robots.{AreSettledAt};
ghost use Rattle.wave_server.specs.Robots.{is_verdict_invalid, is_invalid, AreReady, AreSettledBelow};
ghost use Rattle.wave_server.specs.Statuses.{TellsSpent};
ghost use Rattle.wave_server.specs.declared.stop.Stop.TheVariants.{Refused, Door, Spent};

use crate::attendant::Attendant;
use crate::stop::Stop;
use robot_host::{Robot, RobotEdit, RobotHost};
use session_core::SubmitAnswer;
use session_hub::{Hub, HubFault, Passes};
use std::alloc::Global;
use std::sync::Wait;
use wave_base::WaveletName;
use wave_outside::{Clock, Folder, Gate};
use wavelet_op::Verdict;

/// The number of shards.
const SHARDS: u8 = 16;

// Whether the verdict is that the edit was invalid.
fn is_verdict_invalid(verdict: Verdict) -> bool
    ensures { result ≡ is_verdict_invalid verdict }
{
    match verdict {
        Verdict::Ack { .. } => false,
        Verdict::NotParticipant => false,
        Verdict::ReadOnly => false,
        Verdict::UnknownVersion { .. } => false,
        Verdict::WrongHash { .. } => false,
        Verdict::Invalid { .. } => true,
        Verdict::Full { .. } => false,
    }
}

// Whether the answer is that the edit was invalid.
fn is_invalid(answer: SubmitAnswer) -> bool
    ensures { result ≡ is_invalid answer }
{
    match answer {
        SubmitAnswer::Verdict(verdict) => is_verdict_invalid(verdict),
        SubmitAnswer::Queued => false,
        SubmitAnswer::NoHost => false,
        SubmitAnswer::Store => false,
    }
}

// Submits an edit of a robot, once. The robot is dropped where the edit was invalid.
fn submit_edit<R: Wait, F: Folder + Drop, C: Clock, G: Gate>(
    rt: &R,
    alloc: Global,
    hub: &Hub<F>,
    passes: &mut Passes<F>,
    robots: &mut RobotHost,
    attendant: &mut Attendant<C, G>,
    name: &WaveletName,
    edit: &RobotEdit,
) -> Result<(), HubFault>
    requires own { AreOfHub hub.now passes.old }
    requires hosted { is_of hub.now.domain (shard_of name.now) name.now ≡ true }
    ensures own { AreOfHub hub.now passes.new }
    ensures turned { HaveTurned (shard_of name.now) passes.old passes.new }
    ensures fewer { AreFewer (host_as ⟦<dyn Robot as Robot>⟧ robots.old) (host_as ⟦<dyn Robot as Robot>⟧ robots.new) }
    ensures outcome { OnOk result (HasOutcome hub.now.domain (shard_of name.now) (marks_of passes.old (shard_of name.now))
        (marks_of passes.new (shard_of name.now)) name.now edit.now.submission) }
{
    let time = attendant.time();
    let placed = hub.submit(rt, alloc, passes, name, &edit.submission, time)?;
    attendant.tell(&placed);
    if !is_invalid(placed.answer) {
        return Ok(());
    }
    robots.refused(edit.robot);
    Ok(())
}

// Submits edits in this way, in order.
fn submit_edits<R: Wait, F: Folder + Drop, C: Clock, G: Gate>(
    rt: &R,
    alloc: Global,
    hub: &Hub<F>,
    passes: &mut Passes<F>,
    robots: &mut RobotHost,
    attendant: &mut Attendant<C, G>,
    name: &WaveletName,
    edits: &[RobotEdit],
) -> Result<(), HubFault>
    requires own { AreOfHub hub.now passes.old }
    requires hosted { is_of hub.now.domain (shard_of name.now) name.now ≡ true }
    ensures own { AreOfHub hub.now passes.new }
    ensures turned { HaveTurned (shard_of name.now) passes.old passes.new }
    ensures fewer { AreFewer (host_as ⟦<dyn Robot as Robot>⟧ robots.old) (host_as ⟦<dyn Robot as Robot>⟧ robots.new) }
    ensures outcomes { OnOk result (AllByRecursion (λ e. HasOutcome hub.now.domain (shard_of name.now)
        (marks_of passes.old (shard_of name.now)) (marks_of passes.new (shard_of name.now)) name.now e.submission) edits.now) }
{
    for edit in edits {
        submit_edit::<R, F, C, G>(rt, alloc, hub, passes, robots, attendant, name, edit)?;
    }
    Ok(())
}

// Lets the robots take turns at a shard until one gives edits, and submits these. None where it gave some; else the length of the shard's
// history, of which nothing is left for them.
fn turn_at<R: Wait, F: Folder + Drop, C: Clock, G: Gate>(
    rt: &R,
    alloc: Global,
    hub: &Hub<F>,
    passes: &mut Passes<F>,
    robots: &mut RobotHost,
    attendant: &mut Attendant<C, G>,
    shard: u8,
) -> Result<Option<u64>, HubFault>
    requires own { AreOfHub hub.now passes.old }
    requires shard { shard < 16 }
    requires ready { AreReady hub.now.domain (marks_of passes.old) (host_as ⟦<dyn Robot as Robot>⟧ robots.old) }
    ensures own { AreOfHub hub.now passes.new }
    ensures later { Begins passes.old passes.new }
    ensures ready { OnOk result (AreReady hub.now.domain (marks_of passes.new) (host_as ⟦<dyn Robot as Robot>⟧ robots.new)) }
    ensures settled { OnOk result (AreSettledBelow shard hub.now.domain (marks_of passes.old) (host_as ⟦<dyn Robot as Robot>⟧ robots.old)
        → AreSettledBelow shard hub.now.domain (marks_of passes.new) (host_as ⟦<dyn Robot as Robot>⟧ robots.new)) }
    ensures done { IfOk result (λ o. IsSome o → AreSettledAt hub.now.domain shard (marks_of passes.new shard)
        (host_as ⟦<dyn Robot as Robot>⟧ robots.new)) }
{
    attendant.enter(shard);
    let turned = hub.robot_turn(rt, alloc, passes, robots, shard);
    attendant.leave(shard);
    let work = turned?;
    match &work.name {
        Some(name) => {
            submit_edits::<R, F, C, G>(
                rt,
                alloc,
                hub,
                passes,
                robots,
                attendant,
                name,
                &work.edits,
            )?;
            Ok(None)
        }
        None => Ok(Some(work.look.length)),
    }
}

// `turn_at`, at a shard that has grown since nothing of it was left for the robots.
fn attend_one<R: Wait, F: Folder + Drop, C: Clock, G: Gate>(
    rt: &R,
    alloc: Global,
    hub: &Hub<F>,
    passes: &mut Passes<F>,
    robots: &mut RobotHost,
    attendant: &mut Attendant<C, G>,
    shard: u8,
) -> Result<(), HubFault>
    requires own { AreOfHub hub.now passes.old }
    requires shard { shard < 16 }
    requires ready { AreReady hub.now.domain (marks_of passes.old) (host_as ⟦<dyn Robot as Robot>⟧ robots.old) }
    ensures own { AreOfHub hub.now passes.new }
    ensures later { Begins passes.old passes.new }
    ensures ready { OnOk result (AreReady hub.now.domain (marks_of passes.new) (host_as ⟦<dyn Robot as Robot>⟧ robots.new)) }
{
    if !attendant.has_news(hub, passes, shard) {
        return Ok(());
    }
    match turn_at::<R, F, C, G>(rt, alloc, hub, passes, robots, attendant, shard)? {
        Some(length) => {
            attendant.note(shard, length);
            Ok(())
        }
        None => Ok(()),
    }
}

// `attend_one` at each shard.
fn attend_all<R: Wait, F: Folder + Drop, C: Clock, G: Gate>(
    rt: &R,
    alloc: Global,
    hub: &Hub<F>,
    passes: &mut Passes<F>,
    robots: &mut RobotHost,
    attendant: &mut Attendant<C, G>,
) -> Result<(), HubFault>
    requires own { AreOfHub hub.now passes.old }
    requires ready { AreReady hub.now.domain (marks_of passes.old) (host_as ⟦<dyn Robot as Robot>⟧ robots.old) }
    ensures own { AreOfHub hub.now passes.new }
    ensures later { Begins passes.old passes.new }
    ensures ready { OnOk result (AreReady hub.now.domain (marks_of passes.new) (host_as ⟦<dyn Robot as Robot>⟧ robots.new)) }
{
    for shard in 0..SHARDS {
        attend_one::<R, F, C, G>(rt, alloc, hub, passes, robots, attendant, shard)?;
    }
    Ok(())
}

// Why the server stops, where a call of its hub gave no answer.
fn stop_of(fault: HubFault, spent: &mut Option<turn_lock::Spent>) -> Stop
    requires { is_some spent.old ≡ false }
    ensures spent { MatchBool (is_some spent.new) (result ≡ Spent) (result ≢ Spent) }
    ensures kinds { (result ≢ Refused) × (result ≢ Door) }
{
    match fault {
        HubFault::Memory => Stop::Memory,
        HubFault::Spent(ticket) => {
            *spent = Some(ticket);
            Stop::Spent
        }
    }
}

/// Lets the robots take a turn at each shard that has grown since nothing of it was left for them, and submits their edits. Where no
/// robot is there, nothing is done.
pub(crate) fn attend<R: Wait, F: Folder + Drop, C: Clock, G: Gate>(
    rt: &R,
    alloc: Global,
    hub: &Hub<F>,
    passes: &mut Passes<F>,
    robots: &mut RobotHost,
    attendant: &mut Attendant<C, G>,
    spent: &mut Option<turn_lock::Spent>,
) -> Result<(), Stop>
    requires own { AreOfHub hub.now passes.old }
    requires ready { AreReady hub.now.domain (marks_of passes.old) (host_as ⟦<dyn Robot as Robot>⟧ robots.old) }
    requires unspent { is_some spent.old ≡ false }
    ensures own { AreOfHub hub.now passes.new }
    ensures later { Begins passes.old passes.new }
    ensures ready { OnOk result (AreReady hub.now.domain (marks_of passes.new) (host_as ⟦<dyn Robot as Robot>⟧ robots.new)) }
    ensures spent { TellsSpent (is_some spent.new) result }
    ensures kinds { IfErr result (λ s. (s ≢ Refused) × (s ≢ Door)) }
{
    if robots.is_deserted() {
        return Ok(());
    }
    match attend_all::<R, F, C, G>(rt, alloc, hub, passes, robots, attendant) {
        Ok(()) => Ok(()),
        Err(fault) => Err(stop_of(fault, spent)),
    }
}

// Lets the robots take turns at a shard until nothing of it is left for them.
fn settle_one<R: Wait, F: Folder + Drop, C: Clock, G: Gate>(
    rt: &R,
    alloc: Global,
    hub: &Hub<F>,
    passes: &mut Passes<F>,
    robots: &mut RobotHost,
    attendant: &mut Attendant<C, G>,
    shard: u8,
) -> Result<(), HubFault>
    requires own { AreOfHub hub.now passes.old }
    requires shard { shard < 16 }
    requires ready { AreReady hub.now.domain (marks_of passes.old) (host_as ⟦<dyn Robot as Robot>⟧ robots.old) }
    requires settled { AreSettledBelow shard hub.now.domain (marks_of passes.old) (host_as ⟦<dyn Robot as Robot>⟧ robots.old) }
    ensures own { AreOfHub hub.now passes.new }
    ensures later { Begins passes.old passes.new }
    ensures ready { OnOk result (AreReady hub.now.domain (marks_of passes.new) (host_as ⟦<dyn Robot as Robot>⟧ robots.new)) }
    ensures settled { OnOk result (AreSettledBelow shard hub.now.domain (marks_of passes.new)
        (host_as ⟦<dyn Robot as Robot>⟧ robots.new)) }
    ensures done { OnOk result (AreSettledAt hub.now.domain shard (marks_of passes.new shard)
        (host_as ⟦<dyn Robot as Robot>⟧ robots.new)) }
{
    for _ in rt.forever() {
        if turn_at::<R, F, C, G>(rt, alloc, hub, passes, robots, attendant, shard)?.is_some() {
            return Ok(());
        }
    }
    unreachable!()
}

// `settle_one` at each shard, one after the other.
fn settle_all<R: Wait, F: Folder + Drop, C: Clock, G: Gate>(
    rt: &R,
    alloc: Global,
    hub: &Hub<F>,
    passes: &mut Passes<F>,
    robots: &mut RobotHost,
    attendant: &mut Attendant<C, G>,
) -> Result<(), HubFault>
    requires own { AreOfHub hub.now passes.old }
    requires ready { AreReady hub.now.domain (marks_of passes.old) (host_as ⟦<dyn Robot as Robot>⟧ robots.old) }
    ensures own { AreOfHub hub.now passes.new }
    ensures later { Begins passes.old passes.new }
    ensures ready { OnOk result (AreReady hub.now.domain (marks_of passes.new) (host_as ⟦<dyn Robot as Robot>⟧ robots.new)) }
    ensures settled { OnOk result (AreSettledBelow 16 hub.now.domain (marks_of passes.new) (host_as ⟦<dyn Robot as Robot>⟧ robots.new)) }
{
    for shard in 0..SHARDS {
        settle_one::<R, F, C, G>(rt, alloc, hub, passes, robots, attendant, shard)?;
    }
    Ok(())
}

/// Lets the robots take turns at each shard until nothing is left for them, and submits their edits.
pub(crate) fn settle<R: Wait, F: Folder + Drop, C: Clock, G: Gate>(
    rt: &R,
    alloc: Global,
    hub: &Hub<F>,
    passes: &mut Passes<F>,
    robots: &mut RobotHost,
    attendant: &mut Attendant<C, G>,
    spent: &mut Option<turn_lock::Spent>,
) -> Result<(), Stop>
    requires own { AreOfHub hub.now passes.old }
    requires ready { AreReady hub.now.domain (marks_of passes.old) (host_as ⟦<dyn Robot as Robot>⟧ robots.old) }
    requires unspent { is_some spent.old ≡ false }
    ensures own { AreOfHub hub.now passes.new }
    ensures later { Begins passes.old passes.new }
    ensures ready { OnOk result (AreReady hub.now.domain (marks_of passes.new) (host_as ⟦<dyn Robot as Robot>⟧ robots.new)) }
    ensures settled { OnOk result (AreSettledBelow 16 hub.now.domain (marks_of passes.new) (host_as ⟦<dyn Robot as Robot>⟧ robots.new)) }
    ensures spent { TellsSpent (is_some spent.new) result }
    ensures kinds { IfErr result (λ s. (s ≢ Refused) × (s ≢ Door)) }
{
    match settle_all::<R, F, C, G>(rt, alloc, hub, passes, robots, attendant) {
        Ok(()) => Ok(()),
        Err(fault) => Err(stop_of(fault, spent)),
    }
}
