// What is done when a link was accepted.
ghost use Rattle.std.specs.Prelude.{◌≡◌, ◌≤◌, ◌+◌, ◌⊎◌, true, length, vec_len, vec_capacity, IfSome, OnOk, IfErr, MatchResult};
ghost use Rattle.std.specs.Arc.{arc_value};
ghost use denote.Param.Send.{IsSend};
ghost use Rattle.wave_outside.specs.Counts.{Rose};
ghost use Rattle.turn_cells.specs.Cells.{Begins};
ghost use Rattle.session_hub.specs.Hubs.{AreOfHub};
ghost use Rattle.wave_server.specs.Running.{AreOurs};
ghost use Rattle.wave_server.specs.declared.stop.Stop.TheVariants.{Refused, Memory};

use crate::server::{Ended, Server};
use crate::stop::Stop;
use session_hub::{Hub, Passes};
use session_link::LinkJob;
use std::alloc::{AllocError, Global};
use std::sync::{Arc, Wait};
use wave_outside::{Clock, Folder, Gate, Link, Net, Spawner};

// Takes the room for the report of one end more than so many jobs give, where ends are kept.
fn reserve_report(ended: &mut Vec<Ended>, jobs: usize, keeps: bool) -> Result<(), AllocError>
    ensures ended { (ended.new.items ≡ ended.old.items) × (vec_len ended.new ≡ vec_len ended.old)
        × (vec_capacity ended.old ≤ vec_capacity ended.new) }
    ensures report { OnOk result (keeps ≡ true → vec_len ended.new + (jobs + 1) ≤ vec_capacity ended.new) }
{
    if !keeps {
        return Ok(());
    }
    let Some(more) = jobs.checked_add(1) else {
        return Err(AllocError);
    };
    ended.reserve(more)
}

// Takes the room for one more job, and for the report of its end where ends are kept.
fn reserve<J>(ended: &mut Vec<Ended>, jobs: &mut Vec<J>, keeps: bool) -> Result<(), AllocError>
    ensures jobs { (jobs.new.items ≡ jobs.old.items) × (vec_len jobs.new ≡ vec_len jobs.old) }
    ensures room { OnOk result (vec_len jobs.new + 1 ≤ vec_capacity jobs.new) }
    ensures ended { (ended.new.items ≡ ended.old.items) × (vec_len ended.new ≡ vec_len ended.old)
        × (vec_capacity ended.old ≤ vec_capacity ended.new) }
    ensures report { OnOk result (keeps ≡ true → vec_len ended.new + (vec_len jobs.new + 1) ≤ vec_capacity ended.new) }
{
    match reserve_report(ended, jobs.len(), keeps) {
        Ok(()) => jobs.reserve(1),
        Err(fault) => Err(fault),
    }
}

// A second handle of the hub, with passes that have seen as much. None for want of memory.
fn share<F: Folder + Drop>(
    alloc: Global,
    hub: &Arc<Hub<F>, Global>,
    passes: &mut Passes<F>,
) -> Option<(Arc<Hub<F>, Global>, Passes<F>)>
    requires { AreOfHub (arc_value hub.now) passes.old }
    ensures own { AreOfHub (arc_value hub.now) passes.new }
    ensures later { Begins passes.old passes.new }
    ensures same { IfSome result (λ p. arc_value p.0 ≡ arc_value hub.now) }
    ensures part { IfSome result (λ p. AreOfHub (arc_value hub.now) p.1) }
{
    let Ok(theirs) = Arc::try_clone(hub) else {
        return None;
    };
    match hub.split(alloc, passes) {
        Ok(part) => Some((theirs, part)),
        Err(_) => None,
    }
}

// A job for a link, for which there is room, and for the report of its end where ends are kept. None for want of memory.
fn make_job<J, L: Link, F: Folder + Drop, C: Clock + Drop, G: Gate + Drop>(
    alloc: Global,
    ended: &mut Vec<Ended>,
    jobs: &mut Vec<J>,
    clock: &C,
    gate: &G,
    hub: &Arc<Hub<F>, Global>,
    passes: &mut Passes<F>,
    link: L,
    number: u64,
    keeps: bool,
) -> Option<LinkJob<L, F, C, G>>
    requires own { AreOfHub (arc_value hub.now) passes.old }
    requires unused { length (L.events link) ≡ 0 }
    ensures own { AreOfHub (arc_value hub.now) passes.new }
    ensures later { Begins passes.old passes.new }
    ensures jobs { (jobs.new.items ≡ jobs.old.items) × (vec_len jobs.new ≡ vec_len jobs.old) }
    ensures ended { (ended.new.items ≡ ended.old.items) × (vec_len ended.new ≡ vec_len ended.old)
        × (vec_capacity ended.old ≤ vec_capacity ended.new) }
    ensures room { IfSome result (λ _. vec_len jobs.new + 1 ≤ vec_capacity jobs.new) }
    ensures report { IfSome result (λ _. keeps ≡ true → vec_len ended.new + (vec_len jobs.new + 1) ≤ vec_capacity ended.new) }
    ensures ours { IfSome result (λ j. arc_value j.hub ≡ arc_value hub.now) }
{
    if reserve(ended, jobs, keeps).is_err() {
        return None;
    }
    let Some((theirs, part)) = share(alloc, hub, passes) else {
        return None;
    };
    let (time, door) = (clock.another(), gate.another());
    Some(LinkJob::new(theirs, part, link, time, door, number))
}

/// Starts a job for a link.
pub(crate) fn start_job<
    R: Wait,
    N: Net,
    F: Folder + Drop,
    C: Clock + Drop,
    P: Spawner<LinkJob<N::Link, F, C, G>, R>,
    G: Gate + Drop,
>(
    rt: &R,
    alloc: Global,
    server: &mut Server<N, F, P, G>,
    clock: &C,
    hub: &Arc<Hub<F>, Global>,
    passes: &mut Passes<F>,
    jobs: &mut Vec<P::Running>,
    link: N::Link,
    number: u64,
    keeps: bool,
) -> Result<(), Stop>
    requires sends { IsSend R.row }
    requires own { AreOfHub (arc_value hub.now) passes.old }
    requires unused { length (N.Link.events link) ≡ 0 }
    requires ours { AreOurs (λ r. arc_value (P.job_of r).hub) (arc_value hub.now) jobs.old.items }
    requires room { keeps ≡ true → vec_len server.old.ended + vec_len jobs.old ≤ vec_capacity server.old.ended }
    ensures own { AreOfHub (arc_value hub.now) passes.new }
    ensures later { Begins passes.old passes.new }
    ensures ours { AreOurs (λ r. arc_value (P.job_of r).hub) (arc_value hub.now) jobs.new.items }
    ensures started { MatchResult result (λ _. vec_len jobs.new ≡ vec_len jobs.old + 1) (λ _. vec_len jobs.new ≡ vec_len jobs.old) }
    ensures room { keeps ≡ true → vec_len server.new.ended + vec_len jobs.new ≤ vec_capacity server.new.ended }
    ensures ended { server.new.ended.items ≡ server.old.ended.items }
    ensures refused { IfErr result (λ s. s ≡ Refused → Rose (P.refused server.old.spawner) (P.refused server.new.spawner)) }
    ensures cause { IfErr result (λ s. (s ≡ Refused) ⊎ (s ≡ Memory)) }
    ensures later_refused { P.refused server.old.spawner ≤ P.refused server.new.spawner }
    ensures same { (server.new.net ≡ server.old.net) × (server.new.spent ≡ server.old.spent) }
{
    let Some(job) = make_job(
        alloc,
        &mut server.ended,
        jobs,
        clock,
        &server.gate,
        hub,
        passes,
        link,
        number,
        keeps,
    ) else {
        return Err(Stop::Memory);
    };
    match server.spawner.start(rt, alloc, job) {
        Ok(running) => {
            jobs.push_reserved(running);
            Ok(())
        }
        Err(_) => Err(Stop::Refused),
    }
}
