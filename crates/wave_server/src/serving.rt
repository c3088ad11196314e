// What a server does until its sessions have ended.
ghost use Rattle.std.specs.Prelude.{◌≡◌, ◌≢◌, ◌<◌, ◌≤◌, ◌+◌, [], IsTrue, length, vec_len, vec_capacity, IfOk, IfErr, IfSome, OnOk};
ghost use Rattle.std.specs.Prelude.{MatchBool, MatchResult, List, true, false, Some, is_some, cond, min, ◌-◌, ◌^◌, ℕ};
ghost use Rattle.std.specs.Arc.{arc_value};
ghost use denote.Param.Send.{IsSend};
ghost use mathlib.Core.List.{IsPrefix};
ghost use Rattle.wave_outside.specs.Counts.{Rose, raised};
ghost use Rattle.turn_cells.specs.Cells.{Begins};
ghost use Rattle.shard_marks.specs.Passes.{marks_of};
ghost use Rattle.session_hub.specs.Hubs.{AreOfHub, server_of};
ghost use Rattle.robot_host.specs.Hosts.{host_as};
ghost use Rattle.peer_rounds.specs.Peers.{held, names};
ghost use Rattle.peer_rounds.specs.Reached.{HaveReached};
ghost use Rattle.peer_rounds.specs.Stands.{AreDialled, AreReady as PeersReady};
ghost use Rattle.wave_server.specs.Counting.{WereAccepted};
ghost use Rattle.wave_server.specs.Meeting.{HaveMet};
ghost use Rattle.wave_server.specs.Robots.{AreReady, WereServed};
ghost use Rattle.wave_server.specs.Running.{AreOurs, HasServed, IsGoing};
ghost use Rattle.wave_server.specs.Statuses.{TellsSpent};
ghost use Rattle.wave_server.specs.declared.stop.Stop.TheVariants.{Refused, Door, Spent};

use crate::attendant::Attendant;
use crate::herald::Herald;
use crate::meeting::{meet, part};
use crate::robots::{attend, settle};
use crate::server::Server;
use crate::starting::start_job;
use crate::stop::Stop;
use crate::taking::take_end;
use peer_rounds::Peers;
use peer_turns::PeerTurns;
use robot_host::{Robot, RobotHost};
use session_hub::{Hub, HubTurns, Passes};
use session_link::LinkJob;
use std::alloc::Global;
use std::sync::{Arc, Wait};
use wave_outside::{Accepted, Clock, Folder, Gate, Job, Net, NetFault, Spawner};

// The place of a job that has ended.
fn find_done<R: Wait, J: Job, P: Spawner<J, R>>(spawner: &P, jobs: &[P::Running]) -> Option<usize>
    ensures { IfSome result (λ i. i < length jobs.now) }
{
    for place in 0..jobs.len() {
        if spawner.done(&jobs[place]) {
            return Some(place);
        }
    }
    None
}

// Takes the end of the job at this place, which has ended.
fn take_one<
    R: Wait,
    N: Net,
    F: Folder + Drop,
    C: Clock + Drop,
    P: Spawner<LinkJob<N::Link, F, C, G>, R>,
    G: Gate + Drop,
>(
    rt: &R,
    alloc: Global,
    server: &mut Server<N, F, P, G>,
    hub: &Arc<Hub<F>, Global>,
    passes: &mut Passes<F>,
    jobs: &mut Vec<P::Running>,
    place: usize,
    put: &mut u64,
    keeps: bool,
)
    requires few { put.old < 2 ^ 64 - 1 }
    requires place { place < vec_len jobs.old }
    requires own { AreOfHub (arc_value hub.now) passes.old }
    requires ours { AreOurs (λ r. arc_value (P.job_of r).hub) (arc_value hub.now) jobs.old.items }
    requires out { vec_len jobs.old ≤ N.out server.old.net }
    requires room { keeps ≡ true → vec_len server.old.ended + vec_len jobs.old ≤ vec_capacity server.old.ended }
    ensures own { AreOfHub (arc_value hub.now) passes.new }
    ensures later { Begins passes.old passes.new }
    ensures ours { AreOurs (λ r. arc_value (P.job_of r).hub) (arc_value hub.now) jobs.new.items }
    ensures out { (held : ℕ) → vec_len jobs.old + held ≤ N.out server.old.net → vec_len jobs.new + held ≤ N.out server.new.net }
    ensures room { keeps ≡ true → vec_len server.new.ended + vec_len jobs.new ≤ vec_capacity server.new.ended }
    ensures total { keeps ≡ true → vec_len server.new.ended + vec_len jobs.new ≡ vec_len server.old.ended + vec_len jobs.old }
    ensures door { N.door server.new.net ≡ N.door server.old.net }
    ensures refused { P.refused server.new.spawner ≡ P.refused server.old.spawner }
    ensures accepted { N.accepted server.new.net ≡ N.accepted server.old.net }
    ensures asked { IsTrue N.tells → N.asked server.new.net ≡ N.asked server.old.net }
    ensures going { (before : List N.Link) (line : ℕ) → IsGoing N.Link.Link (server_of (arc_value hub.now)) (marks_of passes.old)
        (is_some server.old.spent) put.old before
        (N.back server.old.net) line (N.line server.old.net) server.old.ended.items
        → IsGoing N.Link.Link (server_of (arc_value hub.now)) (marks_of passes.new) (is_some server.new.spent) put.new before
        (N.back server.new.net) line (N.line server.new.net) server.new.ended.items }
{
    let running = jobs.swap_remove(place);
    take_end::<R, N, F, C, P, G>(rt, alloc, server, hub, passes, running, put, keeps);
}

// Whether the server goes on after the end of a session.
fn goes_on(spent: &Option<turn_lock::Spent>) -> Result<bool, Stop>
    ensures { MatchResult result (λ b. (b ≡ false) × (is_some spent.now ≡ false)) (λ s. (s ≡ Spent) × (is_some spent.now ≡ true)) }
{
    if spent.is_some() {
        return Err(Stop::Spent);
    }
    Ok(false)
}

// Accepts a link, if one came, and starts a job for it. True where it did.
fn accept_one<
    R: Wait,
    N: Net,
    F: Folder + Drop,
    C: Clock + Drop,
    P: Spawner<LinkJob<N::Link, F, C, G>, R>,
    G: Gate + Drop,
>(
    rt: &R,
    alloc: Global,
    server: &mut Server<N, F, P, G>,
    clock: &C,
    hub: &Arc<Hub<F>, Global>,
    passes: &mut Passes<F>,
    jobs: &mut Vec<P::Running>,
    number: u64,
    keeps: bool,
) -> Result<bool, Stop>
    requires sends { IsSend R.row }
    requires own { AreOfHub (arc_value hub.now) passes.old }
    requires ours { AreOurs (λ r. arc_value (P.job_of r).hub) (arc_value hub.now) jobs.old.items }
    requires out { vec_len jobs.old ≤ N.out server.old.net }
    requires room { keeps ≡ true → vec_len server.old.ended + vec_len jobs.old ≤ vec_capacity server.old.ended }
    ensures own { AreOfHub (arc_value hub.now) passes.new }
    ensures later { Begins passes.old passes.new }
    ensures ours { AreOurs (λ r. arc_value (P.job_of r).hub) (arc_value hub.now) jobs.new.items }
    ensures out { (held : ℕ) → vec_len jobs.old + held ≤ N.out server.old.net → vec_len jobs.new + held ≤ N.out server.new.net }
    ensures room { keeps ≡ true → vec_len server.new.ended + vec_len jobs.new ≤ vec_capacity server.new.ended }
    ensures started { IfOk result (λ b. MatchBool b (vec_len jobs.new ≡ vec_len jobs.old + 1) (vec_len jobs.new ≡ vec_len jobs.old)) }
    ensures accepted { MatchResult result
        (λ b. N.accepted server.new.net ≡ cond b (raised (N.accepted server.old.net)) (N.accepted server.old.net))
        (λ _. N.accepted server.new.net ≤ N.accepted server.old.net + 1) }
    ensures ended { (server.new.ended.items ≡ server.old.ended.items) × (N.back server.new.net ≡ N.back server.old.net) }
    ensures line { N.line server.new.net ≡ N.line server.old.net }
    ensures asked { IsTrue N.tells → N.asked server.new.net ≡ N.asked server.old.net }
    ensures refused { IfErr result (λ s. s ≡ Refused → Rose (P.refused server.old.spawner) (P.refused server.new.spawner)) }
    ensures door { IfErr result (λ s. s ≡ Door → Rose (N.door server.old.net) (N.door server.new.net)) }
    ensures counts { (P.refused server.old.spawner ≤ P.refused server.new.spawner) × (N.door server.old.net ≤ N.door server.new.net) }
    ensures spent { (server.new.spent ≡ server.old.spent) × IfErr result (λ s. s ≢ Spent) }
{
    match server.net.accept(alloc) {
        Ok(Accepted::Link(link)) => {
            match start_job::<R, N, F, C, P, G>(
                rt, alloc, server, clock, hub, passes, jobs, link, number, keeps,
            ) {
                Ok(()) => Ok(true),
                Err(stop) => Err(stop),
            }
        }
        Ok(Accepted::Nothing) => Ok(false),
        Err(NetFault::Failed) => Err(Stop::Door),
        Err(NetFault::Memory) => Err(Stop::Memory),
    }
}

// Sleeps at the door, unless the server is to stay awake.
fn rest<N: Net>(net: &mut N, awake: bool)
    ensures counts { (N.door net.new ≡ N.door net.old) × (N.line net.new ≡ N.line net.old) }
    ensures asked { IsTrue N.tells → N.asked net.new ≡ N.asked net.old }
    ensures same { (N.accepted net.new ≡ N.accepted net.old) × (N.out net.new ≡ N.out net.old) × (N.back net.new ≡ N.back net.old) }
{
    if !awake {
        net.rest();
    }
}

// Accepts a link, or else sleeps at the door.
fn accept_or_rest<
    R: Wait,
    N: Net,
    F: Folder + Drop,
    C: Clock + Drop,
    P: Spawner<LinkJob<N::Link, F, C, G>, R>,
    G: Gate + Drop,
>(
    rt: &R,
    alloc: Global,
    server: &mut Server<N, F, P, G>,
    clock: &C,
    hub: &Arc<Hub<F>, Global>,
    passes: &mut Passes<F>,
    jobs: &mut Vec<P::Running>,
    started: &mut u64,
    most: u64,
    keeps: bool,
    awake: bool,
) -> Result<bool, Stop>
    requires sends { IsSend R.row }
    requires own { AreOfHub (arc_value hub.now) passes.old }
    requires ours { AreOurs (λ r. arc_value (P.job_of r).hub) (arc_value hub.now) jobs.old.items }
    requires out { vec_len jobs.old ≤ N.out server.old.net }
    requires room { keeps ≡ true → vec_len server.old.ended + vec_len jobs.old ≤ vec_capacity server.old.ended }
    requires total { keeps ≡ true → vec_len server.old.ended + vec_len jobs.old ≡ started.old }
    requires most { started.old < most }
    requires spent { is_some server.old.spent ≡ false }
    ensures own { AreOfHub (arc_value hub.now) passes.new }
    ensures later { Begins passes.old passes.new }
    ensures ours { AreOurs (λ r. arc_value (P.job_of r).hub) (arc_value hub.now) jobs.new.items }
    ensures out { (held : ℕ) → vec_len jobs.old + held ≤ N.out server.old.net → vec_len jobs.new + held ≤ N.out server.new.net }
    ensures room { keeps ≡ true → vec_len server.new.ended + vec_len jobs.new ≤ vec_capacity server.new.ended }
    ensures total { OnOk result (keeps ≡ true → vec_len server.new.ended + vec_len jobs.new ≡ started.new) }
    ensures most { OnOk result (started.new ≤ most) }
    ensures all { IfOk result (λ b. b ≡ true → (keeps ≡ true) × (vec_len server.new.ended ≡ most) × (started.new ≡ most)) }
    ensures accepted { (base : ℕ) → WereAccepted base (N.accepted server.old.net) started.old
        → MatchResult result (λ _. WereAccepted base (N.accepted server.new.net) started.new)
        (λ _. N.accepted server.new.net ≤ base + most) }
    ensures spent { TellsSpent (is_some server.new.spent) result }
    ensures refused { IfErr result (λ s. s ≡ Refused → Rose (P.refused server.old.spawner) (P.refused server.new.spawner)) }
    ensures door { IfErr result (λ s. s ≡ Door → Rose (N.door server.old.net) (N.door server.new.net)) }
    ensures counts { (P.refused server.old.spawner ≤ P.refused server.new.spawner) × (N.door server.old.net ≤ N.door server.new.net) }
    ensures asked { IsTrue N.tells → N.asked server.new.net ≡ N.asked server.old.net }
    ensures going { (before : List N.Link) (line put : ℕ) → IsGoing N.Link.Link (server_of (arc_value hub.now))
        (marks_of passes.old) (is_some server.old.spent) put before
        (N.back server.old.net) line (N.line server.old.net) server.old.ended.items
        → IsGoing N.Link.Link (server_of (arc_value hub.now)) (marks_of passes.new) (is_some server.new.spent) put before
        (N.back server.new.net) line (N.line server.new.net) server.new.ended.items }
{
    match accept_one::<R, N, F, C, P, G>(
        rt, alloc, server, clock, hub, passes, jobs, *started, keeps,
    ) {
        Ok(true) => {
            *started += 1;
            Ok(false)
        }
        Ok(false) => {
            rest(&mut server.net, awake);
            Ok(false)
        }
        Err(stop) => Err(stop),
    }
}

// Takes the end of a job, or accepts a link where more are wanted, or else sleeps unless it is to stay awake. True where all sessions
// have ended.
fn turn<
    R: Wait,
    N: Net,
    F: Folder + Drop,
    C: Clock + Drop,
    P: Spawner<LinkJob<N::Link, F, C, G>, R>,
    G: Gate + Drop,
>(
    rt: &R,
    alloc: Global,
    server: &mut Server<N, F, P, G>,
    clock: &C,
    hub: &Arc<Hub<F>, Global>,
    passes: &mut Passes<F>,
    jobs: &mut Vec<P::Running>,
    started: &mut u64,
    most: u64,
    keeps: bool,
    put: &mut u64,
    awake: bool,
) -> Result<bool, Stop>
    requires sends { IsSend R.row }
    requires own { AreOfHub (arc_value hub.now) passes.old }
    requires ours { AreOurs (λ r. arc_value (P.job_of r).hub) (arc_value hub.now) jobs.old.items }
    requires out { vec_len jobs.old ≤ N.out server.old.net }
    requires room { keeps ≡ true → vec_len server.old.ended + vec_len jobs.old ≤ vec_capacity server.old.ended }
    requires total { keeps ≡ true → vec_len server.old.ended + vec_len jobs.old ≡ started.old }
    requires most { started.old ≤ most }
    requires spent { is_some server.old.spent ≡ false }
    ensures own { AreOfHub (arc_value hub.now) passes.new }
    ensures later { Begins passes.old passes.new }
    ensures ours { AreOurs (λ r. arc_value (P.job_of r).hub) (arc_value hub.now) jobs.new.items }
    ensures out { (held : ℕ) → vec_len jobs.old + held ≤ N.out server.old.net → vec_len jobs.new + held ≤ N.out server.new.net }
    ensures room { keeps ≡ true → vec_len server.new.ended + vec_len jobs.new ≤ vec_capacity server.new.ended }
    ensures total { OnOk result (keeps ≡ true → vec_len server.new.ended + vec_len jobs.new ≡ started.new) }
    ensures most { OnOk result (started.new ≤ most) }
    ensures all { IfOk result (λ b. b ≡ true → (keeps ≡ true) × (vec_len server.new.ended ≡ most) × (started.new ≡ most)) }
    ensures accepted { (base : ℕ) → WereAccepted base (N.accepted server.old.net) started.old
        → MatchResult result (λ _. WereAccepted base (N.accepted server.new.net) started.new)
        (λ _. N.accepted server.new.net ≤ base + most) }
    ensures spent { TellsSpent (is_some server.new.spent) result }
    ensures refused { IfErr result (λ s. s ≡ Refused → Rose (P.refused server.old.spawner) (P.refused server.new.spawner)) }
    ensures door { IfErr result (λ s. s ≡ Door → Rose (N.door server.old.net) (N.door server.new.net)) }
    ensures counts { (P.refused server.old.spawner ≤ P.refused server.new.spawner) × (N.door server.old.net ≤ N.door server.new.net) }
    ensures asked { IsTrue N.tells → N.asked server.new.net ≡ N.asked server.old.net }
    ensures going { (before : List N.Link) (line : ℕ) → IsGoing N.Link.Link (server_of (arc_value hub.now)) (marks_of passes.old)
        (is_some server.old.spent) put.old before
        (N.back server.old.net) line (N.line server.old.net) server.old.ended.items
        → IsGoing N.Link.Link (server_of (arc_value hub.now)) (marks_of passes.new) (is_some server.new.spent) put.new before
        (N.back server.new.net) line (N.line server.new.net) server.new.ended.items }
{
    if *put == u64::MAX {
        return Err(Stop::Memory);
    }
    if let Some(place) = find_done::<R, LinkJob<N::Link, F, C, G>, P>(
        &server.spawner,
        jobs.as_slice(),
    ) {
        take_one::<R, N, F, C, P, G>(rt, alloc, server, hub, passes, jobs, place, put, keeps);
        return goes_on(&server.spent);
    }
    if *started < most {
        return accept_or_rest::<R, N, F, C, P, G>(
            rt, alloc, server, clock, hub, passes, jobs, started, most, keeps, awake,
        );
    }
    if keeps && jobs.is_empty() {
        return Ok(true);
    }
    rest(&mut server.net, awake);
    Ok(false)
}

// What is done in each turn for robots and peers. True where a peer's link did something, after which the server stays awake.
fn tend<R: Wait, N: Net, F: Folder + Drop, C: Clock, P, G: Gate, T: PeerTurns>(
    rt: &R,
    alloc: Global,
    server: &mut Server<N, F, P, G>,
    hub: &Hub<F>,
    passes: &mut Passes<F>,
    robots: &mut RobotHost,
    attendant: &mut Attendant<C, G>,
    peers: &mut Peers<N::Link>,
    turns: &mut T,
    herald: &mut Herald<G>,
    put: &mut u64,
) -> Result<bool, Stop>
    requires own { AreOfHub hub.now passes.old }
    requires ready { AreReady hub.now.domain (marks_of passes.old) (host_as ⟦<dyn Robot as Robot>⟧ robots.old) }
    requires unspent { is_some server.old.spent ≡ false }
    requires held { held peers.old.list.items ≤ N.out server.old.net }
    ensures own { AreOfHub hub.now passes.new }
    ensures later { Begins passes.old passes.new }
    ensures ready { OnOk result (AreReady hub.now.domain (marks_of passes.new) (host_as ⟦<dyn Robot as Robot>⟧ robots.new)) }
    ensures spent { TellsSpent (is_some server.new.spent) result }
    ensures kinds { IfErr result (λ s. (s ≢ Refused) × (s ≢ Door)) }
    ensures same { (server.new.ended ≡ server.old.ended) × (server.new.spawner ≡ server.old.spawner) }
    ensures counts { (N.door server.new.net ≡ N.door server.old.net) × (N.accepted server.new.net ≡ N.accepted server.old.net) }
    ensures out { N.out server.new.net + held peers.old.list.items ≡ N.out server.old.net + held peers.new.list.items }
    ensures rises { min (N.line server.old.net) (2 ^ 64 - 1) ≤ N.line server.new.net }
    ensures back { IsPrefix (N.back server.old.net) (N.back server.new.net) }
    ensures put { OnOk result (length (N.back server.new.net) + put.old ≡ length (N.back server.old.net) + put.new) }
    ensures dialled { OnOk result (PeersReady N.tells (N.asked server.old.net) peers.old.list.items
        → PeersReady N.tells (N.asked server.new.net) peers.new.list.items) }
    ensures named { names peers.new.list.items ≡ names peers.old.list.items }
{
    attend::<R, F, C, G>(rt, alloc, hub, passes, robots, attendant, &mut server.spent)?;
    let worked = meet::<R, N, T>(
        rt,
        alloc,
        &mut server.net,
        peers,
        turns,
        put,
        &mut server.spent,
    )?;
    if worked {
        herald.tell(hub, passes);
    }
    Ok(worked)
}

// What is done when all sessions have ended: the peers' links are stepped for the last time, and the robots take their last turns.
fn settle_all<R: Wait, N: Net, F: Folder + Drop, C: Clock, P, G: Gate, T: PeerTurns>(
    rt: &R,
    alloc: Global,
    server: &mut Server<N, F, P, G>,
    hub: &Hub<F>,
    passes: &mut Passes<F>,
    robots: &mut RobotHost,
    attendant: &mut Attendant<C, G>,
    peers: &mut Peers<N::Link>,
    turns: &mut T,
) -> Result<(), Stop>
    requires own { AreOfHub hub.now passes.old }
    requires ready { AreReady hub.now.domain (marks_of passes.old) (host_as ⟦<dyn Robot as Robot>⟧ robots.old) }
    requires unspent { is_some server.old.spent ≡ false }
    requires held { held peers.old.list.items ≤ N.out server.old.net }
    ensures own { AreOfHub hub.now passes.new }
    ensures later { Begins passes.old passes.new }
    ensures robots { OnOk result (WereServed hub.now.domain (marks_of passes.new) (host_as ⟦<dyn Robot as Robot>⟧ robots.new)) }
    ensures reached { OnOk result (PeersReady N.tells (N.asked server.old.net) peers.old.list.items
        → HaveReached (N.line server.old.net) (N.line server.new.net) peers.new.list.items) }
    ensures dialled { OnOk result (PeersReady N.tells (N.asked server.old.net) peers.old.list.items
        → IsTrue N.tells → AreDialled (N.asked server.new.net) (names peers.new.list.items)) }
    ensures spent { TellsSpent (is_some server.new.spent) result }
    ensures kinds { IfErr result (λ s. (s ≢ Refused) × (s ≢ Door)) }
    ensures same { (server.new.ended ≡ server.old.ended) × (server.new.spawner ≡ server.old.spawner) }
    ensures counts { (N.door server.new.net ≡ N.door server.old.net) × (N.accepted server.new.net ≡ N.accepted server.old.net) }
    ensures out { N.out server.new.net + held peers.old.list.items ≡ N.out server.old.net + held peers.new.list.items }
    ensures rises { min (N.line server.old.net) (2 ^ 64 - 1) ≤ N.line server.new.net }
    ensures back { IsPrefix (N.back server.old.net) (N.back server.new.net) }
    ensures named { names peers.new.list.items ≡ names peers.old.list.items }
{
    part::<R, N, T>(rt, alloc, &mut server.net, peers, turns, &mut server.spent)?;
    settle::<R, F, C, G>(rt, alloc, hub, passes, robots, attendant, &mut server.spent)
}

// Accepts links, serves each, and takes the ends of all jobs, of which none runs yet, until so many sessions have ended; where ends aren't
// kept, until it stops. Between, robots take turns and the peers' links are stepped; and then until nothing is left for either.
fn go_on<
    R: Wait,
    N: Net,
    F: Folder + Drop,
    C: Clock + Drop,
    P: Spawner<LinkJob<N::Link, F, C, G>, R>,
    G: Gate + Drop,
    T: PeerTurns,
>(
    rt: &R,
    alloc: Global,
    server: &mut Server<N, F, P, G>,
    clock: &C,
    hub: &Arc<Hub<F>, Global>,
    passes: &mut Passes<F>,
    robots: &mut RobotHost,
    peers: &mut Peers<N::Link>,
    jobs: &mut Vec<P::Running>,
    attendant: &mut Attendant<C, G>,
    herald: &mut Herald<G>,
    turns: &mut T,
    most: u64,
    keeps: bool,
) -> Result<(), Stop>
    requires sends { IsSend R.row }
    requires own { AreOfHub (arc_value hub.now) passes.old }
    requires idle { (jobs.old.items ≡ []) × (vec_len jobs.old ≡ 0) }
    requires empty { (server.old.ended.items ≡ []) × (vec_len server.old.ended ≡ 0) × (is_some server.old.spent ≡ false) }
    requires ready { AreReady (arc_value hub.now).domain (marks_of passes.old) (host_as ⟦<dyn Robot as Robot>⟧ robots.old) }
    requires unlinked { held peers.old.list.items ≡ 0 }
    requires undialled { PeersReady N.tells (N.asked server.old.net) peers.old.list.items }
    ensures own { AreOfHub (arc_value hub.now) passes.new }
    ensures later { Begins passes.old passes.new }
    ensures robots { OnOk result (WereServed (arc_value hub.now).domain (marks_of passes.new)
        (host_as ⟦<dyn Robot as Robot>⟧ robots.new)) }
    ensures all { OnOk result ((keeps ≡ true) × (vec_len server.new.ended ≡ most)) }
    ensures accepted { MatchResult result (λ _. WereAccepted (N.accepted server.old.net) (N.accepted server.new.net) most)
        (λ _. N.accepted server.new.net ≤ N.accepted server.old.net + most) }
    ensures spent { TellsSpent (is_some server.new.spent) result }
    ensures refused { IfErr result (λ s. s ≡ Refused → Rose (P.refused server.old.spawner) (P.refused server.new.spawner)) }
    ensures door { IfErr result (λ s. s ≡ Door → Rose (N.door server.old.net) (N.door server.new.net)) }
    ensures served { HasServed N.Link.Link (server_of (arc_value hub.now)) (marks_of passes.new) (is_some server.new.spent)
        (N.back server.old.net) (N.back server.new.net) server.new.ended.items }
    ensures met { OnOk result (HaveMet N.Link.Link (N.back server.old.net) (N.back server.new.net) (N.line server.old.net)
        (N.line server.new.net)
        server.new.ended.items peers.new.list.items) }
    ensures dialled { OnOk result (IsTrue N.tells → AreDialled (N.asked server.new.net) (names peers.new.list.items)) }
    ensures named { names peers.new.list.items ≡ names peers.old.list.items }
    ensures held { held peers.new.list.items ≤ N.out server.new.net }
{
    let mut started = 0u64;
    let mut put = 0u64;
    // Peers are dialled before it sleeps for the first time.
    let mut awake = true;
    for _ in rt.forever() {
        match turn::<R, N, F, C, P, G>(
            rt,
            alloc,
            server,
            clock,
            hub,
            passes,
            jobs,
            &mut started,
            most,
            keeps,
            &mut put,
            awake,
        ) {
            Ok(true) => {
                return settle_all::<R, N, F, C, P, G, T>(
                    rt, alloc, server, hub, passes, robots, attendant, peers, turns,
                );
            }
            Ok(false) => match tend::<R, N, F, C, P, G, T>(
                rt, alloc, server, hub, passes, robots, attendant, peers, turns, herald, &mut put,
            ) {
                Ok(worked) => awake = worked,
                Err(stop) => return Err(stop),
            },
            Err(stop) => return Err(stop),
        }
    }
    unreachable!()
}

/// Makes what the server needs while it runs, and then does what `go_on` does.
pub(crate) fn serve_all<
    R: Wait,
    N: Net,
    F: Folder + Drop,
    C: Clock + Drop,
    P: Spawner<LinkJob<N::Link, F, C, G>, R>,
    G: Gate + Drop,
>(
    rt: &R,
    alloc: Global,
    server: &mut Server<N, F, P, G>,
    clock: &C,
    hub: &Arc<Hub<F>, Global>,
    passes: &mut Passes<F>,
    robots: &mut RobotHost,
    peers: &mut Peers<N::Link>,
    most: u64,
    keeps: bool,
) -> Result<(), Stop>
    requires sends { IsSend R.row }
    requires own { AreOfHub (arc_value hub.now) passes.old }
    requires empty { (server.old.ended.items ≡ []) × (vec_len server.old.ended ≡ 0) × (is_some server.old.spent ≡ false) }
    requires ready { AreReady (arc_value hub.now).domain (marks_of passes.old) (host_as ⟦<dyn Robot as Robot>⟧ robots.old) }
    requires unlinked { held peers.old.list.items ≡ 0 }
    requires undialled { PeersReady N.tells (N.asked server.old.net) peers.old.list.items }
    ensures own { AreOfHub (arc_value hub.now) passes.new }
    ensures later { Begins passes.old passes.new }
    ensures robots { OnOk result (WereServed (arc_value hub.now).domain (marks_of passes.new)
        (host_as ⟦<dyn Robot as Robot>⟧ robots.new)) }
    ensures all { OnOk result ((keeps ≡ true) × (vec_len server.new.ended ≡ most)) }
    ensures accepted { MatchResult result (λ _. WereAccepted (N.accepted server.old.net) (N.accepted server.new.net) most)
        (λ _. N.accepted server.new.net ≤ N.accepted server.old.net + most) }
    ensures spent { TellsSpent (is_some server.new.spent) result }
    ensures refused { IfErr result (λ s. s ≡ Refused → Rose (P.refused server.old.spawner) (P.refused server.new.spawner)) }
    ensures door { IfErr result (λ s. s ≡ Door → Rose (N.door server.old.net) (N.door server.new.net)) }
    ensures served { HasServed N.Link.Link (server_of (arc_value hub.now)) (marks_of passes.new) (is_some server.new.spent)
        (N.back server.old.net) (N.back server.new.net) server.new.ended.items }
    ensures met { OnOk result (HaveMet N.Link.Link (N.back server.old.net) (N.back server.new.net) (N.line server.old.net)
        (N.line server.new.net)
        server.new.ended.items peers.new.list.items) }
    ensures dialled { OnOk result (IsTrue N.tells → AreDialled (N.asked server.new.net) (names peers.new.list.items)) }
    ensures named { names peers.new.list.items ≡ names peers.old.list.items }
    ensures held { held peers.new.list.items ≤ N.out server.new.net }
{
    let Ok(own) = hub.split(alloc, passes) else {
        return Err(Stop::Memory);
    };
    let mut turns = HubTurns::new(hub, own);
    let mut jobs = Vec::new(alloc);
    let mut attendant = Attendant::new(clock, &server.gate);
    let mut herald = Herald::new(&server.gate);
    if !hub.peers().is_empty() {
        herald.listen();
    }
    go_on::<R, N, F, C, P, G, HubTurns<F>>(
        rt,
        alloc,
        server,
        clock,
        hub,
        passes,
        robots,
        peers,
        &mut jobs,
        &mut attendant,
        &mut herald,
        &mut turns,
        most,
        keeps,
    )
}
