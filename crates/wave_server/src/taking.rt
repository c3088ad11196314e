// What is done when a session has ended.
ghost use Rattle.std.specs.Prelude.{◌≡◌, ◌≢◌, ◌<◌, ◌+◌, ◌-◌, ◌^◌, ◌++◌, ◌∷◌, [], ℕ, List, IsTrue, vec_len, vec_capacity, true, false};
ghost use Rattle.std.specs.Prelude.{is_some, MatchBool};
ghost use Rattle.std.specs.Arc.{arc_value};
ghost use Rattle.turn_cells.specs.Cells.{Begins};
ghost use Rattle.shard_marks.specs.Passes.{marks_of};
ghost use Rattle.session_hub.specs.Hubs.{AreOfHub, server_of};
ghost use Rattle.wave_server.specs.Running.{IsGoing};

use crate::server::{Ended, Server};
use session_hub::{Hub, Passes};
use session_link::LinkJob;
use session_steps::EndCause;
use std::alloc::Global;
use std::sync::Wait;
use turn_lock::Spent;
use wave_outside::{Clock, Folder, Gate, Net, Spawner};

// Keeps what tells that a shard has no turn left.
fn keep(kept: &mut Option<Spent>, cause: EndCause)
    ensures { is_some kept.new ≡ false → (is_some kept.old ≡ false) × ((s : Spent) → cause ≢ EndCause.Spent s) }
{
    if let EndCause::Spent(spent) = cause {
        *kept = Some(spent);
    }
}

// Notes the end of a session whose link was put back at this place, where ends are kept.
fn note(ended: &mut Vec<Ended>, keeps: bool, place: u64, cause: EndCause)
    requires { keeps ≡ true → vec_len ended.old < vec_capacity ended.old }
    ensures noted { MatchBool keeps (ended.new.items ≡ ended.old.items ++ record { place = place; cause = cause } ∷ [])
        (ended.new.items ≡ ended.old.items) }
    ensures room { MatchBool keeps (vec_len ended.new ≡ vec_len ended.old + 1) (vec_len ended.new ≡ vec_len ended.old) }
    ensures capacity { vec_capacity ended.new ≡ vec_capacity ended.old }
{
    if keeps {
        ended.push_reserved(Ended { place, cause });
    }
}

/// Takes the end of a job, puts its link back, and takes in what it has seen. So many links were put back before.
pub(crate) fn take_end<
    R: Wait,
    N: Net,
    F: Folder + Drop,
    C: Clock + Drop,
    P: Spawner<LinkJob<N::Link, F, C, G>, R>,
    G: Gate + Drop,
>(
    rt: &R,
    alloc: Global,
    server: &mut Server<N, F, P, G>,
    hub: &Hub<F>,
    passes: &mut Passes<F>,
    running: P::Running,
    put: &mut u64,
    keeps: bool,
)
    requires own { AreOfHub hub.now passes.old }
    requires ours { arc_value (P.job_of running).hub ≡ hub.now }
    requires out { 0 < N.out server.old.net }
    requires room { keeps ≡ true → vec_len server.old.ended < vec_capacity server.old.ended }
    requires few { put.old < 2 ^ 64 - 1 }
    ensures own { AreOfHub hub.now passes.new }
    ensures later { Begins passes.old passes.new }
    ensures out { N.out server.new.net + 1 ≡ N.out server.old.net }
    ensures ended { MatchBool keeps (vec_len server.new.ended ≡ vec_len server.old.ended + 1)
        (vec_len server.new.ended ≡ vec_len server.old.ended) }
    ensures capacity { vec_capacity server.new.ended ≡ vec_capacity server.old.ended }
    ensures door { N.door server.new.net ≡ N.door server.old.net }
    ensures refused { P.refused server.new.spawner ≡ P.refused server.old.spawner }
    ensures accepted { N.accepted server.new.net ≡ N.accepted server.old.net }
    ensures asked { IsTrue N.tells → N.asked server.new.net ≡ N.asked server.old.net }
    ensures going { (before : List N.Link) (line : ℕ) → IsGoing N.Link.Link (server_of hub.now) (marks_of passes.old)
        (is_some server.old.spent) put.old before
        (N.back server.old.net) line (N.line server.old.net) server.old.ended.items
        → IsGoing N.Link.Link (server_of hub.now) (marks_of passes.new) (is_some server.new.spent) put.new before
        (N.back server.new.net) line (N.line server.new.net) server.new.ended.items }
{
    let end = server.spawner.take(rt, alloc, running);
    let (link, theirs, cause) = end.into_parts();
    hub.join(passes, theirs);
    keep(&mut server.spent, cause);
    server.net.put(link);
    note(&mut server.ended, keeps, *put, cause);
    *put += 1;
}
