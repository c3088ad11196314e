// The server's call.
ghost use Rattle.std.specs.Prelude.{◌≡◌, ◌<◌, ◌⊎◌, ℕ, Bool, List, map, vec_len, OnOk, IfErr, IfSome, true, false, is_some};
ghost use Rattle.std.specs.Arc.{arc_value};
ghost use denote.Param.Send.{IsSend};
ghost use mathlib.Core.List.{IsPrefix};
ghost use Rattle.wave_outside.specs.declared.net.NetFault.TheVariants.{Failed};
ghost use Rattle.wavelet_shelf.specs.Shelves.{hosted_of};
ghost use Rattle.shard_marks.specs.Passes.{marks_of};
ghost use Rattle.shard_marks.specs.Servers.{server as server_by};
ghost use Rattle.session_hub.specs.Hubs.{AreOfHub, server_of};
ghost use Rattle.robot_host.specs.Hosts.{host_as, IsNew};
ghost use Rattle.peer_rounds.specs.Peers.{SpeakFor, held, names, names_by};
ghost use Rattle.peer_rounds.specs.Stands.{AreReady as PeersReady};
ghost use Rattle.wave_server.specs.Running.{BeginWith};
ghost use Rattle.wave_server.specs.Runs.{HasRun};
ghost use Rattle.wave_server.specs.Statuses.{IsStatus, IsServerStatus};

use crate::meeting::domains_of;
use crate::server::Server;
use crate::serving::serve_all;
use crate::stop::Stop;
use doc_items::Text;
use peer_rounds::Peers;
use robot_host::{Robot, RobotHost};
use session_hub::{Hub, Passes};
use session_link::LinkJob;
use std::alloc::Global;
use std::sync::{Arc, Wait};
use wave_base::Domain;
use wave_outside::{Clock, Folder, Gate, Link, Net, NetFault, Spawner};
use wavelet_shelf::Shelf;

/// The exit status where so many sessions have ended as the words say.
const DONE: u8 = 0;

/// The exit status where the door failed.
const DOOR: u8 = 7;

/// The exit status for want of memory.
const MEMORY: u8 = 8;

/// The exit status where a session could not be started.
const REFUSED: u8 = 9;

/// The exit status where a shard has no turn left.
const SPENT: u8 = 12;

fn status_of(end: Result<(), Stop>) -> u8
    ensures ok { OnOk end (result ≡ 0) }
    ensures err { IfErr end (λ s. IsStatus s result) }
{
    match end {
        Ok(()) => DONE,
        Err(Stop::Door) => DOOR,
        Err(Stop::Memory) => MEMORY,
        Err(Stop::Refused) => REFUSED,
        Err(Stop::Spent) => SPENT,
    }
}

fn status_of_door(fault: NetFault) -> u8
    ensures failed { result ≡ 7 → fault ≡ Failed }
    ensures known { (result ≡ 7) ⊎ (result ≡ 8) }
{
    match fault {
        NetFault::Failed => DOOR,
        NetFault::Memory => MEMORY,
    }
}

// The hub of a server, passes to it, and the server's peers.
type Parts<F, L> = (Arc<Hub<F>, Global>, Passes<F>, Peers<L>);

// The parts of a server of the wavelets of a shelf that the domain hosts, with these peers, none of which was dialled. None for want of
// memory.
fn make_parts<F: Folder + Drop, L: Link>(
    alloc: Global,
    domain: Domain,
    peers: &[(Domain, Text)],
    shelf: Shelf<F>,
) -> Option<Parts<F, L>>
    ensures own { IfSome result (λ p. AreOfHub (arc_value p.0) p.1) }
    ensures domain { IfSome result (λ p. (arc_value p.0).domain ≡ domain) }
    ensures speak { IfSome result (λ p. SpeakFor (arc_value p.0).domain (names p.2.list.items)) }
    ensures server { IfSome result (λ p. server_of (arc_value p.0) ≡ server_by domain (map (λ a. a.0) peers.now)) }
    ensures begun { IfSome result (λ p. BeginWith domain (hosted_of shelf) (marks_of p.1)) }
    ensures named { IfSome result (λ p. names p.2.list.items ≡ names_by domain peers.now) }
    ensures unlinked { IfSome result (λ p. held p.2.list.items ≡ 0) }
    ensures undialled { IfSome result (λ p. (tells : Bool) → (asked : List (List ℕ)) → PeersReady tells asked p.2.list.items) }
{
    let Ok(domains) = domains_of(alloc, peers) else {
        return None;
    };
    let Ok(links) = Peers::new(alloc, &domain, peers) else {
        return None;
    };
    let Ok((hub, passes)) = Hub::new(alloc, domain, domains, shelf) else {
        return None;
    };
    match Arc::new(alloc, hub) {
        Ok(hub) => Some((hub, passes, links)),
        Err(_) => None,
    }
}

/// Serves the wavelets of a shelf that the domain hosts, at an address, and gives the exit status: 0 once so many sessions have ended,
/// and where no number is given it doesn't end; 7 where the door failed, 8 out of memory, 9 where a session could not be started, 12
/// where a shard has no turn left. Each link that is accepted gets a session of its own, and no more are accepted than the number says.
/// What the sessions saw of the shards is left in `passes`, and begins with a mark for each delta of the shelf's histories; where nothing
/// is there, nobody was served. The robots, over which no turn was taken yet, are shown what is written while the server runs, and their
/// edits are submitted; with 0 nothing is left for them. The server of each peer is dialled, and again after a pause when its link was cut;
/// what peers host is kept as copies, over which sessions work as over what is hosted here. With 0 each peer's link was stepped until it
/// came to rest, idle, closed or cut, or the line told that it failed.
pub fn serve<
    R: Wait,
    N: Net,
    F: Folder + Drop,
    C: Clock + Drop,
    P: Spawner<LinkJob<N::Link, F, C, G>, R>,
    G: Gate + Drop,
>(
    rt: &R,
    alloc: Global,
    domain: Domain,
    peers: &[(Domain, Text)],
    address: &str,
    sessions: Option<u64>,
    shelf: Shelf<F>,
    clock: &C,
    robots: &mut RobotHost,
    server: &mut Server<N, F, P, G>,
) -> u8
    requires sends { IsSend R.row }
    requires new { IsNew (host_as ⟦<dyn Robot as Robot>⟧ robots.old) }
    requires empty { (vec_len server.old.ended ≡ 0) × (is_some server.old.spent ≡ false) × (is_some server.old.passes ≡ false) }
    ensures run { HasRun N.Net N.Link.Link (server_by domain (map (λ a. a.0) peers.now)) domain (names_by domain peers.now) sessions
        server.old.net server.new.net server.new.ended.items (vec_len server.new.ended) server.new.passes (is_some server.new.spent)
        (host_as ⟦<dyn Robot as Robot>⟧ robots.new) (P.refused server.old.spawner) (P.refused server.new.spawner) result }
    ensures known { IsServerStatus result }
    ensures begun { IfSome server.new.passes (λ p. BeginWith domain (hosted_of shelf) (marks_of p)) }
    ensures unserved { is_some server.new.passes ≡ false → (N.back server.new.net ≡ N.back server.old.net)
        × (N.accepted server.new.net ≡ N.accepted server.old.net) × (server.new.ended.items ≡ server.old.ended.items) }
{
    match make_parts::<F, N::Link>(alloc, domain, peers, shelf) {
        Some((hub, passes, links)) => match server.net.listen(alloc, address) {
            Ok(()) => serve_from::<R, N, F, C, P, G>(
                rt, alloc, server, clock, &hub, passes, robots, links, sessions,
            ),
            Err(fault) => status_of_door(fault),
        },
        None => MEMORY,
    }
}

// What is done once the door is open.
fn serve_from<
    R: Wait,
    N: Net,
    F: Folder + Drop,
    C: Clock + Drop,
    P: Spawner<LinkJob<N::Link, F, C, G>, R>,
    G: Gate + Drop,
>(
    rt: &R,
    alloc: Global,
    server: &mut Server<N, F, P, G>,
    clock: &C,
    hub: &Arc<Hub<F>, Global>,
    mut passes: Passes<F>,
    robots: &mut RobotHost,
    mut peers: Peers<N::Link>,
    sessions: Option<u64>,
) -> u8
    requires sends { IsSend R.row }
    requires new { IsNew (host_as ⟦<dyn Robot as Robot>⟧ robots.old) }
    requires own { AreOfHub (arc_value hub.now) passes }
    requires empty { (vec_len server.old.ended ≡ 0) × (is_some server.old.spent ≡ false) }
    requires unlinked { held peers.list.items ≡ 0 }
    requires undialled { PeersReady N.tells (N.asked server.old.net) peers.list.items }
    requires speak { SpeakFor (arc_value hub.now).domain (names peers.list.items) }
    ensures run { HasRun N.Net N.Link.Link (server_of (arc_value hub.now)) (arc_value hub.now).domain (names peers.list.items) sessions
        server.old.net server.new.net server.new.ended.items (vec_len server.new.ended) server.new.passes (is_some server.new.spent)
        (host_as ⟦<dyn Robot as Robot>⟧ robots.new) (P.refused server.old.spawner) (P.refused server.new.spawner) result }
    ensures known { IsServerStatus result }
    ensures later { IfSome server.new.passes (λ p. (k : ℕ) → k < 16 → IsPrefix (marks_of passes k) (marks_of p k)) }
    ensures left { is_some server.new.passes ≡ true }
{
    let (most, keeps) = match sessions {
        Some(most) => (most, true),
        None => (u64::MAX, false),
    };
    let end = serve_all::<R, N, F, C, P, G>(
        rt,
        alloc,
        server,
        clock,
        hub,
        &mut passes,
        robots,
        &mut peers,
        most,
        keeps,
    );
    peers.close(&mut server.net);
    server.passes = Some(passes);
    status_of(end)
}
