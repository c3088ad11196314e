// The commands over a net: a server, and its clients.
ghost use Rattle.std.specs.Prelude.{◌≡◌, ℕ, List, map, vec_len, true, false, ◌≤◌, Some, is_some, option_map};
ghost use denote.Param.Send.{IsSend};
ghost use Rattle.command_words.specs.Commands.{needs_net, Edit};
ghost use Rattle.command_words.specs.Shown.{shown};
ghost use Rattle.doc_items.specs.Limits.{max_count};
ghost use Rattle.wave_outside.specs.Counts.{Rose};
ghost use Rattle.peer_rounds.specs.Peers.{names_by};
ghost use Rattle.shard_marks.specs.Servers.{server as server_by};
ghost use Rattle.robot_host.specs.Hosts.{host_as, IsNew};
ghost use Rattle.wave_server.specs.Runs.{HasRun};
ghost use Rattle.wave_program.specs.Edit.{IfEdit, IsClient, HasNetCause, IsEditRun};
ghost use Rattle.wave_program.specs.Net.{IfServe, IsServer, IsHostedFrom, IsHosted};
ghost use Rattle.wave_program.specs.Run.{IsStatus};
ghost use Rattle.wave_program.specs.Store.{entered_at};
ghost use Rattle.wave_program.specs.Words.{IsStoring};

use crate::edit::edit_over;
use crate::outside::Outside;
use crate::store::{put_back, tell};
use command_words::Command;
use doc_items::Text;
use robot_host::{Robot, RobotHost};
use session_link::LinkJob;
use std::alloc::Global;
use std::mem::replace;
use std::sync::Wait;
use wave_base::Domain;
use wave_outside::{Clock, Folder, FolderFault, Gate, Net, Sink, Source, Spawner};
use wave_server::serve;
use wavelet_shelf::Shelf;

/// Runs the command of a server or of a client, and gives the exit status. Where a server's names a folder another one stands in its
/// place from then on.
pub fn net_command<
    R: Wait,
    S: Source,
    W: Sink,
    F: Folder + Drop,
    C: Clock + Drop,
    N: Net,
    P: Spawner<LinkJob<N::Link, F, C, G>, R>,
    G: Gate + Drop,
>(
    rt: &R,
    alloc: Global,
    command: Command<'_>,
    outside: &mut Outside<S, W, F, C, N, P, G>,
    robots: &mut RobotHost,
) -> u8
    requires sends { IsSend R.row }
    requires new { IsNew (host_as ⟦<dyn Robot as Robot>⟧ robots.old) }
    requires net { needs_net (shown command) ≡ true }
    requires key { (user connect : List ℕ) (k : ℕ) → shown command ≡ Edit user k connect → k ≤ max_count }
    requires empty { (vec_len outside.old.server.ended ≡ 0) × (is_some outside.old.server.spent ≡ false)
        × (is_some outside.old.server.passes ≡ false) }
    ensures run { IfServe (Some (shown command.entry)) (λ domain listen peers sessions store.
        HasRun N.Net N.Link.Link (server_by domain (map (λ a. a.0) peers)) domain (names_by domain peers) sessions
        outside.old.server.net outside.new.server.net outside.new.server.ended.items (vec_len outside.new.server.ended)
        outside.new.server.passes (is_some outside.new.server.spent) (host_as ⟦<dyn Robot as Robot>⟧ robots.new)
        (P.refused outside.old.server.spawner) (P.refused outside.new.server.spawner) result) }
    ensures hosted { IfServe (Some (shown command.entry)) (λ domain listen peers sessions store.
        IsHosted F.Folder F.Disk.Disk W.Sink domain store outside.new.server.passes outside.old.folder outside.new.folder
        outside.old.sink outside.new.sink result) }
    ensures source { IfServe (Some (shown command.entry))
        (λ domain listen peers sessions store. outside.new.source ≡ outside.old.source) }
    ensures alone { (IsStoring (Some (shown command.entry)) → ⊥) → outside.new.folder ≡ outside.old.folder }
    ensures robots_left { (IsServer (Some (shown command.entry)) → ⊥) → robots.new ≡ robots.old }
    ensures edited { IfEdit (Some (shown command.entry)) (λ user client connect.
        IsEditRun N.Net N.Link.Link connect outside.old.server.net outside.new.server.net S.left W.written user client
        outside.old.source outside.new.source outside.old.sink outside.new.sink result) }
    ensures unserved { IfEdit (Some (shown command.entry)) (λ user client connect.
        (outside.new.server.ended ≡ outside.old.server.ended) × (outside.new.server.spent ≡ outside.old.server.spent)
        × (outside.new.server.passes ≡ outside.old.server.passes)) }
    ensures net_failed { result ≡ 7 → HasNetCause (Some (shown command.entry))
        (Rose (N.door outside.old.server.net) (N.door outside.new.server.net))
        (Rose (N.line outside.old.server.net) (N.line outside.new.server.net)) }
    ensures closed { result ≡ 11 → IsClient (Some (shown command.entry)) }
    ensures source_failed { result ≡ 3 → Rose (S.faults outside.old.source) (S.faults outside.new.source) }
    ensures sink_failed { result ≡ 4 → Rose (W.faults outside.old.sink) (W.faults outside.new.sink) }
    ensures refused { result ≡ 9 → Rose (P.refused outside.old.server.spawner) (P.refused outside.new.server.spawner) }
    ensures spent { (result ≡ 12 → is_some outside.new.server.spent ≡ true) × (is_some outside.new.server.spent ≡ true → result ≡ 12) }
    ensures store_failed { result ≡ 5 → Rose (F.faults outside.old.folder) (F.faults outside.new.folder) }
    ensures known { IsStatus result × (result ≡ 2 → ⊥) }
    ensures damaged { result ≡ 6 → IsStoring (Some (shown command.entry)) }
{
    match command {
        Command::Serve {
            domain,
            listen,
            peers,
            sessions,
            store,
            echo: _echo,
        } => serve_net(
            rt,
            alloc,
            domain,
            peers.as_slice(),
            listen,
            sessions,
            store,
            outside,
            robots,
        ),
        Command::Edit {
            user,
            client,
            connect,
        } => {
            let (source, sink) = (&mut outside.source, &mut outside.sink);
            let net = &mut outside.server.net;
            edit_over(alloc, source, sink, net, user, client, connect)
        }
        Command::Pipe { .. } => unreachable!(),
        Command::Load { .. } => unreachable!(),
        Command::Play { .. } => unreachable!(),
        Command::Inbox { .. } => unreachable!(),
    }
}

// Serves the wavelets that the domain hosts at an address, those of the folder of this path where one is given.
fn serve_net<
    R: Wait,
    S,
    W: Sink,
    F: Folder + Drop,
    C: Clock + Drop,
    N: Net,
    P: Spawner<LinkJob<N::Link, F, C, G>, R>,
    G: Gate + Drop,
>(
    rt: &R,
    alloc: Global,
    domain: Domain,
    peers: &[(Domain, Text)],
    listen: &str,
    sessions: Option<u64>,
    store: Option<&str>,
    outside: &mut Outside<S, W, F, C, N, P, G>,
    robots: &mut RobotHost,
) -> u8
    requires sends { IsSend R.row }
    requires new { IsNew (host_as ⟦<dyn Robot as Robot>⟧ robots.old) }
    requires empty { (vec_len outside.old.server.ended ≡ 0) × (is_some outside.old.server.spent ≡ false)
        × (is_some outside.old.server.passes ≡ false) }
    ensures run { HasRun N.Net N.Link.Link (server_by domain (map (λ a. a.0) peers.now)) domain (names_by domain peers.now) sessions
        outside.old.server.net outside.new.server.net outside.new.server.ended.items (vec_len outside.new.server.ended)
        outside.new.server.passes (is_some outside.new.server.spent) (host_as ⟦<dyn Robot as Robot>⟧ robots.new)
        (P.refused outside.old.server.spawner) (P.refused outside.new.server.spawner) result }
    ensures hosted { IsHosted F.Folder F.Disk.Disk W.Sink domain (option_map (λ s. s.now) store.entry) outside.new.server.passes
        outside.old.folder outside.new.folder outside.old.sink outside.new.sink result }
    ensures source { outside.new.source ≡ outside.old.source }
{
    match store {
        None => {
            let Outside { clock, server, .. } = outside;
            serve(
                rt,
                alloc,
                domain,
                peers,
                listen,
                sessions,
                Shelf::new(alloc),
                clock,
                robots,
                server,
            )
        }
        Some(path) => serve_path(
            rt, alloc, domain, peers, listen, sessions, path, outside, robots,
        ),
    }
}

// Serves the wavelets of the folder of this path.
fn serve_path<
    R: Wait,
    S,
    W: Sink,
    F: Folder + Drop,
    C: Clock + Drop,
    N: Net,
    P: Spawner<LinkJob<N::Link, F, C, G>, R>,
    G: Gate + Drop,
>(
    rt: &R,
    alloc: Global,
    domain: Domain,
    peers: &[(Domain, Text)],
    listen: &str,
    sessions: Option<u64>,
    path: &str,
    outside: &mut Outside<S, W, F, C, N, P, G>,
    robots: &mut RobotHost,
) -> u8
    requires sends { IsSend R.row }
    requires new { IsNew (host_as ⟦<dyn Robot as Robot>⟧ robots.old) }
    requires empty { (vec_len outside.old.server.ended ≡ 0) × (is_some outside.old.server.spent ≡ false)
        × (is_some outside.old.server.passes ≡ false) }
    ensures run { HasRun N.Net N.Link.Link (server_by domain (map (λ a. a.0) peers.now)) domain (names_by domain peers.now) sessions
        outside.old.server.net outside.new.server.net outside.new.server.ended.items (vec_len outside.new.server.ended)
        outside.new.server.passes (is_some outside.new.server.spent) (host_as ⟦<dyn Robot as Robot>⟧ robots.new)
        (P.refused outside.old.server.spawner) (P.refused outside.new.server.spawner) result }
    ensures hosted { IsHostedFrom F.Folder F.Disk.Disk W.Sink domain (entered_at F.Folder path.now outside.old.folder)
        outside.new.server.passes outside.old.folder outside.new.folder outside.old.sink outside.new.sink result }
    ensures source { outside.new.source ≡ outside.old.source }
{
    match outside.folder.enter(alloc, path) {
        Ok(()) => serve_folder(rt, alloc, domain, peers, listen, sessions, outside, robots),
        Err(FolderFault::Failed) => 5,
        Err(FolderFault::Memory) => 8,
    }
}

// Serves the wavelets of the folder that was entered.
fn serve_folder<
    R: Wait,
    S,
    W: Sink,
    F: Folder + Drop,
    C: Clock + Drop,
    N: Net,
    P: Spawner<LinkJob<N::Link, F, C, G>, R>,
    G: Gate + Drop,
>(
    rt: &R,
    alloc: Global,
    domain: Domain,
    peers: &[(Domain, Text)],
    listen: &str,
    sessions: Option<u64>,
    outside: &mut Outside<S, W, F, C, N, P, G>,
    robots: &mut RobotHost,
) -> u8
    requires sends { IsSend R.row }
    requires new { IsNew (host_as ⟦<dyn Robot as Robot>⟧ robots.old) }
    requires empty { (vec_len outside.old.server.ended ≡ 0) × (is_some outside.old.server.spent ≡ false)
        × (is_some outside.old.server.passes ≡ false) }
    ensures run { HasRun N.Net N.Link.Link (server_by domain (map (λ a. a.0) peers.now)) domain (names_by domain peers.now) sessions
        outside.old.server.net outside.new.server.net outside.new.server.ended.items (vec_len outside.new.server.ended)
        outside.new.server.passes (is_some outside.new.server.spent) (host_as ⟦<dyn Robot as Robot>⟧ robots.new)
        (P.refused outside.old.server.spawner) (P.refused outside.new.server.spawner) result }
    ensures hosted { IsHostedFrom F.Folder F.Disk.Disk W.Sink domain (F.log outside.old.folder).entries outside.new.server.passes
        outside.old.folder outside.new.folder outside.old.sink outside.new.sink result }
    ensures source { outside.new.source ≡ outside.old.source }
{
    let Ok(other) = outside.folder.another(alloc) else {
        return 8;
    };
    let mut shelf = Shelf::over(alloc, replace(&mut outside.folder, other));
    match shelf.load(alloc) {
        Ok(()) => {
            let Outside { clock, server, .. } = outside;
            serve(
                rt, alloc, domain, peers, listen, sessions, shelf, clock, robots, server,
            )
        }
        Err(fault) => {
            let status = tell(alloc, &mut outside.sink, &fault);
            put_back(&mut outside.folder, shelf);
            status
        }
    }
}
