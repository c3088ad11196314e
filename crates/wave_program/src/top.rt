// The top call.
ghost use Rattle.std.specs.Prelude.{◌≡◌, ◌⊎◌, ◌+◌, ◌-◌, ℕ, List, [], length, ◌++◌, ◌<◌, vec_len, map};
ghost use Rattle.std.specs.Prelude.{Some, None, is_some, true, false, IsTrue, IfSome};
ghost use denote.Param.Send.{IsSend};
ghost use Rattle.wave_outside.specs.Counts.{Rose};
ghost use Rattle.command_words.specs.Commands.{CommandOf, command_in, needs_net, Pipe, Load};
ghost use Rattle.line_loop.specs.Output.{IsWritten};
ghost use Rattle.line_loop.specs.Run.{byte_limit};
ghost use Rattle.line_loop.specs.Told.{WhereTold, IsRun};
ghost use Rattle.wavelet_shelf.specs.Loads.{IsSound};
ghost use Rattle.peer_rounds.specs.Peers.{names_by};
ghost use Rattle.peer_rounds.specs.Stands.{AreDialled};
ghost use Rattle.shard_marks.specs.Passes.{marks_of};
ghost use Rattle.shard_marks.specs.Servers.{server as server_by};
ghost use Rattle.robot_host.specs.Hosts.{host_as, IsNew};
ghost use Rattle.wave_server.specs.Counting.{HasCounted};
ghost use Rattle.wave_server.specs.Meeting.{HasMet};
ghost use Rattle.wave_server.specs.Robots.{WereServed};
ghost use Rattle.wave_server.specs.Running.{BeginWith, HasServed};
ghost use Rattle.wave_server.specs.Statuses.{IsServerStatus};
ghost use Rattle.wave_program.specs.Edit.{IfEdit, IsClient, HasNetCause, IsEditRun};
ghost use Rattle.wave_program.specs.Load.{IsLoaded};
ghost use Rattle.wave_program.specs.Net.{IfServe, IsServer, IsServedFrom, IsEntered, AreLeft};
ghost use Rattle.wave_program.specs.Pipe.{answers_over};
ghost use Rattle.wave_program.specs.Run.{IsStatus};
ghost use Rattle.wave_program.specs.Services.{service_of};
ghost use Rattle.wave_program.specs.declared.service.Service.{Service};
ghost use Rattle.wave_program.specs.Store.{entered_at, IsStoredAs, IsUnloaded};
ghost use Rattle.wave_program.specs.Words.{IsOther, IsStoring, usage};

use crate::local::obey;
use crate::net::net_command;
use crate::outside::Outside;
use crate::words::write_usage;
use command_words::{WordsFault, read_words};
use robot_host::{Robot, RobotHost};
use session_link::LinkJob;
use std::alloc::Global;
use std::sync::Wait;
use wave_outside::{Clock, Folder, Gate, Net, Sink, Source, Spawner};

/// Runs the command that the words name, and gives the exit status.
///
/// On `pipe` it answers the lines of the source on the sink: 0 at the end of the input, 3 where the source failed, 4 where the sink
/// did, 8 out of memory, and 10 where it read 2^62 bytes. On `pipe --store DIR` it does so over the wavelets that stand in the folder
/// DIR: 5 where the folder or a file failed, and 6, with a line that tells of the first one, where a file with a journal's name isn't the
/// journal of a legal history of its wavelet. On `play --store DIR --wavelet W` it answers commands that go through the history of W in
/// that folder, which is empty where there is none, and on `inbox --store DIR --user U` commands on what U has there, with the same
/// statuses; both end with 0 at the end of the input or at the line `quit`. On `load N`, with N up to 100,000, it runs the stated
/// workload and writes its summary as a line: 0, 4 where the sink failed, 8 out of memory. On `serve --domain D --listen A` it serves the
/// wavelets of D over the net, each session in a job of its own, with those of a folder DIR where `--store DIR` names one: 0 once the
/// number of sessions that `--sessions N` gives have ended, and without one it doesn't end; it accepts no more links than that number.
/// 5, 6 and 8 as before, 7 where the door failed, 9 where a session couldn't be started, and 12 where a shard has no turn left. The
/// robots take part in the server's wavelets; over them no turn was taken yet. `--echo` asks for a robot that whoever calls has among
/// them. On `edit --user U --client K --connect A` it is the terminal client of U with the key K, over a link with the server at A: 0
/// at the end of the input or at the line `quit`, 3, 4, 8 and 10 as before, 7 where the dialling or the link failed, and 11 where the
/// server closed the link. With other words it writes the usage text and gives 2, or 8 out of memory.
pub fn run<
    R: Wait,
    S: Source,
    W: Sink,
    F: Folder + Drop,
    C: Clock + Drop,
    N: Net,
    P: Spawner<LinkJob<N::Link, F, C, G>, R>,
    G: Gate + Drop,
>(
    rt: &R,
    alloc: Global,
    words: &Vec<String>,
    outside: &mut Outside<S, W, F, C, N, P, G>,
    robots: &mut RobotHost,
) -> u8
    requires sends { IsSend R.row }
    requires new { IsNew (host_as ⟦<dyn Robot as Robot>⟧ robots.old) }
    requires empty { (vec_len outside.old.server.ended ≡ 0) × (is_some outside.old.server.spent ≡ false)
        × (is_some outside.old.server.passes ≡ false) }
    // Lines: they are answered, over no history.
    ensures served { command_in words.now.items ≡ Some (Pipe None)
        → IsRun C.Clock (answers_over []) outside.old.clock (S.left outside.old.source) (S.left outside.new.source)
        (W.written outside.old.sink) (W.written outside.new.sink) result }
    ensures complete { command_in words.now.items ≡ Some (Pipe None)
        → (Rose (S.faults outside.old.source) (S.faults outside.new.source) → ⊥)
        → (Rose (W.faults outside.old.sink) (W.faults outside.new.sink) → ⊥)
        → WhereTold (S.left outside.old.source) (S.left outside.new.source) (W.written outside.old.sink) (W.written outside.new.sink)
        (λ read left written. length (read ++ left) < byte_limit → (result ≡ 0) ⊎ (result ≡ 8)) }

    // A store: the folder of the words is entered, and no other, before any file is used. None of its files with a journal's name is
    // refused. Lines are answered over the histories for which they stand, and what is sent stands there; commands of a playback or of
    // an inbox are answered over these histories, and each file is as it was, but for what a sync settles. Or no line was read, and
    // each file is so.
    ensures stored { (path : List ℕ) (service : Service) → service_of (command_in words.now.items) ≡ Some
        (path, service) → IsTrue F.tells → IsTrue F.Disk.tells
        → IsStoredAs F.Folder F.Disk.Disk C.Clock service (entered_at F.Folder path outside.old.folder) outside.old.folder
        outside.new.folder outside.old.clock (S.left outside.old.source) (S.left outside.new.source) (W.written outside.old.sink)
        (W.written outside.new.sink) result
        ⊎ ((outside.new.source ≡ outside.old.source) × IsUnloaded F.Folder F.Disk.Disk (entered_at F.Folder path outside.old.folder)
        outside.old.folder outside.new.folder (W.written outside.old.sink) (W.written outside.new.sink) (W.faults outside.old.sink)
        (W.faults outside.new.sink) result) }
    ensures stored_complete { (path : List ℕ) (service : Service)
        → service_of (command_in words.now.items) ≡ Some (path, service) → IsTrue F.tells → IsTrue F.Disk.tells
        → ((file : List ℕ) → IsSound F.Disk.view (F.files outside.old.folder file) file)
        → (Rose (S.faults outside.old.source) (S.faults outside.new.source) → ⊥)
        → (Rose (W.faults outside.old.sink) (W.faults outside.new.sink) → ⊥)
        → (Rose (F.faults outside.old.folder) (F.faults outside.new.folder) → ⊥)
        → WhereTold (S.left outside.old.source) (S.left outside.new.source) (W.written outside.old.sink) (W.written outside.new.sink)
        (λ read left written. length (read ++ left) < byte_limit → (result ≡ 0) ⊎ (result ≡ 8)) }

    // Without a store the folder stays as it is.
    ensures alone { (IsStoring (command_in words.now.items) → ⊥) → outside.new.folder ≡ outside.old.folder }

    // A load: nothing is read, and the summary of the load is written.
    ensures loaded { (n : ℕ) → command_in words.now.items ≡ Some (Load n)
        → IsLoaded n result (W.written outside.old.sink) (W.written outside.new.sink) }
    ensures load_unread { (n : ℕ) → command_in words.now.items ≡ Some (Load n)
        → outside.new.source ≡ outside.old.source }
    ensures load_complete { (n : ℕ) → command_in words.now.items ≡ Some (Load n)
        → (Rose (W.faults outside.old.sink) (W.faults outside.new.sink) → ⊥) → (result ≡ 0) ⊎ (result ≡ 8) }

    // A server: each session that ended was served from the marks that were seen, and these begin with those of the stored histories. No
    // more links were accepted than the words say, whatever the status (`most` of `HasCounted`), and with 0 just as many (`done`). With 0
    // the robots were shown all of their views of the histories that these marks give, and something came of each of their edits. Where
    // nothing was served the folder's files read as before.
    ensures net_served { IfServe (command_in words.now.items) (λ domain listen peers sessions store.
        IfSome outside.new.server.passes (λ p. HasServed N.Link.Link (server_by domain (map (λ a. a.0) peers)) (marks_of p)
        (is_some outside.new.server.spent) (N.back outside.old.server.net) (N.back outside.new.server.net)
        outside.new.server.ended.items)) }
    ensures net_done { IfServe (command_in words.now.items) (λ domain listen peers sessions store.
        HasCounted sessions result (is_some outside.new.server.passes) (vec_len outside.new.server.ended)
        (N.accepted outside.old.server.net) (N.accepted outside.new.server.net)) }
    ensures net_met { IfServe (command_in words.now.items) (λ domain listen peers sessions store.
        result ≡ 0 → HasMet N.Link.Link (N.back outside.old.server.net) (N.back outside.new.server.net) (N.line outside.old.server.net)
        (N.line outside.new.server.net) domain (length peers) outside.new.server.ended.items) }
    ensures net_dialled { IfServe (command_in words.now.items) (λ domain listen peers sessions store.
        result ≡ 0 → IsTrue N.tells → AreDialled (N.asked outside.new.server.net) (names_by domain peers)) }
    ensures net_robots { IfServe (command_in words.now.items) (λ domain listen peers sessions store.
        result ≡ 0 → IfSome outside.new.server.passes (λ p. WereServed domain (marks_of p) (host_as ⟦<dyn Robot as Robot>⟧ robots.new))) }
    ensures net_plain { IfServe (command_in words.now.items)
        (λ domain listen peers sessions store. store ≡ None → IfSome outside.new.server.passes (λ p. BeginWith domain [] (marks_of p))) }
    ensures net_stored { IfServe (command_in words.now.items)
        (λ domain listen peers sessions store. IfSome store (λ path. IsTrue F.tells → IsTrue F.Disk.tells
        → IfSome outside.new.server.passes (λ p. IsServedFrom F.Folder F.Disk.Disk domain (marks_of p)
        (entered_at F.Folder path outside.old.folder) outside.old.folder outside.new.folder))) }
    ensures net_unloaded { IfServe (command_in words.now.items)
        (λ domain listen peers sessions store. IfSome store (λ path. IsTrue F.tells → IsTrue F.Disk.tells → (result ≡ 5) ⊎ (result ≡ 6)
        → IsUnloaded F.Folder F.Disk.Disk (entered_at F.Folder path outside.old.folder) outside.old.folder outside.new.folder
        (W.written outside.old.sink) (W.written outside.new.sink) (W.faults outside.old.sink) (W.faults outside.new.sink) result)) }
    ensures net_left { IfServe (command_in words.now.items)
        (λ domain listen peers sessions store. IsTrue F.tells → IsTrue F.Disk.tells → is_some outside.new.server.passes ≡ false
        → AreLeft F.Folder F.Disk.Disk outside.old.folder outside.new.folder) }
    ensures net_entered { IfServe (command_in words.now.items)
        (λ domain listen peers sessions store. IfSome store (λ path. IsTrue F.tells
        → IsEntered F.Folder (entered_at F.Folder path outside.old.folder) outside.old.folder outside.new.folder result)) }
    ensures net_unread { IfServe (command_in words.now.items)
        (λ domain listen peers sessions store. outside.new.source ≡ outside.old.source) }
    ensures net_silent { IfServe (command_in words.now.items) (λ domain listen peers sessions store.
        (result ≡ 6 → ⊥) → outside.new.sink ≡ outside.old.sink) }
    ensures net_known { IfServe (command_in words.now.items) (λ domain listen peers sessions store.
        IsServerStatus result ⊎ ((result ≡ 5) ⊎ (result ≡ 6))) }
    ensures net_failed { result ≡ 7 → HasNetCause (command_in words.now.items)
        (Rose (N.door outside.old.server.net) (N.door outside.new.server.net))
        (Rose (N.line outside.old.server.net) (N.line outside.new.server.net)) }
    ensures refused_start { result ≡ 9 → Rose (P.refused outside.old.server.spawner) (P.refused outside.new.server.spawner) }
    ensures spent { (result ≡ 12 → is_some outside.new.server.spent ≡ true) × (is_some outside.new.server.spent ≡ true → result ≡ 12) }

    // The terminal client: the address of the words is dialled, and no other. Over that link the run is the client's, of the user and the
    // key of the words, and the link is put back; it tells that the server closed it exactly with 11. Or there was no link, and nothing
    // was read or written. The other parts of a server stay as they are.
    ensures edited { IfEdit (command_in words.now.items) (λ user client connect.
        IsEditRun N.Net N.Link.Link connect outside.old.server.net outside.new.server.net S.left W.written user client
        outside.old.source outside.new.source outside.old.sink outside.new.sink result) }
    ensures unserved { IfEdit (command_in words.now.items) (λ user client connect.
        (outside.new.server.ended ≡ outside.old.server.ended) × (outside.new.server.spent ≡ outside.old.server.spent)
        × (outside.new.server.passes ≡ outside.old.server.passes)) }
    ensures closed { result ≡ 11 → IsClient (command_in words.now.items) }

    // Only a server uses the robots.
    ensures robots_left { (IsServer (command_in words.now.items) → ⊥) → robots.new ≡ robots.old }

    // A command without a net leaves the server's parts as they are.
    ensures no_net { ((c : CommandOf) → command_in words.now.items ≡ Some c → needs_net c ≡ false)
        → outside.new.server ≡ outside.old.server }

    // Other words: nothing is read, and the usage text is written.
    ensures usage { result ≡ 2 → IsOther (command_in words.now.items) }
    ensures refused { IsOther (command_in words.now.items) → (result ≡ 2) ⊎ (result ≡ 8) }
    ensures unread { result ≡ 2 → outside.new.source ≡ outside.old.source }
    ensures shown { result ≡ 2
        → IsWritten (W.written outside.old.sink) (W.written outside.new.sink) (W.faults outside.old.sink)
        (W.faults outside.new.sink) usage }

    // Each further status has its cause.
    ensures source_failed { result ≡ 3 → Rose (S.faults outside.old.source) (S.faults outside.new.source) }
    ensures sink_failed { result ≡ 4 → Rose (W.faults outside.old.sink) (W.faults outside.new.sink) }
    ensures store_failed { result ≡ 5 → Rose (F.faults outside.old.folder) (F.faults outside.new.folder) }
    ensures damaged { result ≡ 6 → IsStoring (command_in words.now.items) }
    ensures known { IsStatus result }
{
    match read_words(alloc, words.as_slice()) {
        Ok(command) => {
            if command.needs_net() {
                net_command(rt, alloc, command, outside, robots)
            } else {
                let (source, sink) = (&mut outside.source, &mut outside.sink);
                let (folder, clock) = (&mut outside.folder, &mut outside.clock);
                obey(alloc, command, source, sink, folder, clock)
            }
        }
        Err(WordsFault::Usage) => {
            write_usage(&mut outside.sink);
            2
        }
        Err(WordsFault::Memory) => 8,
    }
}
