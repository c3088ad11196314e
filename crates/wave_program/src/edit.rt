// The terminal client over a net.
ghost use Rattle.std.specs.Prelude.{◌≡◌, ◌≤◌, ◌<◌, ◌+◌, ◌-◌, ◌^◌, ◌==◌, ◌++◌, ◌∷◌, [], ℕ, min, IsTrue};
ghost use Rattle.doc_items.specs.Limits.{max_count};
ghost use Rattle.wave_outside.specs.Counts.{Rose};
ghost use Rattle.wave_outside.specs.Links.{IsUnused};
ghost use Rattle.client_terminal.specs.Whole.{IsEditStatus, IsRunAs, origin_of};
ghost use Rattle.wave_program.specs.Edit.{IsEditRun};

use client_terminal::edit_run;
use std::alloc::Global;
use wave_base::Address;
use wave_outside::{Link, Net, NetFault, Sink, Source};

/// Runs the terminal client of this user and key over a link with the server at this address, and gives the exit status. The link is put
/// back into the net. 7 where the dialling failed or the link did, and 11 exactly where the server closed the link.
pub fn edit_over<S: Source, W: Sink, N: Net>(
    alloc: Global,
    source: &mut S,
    sink: &mut W,
    net: &mut N,
    user: Address,
    client: u64,
    connect: &str,
) -> u8
    requires key { client ≤ max_count }
    ensures edited { IsEditRun N.Net N.Link.Link connect.now net.old net.new S.left W.written user client source.old source.new
        sink.old sink.new result }
    ensures line { result ≡ 7 → Rose (N.line net.old) (N.line net.new) }
    ensures door { N.door net.new ≡ N.door net.old }
    ensures accepted { N.accepted net.new ≡ N.accepted net.old }
    ensures source_failed { result ≡ 3 → Rose (S.faults source.old) (S.faults source.new) }
    ensures sink_failed { result ≡ 4 → Rose (W.faults sink.old) (W.faults sink.new) }
    ensures known { IsEditStatus result }
{
    match net.dial(alloc, connect) {
        Ok(link) => edit_on(alloc, source, sink, net, link, user, client),
        Err(NetFault::Failed) => 7,
        Err(NetFault::Memory) => 8,
    }
}

// Runs it over this link, and puts the link back.
fn edit_on<S: Source, W: Sink, N: Net>(
    alloc: Global,
    source: &mut S,
    sink: &mut W,
    net: &mut N,
    mut link: N::Link,
    user: Address,
    client: u64,
) -> u8
    requires key { client ≤ max_count }
    requires unused { IsUnused (N.Link.faults link) (N.Link.events link) (N.Link.closed link) }
    requires out { 0 < N.out net.old }
    ensures edited { (used : N.Link) × (N.back net.new ≡ N.back net.old ++ used ∷ [])
        × (N.line net.new ≡ min (N.line net.old + N.Link.faults used) (2 ^ 64 - 1))
        × IsRunAs N.Link.tells (origin_of user client [] (W.written sink.old)) (N.Link.events used) (S.left source.old)
        (S.left source.new) (W.written sink.new) result
        × (N.Link.closed used ≡ (result == 11))
        × (result ≡ 7 → Rose 0 (N.Link.faults used)) }
    ensures asked { IsTrue N.tells → N.asked net.new ≡ N.asked net.old }
    ensures door { N.door net.new ≡ N.door net.old }
    ensures accepted { N.accepted net.new ≡ N.accepted net.old }
    ensures source_failed { result ≡ 3 → Rose (S.faults source.old) (S.faults source.new) }
    ensures sink_failed { result ≡ 4 → Rose (W.faults sink.old) (W.faults sink.new) }
    ensures known { IsEditStatus result }
{
    let status = edit_run(alloc, source, sink, &mut link, user, client);
    net.put(link);
    status
}
