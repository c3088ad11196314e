// The whole run.
ghost use Rattle.std.specs.Prelude.{◌≡◌, ◌≢◌, ◌⊎◌, ◌≤◌, ◌<◌, ◌==◌, ◌++◌, [], ℕ, List, length, false, IsTrue, IfOk, IfErr, OnOk, OnErr};
ghost use Rattle.std.specs.Io.KnownBytes.{Appends};
ghost use mathlib.Core.List.{IsPrefix};
ghost use Rattle.wave_outside.specs.Counts.{Rose};
ghost use Rattle.doc_items.specs.Limits.{max_count};
ghost use Rattle.client_session.specs.Answers.{printed};
ghost use Rattle.client_session.specs.Machine.{machine_of, greeted};
ghost use Rattle.client_terminal.specs.Going.{Origin, IsReading, IsWrittenInPart};
ghost use Rattle.client_terminal.specs.Pumping.{IsOfRoom, IsPumped, IsCut, pumped_as, ended_as, pumped_closed};
ghost use Rattle.client_terminal.specs.Runs.{sends};
ghost use Rattle.client_terminal.specs.Whole.{IsEditStatus, IsRunAs, origin_of, stop_status};

use crate::lines::{feed, finish};
use crate::mood::{Mood, Pumped};
use crate::sending::act;
use crate::stop::Stop;
use client_session::ClientState;
use std::alloc::Global;
use wave_base::Address;
use wave_outside::{Link, Sink, Source};

// The most bytes that one run reads.
const BYTE_LIMIT: u64 = 1 << 62;

// The most bytes that are read at once.
const CHUNK: usize = 1 << 16;

// What a read of bytes came to.
fn pumped(mood: Mood, count: usize) -> Pumped
    ensures { result ≡ pumped_as mood count }
{
    match mood {
        Mood::Reading => Pumped::Read(count),
        Mood::Left => Pumped::Left,
        Mood::Closed => Pumped::Closed,
    }
}

// What the end of the input came to.
fn ended(mood: Mood) -> Pumped
    ensures { result ≡ ended_as mood }
{
    match mood {
        Mood::Reading => Pumped::Ended,
        Mood::Left => Pumped::Left,
        Mood::Closed => Pumped::Closed,
    }
}

// Reads some bytes, at most as many as the buffer takes, and does what the lines say that end in them; at the end of the input, what
// the line says that is open.
fn pump<S: Source, W: Sink, L: Link>(
    alloc: Global,
    client: &mut ClientState,
    source: &mut S,
    sink: &mut W,
    link: &mut L,
    line: &mut Vec<u8>,
    buffer: &mut [u8],
) -> Result<Pumped, Stop>
    requires room { 0 < length buffer.old }
    requires open { L.closed link.old ≡ false }
    ensures goes { (o : Origin) (read : List ℕ)
        → IsReading L.tells o (machine_of client.old) read line.old.items (L.events link.old) (W.written sink.old)
        → IfOk result (λ p. IsPumped L.tells o (length buffer.old) p (machine_of client.new) read line.new.items (S.left source.old)
        (S.left source.new) (L.events link.new) (W.written sink.new)) }
    ensures halts { (o : Origin) (read : List ℕ)
        → IsReading L.tells o (machine_of client.old) read line.old.items (L.events link.old) (W.written sink.old)
        → IfErr result (λ e. IsCut L.tells o (length buffer.old) e (machine_of client.new) read line.new.items (S.left source.old)
        (S.left source.new) (L.events link.new) (W.written sink.new)) }
    ensures bound { IfOk result (IsOfRoom (length buffer.old)) }
    ensures closed { IfOk result (λ p. L.closed link.new ≡ pumped_closed p) }
    ensures open { OnErr result (L.closed link.new ≡ false) }
    ensures source_failed { IfErr result (λ e. e ≡ Stop.Source → Rose (S.faults source.old) (S.faults source.new)) }
    ensures link_failed { IfErr result (λ e. e ≡ Stop.Link → Rose (L.faults link.old) (L.faults link.new)) }
    ensures sink_failed { IfErr result (λ e. e ≡ Stop.Sink → Rose (W.faults sink.old) (W.faults sink.new)) }
    ensures later { (S.faults source.old ≤ S.faults source.new)
        × ((L.faults link.old ≤ L.faults link.new) × (W.faults sink.old ≤ W.faults sink.new)) }
{
    let Ok(count) = source.read(buffer) else {
        return Err(Stop::Source);
    };
    if count == 0 {
        return match finish(alloc, client, link, sink, line.as_slice()) {
            Ok(mood) => Ok(ended(mood)),
            Err(stop) => Err(stop),
        };
    }
    match feed(alloc, client, link, sink, line, &buffer[..count]) {
        Ok(mood) => Ok(pumped(mood, count)),
        Err(stop) => Err(stop),
    }
}

// Obeys lines until the input ends, a line ends the run, or the server closes the link: the status then.
fn obey_lines<S: Source, W: Sink, L: Link>(
    alloc: Global,
    client: &mut ClientState,
    source: &mut S,
    sink: &mut W,
    link: &mut L,
) -> Result<u8, Stop>
    requires open { L.closed link.old ≡ false }
    ensures edited { (o : Origin) → IsReading L.tells o (machine_of client.old) [] [] (L.events link.old) (W.written sink.old)
        → IfOk result (λ n. IsRunAs L.tells o (L.events link.new) (S.left source.old) (S.left source.new) (W.written sink.new) n) }
    ensures stopped { (o : Origin) → IsReading L.tells o (machine_of client.old) [] [] (L.events link.old) (W.written sink.old)
        → IfErr result (λ e. IsRunAs L.tells o (L.events link.new) (S.left source.old) (S.left source.new) (W.written sink.new)
        (stop_status e)) }
    ensures known { IfOk result (λ n. (n ≡ 0) ⊎ ((n ≡ 10) ⊎ (n ≡ 11))) }
    ensures closed { IfOk result (λ n. L.closed link.new ≡ (n == 11)) }
    ensures open { OnErr result (L.closed link.new ≡ false) }
    ensures source_failed { IfErr result (λ e. e ≡ Stop.Source → Rose (S.faults source.old) (S.faults source.new)) }
    ensures link_failed { IfErr result (λ e. e ≡ Stop.Link → Rose (L.faults link.old) (L.faults link.new)) }
    ensures sink_failed { IfErr result (λ e. e ≡ Stop.Sink → Rose (W.faults sink.old) (W.faults sink.new)) }
    ensures later { (S.faults source.old ≤ S.faults source.new)
        × ((L.faults link.old ≤ L.faults link.new) × (W.faults sink.old ≤ W.faults sink.new)) }
{
    let mut line = Vec::new(alloc);
    let mut taken: u64 = 0;
    let mut buffer = [0u8; CHUNK];
    while taken < BYTE_LIMIT {
        let room = (BYTE_LIMIT - taken).min(CHUNK as u64) as usize;
        match pump(
            alloc,
            client,
            source,
            sink,
            link,
            &mut line,
            &mut buffer[..room],
        )? {
            Pumped::Read(count) => taken += count as u64,
            Pumped::Left => return Ok(0),
            Pumped::Ended => return Ok(0),
            Pumped::Closed => return Ok(11),
        }
    }
    Ok(10)
}

// Says who the client is.
fn greet<L: Link, W: Sink>(
    alloc: Global,
    client: &mut ClientState,
    link: &mut L,
    sink: &mut W,
) -> Result<(), Stop>
    ensures machine { OnOk result (machine_of client.new ≡ (greeted (machine_of client.old)).0) }
    ensures sent { IsTrue L.tells → OnOk result (L.events link.new ≡ L.events link.old ++ sends (greeted (machine_of client.old)).1.send) }
    ensures said { OnOk result (Appends (W.written sink.old) (W.written sink.new) (printed (greeted (machine_of client.old)).1)) }
    ensures unsent { IsTrue L.tells
        → OnErr result (IsPrefix (L.events link.new) (L.events link.old ++ sends (greeted (machine_of client.old)).1.send)) }
    ensures unsaid { OnErr result
        (IsWrittenInPart (W.written sink.old) (W.written sink.new) (printed (greeted (machine_of client.old)).1)) }
    ensures closed { L.closed link.new ≡ L.closed link.old }
    ensures cause { IfErr result (λ e. e ≢ Stop.Source) }
    ensures link_failed { IfErr result (λ e. e ≡ Stop.Link → Rose (L.faults link.old) (L.faults link.new)) }
    ensures sink_failed { IfErr result (λ e. e ≡ Stop.Sink → Rose (W.faults sink.old) (W.faults sink.new)) }
    ensures later { (L.faults link.old ≤ L.faults link.new) × (W.faults sink.old ≤ W.faults sink.new) }
{
    let acts = client.on_reopen(alloc)?;
    act(alloc, link, sink, &acts)
}

// Greets the server, and obeys the lines.
fn run<S: Source, W: Sink, L: Link>(
    alloc: Global,
    source: &mut S,
    sink: &mut W,
    link: &mut L,
    user: Address,
    key: u64,
) -> Result<u8, Stop>
    requires key { key ≤ max_count }
    requires open { L.closed link.old ≡ false }
    ensures edited { IfOk result
        (IsRunAs L.tells (origin_of user key (L.events link.old) (W.written sink.old)) (L.events link.new) (S.left source.old)
        (S.left source.new) (W.written sink.new)) }
    ensures stopped { IfErr result
        (λ e. IsRunAs L.tells (origin_of user key (L.events link.old) (W.written sink.old)) (L.events link.new) (S.left source.old)
        (S.left source.new) (W.written sink.new) (stop_status e)) }
    ensures known { IfOk result (λ n. (n ≡ 0) ⊎ ((n ≡ 10) ⊎ (n ≡ 11))) }
    ensures closed { IfOk result (λ n. L.closed link.new ≡ (n == 11)) }
    ensures open { OnErr result (L.closed link.new ≡ false) }
    ensures source_failed { IfErr result (λ e. e ≡ Stop.Source → Rose (S.faults source.old) (S.faults source.new)) }
    ensures link_failed { IfErr result (λ e. e ≡ Stop.Link → Rose (L.faults link.old) (L.faults link.new)) }
    ensures sink_failed { IfErr result (λ e. e ≡ Stop.Sink → Rose (W.faults sink.old) (W.faults sink.new)) }
{
    let mut client = ClientState::new(alloc, user, key);
    match greet(alloc, &mut client, link, sink) {
        Ok(()) => obey_lines(alloc, &mut client, source, sink, link),
        Err(stop) => Err(stop),
    }
}

/// Takes commands from the source, one a line, as the user with this key, which no other client of theirs has; sends what they ask for
/// over the link, and prints on the sink what they show and what the server says. After each line it looks at the link until nothing
/// comes, and at `sync` until what is under way has settled. 0 at the end of the input or at `quit`; 3 where the source failed, 4 where the
/// sink did, 7 where the link did, 8 out of memory, 10 where 2^62 bytes were read, and 11 exactly where the server closed the link.
pub fn edit_run<S: Source, W: Sink, L: Link>(
    alloc: Global,
    source: &mut S,
    sink: &mut W,
    link: &mut L,
    user: Address,
    key: u64,
) -> u8
    requires key { key ≤ max_count }
    requires open { L.closed link.old ≡ false }
    ensures edited { IsRunAs L.tells (origin_of user key (L.events link.old) (W.written sink.old)) (L.events link.new) (S.left source.old)
        (S.left source.new) (W.written sink.new) result }
    ensures known { IsEditStatus result }
    ensures closed { L.closed link.new ≡ (result == 11) }
    ensures source_failed { result ≡ 3 → Rose (S.faults source.old) (S.faults source.new) }
    ensures sink_failed { result ≡ 4 → Rose (W.faults sink.old) (W.faults sink.new) }
    ensures link_failed { result ≡ 7 → Rose (L.faults link.old) (L.faults link.new) }
{
    match run(alloc, source, sink, link, user, key) {
        Ok(status) => status,
        Err(Stop::Source) => 3,
        Err(Stop::Sink) => 4,
        Err(Stop::Link) => 7,
        Err(Stop::Memory) => 8,
    }
}
