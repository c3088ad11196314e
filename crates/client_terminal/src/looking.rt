// Looks at the link.
ghost use Rattle.std.specs.Prelude.{◌≡◌, ◌≢◌, ◌≤◌, ◌++◌, ℕ, List, true, false, not, codes, IsTrue, IfOk, IfErr, OnOk, OnErr};
ghost use Rattle.std.specs.Io.KnownBytes.{Appends};
ghost use mathlib.Core.List.{IsPrefix};
ghost use Rattle.wave_outside.specs.Counts.{Rose};
ghost use Rattle.client_session.specs.Answers.{printed};
ghost use Rattle.client_session.specs.Machine.{machine_of, received};
ghost use Rattle.client_terminal.specs.Going.{Origin, IsOn, IsOff, IsLooked, IsUnheard, IsWrittenInPart};
ghost use Rattle.client_terminal.specs.Moods.{mood_run, ends_closed, is_closed, went_on};
ghost use Rattle.client_terminal.specs.Runs.{sends, reply_of, looked, synced};

use crate::mood::{Looked, Mood};
use crate::sending::{act, write_text};
use crate::stop::Stop;
use client_session::ClientState;
use message_json::Message;
use std::alloc::Global;
use wave_messages::{MAX_PEER, MessageFault, read};
use wave_outside::{Link, LinkFault, Polled, Sink};

// How often one line looks in vain, and how many messages it gets, at most.
const MAX_LOOKS: u64 = 1_000_000;

// Takes a message.
fn take<L: Link, W: Sink>(
    alloc: Global,
    client: &mut ClientState,
    link: &mut L,
    sink: &mut W,
    message: &Message,
) -> Result<(), Stop>
    ensures machine { OnOk result (machine_of client.new ≡ (received (machine_of client.old) message.now).0) }
    ensures sent { IsTrue L.tells
        → OnOk result (L.events link.new ≡ L.events link.old ++ sends (received (machine_of client.old) message.now).1.send) }
    ensures said { OnOk result
        (Appends (W.written sink.old) (W.written sink.new) (printed (received (machine_of client.old) message.now).1)) }
    ensures unsent { IsTrue L.tells
        → OnErr result (IsPrefix (L.events link.new) (L.events link.old ++ sends (received (machine_of client.old) message.now).1.send)) }
    ensures unsaid { OnErr result
        (IsWrittenInPart (W.written sink.old) (W.written sink.new) (printed (received (machine_of client.old) message.now).1)) }
    ensures cause { IfErr result (λ e. e ≢ Stop.Source) }
    ensures link_failed { IfErr result (λ e. e ≡ Stop.Link → Rose (L.faults link.old) (L.faults link.new)) }
    ensures sink_failed { IfErr result (λ e. e ≡ Stop.Sink → Rose (W.faults sink.old) (W.faults sink.new)) }
    ensures later { (L.faults link.old ≤ L.faults link.new) × (W.faults sink.old ≤ W.faults sink.new) }
    ensures closed { L.closed link.new ≡ L.closed link.old }
{
    let acts = client.on_message(alloc, message)?;
    act(alloc, link, sink, &acts)
}

// Takes the bytes of a message; those that are no message are passed over.
fn hear<L: Link, W: Sink>(
    alloc: Global,
    client: &mut ClientState,
    link: &mut L,
    sink: &mut W,
    bytes: &[u8],
) -> Result<(), Stop>
    ensures machine { OnOk result (machine_of client.new ≡ (reply_of (machine_of client.old) bytes.now).0) }
    ensures sent { IsTrue L.tells
        → OnOk result (L.events link.new ≡ L.events link.old ++ sends (reply_of (machine_of client.old) bytes.now).1.send) }
    ensures said { OnOk result
        (Appends (W.written sink.old) (W.written sink.new) (printed (reply_of (machine_of client.old) bytes.now).1)) }
    ensures unsent { IsTrue L.tells
        → OnErr result (IsPrefix (L.events link.new) (L.events link.old ++ sends (reply_of (machine_of client.old) bytes.now).1.send)) }
    ensures unsaid { OnErr result
        (IsWrittenInPart (W.written sink.old) (W.written sink.new) (printed (reply_of (machine_of client.old) bytes.now).1)) }
    ensures cause { IfErr result (λ e. e ≢ Stop.Source) }
    ensures link_failed { IfErr result (λ e. e ≡ Stop.Link → Rose (L.faults link.old) (L.faults link.new)) }
    ensures sink_failed { IfErr result (λ e. e ≡ Stop.Sink → Rose (W.faults sink.old) (W.faults sink.new)) }
    ensures later { (L.faults link.old ≤ L.faults link.new) × (W.faults sink.old ≤ W.faults sink.new) }
    ensures closed { L.closed link.new ≡ L.closed link.old }
{
    match read(alloc, bytes, MAX_PEER) {
        Ok(message) => take(alloc, client, link, sink, &message),
        Err(MessageFault::BadMessage(_)) => Ok(()),
        Err(MessageFault::Memory) => Err(Stop::Memory),
    }
}

// Looks at the link once: a message that came is taken.
fn look<L: Link, W: Sink>(
    alloc: Global,
    client: &mut ClientState,
    link: &mut L,
    sink: &mut W,
) -> Result<Looked, Stop>
    ensures looked { IfOk result
        (IsLooked L.tells (machine_of client.old) (machine_of client.new) (L.events link.old) (L.events link.new) (W.written sink.old)
        (W.written sink.new)) }
    ensures unheard { OnErr result
        (IsUnheard L.tells (machine_of client.old) (L.events link.old) (L.events link.new) (W.written sink.old) (W.written sink.new)) }
    ensures closed { IfOk result (λ l. L.closed link.new ≡ is_closed l) }
    ensures open { L.closed link.old ≡ false → OnErr result (L.closed link.new ≡ false) }
    ensures cause { IfErr result (λ e. e ≢ Stop.Source) }
    ensures link_failed { IfErr result (λ e. e ≡ Stop.Link → Rose (L.faults link.old) (L.faults link.new)) }
    ensures sink_failed { IfErr result (λ e. e ≡ Stop.Sink → Rose (W.faults sink.old) (W.faults sink.new)) }
    ensures later { (L.faults link.old ≤ L.faults link.new) × (W.faults sink.old ≤ W.faults sink.new) }
{
    match link.poll(alloc) {
        Ok(Polled::Message(bytes)) => match hear(alloc, client, link, sink, bytes.as_slice()) {
            Ok(()) => Ok(Looked::Message),
            Err(stop) => Err(stop),
        },
        Ok(Polled::Nothing) => Ok(Looked::Nothing),
        Ok(Polled::Closed) => Ok(Looked::Closed),
        Err(LinkFault::Failed) => Err(Stop::Link),
        Err(LinkFault::Memory) => Err(Stop::Memory),
    }
}

/// Looks at the link until nothing comes, or as many messages came as one line gets.
pub(crate) fn look_on<L: Link, W: Sink>(
    alloc: Global,
    client: &mut ClientState,
    link: &mut L,
    sink: &mut W,
) -> Result<Mood, Stop>
    requires open { L.closed link.old ≡ false }
    ensures goes { (o : Origin) (ls : List (List ℕ))
        → IsOn L.tells o (looked 0) (machine_of client.old) ls (L.events link.old) (W.written sink.old)
        → IfOk result (λ mood. IsOn L.tells o (mood_run mood) (machine_of client.new) ls (L.events link.new) (W.written sink.new)) }
    ensures halts { (o : Origin) (ls : List (List ℕ))
        → IsOn L.tells o (looked 0) (machine_of client.old) ls (L.events link.old) (W.written sink.old)
        → OnErr result (IsOff L.tells o ls (L.events link.new) (W.written sink.new)) }
    ensures closed { IfOk result (λ mood. L.closed link.new ≡ ends_closed mood) }
    ensures open { OnErr result (L.closed link.new ≡ false) }
    ensures cause { IfErr result (λ e. e ≢ Stop.Source) }
    ensures link_failed { IfErr result (λ e. e ≡ Stop.Link → Rose (L.faults link.old) (L.faults link.new)) }
    ensures sink_failed { IfErr result (λ e. e ≡ Stop.Sink → Rose (W.faults sink.old) (W.faults sink.new)) }
    ensures later { (L.faults link.old ≤ L.faults link.new) × (W.faults sink.old ≤ W.faults sink.new) }
{
    for _count in 0..MAX_LOOKS {
        match look(alloc, client, link, sink) {
            Ok(Looked::Message) => {}
            Ok(Looked::Nothing) => return Ok(Mood::Reading),
            Ok(Looked::Closed) => return Ok(Mood::Closed),
            Err(stop) => return Err(stop),
        }
    }
    Ok(Mood::Reading)
}

// Looks at the link while the current wavelet isn't settled or an opening of it is unanswered, as often as one line may. False where
// the server closed the link.
fn sync<L: Link, W: Sink>(
    alloc: Global,
    client: &mut ClientState,
    link: &mut L,
    sink: &mut W,
) -> Result<bool, Stop>
    requires open { L.closed link.old ≡ false }
    ensures goes { (o : Origin) (ls : List (List ℕ))
        → IsOn L.tells o (synced 0 0) (machine_of client.old) ls (L.events link.old) (W.written sink.old)
        → IfOk result (λ b. IsOn L.tells o (went_on b) (machine_of client.new) ls (L.events link.new) (W.written sink.new)) }
    ensures halts { (o : Origin) (ls : List (List ℕ))
        → IsOn L.tells o (synced 0 0) (machine_of client.old) ls (L.events link.old) (W.written sink.old)
        → OnErr result (IsOff L.tells o ls (L.events link.new) (W.written sink.new)) }
    ensures closed { IfOk result (λ b. L.closed link.new ≡ not b) }
    ensures open { OnErr result (L.closed link.new ≡ false) }
    ensures cause { IfErr result (λ e. e ≢ Stop.Source) }
    ensures link_failed { IfErr result (λ e. e ≡ Stop.Link → Rose (L.faults link.old) (L.faults link.new)) }
    ensures sink_failed { IfErr result (λ e. e ≡ Stop.Sink → Rose (W.faults sink.old) (W.faults sink.new)) }
    ensures later { (L.faults link.old ≤ L.faults link.new) × (W.faults sink.old ≤ W.faults sink.new) }
{
    let mut idle = 0u64;
    let mut taken = 0u64;
    while client.is_waiting() {
        if idle == MAX_LOOKS || taken == MAX_LOOKS {
            return unsettled(sink);
        }
        match look(alloc, client, link, sink) {
            Ok(Looked::Message) => taken += 1,
            Ok(Looked::Nothing) => idle += 1,
            Ok(Looked::Closed) => return Ok(false),
            Err(stop) => return Err(stop),
        }
    }
    Ok(true)
}

// Prints that there is still something to wait for.
fn unsettled<W: Sink>(sink: &mut W) -> Result<bool, Stop>
    ensures ok { IfOk result (λ b. b ≡ true) }
    ensures said { OnOk result (Appends (W.written sink.old) (W.written sink.new) (codes "! not settled\n")) }
    ensures unsaid { OnErr result (IsWrittenInPart (W.written sink.old) (W.written sink.new) (codes "! not settled\n")) }
    ensures cause { IfErr result (λ e. e ≡ Stop.Sink) }
    ensures failed { OnErr result (Rose (W.faults sink.old) (W.faults sink.new)) }
    ensures later { W.faults sink.old ≤ W.faults sink.new }
{
    write_text(sink, "! not settled\n")?;
    Ok(true)
}

/// Waits for what is under way, and then goes on looking.
pub(crate) fn wait<L: Link, W: Sink>(
    alloc: Global,
    client: &mut ClientState,
    link: &mut L,
    sink: &mut W,
) -> Result<Mood, Stop>
    requires open { L.closed link.old ≡ false }
    ensures goes { (o : Origin) (ls : List (List ℕ))
        → IsOn L.tells o (synced 0 0) (machine_of client.old) ls (L.events link.old) (W.written sink.old)
        → IfOk result (λ mood. IsOn L.tells o (mood_run mood) (machine_of client.new) ls (L.events link.new) (W.written sink.new)) }
    ensures halts { (o : Origin) (ls : List (List ℕ))
        → IsOn L.tells o (synced 0 0) (machine_of client.old) ls (L.events link.old) (W.written sink.old)
        → OnErr result (IsOff L.tells o ls (L.events link.new) (W.written sink.new)) }
    ensures closed { IfOk result (λ mood. L.closed link.new ≡ ends_closed mood) }
    ensures open { OnErr result (L.closed link.new ≡ false) }
    ensures cause { IfErr result (λ e. e ≢ Stop.Source) }
    ensures link_failed { IfErr result (λ e. e ≡ Stop.Link → Rose (L.faults link.old) (L.faults link.new)) }
    ensures sink_failed { IfErr result (λ e. e ≡ Stop.Sink → Rose (W.faults sink.old) (W.faults sink.new)) }
    ensures later { (L.faults link.old ≤ L.faults link.new) × (W.faults sink.old ≤ W.faults sink.new) }
{
    match sync(alloc, client, link, sink) {
        Ok(true) => look_on(alloc, client, link, sink),
        Ok(false) => Ok(Mood::Closed),
        Err(stop) => Err(stop),
    }
}
