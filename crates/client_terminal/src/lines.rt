// Bytes of lines, which are obeyed as they end.
ghost use Rattle.std.specs.Prelude.{◌≡◌, ◌≢◌, ◌≤◌, ◌++◌, ◌∷◌, [], ℕ, List, false, IfOk, IfErr, OnOk, OnErr};
ghost use Rattle.wave_outside.specs.Counts.{Rose};
ghost use Rattle.client_session.specs.Machine.{machine_of};
ghost use Rattle.client_terminal.specs.Going.{Origin, IsOn, IsOff, IsReading, IsFedAs, IsStopped};
ghost use Rattle.client_terminal.specs.Inputs.{input_lines};
ghost use Rattle.client_terminal.specs.Moods.{mood_run, ends_closed};

use crate::acting::do_line;
use crate::mood::Mood;
use crate::stop::Stop;
use client_session::ClientState;
use doc_items::Memory;
use std::alloc::Global;
use wave_outside::{Link, Sink};

// One byte more of a line.
fn keep(line: &mut Vec<u8>, byte: u8) -> Result<(), Memory>
    ensures { OnOk result (line.new.items ≡ line.old.items ++ byte ∷ []) }
{
    line.push(byte)?;
    Ok(())
}

// Takes a byte: the line that is open ends with it, or has it.
fn take_byte<L: Link, W: Sink>(
    alloc: Global,
    client: &mut ClientState,
    link: &mut L,
    sink: &mut W,
    line: &mut Vec<u8>,
    byte: u8,
) -> Result<Mood, Stop>
    requires open { L.closed link.old ≡ false }
    ensures goes { (o : Origin) (read : List ℕ)
        → IsReading L.tells o (machine_of client.old) read line.old.items (L.events link.old) (W.written sink.old)
        → IfOk result (λ mood. IsFedAs L.tells o mood (machine_of client.new) (read ++ byte ∷ []) line.new.items (L.events link.new)
        (W.written sink.new)) }
    ensures halts { (o : Origin) (read : List ℕ)
        → IsReading L.tells o (machine_of client.old) read line.old.items (L.events link.old) (W.written sink.old)
        → OnErr result (IsStopped L.tells o (read ++ byte ∷ []) (L.events link.new) (W.written sink.new)) }
    ensures closed { IfOk result (λ mood. L.closed link.new ≡ ends_closed mood) }
    ensures open { OnErr result (L.closed link.new ≡ false) }
    ensures cause { IfErr result (λ e. e ≢ Stop.Source) }
    ensures link_failed { IfErr result (λ e. e ≡ Stop.Link → Rose (L.faults link.old) (L.faults link.new)) }
    ensures sink_failed { IfErr result (λ e. e ≡ Stop.Sink → Rose (W.faults sink.old) (W.faults sink.new)) }
    ensures later { (L.faults link.old ≤ L.faults link.new) × (W.faults sink.old ≤ W.faults sink.new) }
{
    if byte != b'\n' {
        return match keep(line, byte) {
            Ok(()) => Ok(Mood::Reading),
            Err(_) => Err(Stop::Memory),
        };
    }
    match do_line(alloc, client, link, sink, line.as_slice()) {
        Ok(mood) => {
            line.clear();
            Ok(mood)
        }
        Err(stop) => Err(stop),
    }
}

/// Takes bytes until a line ends the run, or the server closes the link.
pub(crate) fn feed<L: Link, W: Sink>(
    alloc: Global,
    client: &mut ClientState,
    link: &mut L,
    sink: &mut W,
    line: &mut Vec<u8>,
    bytes: &[u8],
) -> Result<Mood, Stop>
    requires open { L.closed link.old ≡ false }
    ensures goes { (o : Origin) (read : List ℕ)
        → IsReading L.tells o (machine_of client.old) read line.old.items (L.events link.old) (W.written sink.old)
        → IfOk result (λ mood. IsFedAs L.tells o mood (machine_of client.new) (read ++ bytes.now) line.new.items (L.events link.new)
        (W.written sink.new)) }
    ensures halts { (o : Origin) (read : List ℕ)
        → IsReading L.tells o (machine_of client.old) read line.old.items (L.events link.old) (W.written sink.old)
        → OnErr result (IsStopped L.tells o (read ++ bytes.now) (L.events link.new) (W.written sink.new)) }
    ensures closed { IfOk result (λ mood. L.closed link.new ≡ ends_closed mood) }
    ensures open { OnErr result (L.closed link.new ≡ false) }
    ensures cause { IfErr result (λ e. e ≢ Stop.Source) }
    ensures link_failed { IfErr result (λ e. e ≡ Stop.Link → Rose (L.faults link.old) (L.faults link.new)) }
    ensures sink_failed { IfErr result (λ e. e ≡ Stop.Sink → Rose (W.faults sink.old) (W.faults sink.new)) }
    ensures later { (L.faults link.old ≤ L.faults link.new) × (W.faults sink.old ≤ W.faults sink.new) }
{
    for byte in bytes {
        match take_byte(alloc, client, link, sink, line, *byte) {
            Ok(Mood::Reading) => {}
            Ok(Mood::Left) => return Ok(Mood::Left),
            Ok(Mood::Closed) => return Ok(Mood::Closed),
            Err(stop) => return Err(stop),
        }
    }
    Ok(Mood::Reading)
}

/// At the end of the input, obeys the line that is open, unless it has no bytes.
pub(crate) fn finish<L: Link, W: Sink>(
    alloc: Global,
    client: &mut ClientState,
    link: &mut L,
    sink: &mut W,
    line: &[u8],
) -> Result<Mood, Stop>
    requires open { L.closed link.old ≡ false }
    ensures goes { (o : Origin) (read : List ℕ)
        → IsReading L.tells o (machine_of client.old) read line.now (L.events link.old) (W.written sink.old)
        → IfOk result (λ mood. IsOn L.tells o (mood_run mood) (machine_of client.new) (input_lines read) (L.events link.new)
        (W.written sink.new)) }
    ensures halts { (o : Origin) (read : List ℕ)
        → IsReading L.tells o (machine_of client.old) read line.now (L.events link.old) (W.written sink.old)
        → OnErr result (IsOff L.tells o (input_lines read) (L.events link.new) (W.written sink.new)) }
    ensures closed { IfOk result (λ mood. L.closed link.new ≡ ends_closed mood) }
    ensures open { OnErr result (L.closed link.new ≡ false) }
    ensures cause { IfErr result (λ e. e ≢ Stop.Source) }
    ensures link_failed { IfErr result (λ e. e ≡ Stop.Link → Rose (L.faults link.old) (L.faults link.new)) }
    ensures sink_failed { IfErr result (λ e. e ≡ Stop.Sink → Rose (W.faults sink.old) (W.faults sink.new)) }
    ensures later { (L.faults link.old ≤ L.faults link.new) × (W.faults sink.old ≤ W.faults sink.new) }
{
    if line.is_empty() {
        return Ok(Mood::Reading);
    }
    do_line(alloc, client, link, sink, line)
}
