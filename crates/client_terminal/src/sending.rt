// Messages and lines on their way out.
ghost use Rattle.std.specs.Prelude.{◌≡◌, ◌≢◌, ◌≤◌, ◌⊎◌, ◌++◌, ◌∷◌, [], IsTrue, IfErr, OnOk, OnErr};
ghost use Rattle.std.specs.List.{All};
ghost use Rattle.std.specs.Io.KnownBytes.{Appends};
ghost use mathlib.Core.List.{IsPrefix};
ghost use Rattle.wave_outside.specs.Counts.{Rose};
ghost use Rattle.message_json.specs.Write.{IsShort};
ghost use Rattle.client_session.specs.Answers.{printed};
ghost use Rattle.client_terminal.specs.Going.{IsWrittenInPart};
ghost use Rattle.client_terminal.specs.Runs.{sends};

use crate::stop::Stop;
use client_session::Acts;
use line_loop::write_all;
use message_json::Message;
use std::alloc::Global;
use wave_messages::write;
use wave_outside::{Link, LinkFault, Sink};

// Sends a message.
fn send_one<L: Link>(alloc: Global, link: &mut L, message: &Message) -> Result<(), Stop>
    requires { IsShort message.now }
    ensures sent { IsTrue L.tells → OnOk result (L.events link.new ≡ L.events link.old ++ sends (message.now ∷ [])) }
    ensures unsent { IsTrue L.tells → OnErr result (L.events link.new ≡ L.events link.old) }
    ensures cause { IfErr result (λ e. (e ≡ Stop.Link) ⊎ (e ≡ Stop.Memory)) }
    ensures failed { IfErr result (λ e. e ≡ Stop.Link → Rose (L.faults link.old) (L.faults link.new)) }
    ensures later { L.faults link.old ≤ L.faults link.new }
    ensures closed { L.closed link.new ≡ L.closed link.old }
{
    let text = write(alloc, message)?;
    match link.send(alloc, text.as_slice()) {
        Ok(()) => Ok(()),
        Err(LinkFault::Failed) => Err(Stop::Link),
        Err(LinkFault::Memory) => Err(Stop::Memory),
    }
}

// Sends messages, in order, up to the first that fails.
fn send_all<L: Link>(alloc: Global, link: &mut L, messages: &[Message]) -> Result<(), Stop>
    requires { All IsShort messages.now }
    ensures sent { IsTrue L.tells → OnOk result (L.events link.new ≡ L.events link.old ++ sends messages.now) }
    ensures unsent { IsTrue L.tells → OnErr result (IsPrefix (L.events link.new) (L.events link.old ++ sends messages.now)) }
    ensures cause { IfErr result (λ e. (e ≡ Stop.Link) ⊎ (e ≡ Stop.Memory)) }
    ensures failed { IfErr result (λ e. e ≡ Stop.Link → Rose (L.faults link.old) (L.faults link.new)) }
    ensures later { L.faults link.old ≤ L.faults link.new }
    ensures closed { L.closed link.new ≡ L.closed link.old }
{
    for message in messages {
        send_one(alloc, link, message)?;
    }
    Ok(())
}

// Writes what is printed.
fn say<W: Sink>(alloc: Global, sink: &mut W, acts: &Acts) -> Result<(), Stop>
    ensures said { OnOk result (Appends (W.written sink.old) (W.written sink.new) (printed acts.now)) }
    ensures unsaid { OnErr result (IsWrittenInPart (W.written sink.old) (W.written sink.new) (printed acts.now)) }
    ensures cause { IfErr result (λ e. (e ≡ Stop.Sink) ⊎ (e ≡ Stop.Memory)) }
    ensures failed { IfErr result (λ e. e ≡ Stop.Sink → Rose (W.faults sink.old) (W.faults sink.new)) }
    ensures later { W.faults sink.old ≤ W.faults sink.new }
{
    let mut text = String::new(alloc);
    acts.write(&mut text)?;
    write_text(sink, text.as_str())
}

/// Writes a text.
pub(crate) fn write_text<W: Sink>(sink: &mut W, text: &str) -> Result<(), Stop>
    ensures said { OnOk result (Appends (W.written sink.old) (W.written sink.new) text.now) }
    ensures unsaid { OnErr result (IsWrittenInPart (W.written sink.old) (W.written sink.new) text.now) }
    ensures cause { IfErr result (λ e. e ≡ Stop.Sink) }
    ensures failed { OnErr result (Rose (W.faults sink.old) (W.faults sink.new)) }
    ensures later { W.faults sink.old ≤ W.faults sink.new }
{
    match write_all(sink, text.as_bytes()) {
        Ok(()) => Ok(()),
        Err(_) => Err(Stop::Sink),
    }
}

/// Sends and prints what the machine did.
pub(crate) fn act<L: Link, W: Sink>(
    alloc: Global,
    link: &mut L,
    sink: &mut W,
    acts: &Acts,
) -> Result<(), Stop>
    requires { All IsShort acts.now.send }
    ensures sent { IsTrue L.tells → OnOk result (L.events link.new ≡ L.events link.old ++ sends acts.now.send) }
    ensures said { OnOk result (Appends (W.written sink.old) (W.written sink.new) (printed acts.now)) }
    ensures unsent { IsTrue L.tells → OnErr result (IsPrefix (L.events link.new) (L.events link.old ++ sends acts.now.send)) }
    ensures unsaid { OnErr result (IsWrittenInPart (W.written sink.old) (W.written sink.new) (printed acts.now)) }
    ensures cause { IfErr result (λ e. e ≢ Stop.Source) }
    ensures link_failed { IfErr result (λ e. e ≡ Stop.Link → Rose (L.faults link.old) (L.faults link.new)) }
    ensures sink_failed { IfErr result (λ e. e ≡ Stop.Sink → Rose (W.faults sink.old) (W.faults sink.new)) }
    ensures later { (L.faults link.old ≤ L.faults link.new) × (W.faults sink.old ≤ W.faults sink.new) }
    ensures closed { L.closed link.new ≡ L.closed link.old }
{
    match send_all(alloc, link, acts.send.as_slice()) {
        Ok(()) => say(alloc, sink, acts),
        Err(stop) => Err(stop),
    }
}
