// Lines that are obeyed.
ghost use Rattle.std.specs.Prelude.{◌≡◌, ◌≢◌, ◌≤◌, ◌++◌, ◌∷◌, [], ℕ, List, false, IfOk, IfErr, OnErr};
ghost use Rattle.wave_outside.specs.Counts.{Rose};
ghost use Rattle.client_session.specs.Machine.{machine_of};
ghost use Rattle.client_terminal.specs.Going.{Origin, IsOn, IsOff};
ghost use Rattle.client_terminal.specs.Moods.{mood_run, ends_closed, after_run};
ghost use Rattle.client_terminal.specs.Runs.{RunOf, Reading, in_phase, lined};

use crate::looking::{look_on, wait};
use crate::mood::{After, Mood};
use crate::sending::act;
use crate::stop::Stop;
use client_session::{Acts, ClientState};
use std::alloc::Global;
use wave_outside::{Link, Sink};

// What a line asks for.
fn after(acts: &Acts) -> After
    ensures { (r : RunOf) → lined acts.now r ≡ after_run result r }
{
    if acts.ends {
        return After::Leaves;
    }
    if acts.waits {
        return After::Waits;
    }
    After::Looks
}

// Does what a line itself says.
fn obey<L: Link, W: Sink>(
    alloc: Global,
    client: &mut ClientState,
    link: &mut L,
    sink: &mut W,
    line: &[u8],
) -> Result<After, Stop>
    ensures goes { (o : Origin) (ls : List (List ℕ))
        → IsOn L.tells o (in_phase Reading) (machine_of client.old) ls (L.events link.old) (W.written sink.old)
        → IfOk result (λ a. IsOn L.tells o (after_run a) (machine_of client.new) (ls ++ line.now ∷ []) (L.events link.new)
        (W.written sink.new)) }
    ensures halts { (o : Origin) (ls : List (List ℕ))
        → IsOn L.tells o (in_phase Reading) (machine_of client.old) ls (L.events link.old) (W.written sink.old)
        → OnErr result (IsOff L.tells o (ls ++ line.now ∷ []) (L.events link.new) (W.written sink.new)) }
    ensures closed { L.closed link.new ≡ L.closed link.old }
    ensures cause { IfErr result (λ e. e ≢ Stop.Source) }
    ensures link_failed { IfErr result (λ e. e ≡ Stop.Link → Rose (L.faults link.old) (L.faults link.new)) }
    ensures sink_failed { IfErr result (λ e. e ≡ Stop.Sink → Rose (W.faults sink.old) (W.faults sink.new)) }
    ensures later { (L.faults link.old ≤ L.faults link.new) × (W.faults sink.old ≤ W.faults sink.new) }
{
    let acts = client.on_command(alloc, line)?;
    match act(alloc, link, sink, &acts) {
        Ok(()) => Ok(after(&acts)),
        Err(stop) => Err(stop),
    }
}

/// Does what a line says, and looks at the link: until what is under way has settled, where the line asks for that, and then until
/// nothing comes.
pub(crate) fn do_line<L: Link, W: Sink>(
    alloc: Global,
    client: &mut ClientState,
    link: &mut L,
    sink: &mut W,
    line: &[u8],
) -> Result<Mood, Stop>
    requires open { L.closed link.old ≡ false }
    ensures goes { (o : Origin) (ls : List (List ℕ))
        → IsOn L.tells o (in_phase Reading) (machine_of client.old) ls (L.events link.old) (W.written sink.old)
        → IfOk result (λ mood. IsOn L.tells o (mood_run mood) (machine_of client.new) (ls ++ line.now ∷ []) (L.events link.new)
        (W.written sink.new)) }
    ensures halts { (o : Origin) (ls : List (List ℕ))
        → IsOn L.tells o (in_phase Reading) (machine_of client.old) ls (L.events link.old) (W.written sink.old)
        → OnErr result (IsOff L.tells o (ls ++ line.now ∷ []) (L.events link.new) (W.written sink.new)) }
    ensures closed { IfOk result (λ mood. L.closed link.new ≡ ends_closed mood) }
    ensures open { OnErr result (L.closed link.new ≡ false) }
    ensures cause { IfErr result (λ e. e ≢ Stop.Source) }
    ensures link_failed { IfErr result (λ e. e ≡ Stop.Link → Rose (L.faults link.old) (L.faults link.new)) }
    ensures sink_failed { IfErr result (λ e. e ≡ Stop.Sink → Rose (W.faults sink.old) (W.faults sink.new)) }
    ensures later { (L.faults link.old ≤ L.faults link.new) × (W.faults sink.old ≤ W.faults sink.new) }
{
    match obey(alloc, client, link, sink, line) {
        Ok(After::Leaves) => Ok(Mood::Left),
        Ok(After::Waits) => wait(alloc, client, link, sink),
        Ok(After::Looks) => look_on(alloc, client, link, sink),
        Err(stop) => Err(stop),
    }
}
