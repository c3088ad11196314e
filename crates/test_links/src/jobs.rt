// Jobs one after the other, refused, and in threads; and a gate that holds.
ghost use denote.Param.Send.{IsSend};

use crate::numbered::{Numbered, NumberedSpawner};
use std::alloc::{AllocError, Global};
use std::sync::{Arc, Wait};
use std::thread;
use std::time::{Clock, Duration};
use wave_outside::{Gate, HoldingGate, InTurn, RefusingSpawner, Spawner};
use wave_threads::ThreadStarter;
use ws_link::Bells;

// Whether a job has ended within ten seconds, as far as that can be seen.
fn is_soon_done<R: Wait + Clock, P: Spawner<Numbered, R>>(
    rt: &R,
    spawner: &P,
    running: &P::Running,
) -> bool {
    for _ in 0..10_000u64 {
        if spawner.done(running) {
            return true;
        }
        thread::sleep(rt, Duration::from_millis(1));
    }
    false
}

// What a job ends with; None where it is refused, or doesn't end.
fn end_of<R: Wait + Clock, P: Spawner<Numbered, R>>(
    rt: &R,
    alloc: Global,
    spawner: &mut P,
    number: u64,
) -> Option<u64>
    requires sends { IsSend R.row }
{
    match spawner.start(rt, alloc, Numbered { number }) {
        Ok(running) => {
            let done = is_soon_done::<R, P>(rt, spawner, &running);
            let end = spawner.take(rt, alloc, running);
            if done { Some(end) } else { None }
        }
        Err(_) => None,
    }
}

#[test]
fn jobs_one_after_the_other(rt: HostRuntime) {
    let mut spawner = InTurn;
    assert!(rt; end_of(&rt, rt.alloc(), &mut spawner, 7) == Some(7));
}

#[test]
fn jobs_that_are_refused(rt: HostRuntime) {
    let mut spawner = RefusingSpawner::new();
    assert!(rt; end_of(&rt, rt.alloc(), &mut spawner, 7) == None);
}

fn starting(alloc: Global) -> Result<NumberedSpawner, AllocError> {
    let bells = Arc::new(alloc, Bells::new(alloc, 0)?)?;
    Ok(NumberedSpawner {
        starter: ThreadStarter::new(bells),
    })
}

#[test]
fn jobs_in_threads(rt: HostRuntime) {
    let alloc: Global = rt.alloc();
    let Ok(mut spawner) = starting(alloc) else {
        panic!(rt; "no memory")
    };
    for number in 7u64..10 {
        assert!(rt; end_of(&rt, alloc, &mut spawner, number) == Some(number));
    }
    assert!(rt; spawner.starter.refused.count == 0);
}

// Passes the gate before a turn and after it.
fn pass(gate: HoldingGate, session: u64) {
    let mut gate = gate;
    gate.before(session, 0);
    gate.news(session, 0);
    gate.after(session, 0);
}

// Session 1 goes on once the others have had two turns. Were it held longer, this would not end.
#[test]
fn a_gate_that_holds(rt: HostRuntime) {
    let Ok(gate) = HoldingGate::new(rt.alloc(), 1, 2) else {
        panic!(rt; "no memory")
    };
    let held = gate.another();
    let Ok(waiting) = thread::spawn(&rt, move || pass(held, 1)) else {
        panic!(rt; "no thread")
    };
    pass(gate.another(), 2);
    pass(gate, 3);
    waiting.join(&rt);
}
