// Who is woken by a bell. A look at a link that was idle for long waits a second, and so does a rest at the door.
use crate::ends::{HELLO, LOOKS, OwnLink, OwnNet, came, knocked, listening};
use crate::numbered::{Numbered, NumberedSpawner};
use std::alloc::{AllocError, Global};
use std::sync::Arc;
use std::thread;
use std::time::{Duration, Instant};
use wave_outside::{Gate, Link, Net, Spawner};
use wave_threads::{RingingGate, ThreadStarter};
use ws_link::{Bells, Limits, Patience};

// Who waits for fewer milliseconds was woken.
const WOKEN: u64 = 900;

// How often a thread is given the chance to wake the test in time, on a machine that may be busy.
const CHANCES: u64 = 5;

// The bells of a net, and once more for who rings them.
fn shared_bells(alloc: Global) -> Result<(Arc<Bells, Global>, Arc<Bells, Global>), AllocError> {
    let bells = Arc::new(alloc, Bells::new(alloc, 4)?)?;
    let again = Arc::try_clone(&bells)?;
    Ok((bells, again))
}

// A net, and what rings its bells.
fn host(rt: HostRuntime) -> Option<(OwnNet, Arc<Bells, Global>)> {
    let (bells, again) = shared_bells(rt.alloc()).ok()?;
    let net = listening(rt, bells, Limits::for_clients(), Patience::none())?;
    Some((net, again))
}

// Whether a look at a link ends before its time.
fn is_woken(rt: &HostRuntime, link: &mut OwnLink) -> Option<bool> {
    let began = Instant::now(rt).ok()?;
    let _polled = link.poll(rt.alloc());
    Some(began.elapsed(rt).ok()? < Duration::from_millis(WOKEN))
}

// Whether a rest at the door ends before its time.
fn is_called(rt: &HostRuntime, net: &mut OwnNet) -> Option<bool> {
    let began = Instant::now(rt).ok()?;
    net.rest();
    Some(began.elapsed(rt).ok()? < Duration::from_millis(WOKEN))
}

// Looks at a link until its next wait takes a second.
fn tire(alloc: Global, link: &mut OwnLink) {
    for _ in 0..11 {
        let _polled = link.poll(alloc);
    }
}

// The shard of which there are news, the session that has them, and whether session 0 is woken, which opened shard 3.
const NEWS: [(u8, u64, bool); 4] = [(3, 1, true), (4, 1, false), (3, 0, false), (3, 1, true)];

#[test]
fn news_wake_who_opened_the_shard(rt: HostRuntime) {
    let alloc: Global = rt.alloc();
    let Some((mut net, bells)) = host(rt) else {
        panic!(rt; "no net")
    };
    let Some(_stream) = knocked(&rt, &net, HELLO) else {
        panic!(rt; "no stream")
    };
    let Some(mut link) = came(alloc, &mut net, LOOKS) else {
        panic!(rt; "no link")
    };
    let mut own = RingingGate::new(bells);
    let mut other = own.another();
    own.before(0, 3);
    tire(alloc, &mut link);
    for row in &NEWS {
        let (shard, session, wakes) = *row;
        if session == 0 {
            own.news(session, shard);
        } else {
            other.news(session, shard);
        }
        assert!(rt; is_woken(&rt, &mut link) == Some(wakes));
    }
}

// Rings after a while, when who waits has gone to sleep.
fn ring_later(rt: HostRuntime, gate: RingingGate) {
    let mut gate = gate;
    thread::sleep(&rt, Duration::from_millis(100));
    gate.news(1, 3);
}

#[test]
fn a_bell_that_another_thread_rings(rt: HostRuntime) {
    let alloc: Global = rt.alloc();
    let Some((mut net, bells)) = host(rt) else {
        panic!(rt; "no net")
    };
    let Some(_stream) = knocked(&rt, &net, HELLO) else {
        panic!(rt; "no stream")
    };
    let Some(mut link) = came(alloc, &mut net, LOOKS) else {
        panic!(rt; "no link")
    };
    let mut own = RingingGate::new(bells);
    own.before(0, 3);
    tire(alloc, &mut link);
    assert!(rt; is_woken(&rt, &mut link) == Some(false));
    for _ in 0..CHANCES {
        let gate = own.another();
        let Ok(ringer) = thread::spawn(&rt, move || ring_later(rt, gate)) else {
            panic!(rt; "no thread")
        };
        let woken = is_woken(&rt, &mut link);
        ringer.join(&rt);
        if woken == Some(true) {
            return;
        }
    }
    panic!(rt; "nobody was woken")
}

// No rest ends before its time while no job has ended.
#[test]
fn the_end_of_a_job_rings_at_the_door(rt: HostRuntime) {
    let alloc: Global = rt.alloc();
    let Some((mut net, bells)) = host(rt) else {
        panic!(rt; "no net")
    };
    let mut spawner = NumberedSpawner {
        starter: ThreadStarter::new(bells),
    };
    let _nothing = net.accept(alloc);
    assert!(rt; is_called(&rt, &mut net) == Some(false));
    for number in 0..CHANCES {
        let Ok(running) = spawner.start(&rt, alloc, Numbered { number }) else {
            panic!(rt; "no thread")
        };
        let called = is_called(&rt, &mut net);
        assert!(rt; spawner.take(&rt, alloc, running) == number);
        if called == Some(true) {
            return;
        }
    }
    panic!(rt; "nobody was called")
}
