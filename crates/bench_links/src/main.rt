//! A server to measure links, threads and bells with: what comes over one link is sent over all of them, in one order.
//!
//! The words are an address and a number of sessions, after which it ends. It prints how many threads could not be started. With
//! other words it says what they are.
#![tactic(auto)]

mod log;
mod serving;
mod spawner;
mod talk;

use crate::log::Log;
use crate::serving::{Stop, serve};
use crate::spawner::TalkSpawner;
use std::alloc::{AllocError, Global};
use std::process::ExitCode;
use std::sync::Arc;
use std::{env, io};
use wave_outside::Net;
use wave_threads::{RingingGate, ThreadStarter};
use ws_link::{Bells, Limits, Patience, SocketNet};

/// How many links have a bell.
const LINKS: usize = 4_096;

/// The bells, for those who hang them and for those who ring them.
type ThreeBells = (Arc<Bells, Global>, Arc<Bells, Global>, Arc<Bells, Global>);

fn bells(alloc: Global) -> Result<ThreeBells, AllocError> {
    let first = Arc::new(alloc, Bells::new(alloc, LINKS)?)?;
    let second = Arc::try_clone(&first)?;
    let third = Arc::try_clone(&first)?;
    Ok((first, second, third))
}

// The address and the number of sessions.
fn words(rt: &HostRuntime) -> Option<(String, u64)> {
    let mut words = env::args(rt).ok()?.skip(1);
    let address = words.next()?;
    let sessions = words.next()?.as_str().parse::<u64>().ok()?;
    Some((address, sessions))
}

fn status(stopped: Result<(), Stop>) -> u8 {
    match stopped {
        Ok(()) => 0,
        Err(Stop::Door) => 7,
        Err(Stop::Memory) => 8,
        Err(Stop::Refused) => 9,
    }
}

fn main(rt: HostRuntime) -> io::Result<ExitCode> {
    let alloc: Global = rt.alloc();
    let Some((address, sessions)) = words(&rt) else {
        println!(rt; "bench_links ADDRESS SESSIONS")?;
        return Ok(ExitCode::from(0));
    };
    let (for_net, for_spawner, for_gate) = bells(alloc)?;
    let mut net = SocketNet::new(rt, alloc, for_net, Limits::for_clients(), Patience::none());
    if net.listen(alloc, address.as_str()).is_err() {
        return Ok(ExitCode::from(status(Err(Stop::Door))));
    }
    let starter = ThreadStarter::new(for_spawner);
    let mut spawner = TalkSpawner { starter };
    let gate = RingingGate::new(for_gate);
    let log = Arc::new(alloc, Log::new(alloc))?;
    let stopped = serve(&rt, alloc, &mut net, &mut spawner, &gate, &log, sessions);
    let refused = spawner.starter.refused.count;
    println!(rt; "{refused} refused")?;
    Ok(ExitCode::from(status(stopped)))
}
