//! Accepting links, and a job for each.
ghost use denote.Param.Send.{IsSend};

use crate::log::Log;
use crate::talk::Talk;
use std::alloc::Global;
use std::sync::{Arc, Wait};
use wave_outside::{Accepted, Gate, Job, Link, Net, Spawner};

/// Why a server stops before its sessions have ended.
#[derive(Clone, Copy, Debug, PartialEq, Eq)]
pub enum Stop {
    Door,
    Memory,
    /// A thread could not be started.
    Refused,
}

// The place of a job that has ended.
fn find_done<R: Wait, J: Job, P: Spawner<J, R>>(spawner: &P, jobs: &[P::Running]) -> Option<usize> {
    for (place, job) in jobs.iter().enumerate() {
        if spawner.done(job) {
            return Some(place);
        }
    }
    None
}

// Takes the ends of those jobs that have ended, and gives their number.
fn take_ends<R: Wait, J: Job, P: Spawner<J, R>>(
    rt: &R,
    alloc: Global,
    spawner: &mut P,
    jobs: &mut Vec<P::Running>,
) -> u64 {
    let mut ended = 0u64;
    for _ in 0..jobs.len() {
        match find_done::<R, J, P>(spawner, jobs.as_slice()) {
            Some(place) if place < jobs.len() => {
                let running = jobs.swap_remove(place);
                let _end = spawner.take(rt, alloc, running);
                ended = ended.saturating_add(1);
            }
            _ => return ended,
        }
    }
    ended
}

// Starts a job for a link.
fn start<R: Wait, N: Net, P: Spawner<Talk<N::Link, G>, R>, G: Gate + Drop>(
    rt: &R,
    alloc: Global,
    spawner: &mut P,
    jobs: &mut Vec<P::Running>,
    talk: Talk<N::Link, G>,
) -> Result<(), Stop>
    requires sends { IsSend R.row }
{
    match spawner.start(rt, alloc, talk) {
        Ok(running) => match jobs.push(running) {
            Ok(()) => Ok(()),
            Err(_) => Err(Stop::Memory),
        },
        Err(_) => Err(Stop::Refused),
    }
}

// The session of a link.
fn job_of<L: Link, G: Gate + Drop>(
    log: &Arc<Log, Global>,
    gate: &G,
    link: L,
    number: u64,
) -> Result<Talk<L, G>, Stop> {
    match Arc::try_clone(log) {
        Ok(log) => Ok(Talk {
            log,
            link,
            gate: gate.another(),
            number,
        }),
        Err(_) => Err(Stop::Memory),
    }
}

/// Serves so many sessions.
pub fn serve<R: Wait, N: Net, P: Spawner<Talk<N::Link, G>, R>, G: Gate + Drop>(
    rt: &R,
    alloc: Global,
    net: &mut N,
    spawner: &mut P,
    gate: &G,
    log: &Arc<Log, Global>,
    sessions: u64,
) -> Result<(), Stop>
    requires sends { IsSend R.row }
{
    let mut jobs = Vec::new(alloc);
    let mut left = sessions;
    let mut number = 0u64;
    for _ in rt.forever() {
        left = left.saturating_sub(take_ends::<R, Talk<N::Link, G>, P>(
            rt, alloc, spawner, &mut jobs,
        ));
        if left == 0 {
            return Ok(());
        }
        match net.accept(alloc) {
            Ok(Accepted::Link(link)) => {
                let job = job_of(log, gate, link, number)?;
                start::<R, N, P, G>(rt, alloc, spawner, &mut jobs, job)?;
                number = number.saturating_add(1);
            }
            Ok(Accepted::Nothing) => net.rest(),
            Err(_) => return Err(Stop::Door),
        }
    }
    unreachable!()
}
