//! The program `wave`: the real objects, handed to the top call.
#![tactic(auto)]

mod net;
mod spawner;

use crate::net::TellingNet;
use crate::spawner::SessionSpawner;
use command_words::{Command, WordsFault, read_words};
use robot_echo::Echo;
use robot_host::RobotHost;
use std::alloc::{AllocError, Global};
use std::process::ExitCode;
use std::sync::Arc;
use std::{env, io};
use wave_files::{FileFolder, SystemClock};
use wave_outside::{ReaderSource, WriterSink};
use wave_program::{Outside, run};
use wave_server::Server;
use wave_threads::{RingingGate, ThreadStarter};
use ws_link::{Bells, Limits, Patience, SocketNet};

/// The exit status for want of memory.
const OUT_OF_MEMORY: u8 = 8;

/// How many sessions have a bell. One beyond them looks for news once a second.
const BELLS: usize = 4_096;

/// The bells, for those who hang them and for those who ring them.
type ThreeBells = (Arc<Bells, Global>, Arc<Bells, Global>, Arc<Bells, Global>);

fn bells(alloc: Global) -> Result<ThreeBells, AllocError> {
    let first = Arc::new(alloc, Bells::new(alloc, BELLS)?)?;
    let second = Arc::try_clone(&first)?;
    let third = Arc::try_clone(&first)?;
    Ok((first, second, third))
}

fn main(rt: HostRuntime) -> ExitCode {
    let alloc = rt.alloc();
    let Ok((for_net, for_spawner, for_gate)) = bells(alloc) else {
        return ExitCode::from(OUT_OF_MEMORY);
    };
    let Ok(words) = words(&rt, alloc) else {
        return ExitCode::from(OUT_OF_MEMORY);
    };
    let Ok(Manner { patience, echo }) = manner_of(alloc, &words) else {
        return ExitCode::from(OUT_OF_MEMORY);
    };
    let net = SocketNet::new(rt, alloc, for_net, Limits::for_clients(), patience);
    let starter = ThreadStarter::new(for_spawner);
    let mut outside = Outside {
        source: ReaderSource::new(rt.reader()),
        sink: WriterSink::new(io::writer(&rt)),
        folder: FileFolder::new(rt, alloc),
        clock: SystemClock::new(rt),
        server: Server {
            net: TellingNet { rt, net },
            spawner: SessionSpawner { starter },
            gate: RingingGate::new(for_gate),
            ended: Vec::new(alloc),
            passes: None,
            spent: None,
        },
    };
    let mut robots = RobotHost::new(alloc);
    let status = match echo {
        Some(robot) => match robots.add(alloc, robot) {
            Ok(()) => run(&rt, alloc, &words, &mut outside, &mut robots),
            Err(_) => OUT_OF_MEMORY,
        },
        None => run(&rt, alloc, &words, &mut outside, &mut robots),
    };
    ExitCode::from(status)
}

// What the words decide of the objects: how long a look at a dialled link waits, and the robot `echo` where they ask for it.
struct Manner {
    patience: Patience,
    echo: Option<Box<Echo>>,
}

// The links that `serve` dials end its rest at the door, and don't wait by themselves; that of `edit` waits for its user and its server.
fn manner_of(alloc: Global, words: &Vec<String>) -> Result<Manner, AllocError> {
    match read_words(alloc, words.as_slice()) {
        Ok(Command::Serve { domain, echo, .. }) => {
            let patience = Patience::none();
            if !echo {
                return Ok(Manner {
                    patience,
                    echo: None,
                });
            }
            let robot = Echo::new(alloc, &domain)?;
            let echo = Some(Box::new(alloc, robot)?);
            Ok(Manner { patience, echo })
        }
        Ok(_) | Err(WordsFault::Usage) => {
            let patience = Patience::of_terminal();
            Ok(Manner {
                patience,
                echo: None,
            })
        }
        Err(WordsFault::Memory) => Err(AllocError),
    }
}

// The arguments after the program's own name. Where one of them isn't text there are none, which names no command.
fn words(rt: &HostRuntime, alloc: Global) -> Result<Vec<String>, AllocError> {
    let mut words = Vec::new(alloc);
    match env::args(rt) {
        Ok(all) => {
            for word in all.skip(1) {
                words.push(word)?;
            }
            Ok(words)
        }
        Err(fault) if fault.kind() == io::ErrorKind::OutOfMemory => Err(AllocError),
        Err(_) => Ok(words),
    }
}
