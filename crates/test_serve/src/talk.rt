//! The verbs.
ghost use Rattle.std.specs.Prelude.{◌≡◌, vec_len, is_some, false, IfOk};
ghost use denote.Param.Send.{IsSend};
ghost use Rattle.robot_host.specs.Hosts.{host_as, IsNew};

use crate::gate::StagedGate;
use crate::net::StagedNet;
use crate::robots::{Manner, StagedRobot, manner_of};
use crate::script::Script;
use crate::sent::{StagedServer, put_ends};
use crate::spawner::StagedSpawner;
use crate::stage::{Stage, StagedClock, Turn};
use robot_host::{Robot, RobotHost};
use std::alloc::{AllocError, Global};
use std::sync::atomic::{AtomicU64, Ordering};
use std::sync::{Arc, Wait};
use std::thread::Threads;
use test_disk_rows::{Fault, bytes_of, calls, filled, first_word, number, put, words_of};
use wave_base::{Address, BaseFault, Domain};
use wave_outside::{HoldingGate, MemoryFolder, MemorySink, MemorySource, Polled};
use wave_program::{Outside, run};
use wave_server::Server;
use wave_threads::ThreadStarter;
use ws_link::Bells;

/// What a run of the server meets in a talk.
type StagedOutside = Outside<
    MemorySource,
    MemorySink,
    MemoryFolder,
    StagedClock,
    StagedNet,
    StagedSpawner,
    StagedGate,
>;

/// What the clock reads in turns that no row gives a reading.
const READING: u64 = 1000;

/// What rows tell of the runs of a server.
pub struct Talk {
    scripts: Vec<Script>,
    // The place of the link of each turn.
    owners: Vec<usize>,
    // How many edits of robots each turn waits for; 0 for a turn of a link.
    awaited: Vec<u64>,
    robots: Vec<Invited>,
    // The numbers of the folder's calls that fail.
    failing: Vec<u64>,
    // Whether each start of a session is refused, and whether the door can't be opened.
    refuses: bool,
    is_shut: bool,
    // The session that is held before each of its turns, and until how many turns of the others.
    held: u64,
    until: u64,
}

impl Drop for Talk {
    fn drop(self) {
        let Talk {
            scripts: _scripts,
            owners: _owners,
            awaited: _awaited,
            robots: _robots,
            failing: _failing,
            refuses: _refuses,
            is_shut: _is_shut,
            held: _held,
            until: _until,
        } = self;
    }
}

/// A robot that takes part in a talk.
struct Invited {
    address: Address,
    manner: Manner,
}

impl Drop for Invited {
    fn drop(self) {
        let Invited {
            address: _address,
            manner: _manner,
        } = self;
    }
}

impl Invited {
    // The robot, which counts here what it is shown.
    fn robot(
        &self,
        alloc: Global,
        shown: Arc<AtomicU64, Global>,
    ) -> Result<Box<StagedRobot>, Fault> {
        let domain = Domain::parse(alloc, self.address.domain()).map_err(fault_of)?;
        let address = self.address.copy(alloc)?;
        let robot = StagedRobot::new(alloc, address, &domain, self.manner, shown)?;
        Ok(Box::new(alloc, robot)?)
    }
}

fn fault_of(fault: BaseFault) -> Fault {
    match fault {
        BaseFault::Memory => Fault::Memory,
        _ => Fault::BadRow,
    }
}

// These robots come to the host, of which no turn was taken yet.
fn add_all(alloc: Global, robots: &mut RobotHost, made: Vec<Box<dyn Robot>>) -> Result<(), Fault>
    requires new { IsNew (host_as ⟦<dyn Robot as Robot>⟧ robots.old) }
    ensures new { IsNew (host_as ⟦<dyn Robot as Robot>⟧ robots.new) }
{
    for robot in made {
        robots.add(alloc, robot)?;
    }
    Ok(())
}

// So many counts of nothing.
fn counts(alloc: Global, count: usize) -> Result<Vec<Arc<AtomicU64, Global>>, AllocError> {
    let mut counts = Vec::new(alloc);
    for _ in 0..count {
        counts.push(Arc::new(alloc, AtomicU64::new(0))?)?;
    }
    Ok(counts)
}

// A message of a row: the digits after `Hex`, or a text.
fn message(alloc: Global, text: &str) -> Result<Vec<u8>, Fault> {
    match text.strip_prefix("Hex ") {
        Some(digits) => bytes_of(alloc, digits),
        None => filled(alloc, text),
    }
}

fn reading(word: &str) -> Result<u64, Fault> {
    if word == "-" {
        return Ok(READING);
    }
    number(word)
}

impl Talk {
    pub fn new(alloc: Global) -> Talk {
        Talk {
            scripts: Vec::new(alloc),
            owners: Vec::new(alloc),
            awaited: Vec::new(alloc),
            robots: Vec::new(alloc),
            failing: Vec::new(alloc),
            refuses: false,
            is_shut: false,
            held: u64::MAX,
            until: 0,
        }
    }

    /// Appends what comes of a row.
    pub fn call<R: Threads + Wait + Copy + Send + Sync + Drop + 'static>(
        &mut self,
        rt: &R,
        alloc: Global,
        row: &str,
        out: &mut String,
    ) -> Result<(), Fault>
        requires sends { IsSend R.row }
    {
        let (verb, rest) = first_word(row);
        match verb {
            "server" => {
                *self = Talk::new(alloc);
                Ok(())
            }
            "+" => self.link(alloc, rest, false),
            "free" => self.link(alloc, rest, true),
            ">" => self.receives(alloc, rest),
            "idle" => self.idle(rest),
            "-" => self.closes(rest),
            "fails" => self.fails(alloc, rest),
            "folder" => self.folder(alloc, rest),
            "refuses" => {
                self.refuses = true;
                Ok(())
            }
            "shut" => {
                self.is_shut = true;
                Ok(())
            }
            "holds" => self.holds(rest),
            "robot" => self.invite(alloc, rest),
            "robots" => self.wait(rest),
            "serve" => self.serve(rt, alloc, row, out),
            _ => Err(Fault::BadRow),
        }
    }

    // The place of the link of this name.
    fn find(&self, name: &str) -> Result<usize, Fault> {
        for (place, script) in self.scripts.iter().enumerate() {
            if script.name.as_str() == name {
                return Ok(place);
            }
        }
        Err(Fault::BadRow)
    }

    // The turn in which a link is dialled.
    fn dial_turn(&mut self, place: usize) -> Result<Turn, Fault> {
        let number = self.owners.len() as u64;
        self.owners.push(place)?;
        self.awaited.push(0)?;
        Ok(Turn {
            number,
            reading: READING,
        })
    }

    /// `+ LINK DOMAIN`: a link that takes its turns in the talk; `+ LINK DOMAIN dials ADDRESS` one that the server dials in a turn
    /// of its own. `free LINK`: one that waits for nobody.
    fn link(&mut self, alloc: Global, rest: &str, is_free: bool) -> Result<(), Fault> {
        let (name, rest) = first_word(rest);
        let (_domain, rest) = first_word(rest);
        let (verb, address) = first_word(rest);
        let place = self.scripts.len();
        let dial = match verb {
            "dials" => Some(self.dial_turn(place)?),
            _ => None,
        };
        Ok(
            self.scripts
                .push(Script::new(alloc, name, place, is_free, dial, address)?)?,
        )
    }

    // Adds a poll of a link, in a turn of its own. A close is the last one that is added.
    fn poll(&mut self, place: usize, polled: Polled, reading: u64) -> Result<(), Fault> {
        let number = self.owners.len() as u64;
        let Some(script) = self.scripts.get_mut(place) else {
            return Err(Fault::BadRow);
        };
        if script.is_closed {
            return Ok(());
        }
        if !script.is_free {
            self.owners.push(place)?;
            self.awaited.push(0)?;
        }
        Ok(script.add(polled, Turn { number, reading })?)
    }

    fn is_free(&self, place: usize) -> bool {
        match self.scripts.get(place) {
            Some(script) => script.is_free,
            None => true,
        }
    }

    // Each other link that takes turns is polled once, so that its session sends what is new.
    fn round(&mut self, place: usize) -> Result<(), Fault> {
        for other in 0..self.scripts.len() {
            if other != place && !self.is_free(other) {
                self.poll(other, Polled::Nothing, READING)?;
            }
        }
        Ok(())
    }

    /// `> LINK READING MESSAGE`: the link receives the message, and the clock reads this.
    fn receives(&mut self, alloc: Global, rest: &str) -> Result<(), Fault> {
        let (name, rest) = first_word(rest);
        let (read, text) = first_word(rest);
        let place = self.find(name)?;
        let message = message(alloc, text)?;
        self.poll(place, Polled::Message(message), reading(read)?)?;
        if self.is_free(place) {
            return Ok(());
        }
        self.round(place)
    }

    /// `idle LINK N`: so many polls find nothing.
    fn idle(&mut self, rest: &str) -> Result<(), Fault> {
        let (name, count) = first_word(rest);
        let place = self.find(name)?;
        for _ in 0..number(count)? {
            self.poll(place, Polled::Nothing, READING)?;
        }
        Ok(())
    }

    /// `- LINK`: the other side closes the link.
    fn closes(&mut self, name: &str) -> Result<(), Fault> {
        let place = self.find(name)?;
        self.poll(place, Polled::Closed, READING)
    }

    /// `fails LINK calls N ..`: calls of the link that fail in the runs that come; none without `calls`.
    fn fails(&mut self, alloc: Global, rest: &str) -> Result<(), Fault> {
        let (name, faults) = first_word(rest);
        let place = self.find(name)?;
        let failing = calls(alloc, "calls", faults)?;
        match self.scripts.get_mut(place) {
            Some(script) => {
                script.failing = failing;
                Ok(())
            }
            None => Err(Fault::BadRow),
        }
    }

    /// `folder calls N ..`: calls of each folder that fail. The folder has no files.
    fn folder(&mut self, alloc: Global, faults: &str) -> Result<(), Fault> {
        self.failing = calls(alloc, "calls", faults)?;
        Ok(())
    }

    /// `holds SESSION N`: the session is held before each of its turns, until the others have had so many.
    fn holds(&mut self, rest: &str) -> Result<(), Fault> {
        let (session, turns) = first_word(rest);
        self.held = number(session)?;
        self.until = number(turns)?;
        Ok(())
    }

    /// `robot ADDRESS MANNER`: a robot takes part, in this manner.
    fn invite(&mut self, alloc: Global, rest: &str) -> Result<(), Fault> {
        let (address, manner) = first_word(rest);
        let address = Address::parse(alloc, address).map_err(fault_of)?;
        let manner = manner_of(manner)?;
        Ok(self.robots.push(Invited { address, manner })?)
    }

    /// `robots N`: a turn that lasts until so many edits of robots were accepted in all.
    fn wait(&mut self, count: &str) -> Result<(), Fault> {
        self.owners.push(usize::MAX)?;
        Ok(self.awaited.push(number(count)?)?)
    }

    // Links that are still open are closed, in order.
    fn close_all(&mut self) -> Result<(), Fault> {
        for place in 0..self.scripts.len() {
            self.poll(place, Polled::Closed, READING)?;
        }
        Ok(())
    }

    // The scripts once more, of links that are dialled or of the others; the last one comes first.
    fn scripts(&self, alloc: Global, dialled: bool) -> Result<Vec<Script>, AllocError> {
        let mut scripts = Vec::new(alloc);
        for script in &self.scripts {
            if script.dial.is_some() == dialled {
                scripts.push(script.copy(alloc)?)?;
            }
        }
        scripts.reverse();
        Ok(scripts)
    }

    // What a server meets in the talk.
    fn server(&self, alloc: Global, stage: Arc<Stage, Global>) -> Result<StagedServer, Fault>
        ensures { IfOk result (λ s. (vec_len s.ended ≡ 0) × (is_some s.spent ≡ false) × (is_some s.passes ≡ false)) }
    {
        let bells = Arc::new(alloc, Bells::new(alloc, 0)?)?;
        let on = Arc::try_clone(&stage)?;
        Ok(Server {
            net: StagedNet::new(
                alloc,
                stage,
                self.scripts(alloc, false)?,
                self.scripts(alloc, true)?,
                self.is_shut,
            ),
            spawner: StagedSpawner {
                starter: ThreadStarter::new(bells),
                refuses: self.refuses,
            },
            gate: StagedGate::new(HoldingGate::new(alloc, self.held, self.until)?, on),
            ended: Vec::new(alloc),
            passes: None,
            spent: None,
        })
    }

    // What a run meets in the talk.
    fn outside(&self, alloc: Global) -> Result<StagedOutside, Fault>
        ensures { IfOk result (λ o. (vec_len o.server.ended ≡ 0) × (is_some o.server.spent ≡ false) × (is_some o.server.passes ≡ false)) }
    {
        let stage = Stage::new(
            alloc,
            self.owners.as_slice(),
            self.awaited.as_slice(),
            self.scripts.len(),
            READING,
        )?;
        let stage = Arc::new(alloc, stage)?;
        let failing = Vec::from_slice(alloc, self.failing.as_slice())?;
        Ok(Outside {
            source: MemorySource::new(Vec::new(alloc), Vec::new(alloc)),
            sink: MemorySink::new(alloc, Vec::new(alloc)),
            folder: MemoryFolder::new(alloc, Vec::new(alloc), failing),
            clock: StagedClock::new(Arc::try_clone(&stage)?),
            server: self.server(alloc, stage)?,
        })
    }

    /// `serve WORDS`: a run of the program with the row's words. Its status, and for each link what was sent over it and how its
    /// session ended.
    fn serve<R: Threads + Wait + Copy + Send + Sync + Drop + 'static>(
        &mut self,
        rt: &R,
        alloc: Global,
        row: &str,
        out: &mut String,
    ) -> Result<(), Fault>
        requires sends { IsSend R.row }
    {
        self.close_all()?;
        let mut outside = self.outside(alloc)?;
        let words = words_of(alloc, row)?;
        let shown = counts(alloc, self.robots.len())?;
        // The robots are made where they are used: a function that gave them out could hide what they do.
        let mut made: Vec<Box<dyn Robot>> = Vec::new(alloc);
        for (invited, count) in self.robots.iter().zip(shown.iter()) {
            made.push(invited.robot(alloc, Arc::try_clone(count)?)?)?;
        }
        let mut robots = RobotHost::new(alloc);
        add_all(alloc, &mut robots, made)?;
        let status = run(rt, alloc, &words, &mut outside, &mut robots);
        put(out, format!(in alloc; "{status}")?.as_str())?;
        put_ends(alloc, out, self.scripts.len(), &outside.server)?;
        self.put_shown(alloc, out, shown.as_slice())
    }

    // Appends how many deltas each robot was shown.
    fn put_shown(
        &self,
        alloc: Global,
        out: &mut String,
        shown: &[Arc<AtomicU64, Global>],
    ) -> Result<(), Fault> {
        for (invited, count) in self.robots.iter().zip(shown.iter()) {
            let (address, count) = (invited.address.text(), count.load(Ordering::SeqCst));
            let line = format!(in alloc; "\n= {address} was shown {count}")?;
            out.push_str(line.as_str())?;
        }
        Ok(())
    }
}
