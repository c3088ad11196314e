// The verbs.
use crate::hall::Hall;
use crate::runs::Runs;
use crate::shelves::Shelves;
use crate::{Fault, containers, members, messages, repairs};
use std::alloc::Global;
use test_disk_rows::first_word;

/// What rows leave for the rows after them.
pub struct Talk {
    runs: Runs,
    shelves: Shelves,
    hall: Hall,
}

impl Drop for Talk {
    fn drop(self) {
        let Talk {
            runs: _runs,
            shelves: _shelves,
            hall: _hall,
        } = self;
    }
}

// The verbs that no row before leaves anything for. Whether it is such a verb, here and below.
fn alone(alloc: Global, verb: &str, rest: &str, out: &mut String) -> Result<bool, Fault> {
    match verb {
        "read" => messages::read_client(alloc, rest, out)?,
        "peer_read" => messages::read_peer(alloc, rest, out)?,
        "takes" => messages::takes(alloc, rest, out)?,
        "line" => messages::line(alloc, rest, out)?,
        "message" => members::message(alloc, rest, out)?,
        "repairs" => repairs::repairs(alloc, rest, out)?,
        "container" => containers::container(alloc, rest, out)?,
        "appends_stopped" => containers::appends_stopped(alloc, rest, out)?,
        "appends_repaired" => containers::appends_repaired(alloc, rest, out)?,
        _ => return Ok(false),
    }
    Ok(true)
}

fn in_runs(
    alloc: Global,
    runs: &mut Runs,
    verb: &str,
    rest: &str,
    out: &mut String,
) -> Result<bool, Fault> {
    match verb {
        ">" => runs.add_line(alloc, rest)?,
        ">>" => runs.add_open(alloc, rest)?,
        "run" => runs.run(alloc, rest, out)?,
        "counted" => runs.counted(alloc, rest, out)?,
        "folder" => runs.empty(alloc, rest)?,
        "file" => runs.file(alloc, rest)?,
        "beside" => runs.beside(alloc, rest)?,
        "files" => runs.files(alloc, out)?,
        "entered" => runs.entered(out)?,
        "crash" => runs.crash(alloc, rest)?,
        "faults" => runs.faults(alloc, rest, out)?,
        _ => return Ok(false),
    }
    Ok(true)
}

fn in_shelves(
    alloc: Global,
    shelves: &mut Shelves,
    runs: &mut Runs,
    verb: &str,
    rest: &str,
    out: &mut String,
) -> Result<bool, Fault> {
    match verb {
        "shelf" => shelves.plain(alloc),
        "load" => shelves.load(alloc, runs, out)?,
        "close" => shelves.close(alloc, runs, out)?,
        "submit" => shelves.submit(alloc, rest, out)?,
        "noops" => shelves.noops(alloc, rest)?,
        "hosted" => shelves.hosted(alloc, out)?,
        "hash_at" => shelves.hash(alloc, rest, out)?,
        "state" => shelves.state(alloc, rest, out)?,
        "divide" => shelves.divide(alloc, out)?,
        "part" => shelves.part(alloc, rest, out)?,
        _ => return Ok(false),
    }
    Ok(true)
}

fn in_hall(
    alloc: Global,
    hall: &mut Hall,
    verb: &str,
    rest: &str,
    out: &mut String,
) -> Result<bool, Fault> {
    match verb {
        "session" => hall.session(alloc, rest)?,
        "says" => hall.says(alloc, rest, out)?,
        "histories" => hall.clear(alloc),
        "wavelet" => hall.wavelet(alloc, rest)?,
        "delta" => hall.delta(alloc, rest)?,
        "over" => hall.over(alloc, rest, out)?,
        "dropped" => hall.dropped(alloc, rest, out)?,
        "queue" => hall.queue(alloc, rest, out)?,
        _ => return Ok(false),
    }
    Ok(true)
}

impl Talk {
    pub fn new(alloc: Global) -> Talk {
        Talk {
            runs: Runs::new(alloc),
            shelves: Shelves::new(alloc),
            hall: Hall::new(alloc),
        }
    }

    fn call(&mut self, alloc: Global, row: &str, out: &mut String) -> Result<bool, Fault> {
        let (verb, rest) = first_word(row);
        if test_disk_rows::answer(alloc, verb, rest, out)? {
            return Ok(true);
        }
        if alone(alloc, verb, rest, out)? {
            return Ok(true);
        }
        if in_runs(alloc, &mut self.runs, verb, rest, out)? {
            return Ok(true);
        }
        if in_shelves(alloc, &mut self.shelves, &mut self.runs, verb, rest, out)? {
            return Ok(true);
        }
        in_hall(alloc, &mut self.hall, verb, rest, out)
    }

    /// What is printed after the row; None where it begins with no verb of this crate.
    pub fn answer(&mut self, alloc: Global, row: &str) -> Result<Option<String>, Fault> {
        let mut out = String::new(alloc);
        if self.call(alloc, row, &mut out)? {
            Ok(Some(out))
        } else {
            Ok(None)
        }
    }
}
