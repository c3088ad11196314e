// Commands on one index: `index COMMAND | COMMAND | ..`. `take W AUTHOR NUMBER OPERATIONS` takes a delta at the head of the wavelet
// `a.com/W/a.com/conv+root`, `early` one at version 0; `inbox USER`, `search USER WORD` and `read W VERSION` are the commands of an inbox.
use crate::fault::Fault;
use crate::showing::{shown_hits, shown_lines};
use delta_history::History;
use std::alloc::Global;
use test_row_words::{number, put, put_command, words};
use test_wavelet_words::delta_at;
use wave_base::{Address, HashedVersion, WaveletName};
use wave_index::{Index, IndexFault, Marks};

// An index, what was read, and the histories that the index took.
struct Scene {
    index: Index,
    marks: Marks,
    histories: Vec<History>,
}

impl Drop for Scene {
    fn drop(self) {
        let Scene {
            index: _index,
            marks: _marks,
            histories: _histories,
        } = self;
    }
}

fn wavelet_name(alloc: Global, word: &str) -> Result<WaveletName, Fault> {
    let name = format!(in alloc; "a.com/{word}/a.com/conv+root")?;
    Ok(WaveletName::parse(alloc, name.as_str())?)
}

fn put_taken(taken: Result<(), IndexFault>, out: &mut String) -> Result<(), Fault> {
    match taken {
        Ok(()) => Ok(put(out, "taken")?),
        Err(IndexFault::NotNext { .. }) => Ok(put(out, "NotNext")?),
        Err(IndexFault::NotLegal) => Ok(put(out, "NotLegal")?),
        Err(IndexFault::Memory) => Err(Fault::Memory),
    }
}

impl Scene {
    fn new(alloc: Global) -> Scene {
        Scene {
            index: Index::new(alloc),
            marks: Marks::new(alloc),
            histories: Vec::new(alloc),
        }
    }

    fn place_of(&self, name: &WaveletName) -> Option<usize> {
        for (place, history) in self.histories.iter().enumerate() {
            if history.name() == name {
                return Some(place);
            }
        }
        None
    }

    fn head(&self, alloc: Global, name: &WaveletName, early: bool) -> Result<HashedVersion, Fault> {
        let empty = History::new(alloc, name.copy(alloc)?);
        if early {
            return Ok(empty.head());
        }
        match self.place_of(name) {
            Some(place) => match self.histories.get(place) {
                Some(history) => Ok(history.head()),
                None => Err(Fault::Row),
            },
            None => Ok(empty.head()),
        }
    }

    fn history(&mut self, alloc: Global, name: &WaveletName) -> Result<&mut History, Fault> {
        let place = match self.place_of(name) {
            Some(place) => place,
            None => {
                self.histories.push(History::new(alloc, name.copy(alloc)?))?;
                self.histories.len().wrapping_sub(1)
            }
        };
        match self.histories.get_mut(place) {
            Some(history) => Ok(history),
            None => Err(Fault::Row),
        }
    }

    fn take(
        &mut self,
        alloc: Global,
        early: bool,
        rest: &str,
        out: &mut String,
    ) -> Result<(), Fault> {
        let (wavelet, rest) = words(rest);
        let (author, rest) = words(rest);
        let (of, ops) = words(rest);
        let name = wavelet_name(alloc, wavelet)?;
        let head = self.head(alloc, &name, early)?;
        let delta = delta_at(alloc, author, number(of).min(1000), head, ops)?;
        let taken = self.index.take(alloc, &name, &delta);
        if taken.is_ok() {
            self.history(alloc, &name)?.push_applied(alloc, delta)?;
        }
        put_taken(taken, out)
    }

    fn inbox(&self, alloc: Global, user: &str, out: &mut String) -> Result<(), Fault> {
        let user = Address::parse(alloc, user)?;
        let lines = self.index.inbox(alloc, &user, &self.marks)?;
        let lines = shown_lines(alloc, lines.as_slice())?;
        Ok(put(out, lines.as_str())?)
    }

    fn search(&self, alloc: Global, rest: &str, out: &mut String) -> Result<(), Fault> {
        let (user, word) = words(rest);
        let user = Address::parse(alloc, user)?;
        let hits = self.index.search(alloc, &user, word)?;
        let hits = shown_hits(alloc, hits.as_slice())?;
        Ok(put(out, hits.as_str())?)
    }

    fn read(&mut self, alloc: Global, rest: &str) -> Result<(), Fault> {
        let (wavelet, version) = words(rest);
        let name = wavelet_name(alloc, wavelet)?;
        Ok(self.marks.set(alloc, &name, number(version))?)
    }

    fn step(&mut self, alloc: Global, command: &str, out: &mut String) -> Result<(), Fault> {
        let (verb, rest) = words(command);
        match verb {
            "take" => self.take(alloc, false, rest, out),
            "early" => self.take(alloc, true, rest, out),
            "inbox" => self.inbox(alloc, rest, out),
            "search" => self.search(alloc, rest, out),
            "read" => self.read(alloc, rest),
            _ => Err(Fault::Row),
        }
    }
}

fn run(alloc: Global, commands: &str, out: &mut String) -> Result<(), Fault> {
    let mut scene = Scene::new(alloc);
    for command in commands.split(" | ") {
        put_command(out, command)?;
        scene.step(alloc, command, out)?;
    }
    Ok(())
}

/// The answer to `index`.
pub fn call(alloc: Global, verb: &str, rest: &str, out: &mut String) -> Result<bool, Fault> {
    if verb != "index" {
        return Ok(false);
    }
    run(alloc, rest, out)?;
    Ok(true)
}
