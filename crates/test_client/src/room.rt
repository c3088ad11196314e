// The verbs.
ghost use Rattle.std.specs.Prelude.{◌≤◌, ◌<◌, length, IfOk};
ghost use Rattle.doc_items.specs.Limits.{max_count};

use crate::acts::put_acts;
use crate::person::Person;
use client_session::ClientState;
use doc_items::Memory;
use pipe_machine::PipeMachine;
use std::alloc::Global;
use test_disk_rows::{Fault, filled, first_word, number, put, text_of};
use wave_base::Address;
use wave_outside::MemoryFolder;
use wavelet_shelf::Shelf;

/// The greatest key of a client.
const MAX_KEY: u64 = 9_007_199_254_740_991;

/// What the server's clock reads.
const TIME: u64 = 1000;

/// How often what is under way is taken, at most.
const MAX_ROUNDS: u64 = 10_000;

/// Clients, and a server in memory.
pub struct Room {
    people: Vec<Person>,
    server: PipeMachine<MemoryFolder>,
}

impl Drop for Room {
    fn drop(self) {
        let Room {
            people: _people,
            server: _server,
        } = self;
    }
}

fn server(alloc: Global) -> PipeMachine<MemoryFolder> {
    PipeMachine::new(alloc, Shelf::new(alloc))
}

fn key_of(word: &str) -> Result<u64, Fault>
    ensures { IfOk result (λ key. key ≤ max_count) }
{
    let key = number(word)?;
    if key > MAX_KEY {
        return Err(Fault::BadRow);
    }
    Ok(key)
}

// A number, or as many as there are where the word is empty.
fn count_of(word: &str) -> Result<u64, Fault> {
    if word.is_empty() {
        return Ok(u64::MAX);
    }
    number(word)
}

fn client_of(alloc: Global, rest: &str) -> Result<ClientState, Fault> {
    let (user, key) = first_word(rest);
    let key = key_of(key)?;
    match Address::parse(alloc, user) {
        Ok(user) => Ok(ClientState::new(alloc, user, key)),
        Err(_) => Err(Fault::BadRow),
    }
}

// The place of the client of this name.
fn place_of(people: &[Person], name: &str) -> Result<usize, Fault>
    ensures { IfOk result (λ place. place < length people.now) }
{
    for place in 0..people.len() {
        if people[place].is_named(name) {
            return Ok(place);
        }
    }
    Err(Fault::BadRow)
}

// The line of a message for the server.
fn line_of(alloc: Global, session: &str, text: &str) -> Result<String, Memory> {
    let mut line = String::from_str(alloc, "{\"session\":\"")?;
    line.push_str(session)?;
    line.push_str("\",\"message\":")?;
    line.push_str(text)?;
    line.push('}')?;
    Ok(line)
}

// The session to which the server sends a line, and the message.
fn parts_of(line: &str) -> Option<(&str, &str)> {
    let (front, back) = line.rsplit_once(",\"session\":\"")?;
    let text = front.strip_prefix("{\"message\":")?;
    let session = back.strip_suffix("\"}")?;
    Some((session, text))
}

// A line of the server gets under way, if it is for a link that is there.
fn route_line(alloc: Global, people: &mut Vec<Person>, line: &str) -> Result<(), Fault> {
    let Some((session, text)) = parts_of(line) else {
        return Err(Fault::BadRow);
    };
    for person in people.iter_mut() {
        if person.has_session(session) {
            person.tell(alloc, text)?;
        }
    }
    Ok(())
}

fn route(alloc: Global, people: &mut Vec<Person>, bytes: &[u8]) -> Result<(), Fault> {
    for line in text_of(bytes)?.split_terminator('\n') {
        route_line(alloc, people, line)?;
    }
    Ok(())
}

// How often a text stands in another.
fn occurrences(text: &str, part: &str) -> u64 {
    let mut count = 0u64;
    for _ in text.split(part) {
        count = count.saturating_add(1);
    }
    count.saturating_sub(1)
}

impl Room {
    pub fn new(alloc: Global) -> Room {
        Room {
            people: Vec::new(alloc),
            server: server(alloc),
        }
    }

    /// Appends what comes of a row. Whether its verb is one of these.
    pub fn answer(&mut self, alloc: Global, row: &str, out: &mut String) -> Result<bool, Fault> {
        let (verb, rest) = first_word(row);
        match verb {
            "room" => *self = Room::new(alloc),
            "client" => self.client(alloc, rest)?,
            "reopen" => self.reopen(alloc, rest, out)?,
            "link" => self.link(alloc, rest)?,
            "cut" => self.cut(alloc, rest, out)?,
            "command" => self.command(alloc, rest, out)?,
            "message" => self.message(alloc, rest, out)?,
            "do" => self.quiet(alloc, rest)?,
            "up" => self.up(alloc, rest)?,
            "down" => self.down(alloc, rest)?,
            "settle" => self.settle(alloc, rest)?,
            "same" => self.same(alloc, rest, out)?,
            "count" => self.count(alloc, rest, out)?,
            _ => return Ok(false),
        }
        Ok(true)
    }

    /// `room`: no client, and a new server. `client NAME USER KEY`: one client more, without a link.
    fn client(&mut self, alloc: Global, rest: &str) -> Result<(), Fault> {
        let (name, rest) = first_word(rest);
        let client = client_of(alloc, rest)?;
        let name = String::from_str(alloc, name)?;
        Ok(self.people.push(Person::new(alloc, name, client))?)
    }

    // The client of this name.
    fn person(&mut self, name: &str) -> Result<&mut Person, Fault> {
        let place = place_of(self.people.as_slice(), name)?;
        Ok(&mut self.people[place])
    }

    /// `reopen NAME`: what the client sends and prints on a new link. From now on what it sends gets under way to the server.
    fn reopen(&mut self, alloc: Global, name: &str, out: &mut String) -> Result<(), Fault> {
        let acts = self.person(name)?.reopen(alloc)?;
        put_acts(alloc, &acts, out)
    }

    /// `link NAME`: the new link alone.
    fn link(&mut self, alloc: Global, name: &str) -> Result<(), Fault> {
        self.person(name)?.reopen(alloc)?;
        Ok(())
    }

    /// `cut NAME`: at a cut. What was under way is lost.
    fn cut(&mut self, alloc: Global, name: &str, out: &mut String) -> Result<(), Fault> {
        let acts = self.person(name)?.cut(alloc);
        put_acts(alloc, &acts, out)
    }

    /// `command NAME LINE`: at a line.
    fn command(&mut self, alloc: Global, rest: &str, out: &mut String) -> Result<(), Fault> {
        let (name, line) = first_word(rest);
        let acts = self.person(name)?.command(alloc, line)?;
        put_acts(alloc, &acts, out)
    }

    /// `do NAME LINE`: the line alone.
    fn quiet(&mut self, alloc: Global, rest: &str) -> Result<(), Fault> {
        let (name, line) = first_word(rest);
        self.person(name)?.command(alloc, line)?;
        Ok(())
    }

    /// `message NAME TEXT`: at a message.
    fn message(&mut self, alloc: Global, rest: &str, out: &mut String) -> Result<(), Fault> {
        let (name, text) = first_word(rest);
        let text = filled(alloc, text)?;
        let acts = self.person(name)?.hear(alloc, text.as_slice())?;
        put_acts(alloc, &acts, out)
    }

    // The server takes a message of a session, and sends each session what is new to it.
    fn serve(&mut self, alloc: Global, session: &str, text: &str) -> Result<(), Fault> {
        let line = line_of(alloc, session, text)?;
        let mut sent = Vec::new(alloc);
        match self
            .server
            .take_line(alloc, line.as_bytes(), TIME, &mut sent)
        {
            Ok(()) => route(alloc, &mut self.people, sent.as_slice()),
            Err(_) => Err(Fault::Memory),
        }
    }

    // The server takes messages of the client of this name, at most so many. How many it took.
    fn carry(&mut self, alloc: Global, name: &str, count: u64) -> Result<u64, Fault> {
        let person = self.person(name)?;
        let session = String::from_str(alloc, person.session())?;
        let texts = person.give(alloc, count)?;
        for text in texts.as_slice() {
            self.serve(alloc, session.as_str(), text.as_str())?;
        }
        Ok(texts.len() as u64)
    }

    /// `up NAME`: the server takes all that is under way from the client; `up NAME N`: the first N messages.
    fn up(&mut self, alloc: Global, rest: &str) -> Result<(), Fault> {
        let (name, count) = first_word(rest);
        self.carry(alloc, name, count_of(count)?)?;
        Ok(())
    }

    /// `down NAME`: the client takes all that is under way to it; `down NAME N`: the first N messages.
    fn down(&mut self, alloc: Global, rest: &str) -> Result<(), Fault> {
        let (name, count) = first_word(rest);
        self.person(name)?.take(alloc, count_of(count)?)?;
        Ok(())
    }

    // All that is under way from the client and to it is taken. Whether there was something.
    fn pass(&mut self, alloc: Global, name: &str) -> Result<bool, Fault> {
        let up = self.carry(alloc, name, u64::MAX)?;
        let down = self.person(name)?.take(alloc, u64::MAX)?;
        Ok(up > 0 || down > 0)
    }

    /// `settle NAME NAME`: what is under way of two clients is taken, again and again, until there is nothing.
    fn settle(&mut self, alloc: Global, rest: &str) -> Result<(), Fault> {
        let (first, second) = first_word(rest);
        for _ in 0..MAX_ROUNDS {
            let first = self.pass(alloc, first)?;
            let second = self.pass(alloc, second)?;
            if !first && !second {
                return Ok(());
            }
        }
        Err(Fault::BadRow)
    }

    /// `same NAME NAME`: whether the clients wait for nothing, and whether their screens are equal.
    fn same(&mut self, alloc: Global, rest: &str, out: &mut String) -> Result<(), Fault> {
        let (first, second) = first_word(rest);
        let first = self.person(first)?;
        let waits = first.is_waiting();
        let screen = first.screen(alloc)?;
        let second = self.person(second)?;
        let settled = if waits || second.is_waiting() {
            "waiting"
        } else {
            "settled"
        };
        put(out, settled)?;
        let other = second.screen(alloc)?;
        let equal = if screen.as_str() == other.as_str() {
            "equal"
        } else {
            "different"
        };
        Ok(put(out, equal)?)
    }

    /// `count NAME TEXT`: how often the text stands on the client's screen.
    fn count(&mut self, alloc: Global, rest: &str, out: &mut String) -> Result<(), Fault> {
        let (name, part) = first_word(rest);
        let screen = self.person(name)?.screen(alloc)?;
        let count = format!(in alloc; "{}", occurrences(screen.as_str(), part))?;
        Ok(put(out, count.as_str())?)
    }
}
