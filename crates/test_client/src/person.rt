// A client, and what is under way to and from it.
use crate::acts::{printed, sent};
use client_session::{Acts, ClientState};
use std::alloc::Global;
use std::mem::replace;
use test_disk_rows::{Fault, filled};
use wave_messages::{MAX_PEER, Message, read};

/// A client with a name, and the link that it has, if any: the name of its session, which is empty where there is none, and the
/// messages that are under way to the server and to the client.
pub(crate) struct Person {
    name: String,
    client: ClientState,
    links: u64,
    session: String,
    up: Vec<String>,
    down: Vec<String>,
}

impl Drop for Person {
    fn drop(self) {
        let Person {
            name: _name,
            client: _client,
            links: _links,
            session: _session,
            up: _up,
            down: _down,
        } = self;
    }
}

fn message_of(alloc: Global, bytes: &[u8]) -> Result<Message, Fault> {
    match read(alloc, bytes, MAX_PEER) {
        Ok(message) => Ok(message),
        Err(_) => Err(Fault::BadRow),
    }
}

impl Person {
    /// A client that has no link.
    pub(crate) fn new(alloc: Global, name: String, client: ClientState) -> Person {
        Person {
            name,
            client,
            links: 0,
            session: String::new(alloc),
            up: Vec::new(alloc),
            down: Vec::new(alloc),
        }
    }

    pub(crate) fn is_named(&self, name: &str) -> bool {
        self.name.as_str() == name
    }

    pub(crate) fn has_session(&self, session: &str) -> bool {
        self.session.as_str() == session
    }

    pub(crate) fn session(&self) -> &str {
        self.session.as_str()
    }

    /// Whether there is something that the client waits for.
    pub(crate) fn is_waiting(&self) -> bool {
        self.client.is_waiting()
    }

    // What is sent goes on its way where there is a link.
    fn send(&mut self, alloc: Global, acts: &Acts) -> Result<(), Fault> {
        if self.session.is_empty() {
            return Ok(());
        }
        let mut texts = sent(alloc, acts)?;
        Ok(self.up.append(&mut texts)?)
    }

    // What is under way is lost.
    fn lose(&mut self, alloc: Global) {
        self.up = Vec::new(alloc);
        self.down = Vec::new(alloc);
    }

    /// The link is cut.
    pub(crate) fn cut(&mut self, alloc: Global) -> Acts {
        self.session = String::new(alloc);
        self.lose(alloc);
        self.client.on_cut(alloc)
    }

    /// There is a new link, with a session of its own.
    pub(crate) fn reopen(&mut self, alloc: Global) -> Result<Acts, Fault> {
        self.links = self.links.saturating_add(1);
        self.session = format!(in alloc; "{}-{}", self.name.as_str(), self.links)?;
        self.lose(alloc);
        let acts = self.client.on_reopen(alloc)?;
        self.send(alloc, &acts)?;
        Ok(acts)
    }

    pub(crate) fn command(&mut self, alloc: Global, line: &str) -> Result<Acts, Fault> {
        let line = filled(alloc, line)?;
        let acts = self.client.on_command(alloc, line.as_slice())?;
        self.send(alloc, &acts)?;
        Ok(acts)
    }

    /// Takes a message of these bytes.
    pub(crate) fn hear(&mut self, alloc: Global, bytes: &[u8]) -> Result<Acts, Fault> {
        let message = message_of(alloc, bytes)?;
        let acts = self.client.on_message(alloc, &message)?;
        self.send(alloc, &acts)?;
        Ok(acts)
    }

    /// One message more is under way to the client.
    pub(crate) fn tell(&mut self, alloc: Global, text: &str) -> Result<(), Fault> {
        Ok(self.down.push(String::from_str(alloc, text)?)?)
    }

    /// Takes the first messages that are under way to it, at most so many. How many it took.
    pub(crate) fn take(&mut self, alloc: Global, count: u64) -> Result<u64, Fault> {
        let all = replace(&mut self.down, Vec::new(alloc));
        for (place, text) in all.iter().enumerate() {
            if (place as u64) < count {
                self.hear(alloc, text.as_bytes())?;
            } else {
                self.tell(alloc, text.as_str())?;
            }
        }
        Ok(count.min(all.len() as u64))
    }

    /// The first messages that are under way from it, at most so many.
    pub(crate) fn give(&mut self, alloc: Global, count: u64) -> Result<Vec<String>, Fault> {
        let all = replace(&mut self.up, Vec::new(alloc));
        let mut given = Vec::new(alloc);
        for (place, text) in all.iter().enumerate() {
            let text = String::from_str(alloc, text.as_str())?;
            if (place as u64) < count {
                given.push(text)?;
            } else {
                self.up.push(text)?;
            }
        }
        Ok(given)
    }

    /// What `show` prints.
    pub(crate) fn screen(&mut self, alloc: Global) -> Result<String, Fault> {
        let acts = self.client.on_command(alloc, "show".as_bytes())?;
        self.send(alloc, &acts)?;
        printed(alloc, &acts)
    }
}
