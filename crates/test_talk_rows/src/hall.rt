// Sessions over copies of wavelets in memory, at moments in turn.
use crate::Fault;
use crate::labels::{word, words};
use crate::messages::put_message;
use crate::shelves::small;
use crate::version::hashed;
use delta_history::{Copies, History};
use session_core::{News, Request, Session, SubmitAnswer};
use std::alloc::Global;
use test_copies::{Held, MemoryCopies, Noted, Notes};
use test_disk_rows::{filled, first_word, number, put, text_of};
use test_wavelet_words::{delta_at, id};
use wave_base::{Domain, HashedVersion, WaveletName};
use wave_messages::Message;
use wavelet_op::Verdict;

/// A session, and the deltas of the wavelets that it may see, in turn.
pub(crate) struct Hall {
    session: Session,
    names: Vec<String>,
    deltas: Vec<String>,
}

impl Drop for Hall {
    fn drop(self) {
        let Hall {
            session: _session,
            names: _names,
            deltas: _deltas,
        } = self;
    }
}

// Appends what a message asks for: a reply as it is written, or what is to be done.
fn put_request(alloc: Global, request: &Request, out: &mut String) -> Result<(), Fault> {
    put(out, "")?;
    match request {
        Request::Reply(message) => put_message(alloc, message, out),
        Request::Attach { .. } => Ok(out.push_str("attach")?),
        Request::Submit { .. } => Ok(out.push_str("submit")?),
        Request::Have { .. } => Ok(out.push_str("have")?),
    }
}

fn new_session(alloc: Global, own: &str, peer: &str) -> Result<Session, Fault> {
    let mut peers = Vec::new(alloc);
    if own.is_empty() {
        return Ok(Session::new(alloc, None, peers));
    }
    peers.push(Domain::parse(alloc, peer)?)?;
    let own = Domain::parse(alloc, own)?;
    Ok(Session::new(alloc, Some(own), peers))
}

// The delta of `AUTHOR WORDS` after the others; deltas are numbered by their places.
fn push(alloc: Global, history: &mut History, place: u64, row: &str) -> Result<(), Fault> {
    let (author, words) = first_word(row);
    let words = filled(alloc, words)?;
    let number = small(place)?;
    let delta = delta_at(
        alloc,
        author,
        number,
        history.head(),
        text_of(words.as_slice())?,
    )?;
    Ok(history.push_applied(alloc, delta)?)
}

// The deltas of `NAME AUTHOR WORDS` that are this wavelet's.
fn fill(alloc: Global, history: &mut History, name: &str, rows: &[String]) -> Result<(), Fault> {
    for (place, row) in rows.iter().enumerate() {
        let (of, row) = first_word(row.as_str());
        if of == name {
            push(alloc, history, place as u64, row)?;
        }
    }
    Ok(())
}

fn history(alloc: Global, name: &str, rows: &[String]) -> Result<History, Fault> {
    let mut history = History::new(alloc, WaveletName::parse(alloc, name)?);
    fill(alloc, &mut history, name, rows)?;
    Ok(history)
}

// The one outcome that is noted: bob's ninth submission was refused.
fn notes(alloc: Global) -> Result<Notes, Fault> {
    let id = id(alloc, "bob@b.com", 9)?;
    let verdict = Verdict::ReadOnly;
    let mut list = Vec::new(alloc);
    list.push(Noted { id, verdict })?;
    Ok(Notes::from_vec(list))
}

fn held(alloc: Global, name: &str, rows: &[String], dropped: bool) -> Result<Held, Fault> {
    let noted = notes(alloc)?;
    let history = history(alloc, name, rows)?;
    Ok(Held {
        history,
        hosted: true,
        dropped,
        noted,
    })
}

fn copies(list: Vec<Held>) -> Result<MemoryCopies, Fault> {
    match MemoryCopies::new(list) {
        Some(copies) => Ok(copies),
        None => Err(Fault::BadRow),
    }
}

// The copies with these deltas.
fn moment(
    alloc: Global,
    names: &[String],
    rows: &[String],
    dropped: bool,
) -> Result<MemoryCopies, Fault> {
    let mut list = Vec::new(alloc);
    for name in names {
        list.push(held(alloc, name.as_str(), rows, dropped)?)?;
    }
    copies(list)
}

// A user's `open`, and its answer in words.
fn attach(
    alloc: Global,
    session: &mut Session,
    copies: &MemoryCopies,
    name: &WaveletName,
    from: Option<&HashedVersion>,
    out: &mut String,
) -> Result<(), Fault> {
    if !session.has_user() {
        return Err(Fault::BadRow);
    }
    let reply = session
        .answer_attach(alloc, copies, name, from)?
        .into_message();
    let told = word(alloc, &reply)?;
    Ok(put(out, told.as_str())?)
}

fn have(
    alloc: Global,
    session: &mut Session,
    copies: &MemoryCopies,
    name: &WaveletName,
    from: &HashedVersion,
) -> Result<(), Fault> {
    if !session.has_peer() {
        return Err(Fault::BadRow);
    }
    Ok(session.answer_have(alloc, copies, name, from)?)
}

// What news stand for, as a message that owns its delta.
fn message_of(alloc: Global, news: &News) -> Result<Message, Fault> {
    match news {
        News::Update { name, delta, .. } => {
            let name = name.copy(alloc)?;
            let delta = delta.copy(alloc)?;
            Ok(Message::Update { name, delta })
        }
        News::Applied { name, delta, .. } => {
            let name = name.copy(alloc)?;
            let delta = delta.copy(alloc)?;
            Ok(Message::Applied { name, delta })
        }
        News::Message(message) => Ok(message.copy(alloc)?),
    }
}

// What a session is sent, in words.
fn deliver(
    alloc: Global,
    session: &mut Session,
    copies: &MemoryCopies,
    out: &mut String,
) -> Result<(), Fault> {
    let news = session.deliver(alloc, copies)?;
    let mut messages = Vec::new(alloc);
    for one in news.as_slice() {
        messages.push(message_of(alloc, one)?)?;
    }
    let told = words(alloc, messages.as_slice())?;
    Ok(put(out, told.as_str())?)
}

// The version of a word with the hash that all deltas give it, or with a hash of sevens where it ends in `!`.
fn place(
    alloc: Global,
    whole: &MemoryCopies,
    name: &WaveletName,
    word: &str,
) -> Result<HashedVersion, Fault> {
    if let Some(digits) = word.strip_suffix('!') {
        return hashed(number(digits)?, [7; 32]);
    }
    let version = number(word)?;
    let hash = match whole.copy_of(name) {
        Some(history) => history.hash_at(version).unwrap_or([0; 32]),
        None => [0; 32],
    };
    hashed(version, hash)
}

impl Hall {
    pub(crate) fn new(alloc: Global) -> Hall {
        Hall {
            session: Session::new(alloc, None, Vec::new(alloc)),
            names: Vec::new(alloc),
            deltas: Vec::new(alloc),
        }
    }

    /// `session`: a new one of a pipe; `session DOMAIN PEER`: one of that domain's server.
    pub(crate) fn session(&mut self, alloc: Global, rest: &str) -> Result<(), Fault> {
        let (own, peer) = first_word(rest);
        self.session = new_session(alloc, own, peer)?;
        Ok(())
    }

    /// `says TEXT`: what a message asks the session for.
    pub(crate) fn says(
        &mut self,
        alloc: Global,
        text: &str,
        out: &mut String,
    ) -> Result<(), Fault> {
        let text = filled(alloc, text)?;
        let request = self.session.take_message(alloc, text.as_slice())?;
        put_request(alloc, &request, out)
    }

    /// `histories`: no wavelets and no deltas.
    pub(crate) fn clear(&mut self, alloc: Global) {
        self.names = Vec::new(alloc);
        self.deltas = Vec::new(alloc);
    }

    /// `wavelet NAME`: one more, in byte order.
    pub(crate) fn wavelet(&mut self, alloc: Global, name: &str) -> Result<(), Fault> {
        Ok(self.names.push(String::from_str(alloc, name)?)?)
    }

    /// `delta NAME AUTHOR WORDS`: one more, after the others.
    pub(crate) fn delta(&mut self, alloc: Global, row: &str) -> Result<(), Fault> {
        Ok(self.deltas.push(String::from_str(alloc, row)?)?)
    }

    fn first(&self, count: usize) -> &[String] {
        let count = count.min(self.deltas.len());
        &self.deltas[..count]
    }

    fn moment(&self, alloc: Global, count: &str, dropped: bool) -> Result<MemoryCopies, Fault> {
        let count = number(count)? as usize;
        moment(alloc, self.names.as_slice(), self.first(count), dropped)
    }

    fn open(
        &mut self,
        alloc: Global,
        copies: &MemoryCopies,
        rest: &str,
        out: &mut String,
    ) -> Result<(), Fault> {
        let (name, version) = first_word(rest);
        let name = WaveletName::parse(alloc, name)?;
        if version.is_empty() {
            return attach(alloc, &mut self.session, copies, &name, None, out);
        }
        let from = self.place(alloc, &name, version)?;
        attach(alloc, &mut self.session, copies, &name, Some(&from), out)
    }

    fn place(&self, alloc: Global, name: &WaveletName, word: &str) -> Result<HashedVersion, Fault> {
        let whole = moment(alloc, self.names.as_slice(), self.deltas.as_slice(), false)?;
        place(alloc, &whole, name, word)
    }

    fn have(&mut self, alloc: Global, copies: &MemoryCopies, rest: &str) -> Result<(), Fault> {
        let (name, version) = first_word(rest);
        let name = WaveletName::parse(alloc, name)?;
        let from = self.place(alloc, &name, version)?;
        have(alloc, &mut self.session, copies, &name, &from)
    }

    fn act(
        &mut self,
        alloc: Global,
        copies: &MemoryCopies,
        act: &str,
        out: &mut String,
    ) -> Result<(), Fault> {
        let (verb, rest) = first_word(act);
        match verb {
            "open" => self.open(alloc, copies, rest, out),
            "have" => self.have(alloc, copies, rest),
            "deliver" => deliver(alloc, &mut self.session, copies, out),
            _ => Err(Fault::BadRow),
        }
    }

    /// `over N ACT`: what the session answers over the copies with the first N deltas to `open NAME`, `open NAME VERSION` or
    /// `have NAME VERSION`, or what it is sent on `deliver`.
    pub(crate) fn over(
        &mut self,
        alloc: Global,
        rest: &str,
        out: &mut String,
    ) -> Result<(), Fault> {
        let (count, act) = first_word(rest);
        let copies = self.moment(alloc, count, false)?;
        self.act(alloc, &copies, act, out)
    }

    /// `dropped N ACT`: so over copies that are dropped.
    pub(crate) fn dropped(
        &mut self,
        alloc: Global,
        rest: &str,
        out: &mut String,
    ) -> Result<(), Fault> {
        let (count, act) = first_word(rest);
        let copies = self.moment(alloc, count, true)?;
        self.act(alloc, &copies, act, out)
    }

    /// `queue NAME AUTHOR NUMBER`: the reply where this submission waits from now on.
    pub(crate) fn queue(
        &mut self,
        alloc: Global,
        rest: &str,
        out: &mut String,
    ) -> Result<(), Fault> {
        let (name, rest) = first_word(rest);
        let (author, serial) = first_word(rest);
        let name = WaveletName::parse(alloc, name)?;
        let id = id(alloc, author, small(number(serial)?)?)?;
        let reply = self
            .session
            .answer_submit(alloc, &name, &id, &SubmitAnswer::Queued)?;
        let told = word(alloc, &reply)?;
        Ok(put(out, told.as_str())?)
    }
}
