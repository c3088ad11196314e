// A client with a document of letters, and what it is asked to do.
use client_session::{Acts, ClientState};
use doc_items::MAX_COUNT;
use std::alloc::Global;
use wave_base::{Address, DeltaId};
use wave_messages::{MAX_PEER, Message, read, write};
use wavelet_op::AppliedDelta;

/// The client, and the line that types a letter in the middle of the document.
pub struct Bench {
    client: ClientState,
    line: String,
}

impl Drop for Bench {
    fn drop(self) {
        let Bench {
            client: _client,
            line: _line,
        } = self;
    }
}

// A state with one document of so many letters, as a server sends it.
fn snapshot(alloc: Global, letters: u64) -> Option<Message> {
    let mut text = String::from_str(
        alloc,
        r#"{"documents":[{"name":"b+1","operation":[{"characters":""#,
    )
    .ok()?;
    for _ in 0..letters {
        text.push('a').ok()?;
    }
    text.push_str(r#""}]}],"hash":"i8ATQT3M+Urv/HnqWnjTSivG7CEZhXaWvCB8fefaUBo=","#)
        .ok()?;
    let inserted = format!(in alloc; "\"inserted\":{letters},").ok()?;
    text.push_str(inserted.as_str()).ok()?;
    text.push_str(
        r#""participants":[{"address":"alice@a.com","role":"full"}],"type":"snapshot","version":2,"wavelet":"a.com/w/a.com/conv+root"}"#,
    ).ok()?;
    read(alloc, text.as_bytes(), MAX_PEER).ok()
}

// The bytes of a submission as it is sent; none where the message is none.
fn bytes_of(alloc: Global, message: &Message) -> Option<u64> {
    match message {
        Message::Submit { .. } => Some(write(alloc, message).ok()?.len() as u64),
        _ => None,
    }
}

fn bytes_sent(alloc: Global, acts: &Acts) -> Option<u64> {
    let mut bytes = 0u64;
    for message in acts.send.as_slice() {
        bytes = bytes.checked_add(bytes_of(alloc, message)?)?;
    }
    Some(bytes)
}

// The server's answer to a submission that it took as it is.
fn answer(alloc: Global, message: &Message) -> Option<Message> {
    match message {
        Message::Submit {
            name,
            client,
            number,
            at,
            ops,
        } => {
            let id = DeltaId {
                author: Address::parse(alloc, "alice@a.com").ok()?,
                client: (*client).min(MAX_COUNT),
                number: (*number).min(MAX_COUNT),
            };
            let delta = AppliedDelta {
                id,
                from: *at,
                time: 1000,
                ops: ops.normal(alloc).ok()?,
            };
            let name = name.copy(alloc).ok()?;
            Some(Message::Update { name, delta })
        }
        _ => None,
    }
}

impl Bench {
    /// A client whose current wavelet has a document of so many letters. None where it can't be made.
    pub fn new(alloc: Global, letters: u64) -> Option<Bench> {
        let user = Address::parse(alloc, "alice@a.com").ok()?;
        let mut client = ClientState::new(alloc, user, 1);
        client
            .on_command(alloc, "open a.com/w/a.com/conv+root".as_bytes())
            .ok()?;
        client.on_message(alloc, &snapshot(alloc, letters)?).ok()?;
        let line = format!(in alloc; "type b+1 {} x", letters / 2).ok()?;
        Some(Bench { client, line })
    }

    // A letter is typed, and what is sent is written.
    fn typed(&mut self, alloc: Global) -> Option<u64> {
        let acts = self.client.on_command(alloc, self.line.as_bytes()).ok()?;
        bytes_sent(alloc, &acts)
    }

    // A letter is typed, and its answer taken.
    fn answered(&mut self, alloc: Global) -> Option<u64> {
        let acts = self.client.on_command(alloc, self.line.as_bytes()).ok()?;
        for message in acts.send.as_slice() {
            let answer = answer(alloc, message)?;
            self.client.on_message(alloc, &answer).ok()?;
        }
        bytes_sent(alloc, &acts)
    }

    // The screen as it is printed.
    fn show(&mut self, alloc: Global) -> Option<u64> {
        let acts = self.client.on_command(alloc, "show".as_bytes()).ok()?;
        let mut text = String::new(alloc);
        acts.write(&mut text).ok()?;
        Some(text.len() as u64)
    }

    /// Does the work once; how many bytes were sent or printed. None where a call is refused.
    pub fn once(&mut self, alloc: Global, work: &str) -> Option<u64> {
        if work == "show" {
            return self.show(alloc);
        }
        if work == "answered" {
            return self.answered(alloc);
        }
        self.typed(alloc)
    }
}
