// What a client sends and prints, as rows show it.
ghost use Rattle.std.specs.Prelude.{IsTrue};
ghost use Rattle.message_json.specs.Write.{IsShort};

use client_session::Acts;
use doc_items::Memory;
use std::alloc::Global;
use test_disk_rows::{Fault, text_of};
use wave_messages::{Message, write};

// Whether a client may send it.
fn is_of_client(message: &Message) -> bool
    ensures { IsTrue result → IsShort message.now }
{
    match message {
        Message::Hello { .. } => true,
        Message::OpenWavelet { .. } => true,
        Message::Submit { .. } => true,
        Message::CloseWavelet { .. } => true,
        Message::Welcome { .. } => false,
        Message::Opened { .. } => false,
        Message::Snapshot(_) => false,
        Message::Unopened { .. } => false,
        Message::Ack { .. } => false,
        Message::Refused { .. } => false,
        Message::Queued { .. } => false,
        Message::Update { .. } => false,
        Message::Closed { .. } => false,
        Message::Bad(_) => false,
        Message::Peer { .. } => false,
        Message::Have { .. } => false,
        Message::Relay { .. } => false,
        Message::Applied { .. } => false,
        Message::Relayed { .. } => false,
        Message::Dropped { .. } => false,
    }
}

// A message as it is sent.
fn text(alloc: Global, message: &Message) -> Result<String, Fault> {
    if !is_of_client(message) {
        return Err(Fault::BadRow);
    }
    let bytes = write(alloc, message)?;
    Ok(String::from_str(alloc, text_of(bytes.as_slice())?)?)
}

/// The messages that are sent, in order.
pub(crate) fn sent(alloc: Global, acts: &Acts) -> Result<Vec<String>, Fault> {
    let mut texts = Vec::new(alloc);
    for message in acts.send.as_slice() {
        texts.push(text(alloc, message)?)?;
    }
    Ok(texts)
}

/// What is printed.
pub(crate) fn printed(alloc: Global, acts: &Acts) -> Result<String, Fault> {
    let mut out = String::new(alloc);
    acts.write(&mut out)?;
    Ok(out)
}

// Appends a text after a sign, on a line of its own.
fn put_line(out: &mut String, sign: &str, text: &str) -> Result<(), Memory> {
    out.push('\n')?;
    out.push_str(sign)?;
    out.push_str(text)
}

/// Appends whether the line waits or ends the run, what is sent, and the lines that are printed.
pub(crate) fn put_acts(alloc: Global, acts: &Acts, out: &mut String) -> Result<(), Fault> {
    if acts.waits {
        out.push_str(" => waits")?;
    }
    if acts.ends {
        out.push_str(" => ends")?;
    }
    let texts = sent(alloc, acts)?;
    for text in texts.as_slice() {
        put_line(out, "< ", text.as_str())?;
    }
    let text = printed(alloc, acts)?;
    for line in text.as_str().split_terminator('\n') {
        put_line(out, "| ", line)?;
    }
    Ok(())
}
