// Messages and lines: what is read, how it is written, and why it is refused.
ghost use Rattle.std.specs.Prelude.{IfOk, IsTrue};
ghost use Rattle.message_json.specs.Write.{IsShort};

use crate::Fault;
use doc_items::Memory;
use std::alloc::Global;
use test_disk_rows::{filled, put, put_bytes};
use wave_base::SessionName;
use wave_messages::{
    Kind, Line, LineFault, MAX_CLIENT, MAX_PEER, Message, MessageFault, read, read_line, write,
    write_line,
};
use wavelet_codec::applied_len;

// Whether the bytes of a delta that is written are fewer than 4,294,967,296.
fn is_short(alloc: Global, message: &Message) -> Result<bool, Memory>
    ensures { IfOk result (λ b. IsTrue b → IsShort message.now) }
{
    match message {
        Message::Hello { .. } => Ok(true),
        Message::OpenWavelet { .. } => Ok(true),
        Message::Submit { .. } => Ok(true),
        Message::CloseWavelet { .. } => Ok(true),
        Message::Welcome { .. } => Ok(true),
        Message::Opened { .. } => Ok(true),
        Message::Snapshot(_) => Ok(true),
        Message::Unopened { .. } => Ok(true),
        Message::Ack { .. } => Ok(true),
        Message::Refused { .. } => Ok(true),
        Message::Queued { .. } => Ok(true),
        Message::Update { .. } => Ok(true),
        Message::Closed { .. } => Ok(true),
        Message::Bad(_) => Ok(true),
        Message::Peer { .. } => Ok(true),
        Message::Have { .. } => Ok(true),
        Message::Relay { .. } => Ok(true),
        Message::Applied { delta, .. } => Ok(applied_len(alloc, delta)? < 4_294_967_296),
        Message::Relayed { .. } => Ok(true),
        Message::Dropped { .. } => Ok(true),
    }
}

/// Appends the message as it is written.
pub(crate) fn put_message(alloc: Global, message: &Message, out: &mut String) -> Result<(), Fault> {
    if !is_short(alloc, message)? {
        return Err(Fault::BadRow);
    }
    let bytes = write(alloc, message)?;
    Ok(put_bytes(out, bytes.as_slice())?)
}

fn kind_name(kind: Kind) -> &'static str {
    match kind {
        Kind::TooLong => "TooLong",
        Kind::NotJson => "NotJson",
        Kind::TooMany => "TooMany",
        Kind::NotMessage => "NotMessage",
    }
}

fn put_bad(out: &mut String, kind: Kind) -> Result<(), Fault> {
    out.push_str("bad ")?;
    Ok(out.push_str(kind_name(kind))?)
}

fn put_fault(out: &mut String, fault: MessageFault) -> Result<(), Fault> {
    match fault {
        MessageFault::BadMessage(kind) => put_bad(out, kind),
        MessageFault::Memory => Err(Fault::Memory),
    }
}

/// Appends what is read of the bytes, as it is written, or why nothing is.
fn put_read(alloc: Global, bytes: &[u8], limit: u64, out: &mut String) -> Result<(), Fault> {
    match read(alloc, bytes, limit) {
        Ok(message) => put_message(alloc, &message, out),
        Err(fault) => put_fault(out, fault),
    }
}

/// What is read of bytes, as a text.
pub(crate) fn written(alloc: Global, bytes: &[u8], limit: u64) -> Result<String, Fault> {
    let mut out = String::new(alloc);
    put_read(alloc, bytes, limit, &mut out)?;
    Ok(out)
}

/// `read TEXT`, as a client's bytes.
pub(crate) fn read_client(alloc: Global, text: &str, out: &mut String) -> Result<(), Fault> {
    let text = filled(alloc, text)?;
    put(out, "")?;
    put_read(alloc, text.as_slice(), MAX_CLIENT, out)
}

/// `peer_read TEXT`, as a peer's bytes.
pub(crate) fn read_peer(alloc: Global, text: &str, out: &mut String) -> Result<(), Fault> {
    let text = filled(alloc, text)?;
    put(out, "")?;
    put_read(alloc, text.as_slice(), MAX_PEER, out)
}

fn put_taken(alloc: Global, bytes: &[u8], out: &mut String) -> Result<(), Fault> {
    match read(alloc, bytes, MAX_CLIENT) {
        Ok(_) => Ok(out.push_str("taken")?),
        Err(fault) => put_fault(out, fault),
    }
}

/// `takes TEXT`: whether a client's bytes are read, without what is read.
pub(crate) fn takes(alloc: Global, text: &str, out: &mut String) -> Result<(), Fault> {
    let text = filled(alloc, text)?;
    put(out, "")?;
    put_taken(alloc, text.as_slice(), out)
}

fn put_line(alloc: Global, line: &Line, out: &mut String) -> Result<(), Fault> {
    if !is_short(alloc, &line.message)? {
        return Err(Fault::BadRow);
    }
    let bytes = write_line(alloc, line.session.text(), &line.message)?;
    Ok(put_bytes(out, bytes.as_slice())?)
}

fn put_refused(out: &mut String, session: &Option<SessionName>, kind: Kind) -> Result<(), Fault> {
    put_bad(out, kind)?;
    match session {
        Some(name) => {
            out.push_str(" to ")?;
            Ok(out.push_str(name.text())?)
        }
        None => Ok(()),
    }
}

fn put_line_fault(out: &mut String, fault: &LineFault) -> Result<(), Fault> {
    match fault {
        LineFault::Bad { session, kind } => put_refused(out, session, *kind),
        LineFault::Memory => Err(Fault::Memory),
    }
}

/// `line TEXT`: what is read of a line, as it is written, or why nothing is and to which session that is answered.
pub(crate) fn line(alloc: Global, text: &str, out: &mut String) -> Result<(), Fault> {
    let text = filled(alloc, text)?;
    put(out, "")?;
    match read_line(alloc, text.as_slice()) {
        Ok(line) => put_line(alloc, &line, out),
        Err(fault) => put_line_fault(out, &fault),
    }
}
