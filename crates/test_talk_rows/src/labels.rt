// Messages in a word or two: what a session is answered and sent.
use doc_items::Memory;
use std::alloc::Global;
use wave_messages::{ClosedReason, Message, UnopenedReason};

// What a message is called.
fn label(message: &Message) -> &'static str {
    match message {
        Message::Opened { .. } => "opened",
        Message::Snapshot(_) => "snapshot",
        Message::Unopened { reason, .. } => unopened_label(reason),
        Message::Update { .. } => "update",
        Message::Applied { .. } => "applied",
        Message::Closed { reason, .. } => closed_label(reason),
        Message::Dropped { .. } => "dropped",
        Message::Queued { .. } => "queued",
        Message::Refused { .. } => "refused",
        Message::Ack { .. } => "ack",
        _ => "another",
    }
}

fn unopened_label(reason: &UnopenedReason) -> &'static str {
    match reason {
        UnopenedReason::NotParticipant => "unopened absent",
        UnopenedReason::UnknownVersion { .. } => "unopened unknown",
        UnopenedReason::WrongHash { .. } => "unopened wrong",
        UnopenedReason::TooLarge => "unopened large",
    }
}

fn closed_label(reason: &ClosedReason) -> &'static str {
    match reason {
        ClosedReason::Access => "closed",
        ClosedReason::Asked => "another",
    }
}

// The version in a message that is shown.
fn shown_version(message: &Message) -> Option<u64> {
    match message {
        Message::Opened { version, .. } => Some(*version),
        Message::Snapshot(snapshot) => Some(snapshot.at().version),
        Message::Unopened { reason, .. } => head_version(reason),
        Message::Update { delta, .. } => Some(delta.from.version),
        Message::Applied { delta, .. } => Some(delta.from.version),
        Message::Ack { at, .. } => Some(*at),
        _ => None,
    }
}

fn head_version(reason: &UnopenedReason) -> Option<u64> {
    match reason {
        UnopenedReason::UnknownVersion { head } => Some(head.version),
        _ => None,
    }
}

fn shown_count(message: &Message) -> Option<u64> {
    match message {
        Message::Snapshot(snapshot) => Some(snapshot.inserted()),
        _ => None,
    }
}

// A label with the numbers that there are.
fn numbered(
    alloc: Global,
    label: &str,
    version: Option<u64>,
    count: Option<u64>,
) -> Result<String, Memory> {
    match version {
        Some(version) => match count {
            Some(count) => format!(in alloc; "{label} {version} of {count};"),
            None => format!(in alloc; "{label} {version};"),
        },
        None => format!(in alloc; "{label};"),
    }
}

/// A message in a word or two.
pub(crate) fn word(alloc: Global, message: &Message) -> Result<String, Memory> {
    numbered(
        alloc,
        label(message),
        shown_version(message),
        shown_count(message),
    )
}

/// Messages, each in a word or two.
pub(crate) fn words(alloc: Global, messages: &[Message]) -> Result<String, Memory> {
    let mut all = String::new(alloc);
    for message in messages {
        let word = word(alloc, message)?;
        all.push_str(word.as_str())?;
    }
    Ok(all)
}
