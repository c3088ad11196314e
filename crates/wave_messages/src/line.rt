// A line: a message, and which session it is from.
ghost use Rattle.std.specs.Prelude.{◌≡◌, Option, Some, Ok, Err, IfOk, IfErr, List, ℕ, option_map};
ghost use Rattle.serde_json.specs.View.{view};
ghost use Rattle.wave_messages.specs.declared.fault.Kind.{Kind};
ghost use Rattle.wave_messages.specs.Read.{named_session, to_session, framed, judged, line_of, line_read};

use crate::reading::{MAX_CLIENT, data_of, judged};
use crate::{Kind, LineFault, MessageFault};
use doc_items::Memory;
use json_fields::{has_members, session_at};
use message_json::Message;
use serde_json::Value;
use std::alloc::Global;
use wave_base::SessionName;

/// A message with the session that it is from.
pub struct Line {
    pub session: SessionName,
    pub message: Message,
}

impl Drop for Line {
    fn drop(self) {
        let Line {
            session: _session,
            message: _message,
        } = self;
    }
}

impl Line {
    /// The session and the message, by value.
    pub fn into_parts(self) -> (SessionName, Message)
        ensures { result ≡ (self.session, self.message) }
    {
        let Line { session, message } = self;
        (session, message)
    }
}

// The session that a value names.
fn named_session(alloc: Global, value: &Value) -> Result<Option<SessionName>, Memory>
    ensures { IfOk result (λ session. session ≡ named_session (view value.now)) }
{
    session_at(alloc, value, "session")
}

// The session and the value of the message, where they stand alone in the object.
fn framed<'v>(alloc: Global, value: &'v Value) -> Result<Option<(SessionName, &'v Value)>, Memory>
    ensures { IfOk result (λ o. option_map (λ p. (p.0, view p.1.now)) o ≡ framed (view value.now)) }
{
    if !has_members(value, 2) {
        return Ok(None);
    }
    let Some(session) = named_session(alloc, value)? else {
        return Ok(None);
    };
    match value.get("message") {
        Some(message) => Ok(Some((session, message))),
        None => Ok(None),
    }
}

// The message of a session, as its value is judged.
fn to_session(alloc: Global, session: SessionName, value: &Value) -> Result<Line, LineFault>
    ensures ok { IfOk result (λ line. to_session session (judged (view value.now)) ≡ Ok (line.session, line.message)) }
    ensures refused { IfErr result
        (λ e. (s : Option (List ℕ)) (k : Kind) → e ≡ LineFault.Bad s k → to_session session (judged (view value.now)) ≡ Err (s, k)) }
{
    match judged(alloc, value) {
        Ok(message) => Ok(Line { session, message }),
        Err(MessageFault::BadMessage(kind)) => Err(LineFault::Bad {
            session: Some(session),
            kind,
        }),
        Err(MessageFault::Memory) => Err(LineFault::Memory),
    }
}

fn line_of(alloc: Global, value: &Value) -> Result<Line, LineFault>
    ensures ok { IfOk result (λ line. line_of (view value.now) ≡ Ok (line.session, line.message)) }
    ensures refused { IfErr result (λ e. (s : Option (List ℕ)) (k : Kind) → e ≡ LineFault.Bad s k → line_of (view value.now) ≡ Err (s, k)) }
{
    match framed(alloc, value)? {
        Some((session, message)) => to_session(alloc, session, message),
        None => Err(LineFault::Bad {
            session: named_session(alloc, value)?,
            kind: Kind::NotMessage,
        }),
    }
}

/// The line that the bytes are: an object with the members `session` and `message` alone. Refusals, in this order: `TooLong` exactly
/// where there are more than `MAX_CLIENT`, and `NotJson` exactly where they are no JSON in UTF-8, both for no session; `NotMessage`
/// exactly where they are no such object, for the session that they name, if they do; else those of `read` on the message, for its
/// session.
pub fn read_line(alloc: Global, bytes: &[u8]) -> Result<Line, LineFault>
    ensures ok { IfOk result (λ line. line_read bytes.now ≡ Ok (line.session, line.message)) }
    ensures refused { IfErr result (λ e. (s : Option (List ℕ)) (k : Kind) → e ≡ LineFault.Bad s k → line_read bytes.now ≡ Err (s, k)) }
{
    if bytes.len() as u64 > MAX_CLIENT {
        return Err(LineFault::Bad {
            session: None,
            kind: Kind::TooLong,
        });
    }
    match data_of(alloc, bytes)? {
        Some(value) => line_of(alloc, &value),
        None => Err(LineFault::Bad {
            session: None,
            kind: Kind::NotJson,
        }),
    }
}
