// What is printed.
ghost use Rattle.std.specs.Prelude.{◌≡◌, ◌++◌, codes, string_bytes, IfOk, OnOk};
ghost use Rattle.client_session.specs.Lines.{reason_name, verdict_said, unopened_said, closed_said, bad_said, IsFaultSaid, said_text};

use client_control::FollowerFault;
use doc_items::Memory;
use itoa::Buffer;
use std::alloc::{AllocError, Global};
use std::marker::Model;
use wavelet_json::{BadReason, ClosedReason, UnopenedReason};
use wavelet_op::Verdict;

/// A screen as it is printed. Seen as its UTF-8 bytes.
#[derive(Debug, Drop)]
pub struct ShownText {
    text: String,
}

impl Model for ShownText {
    ghost use Rattle.std.specs.Prelude.{List, ℕ, string_bytes};

    ghost Value = { List ℕ };

    ghost view = { λ s. string_bytes s.text };
}

impl ShownText {
    /// This text.
    pub(crate) fn new(text: String) -> ShownText
        ensures { result ≡ string_bytes text }
    {
        ShownText { text }
    }

    /// The text.
    pub fn as_str(&self) -> &str
        ensures { result.now ≡ self.now }
    {
        self.text.as_str()
    }
}

/// A reason that the server gave.
#[derive(Clone, Copy, Debug, Drop, PartialEq, Eq)]
pub enum Reason {
    NotParticipant,
    ReadOnly,
    UnknownVersion,
    WrongHash,
    Invalid,
    Full,
    Asked,
    Access,
    TooLong,
    NotJson,
    TooMany,
    NotMessage,
    BadUser,
    NotOpen,
    NoHost,
    Store,
}

impl Reason {
    /// Its name in messages.
    pub fn name(self) -> &'static str
        ensures { result.now ≡ reason_name self }
    {
        match self {
            Reason::NotParticipant => "NotParticipant",
            Reason::ReadOnly => "ReadOnly",
            Reason::UnknownVersion => "UnknownVersion",
            Reason::WrongHash => "WrongHash",
            Reason::Invalid => "Invalid",
            Reason::Full => "Full",
            Reason::Asked => "asked",
            Reason::Access => "access",
            Reason::TooLong => "TooLong",
            Reason::NotJson => "NotJson",
            Reason::TooMany => "TooMany",
            Reason::NotMessage => "NotMessage",
            Reason::BadUser => "BadUser",
            Reason::NotOpen => "NotOpen",
            Reason::NoHost => "NoHost",
            Reason::Store => "Store",
        }
    }
}

/// What a command or a message prints.
#[derive(Debug, Drop)]
pub enum Said {
    /// Nothing.
    Nothing,
    /// The line is no command.
    Unknown,
    /// There is no current wavelet.
    NoWavelet,
    /// The call of this refusal was made for the command.
    Refused(u64),
    /// No edit is left that could be taken back.
    NothingToUndo,
    /// A delta of the server isn't next.
    Diverged,
    /// The server refused something, or closed the wavelet.
    Server(Reason),
    /// The screen.
    Screen(ShownText),
}

// Appends a word with what stands after it on its line.
fn push_line(out: &mut String, word: &str, rest: &str) -> Result<(), Memory>
    ensures { OnOk result (string_bytes out.new ≡ string_bytes out.old ++ word.now ++ rest.now ++ codes "\n") }
{
    out.push_str(word)?;
    out.push_str(rest)?;
    out.push_str("\n")
}

impl Said {
    /// Appends the lines that are printed. The error is want of memory.
    pub fn write(&self, out: &mut String) -> Result<(), Memory>
        ensures { OnOk result (string_bytes out.new ≡ string_bytes out.old ++ said_text self.now) }
    {
        match self {
            Said::Nothing => Ok(()),
            Said::Unknown => out.push_str("! unknown command\n"),
            Said::NoWavelet => out.push_str("! no wavelet\n"),
            Said::Refused(number) => {
                let mut buffer = Buffer::new();
                push_line(out, "! refused ", buffer.format(*number))
            }
            Said::NothingToUndo => out.push_str("! nothing to undo\n"),
            Said::Diverged => out.push_str("! diverged\n"),
            Said::Server(reason) => push_line(out, "! server ", reason.name()),
            Said::Screen(shown) => out.push_str(shown.as_str()),
        }
    }
}

// ---- what is said of a refusal

/// What is said of a call of the follower. The error is want of memory.
pub(crate) fn fault_said(fault: FollowerFault) -> Result<Said, Memory>
    ensures { IfOk result (IsFaultSaid fault) }
{
    match fault {
        FollowerFault::OpInvalid(_) => Ok(Said::Refused(15)),
        FollowerFault::EditFull => Ok(Said::Refused(22)),
        FollowerFault::TooBig => Ok(Said::Refused(23)),
        FollowerFault::NumbersSpent => Ok(Said::Refused(24)),
        FollowerFault::Memory => Err(AllocError),
    }
}

/// What is said of a submission.
pub(crate) fn verdict_said(verdict: &Verdict) -> Said
    ensures { result ≡ verdict_said verdict.now }
{
    match verdict {
        Verdict::Ack { .. } => Said::Nothing,
        Verdict::NotParticipant => Said::Server(Reason::NotParticipant),
        Verdict::ReadOnly => Said::Server(Reason::ReadOnly),
        Verdict::UnknownVersion { .. } => Said::Server(Reason::UnknownVersion),
        Verdict::WrongHash { .. } => Said::Server(Reason::WrongHash),
        Verdict::Invalid { .. } => Said::Server(Reason::Invalid),
        Verdict::Full { .. } => Said::Server(Reason::Full),
    }
}

/// What is said of an opening; nothing where the server's snapshot would be too large.
pub(crate) fn unopened_said(reason: UnopenedReason) -> Said
    ensures { result ≡ unopened_said reason }
{
    match reason {
        UnopenedReason::NotParticipant => Said::Server(Reason::NotParticipant),
        UnopenedReason::UnknownVersion { .. } => Said::Server(Reason::UnknownVersion),
        UnopenedReason::WrongHash { .. } => Said::Server(Reason::WrongHash),
        UnopenedReason::TooLarge => Said::Nothing,
    }
}

/// What is said of a wavelet that is open no more.
pub(crate) fn closed_said(reason: ClosedReason) -> Said
    ensures { result ≡ closed_said reason }
{
    match reason {
        ClosedReason::Asked => Said::Server(Reason::Asked),
        ClosedReason::Access => Said::Server(Reason::Access),
    }
}

/// What is said of a message.
pub(crate) fn bad_said(reason: BadReason) -> Said
    ensures { result ≡ bad_said reason }
{
    match reason {
        BadReason::TooLong => Said::Server(Reason::TooLong),
        BadReason::NotJson => Said::Server(Reason::NotJson),
        BadReason::TooMany => Said::Server(Reason::TooMany),
        BadReason::NotMessage => Said::Server(Reason::NotMessage),
        BadReason::BadUser => Said::Server(Reason::BadUser),
        BadReason::NotOpen => Said::Server(Reason::NotOpen),
        BadReason::NoHost => Said::Server(Reason::NoHost),
        BadReason::Store => Said::Server(Reason::Store),
    }
}
