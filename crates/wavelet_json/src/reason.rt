// Reasons, by their names.
ghost use Rattle.std.specs.Prelude.{◌≡◌};
ghost use Rattle.serde_json.specs.View.{view};
ghost use Rattle.json_fields.specs.Read.{in_member};
ghost use Rattle.wavelet_json.specs.Reasons.{closed_named, closed_of, closed_name, bad_named, bad_of, bad_name};

use json_fields::str_at;
use serde_json::Value;
use wave_base::HashedVersion;

/// Why a wavelet is open no more.
#[derive(Clone, Copy, Debug, PartialEq, Eq)]
pub enum ClosedReason {
    /// The client asked for it.
    Asked,
    /// The user is no participant any more, or the copy was dropped.
    Access,
}

/// Why a message was refused.
#[derive(Clone, Copy, Debug, PartialEq, Eq)]
pub enum BadReason {
    /// It has too many bytes.
    TooLong,
    /// It isn't JSON.
    NotJson,
    /// It hands in more than 1,000 operations.
    TooMany,
    /// It is no message, or none that is taken here.
    NotMessage,
    /// There is no user or peer yet, or it can't be this one.
    BadUser,
    /// The wavelet isn't open.
    NotOpen,
    /// The wavelet's host isn't reached from here.
    NoHost,
    /// The store failed.
    Store,
}

/// Why a wavelet wasn't opened.
#[derive(Clone, Copy, Debug, PartialEq, Eq)]
pub enum UnopenedReason {
    /// The user is no participant, or there is no copy.
    NotParticipant,
    /// No delta ends at the version; the history is at `head`.
    UnknownVersion { head: HashedVersion },
    /// The hash at the version is another, `host`.
    WrongHash { host: [u8; 32] },
    /// The state would be written with more bytes than a message may have.
    TooLarge,
}

fn closed_named(name: &str) -> Option<ClosedReason>
    ensures { result ≡ closed_named name.now }
{
    match name {
        "asked" => Some(ClosedReason::Asked),
        "access" => Some(ClosedReason::Access),
        _ => None,
    }
}

/// The reason in the member of this name; None exactly where none stands there.
pub fn closed_at(value: &Value, name: &str) -> Option<ClosedReason>
    ensures { result ≡ in_member closed_of name.now (view value.now) }
{
    closed_named(str_at(value, name)?)
}

fn bad_named(name: &str) -> Option<BadReason>
    ensures { result ≡ bad_named name.now }
{
    match name {
        "TooLong" => Some(BadReason::TooLong),
        "NotJson" => Some(BadReason::NotJson),
        "TooMany" => Some(BadReason::TooMany),
        "NotMessage" => Some(BadReason::NotMessage),
        "BadUser" => Some(BadReason::BadUser),
        "NotOpen" => Some(BadReason::NotOpen),
        "NoHost" => Some(BadReason::NoHost),
        "Store" => Some(BadReason::Store),
        _ => None,
    }
}

/// The reason in the member of this name; None exactly where none stands there.
pub fn bad_at(value: &Value, name: &str) -> Option<BadReason>
    ensures { result ≡ in_member bad_of name.now (view value.now) }
{
    bad_named(str_at(value, name)?)
}

impl ClosedReason {
    /// The name by which it is read.
    pub fn name(self) -> &'static str
        ensures { result.now ≡ closed_name self }
    {
        match self {
            ClosedReason::Asked => "asked",
            ClosedReason::Access => "access",
        }
    }
}

impl BadReason {
    /// The name by which it is read.
    pub fn name(self) -> &'static str
        ensures { result.now ≡ bad_name self }
    {
        match self {
            BadReason::TooLong => "TooLong",
            BadReason::NotJson => "NotJson",
            BadReason::TooMany => "TooMany",
            BadReason::NotMessage => "NotMessage",
            BadReason::BadUser => "BadUser",
            BadReason::NotOpen => "NotOpen",
            BadReason::NoHost => "NoHost",
            BadReason::Store => "Store",
        }
    }
}
