// Runs: actions of one kind under one running set, in a row.
use doc_items::{Attributes, Changes, Text};

/// What a run inserts or deletes.
#[derive(Clone, Copy)]
pub enum ContentRun<'a> {
    /// Characters in a row.
    Characters(&'a [char]),
    /// An element's start.
    Start {
        kind: &'a Text,
        attributes: &'a Attributes,
    },
    /// An element's end.
    End,
}

/// What a component changes of an element's attributes.
#[derive(Clone, Copy)]
pub enum AttributePart<'a> {
    /// Some of them change.
    Update(&'a Changes),
    /// All of them, which are `old`, become `new`.
    Replace {
        old: &'a Attributes,
        new: &'a Attributes,
    },
}

/// The run at which a cursor stands.
#[derive(Clone, Copy)]
pub enum Head<'a> {
    /// So many items stay.
    Keep(u64),
    /// An element's start stays, and its attributes change.
    Change(AttributePart<'a>),
    /// This is inserted.
    Insert(ContentRun<'a>),
    /// This is deleted.
    Delete(ContentRun<'a>),
    /// Nothing is left.
    Nothing,
}

impl<'a> ContentRun<'a> {
    ghost use Rattle.std.specs.Prelude.{◌≡◌, ◌≤◌, ◌<◌, length, take};
    ghost use Rattle.doc_op.specs.Runs.{contents};

    /// The number of contents.
    pub fn len(self) -> u64
        ensures { result ≡ length (contents self.entry) }
    {
        match self {
            ContentRun::Characters(text) => text.len() as u64,
            ContentRun::Start { .. } => 1,
            ContentRun::End => 1,
        }
    }

    /// The run of its first contents.
    pub fn first(self, count: u64) -> ContentRun<'a>
        requires some { 0 < count }
        requires fits { count ≤ length (contents self) }
        ensures { contents result ≡ take count (contents self.entry) }
    {
        match self {
            ContentRun::Characters(text) => ContentRun::Characters(&text[..count as usize]),
            ContentRun::Start { kind, attributes } => ContentRun::Start { kind, attributes },
            ContentRun::End => ContentRun::End,
        }
    }
}
