// What a line can say.
ghost use Rattle.std.specs.Prelude.{◌≡◌};
ghost use Rattle.client_commands.specs.Words.{stretch_from};

use crate::Phrase;
use wave_base::{Address, DocumentName, WaveletName};
use wavelet_op::Role;

/// A place in a document, counted in items.
pub struct Spot {
    pub document: DocumentName,
    pub place: u64,
}

impl Drop for Spot {
    fn drop(self) {
        let Spot {
            document: _document,
            place: _place,
        } = self;
    }
}

impl Spot {
    /// So many items from the place on.
    pub(crate) fn with_count(self, count: u64) -> Stretch
        ensures { result ≡ stretch_from self count }
    {
        let Spot { document, place } = self;
        Stretch {
            document,
            from: place,
            count,
        }
    }
}

/// So many items of a document, from a place on.
pub struct Stretch {
    pub document: DocumentName,
    pub from: u64,
    pub count: u64,
}

impl Drop for Stretch {
    fn drop(self) {
        let Stretch {
            document: _document,
            from: _from,
            count: _count,
        } = self;
    }
}

/// An edit of the current wavelet.
pub enum Edit {
    /// The address becomes a participant.
    Add {
        address: Address,
    },
    /// The address is a participant no more.
    Remove {
        address: Address,
    },
    /// The address gets a role.
    SetRole {
        address: Address,
        role: Role,
    },
    /// A text comes in at a place.
    Write {
        spot: Spot,
        text: Phrase,
    },
    /// Items go.
    Erase {
        stretch: Stretch,
    },
    /// Items get an annotation, or lose it where there is no value.
    Note {
        stretch: Stretch,
        key: Phrase,
        value: Option<Phrase>,
    },
    /// An element without attributes comes in at a place.
    Element {
        spot: Spot,
        kind: Phrase,
    },
    /// A blip gets a thread more, with a blip.
    Reply {
        blip: Phrase,
        thread: Phrase,
        new_blip: Phrase,
    },
    /// The blip of a document gets an inline thread more, with a blip and an anchor at a place.
    Inline {
        spot: Spot,
        thread: Phrase,
        new_blip: Phrase,
    },
    /// A thread gets a blip more; the empty id is that of the root thread.
    Next {
        thread: Phrase,
        new_blip: Phrase,
    },
    /// A blip is deleted.
    Delete {
        blip: Phrase,
    },
}

impl Drop for Edit {
    fn drop(self) {
        match self {
            Edit::Add { address: _address } => {}
            Edit::Remove { address: _address } => {}
            Edit::SetRole {
                address: _address,
                role: _role,
            } => {}
            Edit::Write {
                spot: _spot,
                text: _text,
            } => {}
            Edit::Erase { stretch: _stretch } => {}
            Edit::Note {
                stretch: _stretch,
                key: _key,
                value: _value,
            } => {}
            Edit::Element {
                spot: _spot,
                kind: _kind,
            } => {}
            Edit::Reply {
                blip: _blip,
                thread: _thread,
                new_blip: _new_blip,
            } => {}
            Edit::Inline {
                spot: _spot,
                thread: _thread,
                new_blip: _new_blip,
            } => {}
            Edit::Next {
                thread: _thread,
                new_blip: _new_blip,
            } => {}
            Edit::Delete { blip: _blip } => {}
        }
    }
}

/// A command.
pub enum Command {
    /// A new wavelet becomes the current one, unless there is one of the name.
    Create { name: WaveletName },
    /// A wavelet becomes the current one.
    Open { name: WaveletName },
    /// An edit of the current wavelet.
    Edit(Edit),
    /// The newest edit is taken back.
    Undo,
    /// The screen is printed.
    Show,
    /// Waits for what is under way.
    Sync,
    /// What is pending is dropped.
    Drop,
    /// The end.
    Quit,
}

impl Drop for Command {
    fn drop(self) {
        match self {
            Command::Create { name: _name } => {}
            Command::Open { name: _name } => {}
            Command::Edit(_edit) => {}
            Command::Undo => {}
            Command::Show => {}
            Command::Sync => {}
            Command::Drop => {}
            Command::Quit => {}
        }
    }
}
