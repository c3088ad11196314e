use doc_items::Text;
use wave_base::{DocumentName, WaveletName};

/// What an inbox shows of a wavelet.
#[derive(Debug)]
pub struct InboxLine {
    pub name: WaveletName,
    /// The version at the head.
    pub version: u64,
    /// The number of blips that changed after the mark and aren't deleted.
    pub unread: u64,
    /// The first line of the first blip that isn't deleted, at most 80 characters; empty where there is none.
    pub title: Text,
}

impl Drop for InboxLine {
    fn drop(self) {
        let InboxLine {
            name: _name,
            version: _version,
            unread: _unread,
            title: _title,
        } = self;
    }
}

/// A document in which a word stands.
#[derive(Debug)]
pub struct Hit {
    pub name: WaveletName,
    pub document: DocumentName,
}

impl Drop for Hit {
    fn drop(self) {
        let Hit {
            name: _name,
            document: _document,
        } = self;
    }
}
