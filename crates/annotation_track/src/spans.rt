ghost use Rattle.std.specs.Prelude.{◌≡◌, IfOk};

use doc_items::{Changes, Memory};
use std::alloc::Global;
use std::marker::Model;

/// So many neighbouring items, and the changes that run over them.
pub struct Span {
    pub count: u64,
    pub changes: Changes,
}

impl Drop for Span {
    fn drop(self) {
        let Span {
            count: _count,
            changes: _changes,
        } = self;
    }
}

/// A list of spans, which together are over all items of an operation.
#[derive(Drop)]
pub struct Spans {
    list: Vec<Span>,
}

impl Model for Spans {
    ghost use Rattle.std.specs.Prelude.{List};
    ghost use Rattle.annotation_track.specs.declared.spans.Span.{Span};

    ghost Value = { List Span };

    ghost view = { λ s. s.list.items };
}

impl Spans {
    /// The list of these spans.
    pub fn from_vec(list: Vec<Span>) -> Spans
        ensures { result ≡ list.items }
    {
        Spans { list }
    }

    /// The spans, which the list gives up.
    pub fn into_vec(self) -> Vec<Span>
        ensures { result.items ≡ self }
    {
        self.list
    }

    /// The spans, in order.
    pub fn as_slice(&self) -> &[Span]
        ensures { result.now ≡ self.now }
    {
        self.list.as_slice()
    }
}
