// What stays of a document at its front and at its back.
ghost use Rattle.std.specs.Prelude.{◌≡◌, ℕ};
ghost use Rattle.wave_index.specs.Edges.{untouched, longer, cut, step_over, edges_of, smaller, both, is_on, edges_after, edges_in, is_mutated};

use doc_op::{Component, DocOp};
use wave_base::DocumentName;
use wavelet_op::WaveletOp;

/// How many items stay at the front and at the back of a document; all of it stays where the front is None.
#[derive(Clone, Copy, Debug)]
pub(crate) struct Edges {
    pub front: Option<u64>,
    pub back: u64,
}

// The smaller of two numbers.
fn smaller(a: u64, b: u64) -> u64
    ensures { result ≡ smaller a b }
{
    if a <= b { a } else { b }
}

impl Edges {
    // Nothing is put in or taken away yet.
    fn untouched() -> Edges
        ensures { result ≡ untouched }
    {
        Edges {
            front: None,
            back: 0,
        }
    }

    // So many items more stay.
    fn longer(self, count: u64) -> Edges
        ensures { result ≡ longer count self }
    {
        Edges {
            front: self.front,
            back: self.back.saturating_add(count),
        }
    }

    // An item is put in or taken away.
    fn cut(self) -> Edges
        ensures { result ≡ cut self }
    {
        Edges {
            front: Some(self.front.unwrap_or(self.back)),
            back: 0,
        }
    }

    // What a component leaves.
    fn over(self, component: &Component) -> Edges
        ensures { result ≡ step_over self component.now }
    {
        match component {
            Component::Retain(count) => self.longer(*count),
            Component::Characters(_) => self.cut(),
            Component::ElementStart { .. } => self.cut(),
            Component::ElementEnd => self.cut(),
            Component::DeleteCharacters(_) => self.cut(),
            Component::DeleteElementStart { .. } => self.cut(),
            Component::DeleteElementEnd => self.cut(),
            Component::ReplaceAttributes { .. } => self.longer(1),
            Component::UpdateAttributes(_) => self.longer(1),
            Component::AnnotationBoundary(_) => self,
        }
    }

    // What an operation leaves.
    fn of(op: &DocOp) -> Edges
        ensures { result ≡ edges_of op.now }
    {
        let mut edges = Edges::untouched();
        for component in op.as_slice() {
            edges = edges.over(component);
        }
        edges
    }

    // What one operation and then another leave, which each put something in or take it away.
    fn joined(front: u64, back: u64, later: Edges) -> Edges
        ensures { result ≡ both (record { front = Some front; back = back }) later }
    {
        match later.front {
            None => Edges {
                front: Some(front),
                back,
            },
            Some(other) => Edges {
                front: Some(smaller(front, other)),
                back: smaller(back, later.back),
            },
        }
    }

    // What one operation and then another leave.
    fn both(self, later: Edges) -> Edges
        ensures { result ≡ both self later }
    {
        match self.front {
            None => later,
            Some(front) => Edges::joined(front, self.back, later),
        }
    }

    // What an operation more leaves of a document.
    fn after(self, document: &DocumentName, op: &WaveletOp) -> Edges
        ensures { result ≡ edges_after self document.now op.now }
    {
        match op {
            WaveletOp::NoOp => self,
            WaveletOp::Add(_) => self,
            WaveletOp::Remove(_) => self,
            WaveletOp::Mutate { document: name, op } => {
                if name == document {
                    self.both(Edges::of(op))
                } else {
                    self
                }
            }
            WaveletOp::SetRole { .. } => self,
        }
    }
}

/// What operations in turn leave of a document.
pub(crate) fn edges_in(document: &DocumentName, ops: &[WaveletOp]) -> Edges
    ensures { result ≡ edges_in document.now ops.now }
{
    let mut edges = Edges::untouched();
    for op in ops {
        edges = edges.after(document, op);
    }
    edges
}

// Whether an operation is on the document.
fn is_on(document: &DocumentName, op: &WaveletOp) -> bool
    ensures { result ≡ is_on document.now op.now }
{
    match op {
        WaveletOp::NoOp => false,
        WaveletOp::Add(_) => false,
        WaveletOp::Remove(_) => false,
        WaveletOp::Mutate { document: name, .. } => name == document,
        WaveletOp::SetRole { .. } => false,
    }
}

/// Whether one of the operations is on the document.
pub(crate) fn is_mutated(document: &DocumentName, ops: &[WaveletOp]) -> bool
    ensures { result ≡ is_mutated document.now ops.now }
{
    for op in ops {
        if is_on(document, op) {
            return true;
        }
    }
    false
}
