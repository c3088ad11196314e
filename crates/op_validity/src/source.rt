ghost use Rattle.std.specs.Prelude.{◌≡◌, ◌≤◌, ◌∷◌, [], length, drop, IfSome, IfNone};
ghost use Rattle.doc_items.specs.Limits.{max_count};
ghost use Rattle.op_validity.specs.Sources.{ahead};

use doc_items::Item;
use doc_rope::Reader;

/// The items of a document that are left of a walk over it.
#[derive(Drop)]
pub(crate) enum Source<'a> {
    /// Of a plain document.
    Plain(&'a [Item]),
    /// Of a document in pieces.
    Pieces(Reader<'a>),
}

impl Source<'_> {
    /// The number of items that are left.
    pub fn len(&self) -> u64
        ensures { result ≡ length (ahead self.now) }
    {
        match self {
            Source::Plain(rest) => rest.len() as u64,
            Source::Pieces(rest) => rest.len(),
        }
    }

    /// The first item that is left; None exactly where none is.
    #[tactic(auto, using(crate::proofs::Sources::first_of, crate::proofs::Sources::none_of))]
    pub fn first(&self) -> Option<&Item>
        ensures some { IfSome result (λ i. ahead self.now ≡ i.now ∷ drop 1 (ahead self.now)) }
        ensures none { IfNone result (ahead self.now ≡ []) }
    {
        match self {
            Source::Plain(rest) => rest.first(),
            Source::Pieces(rest) => rest.first(),
        }
    }

    /// Passes over the next `count` items, of which there are so many.
    pub fn skip(&mut self, count: u64)
        requires { count ≤ length (ahead self.old) }
        ensures { ahead self.new ≡ drop count (ahead self.old) }
    {
        match self {
            Source::Plain(rest) => *rest = &rest[count as usize..],
            Source::Pieces(rest) => rest.skip(count),
        }
    }
}
