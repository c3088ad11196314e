// The elements that reach over the ends of a stretch of items.
ghost use Rattle.std.specs.Prelude.{◌≡◌, ◌+◌, ◌^◌, ◌<◌, length};
ghost use Rattle.doc_rope.specs.Shapes.{no_elements, one, meet, shape_of};

use doc_items::{Content, Item};

// The shape of some items: how many ends close nothing among them, and how many starts nothing among them closes.
#[derive(Clone, Copy)]
pub struct Shape {
    pub ends: usize,
    pub starts: usize,
}

impl Shape {
    // The shape of no items.
    pub fn none() -> Shape
        ensures { result ≡ no_elements }
    {
        Shape { ends: 0, starts: 0 }
    }

    // The shape of these items.
    #[tactic(auto, using(crate::proofs::Shapes::shape_next))]
    pub fn of(items: &[Item]) -> Shape
        ensures { result ≡ shape_of items.now }
    {
        let mut shape = Shape::none();
        for item in items {
            shape = shape.with(&item.content);
        }
        shape
    }

    // The shape of the items and one more.
    fn with(self, content: &Content) -> Shape
        requires ends { self.ends + 1 < 2 ^ 64 }
        requires starts { self.starts + 1 < 2 ^ 64 }
        ensures { result ≡ meet self (one content.now) }
    {
        match content {
            Content::Character(_) => self,
            Content::Start { .. } => Shape {
                ends: self.ends,
                starts: self.starts + 1,
            },
            Content::End => self.closed(),
        }
    }

    // With an end after it.
    fn closed(self) -> Shape
        requires { self.ends + 1 < 2 ^ 64 }
        ensures { result ≡ meet self (record { ends = 1; starts = 0 }) }
    {
        if self.starts > 0 {
            Shape {
                ends: self.ends,
                starts: self.starts - 1,
            }
        } else {
            Shape {
                ends: self.ends + 1,
                starts: 0,
            }
        }
    }

    // The shape of these items and those of a later shape after them.
    pub fn meet(self, later: Shape) -> Shape
        requires ends { self.ends + later.ends < 2 ^ 64 }
        requires starts { self.starts + later.starts < 2 ^ 64 }
        ensures { result ≡ meet self later }
    {
        Shape {
            ends: self.ends + later.ends.saturating_sub(self.starts),
            starts: self.starts.saturating_sub(later.ends) + later.starts,
        }
    }
}
