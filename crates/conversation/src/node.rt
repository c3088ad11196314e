ghost use Rattle.std.specs.Prelude.{◌≡◌, IfOk, string_bytes};

use doc_items::Memory;
use std::alloc::Global;
use std::marker::Model;

/// The id of a blip or of a thread: any text. Seen as its bytes.
#[derive(Debug, Drop)]
pub struct Id {
    text: String,
}

impl Model for Id {
    ghost use Rattle.std.specs.Prelude.{List, ℕ, string_bytes};

    ghost Value = { List ℕ };

    ghost view = { λ i. string_bytes i.text };
}

impl Id {
    /// The id of this text.
    pub fn from_str(alloc: Global, text: &str) -> Result<Id, Memory>
        ensures { IfOk result (λ i. i ≡ text.now) }
    {
        let text = String::from_str(alloc, text)?;
        Ok(Id { text })
    }

    /// The text.
    pub fn as_str(&self) -> &str
        ensures { result.now ≡ self.now }
    {
        self.text.as_str()
    }
}

/// What a node of the tree is.
#[derive(Clone, Copy, Debug, Drop, PartialEq, Eq)]
pub enum Part {
    Blip { deleted: bool },
    Thread { inline: bool },
}

/// A blip or a thread, with the number of blips and threads above it. A blip of the root thread has none above it; the threads of a
/// blip have one more than it, and so have the blips of a thread.
#[derive(Debug)]
pub struct Node {
    pub depth: u64,
    pub part: Part,
    pub id: Id,
}

impl Drop for Node {
    fn drop(self) {
        let Node {
            depth: _depth,
            part: _part,
            id: _id,
        } = self;
    }
}

/// The tree of a conversation: all blips and threads, each before those below it, in document order. There is no recursion in it, so
/// that no depth of a manifest meets the end of a stack.
#[derive(Debug, Drop)]
pub struct Threads {
    nodes: Vec<Node>,
}

impl Model for Threads {
    ghost use Rattle.std.specs.Prelude.{List};
    ghost use Rattle.conversation.specs.declared.node.Node.{Node};

    ghost Value = { List Node };

    ghost view = { λ t. t.nodes.items };
}

impl Threads {
    /// The tree of these nodes.
    pub fn from_vec(nodes: Vec<Node>) -> Threads
        ensures { result ≡ nodes.items }
    {
        Threads { nodes }
    }

    /// The nodes.
    pub fn as_slice(&self) -> &[Node]
        ensures { result.now ≡ self.now }
    {
        self.nodes.as_slice()
    }
}
