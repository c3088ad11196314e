// The contents that an edit inserts.
ghost use Rattle.std.specs.Prelude.{◌≡◌, codes, IfOk};
ghost use Rattle.conversation.specs.Contents.{IsStart, id_of, thread_of, IsReply, IsNext, IsFirst};

use doc_items::{Attributes, Content, Memory, Text};
use std::alloc::Global;

// The attributes of a new blip.
fn id_of(alloc: Global, id: &str) -> Result<Attributes, Memory>
    ensures { IfOk result (λ m. m ≡ id_of id.now) }
{
    let mut attributes = Attributes::new(alloc);
    attributes.set(alloc, "id", Some(id))?;
    Ok(attributes)
}

// The attributes of a new thread.
fn thread_of(alloc: Global, inline: bool, id: &str) -> Result<Attributes, Memory>
    ensures { IfOk result (λ m. m ≡ thread_of inline id.now) }
{
    let mut attributes = id_of(alloc, id)?;
    if inline {
        attributes.set(alloc, "inline", Some("true"))?;
    }
    Ok(attributes)
}

// An element's start of this type.
fn start(alloc: Global, kind: &str, attributes: Attributes) -> Result<Content, Memory>
    ensures { IfOk result (IsStart kind.now attributes) }
{
    let kind = Text::from_str(alloc, kind)?;
    Ok(Content::Start { kind, attributes })
}

/// A thread with one blip.
pub(crate) fn reply_contents(
    alloc: Global,
    inline: bool,
    thread: &str,
    blip: &str,
) -> Result<[Content; 4], Memory>
    ensures { IfOk result (IsReply inline thread.now blip.now) }
{
    let attributes = thread_of(alloc, inline, thread)?;
    let outer = start(alloc, "thread", attributes)?;
    let attributes = id_of(alloc, blip)?;
    let inner = start(alloc, "blip", attributes)?;
    Ok([outer, inner, Content::End, Content::End])
}

/// One blip.
pub(crate) fn next_contents(alloc: Global, blip: &str) -> Result<[Content; 2], Memory>
    ensures { IfOk result (IsNext blip.now) }
{
    let attributes = id_of(alloc, blip)?;
    let inner = start(alloc, "blip", attributes)?;
    Ok([inner, Content::End])
}

/// A conversation with one blip.
pub(crate) fn first_contents(alloc: Global, blip: &str) -> Result<[Content; 4], Memory>
    ensures { IfOk result (IsFirst blip.now) }
{
    let outer = start(alloc, "conversation", Attributes::new(alloc))?;
    let attributes = id_of(alloc, blip)?;
    let inner = start(alloc, "blip", attributes)?;
    Ok([outer, inner, Content::End, Content::End])
}
