// A component at the front of bytes, and the bytes after it.
ghost use Rattle.std.specs.Prelude.{◌≡◌};
ghost use Rattle.op_codec.specs.Reading.{Gives, tagged_at, component_at};

use crate::CodecFault;
use crate::number::number_at;
use crate::parts::{boundary_at, changes_at, element_at, replaced_at};
use crate::text::text_at;
use doc_op::Component;
use std::alloc::Global;

#[tactic(auto, unfolding(crate::specs::Reading::component_at))]
pub(crate) fn component_at(alloc: Global, bytes: &[u8]) -> Result<(Component, &[u8]), CodecFault>
    ensures { Gives (λ r. (r.0, r.1.now)) result (component_at bytes.now) }
{
    match bytes {
        [tag, rest @ ..] => tagged_at(alloc, *tag, rest),
        [] => Err(CodecFault::BadBytes),
    }
}

#[tactic(auto, unfolding(crate::specs::Reading::tagged_at))]
fn tagged_at(alloc: Global, tag: u8, bytes: &[u8]) -> Result<(Component, &[u8]), CodecFault>
    ensures { Gives (λ r. (r.0, r.1.now)) result (tagged_at tag bytes.now) }
{
    match tag {
        1 => {
            let (count, rest) = number_at(bytes)?;
            Ok((Component::Retain(count), rest))
        }
        2 => {
            let (text, rest) = text_at(alloc, bytes)?;
            Ok((Component::Characters(text), rest))
        }
        3 => {
            let ((kind, attributes), rest) = element_at(alloc, bytes)?;
            Ok((Component::ElementStart { kind, attributes }, rest))
        }
        4 => Ok((Component::ElementEnd, bytes)),
        5 => {
            let (text, rest) = text_at(alloc, bytes)?;
            Ok((Component::DeleteCharacters(text), rest))
        }
        6 => {
            let ((kind, attributes), rest) = element_at(alloc, bytes)?;
            Ok((Component::DeleteElementStart { kind, attributes }, rest))
        }
        7 => Ok((Component::DeleteElementEnd, bytes)),
        8 => {
            let ((old, new), rest) = replaced_at(alloc, bytes)?;
            Ok((Component::ReplaceAttributes { old, new }, rest))
        }
        9 => {
            let (changes, rest) = changes_at(alloc, bytes)?;
            Ok((Component::UpdateAttributes(changes), rest))
        }
        10 => {
            let (boundary, rest) = boundary_at(alloc, bytes)?;
            Ok((Component::AnnotationBoundary(boundary), rest))
        }
        _ => Err(CodecFault::BadBytes),
    }
}
