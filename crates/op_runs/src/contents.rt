// Contents in a row beside others, and beside the change of an element's attributes.
ghost use Rattle.std.specs.Prelude.{◌≡◌, length, map, IfOk};
ghost use Rattle.doc_items.specs.declared.item.Content.TheVariants.{Character};
ghost use Rattle.doc_op.specs.Apply.{attributes_agree, put_attributes};
ghost use Rattle.doc_op.specs.Runs.{contents, part_change, IsFitPart};
ghost use Rattle.op_runs.specs.Contents.{common};

use doc_items::{Attributes, Memory};
use doc_op::{AttributePart, ContentRun};
use std::alloc::Global;

/// How many contents are equal before the first that isn't.
#[tactic(auto, using(crate::proofs::Runs::commons))]
pub fn common(run: ContentRun<'_>, other: ContentRun<'_>) -> u64
    requires { length (contents run) ≡ length (contents other) }
    ensures { result ≡ common (contents run.entry) (contents other.entry) }
{
    match run {
        ContentRun::Characters(text) => match other {
            ContentRun::Characters(words) => common_text(text, words),
            ContentRun::Start { .. } => 0,
            ContentRun::End => 0,
        },
        ContentRun::Start { kind, attributes } => match other {
            ContentRun::Start {
                kind: other_kind,
                attributes: others,
            } => {
                if kind.same(other_kind) && attributes.same(others) {
                    1
                } else {
                    0
                }
            }
            ContentRun::Characters(_) => 0,
            ContentRun::End => 0,
        },
        ContentRun::End => match other {
            ContentRun::End => 1,
            ContentRun::Characters(_) => 0,
            ContentRun::Start { .. } => 0,
        },
    }
}

fn common_text(text: &[char], words: &[char]) -> u64
    requires { length text.now ≡ length words.now }
    ensures { result ≡ common (map Character text.now) (map Character words.now) }
{
    for i in 0..text.len() {
        if text[i] != words[i] {
            return i as u64;
        }
    }
    text.len() as u64
}

/// Whether the attributes agree with the change.
pub fn agree(part: AttributePart<'_>, attributes: &Attributes) -> bool
    requires { IsFitPart part }
    ensures { result ≡ attributes_agree (part_change part.entry) attributes.now }
{
    match part {
        AttributePart::Update(changes) => changes.agrees(attributes),
        AttributePart::Replace { old, new: _ } => old.same(attributes),
    }
}

/// What the change makes of the attributes.
pub fn put(
    alloc: Global,
    part: AttributePart<'_>,
    attributes: &Attributes,
) -> Result<Attributes, Memory>
    ensures { IfOk result (λ m. m ≡ put_attributes (part_change part.entry) attributes.now) }
{
    match part {
        AttributePart::Update(changes) => {
            let mut copy = attributes.copy()?;
            changes.put(alloc, &mut copy)?;
            Ok(copy)
        }
        AttributePart::Replace { old: _, new } => new.copy(),
    }
}
