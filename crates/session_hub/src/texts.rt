// Updates that were written, each once for all sessions.
ghost use Rattle.std.specs.Prelude.{◌≡◌, List, Some, slice_get, IfOk, IfSome};
ghost use Rattle.doc_items.specs.Maps.{Key};
ghost use Rattle.wavelet_op.specs.Deltas.{DeltaOf};
ghost use Rattle.message_json.specs.declared.message.Message.{Message};
ghost use Rattle.shard_marks.specs.Frames.{frame_of};
ghost use Rattle.session_hub.specs.Texts.{AreWritten, update_in};

use doc_items::Memory;
use std::alloc::Global;
use wave_base::WaveletName;
use wave_messages::write_update;
use wavelet_op::AppliedDelta;

/// How many texts are kept. At one more all are let go.
const MOST: usize = 64;

/// A text of more bytes isn't kept.
const LONGEST: usize = 4 << 10;

/// The text of the update with the delta at a place of a wavelet's history.
pub(crate) struct Text {
    pub(crate) name: WaveletName,
    pub(crate) place: usize,
    pub(crate) bytes: Vec<u8>,
}

impl Drop for Text {
    fn drop(self) {
        let Text {
            name: _name,
            place: _place,
            bytes: _bytes,
        } = self;
    }
}

// The text at a place of those that are kept, where it is that of the delta.
fn kept_at<'a>(texts: &'a [Text], at: usize, name: &WaveletName, place: usize) -> Option<&'a Text>
    ensures there { IfSome result (λ t. slice_get texts.now at ≡ Some t.now) }
    ensures name { IfSome result (λ t. t.now.name ≡ name.now) }
    ensures place { IfSome result (λ t. t.now.place ≡ place) }
{
    let text = texts.get(at)?;
    let other = &text.name;
    if text.place == place && other == name {
        Some(text)
    } else {
        None
    }
}

// The text of the update with the delta at a place of a wavelet's history, where it is kept. The newest are looked at first.
#[tactic(auto, using(crate::proofs::Written::written_at))]
fn find<'a>(texts: &'a [Text], name: &WaveletName, place: usize) -> Option<&'a Text>
    ensures { IfSome result (λ t. (f : Key → List DeltaOf) → AreWritten f texts.now → update_in f name.now place ≡ Some t.now.bytes.items) }
{
    for past in 0..texts.len() {
        let found = kept_at(texts, texts.len() - 1 - past, name, place);
        if found.is_some() {
            return found;
        }
    }
    None
}

// Lets all texts go where they are too many.
#[tactic(auto, using(crate::proofs::Written::none_written))]
fn make_room(texts: &mut Vec<Text>)
    ensures { (f : Key → List DeltaOf) → AreWritten f texts.old.items → AreWritten f texts.new.items }
{
    if texts.len() >= MOST {
        texts.clear();
    }
}

// Keeps a text, unless it is long. The error is want of memory.
#[tactic(auto, using(crate::proofs::Written::written_more))]
fn keep(
    alloc: Global,
    name: &WaveletName,
    place: usize,
    text: &[u8],
    texts: &mut Vec<Text>,
) -> Result<(), Memory>
    ensures { (f : Key → List DeltaOf) → AreWritten f texts.old.items → update_in f name.now place ≡ Some text.now
        → AreWritten f texts.new.items }
{
    if text.len() > LONGEST {
        return Ok(());
    }
    let name = name.copy(alloc)?;
    let bytes = Vec::from_slice(alloc, text)?;
    make_room(texts);
    texts.push(Text { name, place, bytes })?;
    Ok(())
}

/// The text of the update with the delta at a place of a wavelet's history. It is written where it isn't kept. The error is want of
/// memory.
#[tactic(auto, using(crate::proofs::Written::placed_text, crate::proofs::Written::update_there), unfolding(shard_marks::specs::Frames::frame_of))]
pub(crate) fn update_text(
    alloc: Global,
    name: &WaveletName,
    place: usize,
    delta: &AppliedDelta,
    texts: &mut Vec<Text>,
) -> Result<Vec<u8>, Memory>
    ensures text { IfOk result
        (λ v. (f : Key → List DeltaOf) → AreWritten f texts.old.items → slice_get (f name.now) place ≡ Some delta.now → v.items
        ≡ frame_of (Message.Update name.now delta.now)) }
    ensures kept { (f : Key → List DeltaOf) → AreWritten f texts.old.items → slice_get (f name.now) place ≡ Some delta.now
        → AreWritten f texts.new.items }
{
    match find(texts.as_slice(), name, place) {
        Some(text) => Vec::from_slice(alloc, text.bytes.as_slice()),
        None => {
            let text = write_update(alloc, name, delta)?;
            let _kept = keep(alloc, name, place, text.as_slice(), texts);
            Ok(text)
        }
    }
}
