// The blips of a wavelet.
ghost use Rattle.std.specs.Prelude.{◌≡◌, IfOk};
ghost use Rattle.doc_items.specs.Maps.{same_text};
ghost use Rattle.wavelet_op.specs.States.{document_of};
ghost use Rattle.wave_index.specs.Blips.{manifest, threads, is_live, named_items, title_of};
ghost use Rattle.wave_index.specs.Titles.{title};

use crate::title::{no_text, title};
use conversation::{Id, Node, Part, Threads, read_manifest};
use doc_items::{Memory, Text};
use std::alloc::{AllocError, Global};
use wave_base::{BaseFault, DocumentName};
use wavelet_state::WaveletState;

/// The name of the document that has the threads.
const MANIFEST: &str = "conversation";

/// Whether the document is the one that has the threads.
pub(crate) fn is_manifest(name: &DocumentName) -> bool
    ensures { result ≡ same_text name.now manifest }
{
    name.text() == MANIFEST
}

/// The threads of a state. The error is want of memory.
pub(crate) fn threads(alloc: Global, state: &WaveletState) -> Result<Threads, Memory>
    ensures { IfOk result (λ t. t ≡ threads state.now) }
{
    let Ok(name) = DocumentName::parse(alloc, MANIFEST) else {
        return Err(AllocError);
    };
    match state.rope(&name) {
        Some(rope) => read_manifest(alloc, rope),
        None => Ok(Threads::from_vec(Vec::new(alloc))),
    }
}

/// Whether this is a blip that isn't deleted.
pub(crate) fn is_live(part: Part) -> bool
    ensures { result ≡ is_live part }
{
    match part {
        Part::Blip { deleted } => !deleted,
        Part::Thread { .. } => false,
    }
}

// The title of a document; empty where the document is.
fn title_in(alloc: Global, state: &WaveletState, name: &DocumentName) -> Result<Text, Memory>
    ensures { IfOk result (λ t. t ≡ title (document_of state.now name.now)) }
{
    match state.rope(name) {
        Some(rope) => title(alloc, rope),
        None => no_text(alloc),
    }
}

// The title of the document that an id names; empty where it names none.
fn title_named(alloc: Global, state: &WaveletState, id: &Id) -> Result<Text, Memory>
    ensures { IfOk result (λ t. t ≡ title (named_items state.now id.now)) }
{
    match DocumentName::parse(alloc, id.as_str()) {
        Ok(name) => title_in(alloc, state, &name),
        Err(BaseFault::BadName) => no_text(alloc),
        Err(BaseFault::BadAddress) => unreachable!(),
        Err(BaseFault::Memory) => Err(AllocError),
    }
}

/// The title of the first of the blips that isn't deleted; empty where there is none.
pub(crate) fn title_of(alloc: Global, state: &WaveletState, nodes: &[Node]) -> Result<Text, Memory>
    ensures { IfOk result (λ t. t ≡ title_of state.now nodes.now) }
{
    for node in nodes {
        if is_live(node.part) {
            return title_named(alloc, state, &node.id);
        }
    }
    no_text(alloc)
}
