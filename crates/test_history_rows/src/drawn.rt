// Deltas that are drawn at the head of a history.
use crate::draws::Draws;
use crate::fault::Fault;
use conversation::{ConversationFault, continue_thread, delete_blip, reply_to};
use delta_history::History;
use doc_items::{Attributes, Document};
use doc_op::DocOp;
use op_build::{BuildFault, annotate, erase, insert_element, set_attribute, type_at};
use std::alloc::Global;
use test_op_words::operation;
use test_wavelet_words::id;
use wave_base::{Address, DocumentName};
use wavelet_op::{AppliedDelta, Ops, Role, WaveletOp};
use wavelet_state::{WaveletState, apply_op};

/// The document that has the threads.
pub const MANIFEST: &str = "conversation";

const TEXTS: [&str; 14] = [
    "a",
    "b7",
    " ",
    ".",
    "é",
    "漢字",
    "😀",
    "–",
    "x y",
    "z-",
    "Wave",
    "\u{7f}",
    "{",
    "abcdefghijklmnopqrstuvwxyzabcdefghijklmnopqrstuvwxyzabcdefghijklmnopqrstuvwxyz789",
];

const KINDS: [&str; 3] = ["line", "p", "line"];

// The last of them is no document's name.
const BLIPS: [&str; 5] = ["b+0", "b+1", "b+2", "b+9", "no name"];

const THREADS: [&str; 3] = ["t+0", "t+1", "t+2"];

fn document_of(
    alloc: Global,
    state: &WaveletState,
    name: &DocumentName,
) -> Result<Document, Fault> {
    match state.document(alloc, name)? {
        Some(document) => Ok(document),
        None => Ok(Document::new(alloc)),
    }
}

// The operation of an edit; None where it was refused.
fn built(op: Result<DocOp, BuildFault>) -> Result<Option<DocOp>, Fault> {
    match op {
        Ok(op) => Ok(Some(op)),
        Err(BuildFault::Memory) => Err(Fault::Memory),
        Err(_) => Ok(None),
    }
}

fn threaded(op: Result<DocOp, ConversationFault>) -> Result<Option<DocOp>, Fault> {
    match op {
        Ok(op) => Ok(Some(op)),
        Err(ConversationFault::Memory) => Err(Fault::Memory),
        Err(_) => Ok(None),
    }
}

// An edit that puts letters or elements into a document, or takes some of its items away.
fn item_edit(
    alloc: Global,
    draws: &mut Draws,
    document: &Document,
) -> Result<Option<DocOp>, Fault> {
    let place = draws.below(document.len().wrapping_add(1));
    let count = draws.below(4).wrapping_add(1);
    match draws.below(12) {
        0 => built(erase(alloc, document, 0, document.len())),
        1 | 2 | 3 => built(erase(alloc, document, place, count)),
        4 => {
            let kind = draws.word(&KINDS);
            let attributes = Attributes::new(alloc);
            built(insert_element(alloc, document, place, kind, &attributes))
        }
        _ => built(type_at(alloc, document, place, draws.word(&TEXTS))),
    }
}

// An edit that leaves a document's letters as they are.
fn mark_edit(
    alloc: Global,
    draws: &mut Draws,
    document: &Document,
) -> Result<Option<DocOp>, Fault> {
    let len = document.len();
    let place = draws.below(len);
    match draws.below(4) {
        0 => built(annotate(alloc, document, place, 1, "bold", Some("1"))),
        1 => built(annotate(alloc, document, place, 1, "bold", None)),
        2 => built(set_attribute(alloc, document, place, "k", Some("v"))),
        _ => {
            if len == 0 {
                return Ok(None);
            }
            let words = format!(in alloc; "{len}")?;
            Ok(Some(operation(alloc, words.as_str())?))
        }
    }
}

// An edit of a manifest.
fn thread_edit(
    alloc: Global,
    draws: &mut Draws,
    manifest: &Document,
) -> Result<Option<DocOp>, Fault> {
    if !manifest.is_balanced() {
        return Ok(None);
    }
    let blip = draws.word(&BLIPS);
    let other = draws.word(&BLIPS);
    match draws.below(8) {
        0 => built(erase(alloc, manifest, 0, manifest.len())),
        1 | 2 => threaded(delete_blip(alloc, manifest, blip)),
        3 | 4 => {
            let thread = draws.word(&THREADS);
            threaded(reply_to(alloc, manifest, blip, thread, other))
        }
        _ => threaded(continue_thread(alloc, manifest, "", blip)),
    }
}

fn edit(
    alloc: Global,
    draws: &mut Draws,
    name: &DocumentName,
    document: &Document,
) -> Result<Option<DocOp>, Fault> {
    if name.text() == MANIFEST && draws.below(8) > 0 {
        return thread_edit(alloc, draws, document);
    }
    if draws.below(5) == 0 {
        return mark_edit(alloc, draws, document);
    }
    item_edit(alloc, draws, document)
}

fn mutation(
    alloc: Global,
    draws: &mut Draws,
    state: &WaveletState,
    name: &str,
) -> Result<WaveletOp, Fault> {
    let name = DocumentName::parse(alloc, name)?;
    let document = document_of(alloc, state, &name)?;
    match edit(alloc, draws, &name, &document)? {
        Some(op) => Ok(WaveletOp::Mutate { document: name, op }),
        None => Ok(WaveletOp::NoOp),
    }
}

fn other_role(role: Role) -> Role {
    match role {
        Role::Full => Role::ReadOnly,
        Role::ReadOnly => Role::Full,
    }
}

// An operation on the participant bob.
fn standing(alloc: Global, draws: &mut Draws, state: &WaveletState) -> Result<WaveletOp, Fault> {
    let bob = Address::parse(alloc, "bob@a.com")?;
    match state.role(&bob) {
        None => Ok(WaveletOp::Add(bob)),
        Some(role) => {
            if draws.below(2) == 0 {
                return Ok(WaveletOp::Remove(bob));
            }
            Ok(WaveletOp::SetRole {
                address: bob,
                old: role,
                new: other_role(role),
            })
        }
    }
}

fn operation_at(
    alloc: Global,
    draws: &mut Draws,
    state: &WaveletState,
) -> Result<WaveletOp, Fault> {
    match draws.below(10) {
        0 => Ok(WaveletOp::NoOp),
        1 => standing(alloc, draws, state),
        2 | 3 => mutation(alloc, draws, state, MANIFEST),
        4 | 5 | 6 => mutation(alloc, draws, state, "b+0"),
        7 | 8 => mutation(alloc, draws, state, "b+1"),
        _ => mutation(alloc, draws, state, "b+2"),
    }
}

// One to four operations, each at the state after those before it.
fn operations_at(
    alloc: Global,
    draws: &mut Draws,
    state: &WaveletState,
) -> Result<Vec<WaveletOp>, Fault> {
    let mut state = state.copy(alloc)?;
    let mut ops = Vec::new(alloc);
    for _ in 0..draws.below(4).wrapping_add(1) {
        let op = operation_at(alloc, draws, &state)?;
        apply_op(alloc, &mut state, &op)?;
        ops.push(op)?;
    }
    Ok(ops)
}

/// The delta of these operations at the head of a history, by alice.
pub fn delta_of(
    alloc: Global,
    history: &History,
    ops: Vec<WaveletOp>,
) -> Result<AppliedDelta, Fault> {
    let number = (history.deltas().len() as u64).min(1_000_000);
    let Some(ops) = Ops::new(ops) else {
        return Err(Fault::Row);
    };
    Ok(AppliedDelta {
        id: id(alloc, "alice@a.com", number)?,
        from: history.head(),
        time: 1000,
        ops: ops.normal(alloc)?,
    })
}

/// The next delta of a history, drawn; the first one adds alice.
pub fn drawn_delta(
    alloc: Global,
    draws: &mut Draws,
    history: &History,
) -> Result<AppliedDelta, Fault> {
    if history.deltas().is_empty() {
        let mut ops = Vec::new(alloc);
        ops.push(WaveletOp::Add(Address::parse(alloc, "alice@a.com")?))?;
        return delta_of(alloc, history, ops);
    }
    let ops = operations_at(alloc, draws, history.state())?;
    delta_of(alloc, history, ops)
}
