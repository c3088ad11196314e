// Where a node of the tree stands in its manifest.
ghost use Rattle.std.specs.Prelude.{◌≡◌, ◌+◌, ◌<◌, ◌≤◌, true, false, length, drop, MatchOption};
ghost use Rattle.doc_items.specs.Balance.{Balanced, BalancedFrom};
ghost use Rattle.conversation.specs.Edits.{has};
ghost use Rattle.conversation.specs.Search.{is_kind_at, is_wanted, ends_here, IsFound, IsRoot, IsRootless, IsEnd};
ghost use Rattle.conversation.specs.Trees.{node_at, shown, thread_tree};

use crate::reading::Reading;
use doc_items::{Attributes, Content, Item};
use op_build::Items;

/// What node is looked for.
#[derive(Clone, Copy, Debug, Drop, PartialEq, Eq)]
pub(crate) enum Want {
    /// A blip.
    OfBlip,
    /// A thread.
    OfThread,
    /// A blip or a thread.
    OfAny,
}

/// The start of a node: its place, and how far the manifest is read after it.
#[derive(Clone, Copy, Drop)]
pub(crate) struct Found {
    pub place: u64,
    pub reading: Reading,
}

// Whether a node of this depth is of the kind that is wanted.
fn is_kind(depth: u64, want: Want) -> bool
    ensures { result ≡ is_kind_at depth want }
{
    match want {
        Want::OfBlip => depth % 2 == 0,
        Want::OfThread => depth % 2 != 0,
        Want::OfAny => true,
    }
}

// Whether the node of this depth, with these attributes, is wanted.
fn is_wanted(depth: u64, attributes: &Attributes, want: Want, id: &str) -> bool
    ensures { result ≡ is_wanted want id.now (node_at depth attributes.now) }
{
    is_kind(depth, want) && attributes.get("id").unwrap_or("") == id
}

// Whether the item begins the node that is wanted.
fn begins(reading: &Reading, item: &Item, want: Want, id: &str) -> bool
    ensures { result ≡ has (is_wanted want id.now) (shown reading.now item.now) }
{
    let Content::Start { kind, attributes } = &item.content else {
        return false;
    };
    if reading.inside == 0 || !reading.enters(kind, attributes) {
        return false;
    }
    is_wanted(reading.inside - 1, attributes, want, id)
}

/// The first node of the id that is wanted; None exactly where there is none.
pub(crate) fn find<D: Items>(manifest: &D, want: Want, id: &str) -> Option<Found>
    requires { Balanced (D.items manifest.now) }
    ensures { MatchOption result (has (is_wanted want id.now) (thread_tree (D.items manifest.now)) ≡ false)
        (IsFound (is_wanted want id.now) (D.items manifest.now)) }
{
    let mut reading = Reading::new();
    for place in 0..manifest.len() {
        let Some(item) = manifest.item(place) else {
            return None;
        };
        let is_here = begins(&reading, item, want, id);
        reading.pass(item);
        if is_here {
            return Some(Found { place, reading });
        }
    }
    None
}

/// The start of the conversation; None exactly where there is none.
pub(crate) fn find_root<D: Items>(manifest: &D) -> Option<Found>
    requires { Balanced (D.items manifest.now) }
    ensures { MatchOption result (IsRootless (D.items manifest.now)) (IsRoot (D.items manifest.now)) }
{
    let mut reading = Reading::new();
    for place in 0..manifest.len() {
        let Some(item) = manifest.item(place) else {
            unreachable!()
        };
        reading.pass(item);
        if reading.found {
            return Some(Found { place, reading });
        }
    }
    None
}

// Whether the item ends the element of the tree that was begun last where `inside` were open.
fn is_end(reading: &Reading, item: &Item, inside: u64) -> bool
    ensures { result ≡ ends_here reading.now item.now.content inside }
{
    match &item.content {
        Content::Character(_) => false,
        Content::Start { .. } => false,
        Content::End => reading.passed == 0 && reading.inside == inside,
    }
}

/// How many items after a place, up to which the manifest is read, the element ends that was begun last.
pub(crate) fn end_behind<D: Items>(manifest: &D, from: u64, begun: Reading) -> u64
    requires from { from ≤ length (D.items manifest.now) }
    requires inside { 0 < begun.inside }
    requires bound { begun.inside ≤ from }
    requires found { begun.found ≡ true }
    requires passed { begun.passed ≡ 0 }
    requires balanced { BalancedFrom (begun.inside + begun.passed) (drop from (D.items manifest.now)) }
    ensures end { IsEnd begun (drop from (D.items manifest.now)) result }
    ensures within { from + result < length (D.items manifest.now) }
{
    let mut reading = begun;
    for behind in 0..manifest.len() - from {
        let Some(item) = manifest.item(from + behind) else {
            unreachable!()
        };
        if is_end(&reading, item, begun.inside) {
            return behind;
        }
        reading.pass(item);
    }
    unreachable!()
}
