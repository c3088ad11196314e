// A document that is kept.
ghost use Rattle.std.specs.Prelude.{◌≡◌, ◌<◌, ◌≤◌, length, IfOk, IfSome};
ghost use Rattle.std.specs.Arc.{arc_value};
ghost use Rattle.doc_items.specs.Limits.{max_count};

use crate::piece::PackedPiece;
use doc_items::{Document, Item, Memory};
use doc_rope::Rope;
use std::alloc::Global;
use std::marker::Model;
use std::sync::Arc;

// So far before and after the expected place a piece is looked for among those of an earlier document.
const WINDOW: usize = 8;

/// A document that is kept and not edited, seen as its list of items. Characters in a row that have the same annotations take
/// little more than their UTF-8 bytes, and pieces that an earlier document had are shared with that one.
pub struct PackedDocument {
    pieces: Vec<Arc<PackedPiece, Global>>,
    count: u64,
}

impl Drop for PackedDocument {
    fn drop(self) {
        let PackedDocument {
            pieces: _pieces,
            count: _count,
        } = self;
    }
}

impl Model for PackedDocument {
    ghost use Rattle.std.specs.Prelude.{◌≡◌, ◌≤◌, List, length, map};
    ghost use Rattle.std.specs.Arc.{arc_value};
    ghost use Rattle.std.specs.Coded.{coded_list};
    ghost use Rattle.doc_items.specs.Limits.{max_count};
    ghost use Rattle.doc_items.specs.declared.item.Item.{Item};
    ghost use Rattle.doc_items.specs.contracts.item.Item as item_row;
    ghost use Rattle.doc_pack.specs.Packed.{shared_items};

    ghost Value = { List Item };

    ghost coded = { coded_list item_row.the_row.coded };

    ghost view = { λ d. shared_items d.pieces.items };

    ghost invariant = { λ d. (d.count ≡ length (shared_items d.pieces.items)) × (d.count ≤ max_count) };
}

impl PackedDocument {
    /// An equal document. Pieces that stand near the same place of an earlier one are shared with it, so a document that is packed
    /// again takes what changed, and eight bytes for each piece. The error is want of memory.
    pub fn pack(
        alloc: Global,
        rope: &Rope,
        earlier: Option<&PackedDocument>,
    ) -> Result<PackedDocument, Memory>
        ensures { IfOk result (λ d. d ≡ rope.now) }
    {
        let known = pieces_of(earlier);
        let count = rope.len();
        let mut pieces = Vec::new(alloc);
        let mut place = 0;
        let mut near = 0;
        while let Some(items) = rope.run(place) {
            let found = piece_of(alloc, items, known, near)?;
            pieces.push(found.piece)?;
            near = found.next;
            place += items.len() as u64;
        }
        Ok(PackedDocument { pieces, count })
    }

    /// An equal document in pieces, which can be edited. The error is want of memory.
    pub fn unpack(&self, alloc: Global) -> Result<Rope, Memory>
        ensures { IfOk result (λ r. r ≡ self.now) }
    {
        let mut items: Vec<Item> = Vec::with_capacity(alloc, self.count as usize)?;
        for piece in &self.pieces {
            piece.copy_to(alloc, &mut items)?;
        }
        Rope::from_list(alloc, Document::from_vec(items))
    }
}

fn pieces_of(document: Option<&PackedDocument>) -> &[Arc<PackedPiece, Global>] {
    match document {
        Some(document) => document.pieces.as_slice(),
        None => &[],
    }
}

// A piece, and the place where the next one is expected among those that are known.
#[derive(Drop)]
struct Found {
    piece: Arc<PackedPiece, Global>,
    next: usize,
}

// The piece of these items: a known one near a place, or one of its own.
fn piece_of(
    alloc: Global,
    items: &[Item],
    known: &[Arc<PackedPiece, Global>],
    near: usize,
) -> Result<Found, Memory>
    ensures { IfOk result (λ f. arc_value f.piece ≡ items.now) }
{
    match known_piece(items, known, near) {
        Some((piece, next)) => {
            let piece = Arc::try_clone(piece)?;
            Ok(Found { piece, next })
        }
        None => {
            let piece = Arc::new(alloc, PackedPiece::pack(alloc, items)?)?;
            let next = near.saturating_add(1);
            Ok(Found { piece, next })
        }
    }
}

// A known piece of these items near a place, and the place after it.
fn known_piece<'a>(
    items: &[Item],
    known: &'a [Arc<PackedPiece, Global>],
    near: usize,
) -> Option<(&'a Arc<PackedPiece, Global>, usize)>
    ensures { IfSome result (λ f. arc_value f.0.now ≡ items.now) }
{
    let end = known.len().min(near.saturating_add(WINDOW));
    let from = near.saturating_sub(WINDOW).min(end);
    for (offset, piece) in known[from..end].iter().enumerate() {
        if piece.is(items) {
            return Some((piece, from.saturating_add(offset).saturating_add(1)));
        }
    }
    None
}
