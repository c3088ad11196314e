// A chain of undo with what is still to be noted in it.
ghost use Rattle.std.specs.Prelude.{◌≡◌, IfOk, OnOk, OnErr};
ghost use Rattle.wavelet_op.specs.Acts.{meanings};
ghost use Rattle.undo_control.specs.Parts.{chain_of};
ghost use Rattle.client_control.specs.Parts.{follower_of};
ghost use Rattle.client_session.specs.Seats.{after_edit, after_undo, after_change, fresh_chain, noted};

use client_control::Follower;
use doc_items::Memory;
use std::alloc::{AllocError, Global};
use undo_control::UndoChain;
use wavelet_op::{Ops, WaveletFault};

/// What a chain is still to be moved by. It is noted where the follower has moved, which takes no memory, and done before the chain
/// is next looked at.
#[derive(Drop)]
pub(crate) enum Note {
    /// Nothing.
    Nothing,
    /// An edit.
    Edit(Ops),
    /// A change by others.
    Change(Ops),
    /// An undo.
    Undone,
    /// A new chain begins at the screen.
    Anew,
}

// After an edit. The error is want of memory, here and below.
fn note_edit(alloc: Global, chain: &mut UndoChain, ops: &Ops) -> Result<(), Memory>
    ensures ok { OnOk result (chain_of chain.new ≡ after_edit (chain_of chain.old) (meanings ops.now)) }
    ensures same { OnErr result (chain.new ≡ chain.old) }
{
    match chain.note_edit(alloc, ops) {
        Ok(()) => Ok(()),
        Err(WaveletFault::OpInvalid(_)) => Ok(()),
        Err(WaveletFault::CountTooLarge) => unreachable!(),
        Err(WaveletFault::Conflict(_)) => unreachable!(),
        Err(WaveletFault::DontFit(_)) => unreachable!(),
        Err(WaveletFault::Memory) => Err(AllocError),
    }
}

// After an undo.
fn note_undone(alloc: Global, chain: &mut UndoChain) -> Result<(), Memory>
    ensures ok { OnOk result (chain_of chain.new ≡ after_undo (chain_of chain.old)) }
    ensures same { OnErr result (chain.new ≡ chain.old) }
{
    if chain.len() == 0 {
        return Ok(());
    }
    chain.note_undone(alloc)
}

// A new chain at the screen.
fn anew(alloc: Global, follower: &Follower) -> Result<UndoChain, Memory>
    ensures { IfOk result (λ c. chain_of c ≡ fresh_chain (follower_of follower.now)) }
{
    let screen = follower.screen(alloc)?;
    Ok(UndoChain::new(alloc, screen))
}

// After a change by others that led to the follower's screen.
fn note_change(
    alloc: Global,
    chain: &mut UndoChain,
    follower: &Follower,
    ops: &Ops,
) -> Result<(), Memory>
    ensures ok { OnOk result (chain_of chain.new ≡ after_change (follower_of follower.now) (chain_of chain.old) (meanings ops.now)) }
    ensures same { OnErr result (chain.new ≡ chain.old) }
{
    match chain.note_change(alloc, ops) {
        Ok(()) => Ok(()),
        Err(WaveletFault::OpInvalid(_)) => begin(alloc, chain, follower),
        Err(WaveletFault::CountTooLarge) => begin(alloc, chain, follower),
        Err(WaveletFault::Conflict(_)) => unreachable!(),
        Err(WaveletFault::DontFit(_)) => unreachable!(),
        Err(WaveletFault::Memory) => Err(AllocError),
    }
}

// A new chain begins.
fn begin(alloc: Global, chain: &mut UndoChain, follower: &Follower) -> Result<(), Memory>
    ensures ok { OnOk result (chain_of chain.new ≡ fresh_chain (follower_of follower.now)) }
    ensures same { OnErr result (chain.new ≡ chain.old) }
{
    let fresh = anew(alloc, follower)?;
    *chain = fresh;
    Ok(())
}

/// Does in the chain what was noted.
pub(crate) fn keep_note(
    alloc: Global,
    chain: &mut UndoChain,
    follower: &Follower,
    note: &Note,
) -> Result<(), Memory>
    ensures ok { OnOk result (chain_of chain.new ≡ noted (follower_of follower.now) (chain_of chain.old) note.now) }
    ensures same { OnErr result (chain.new ≡ chain.old) }
{
    match note {
        Note::Nothing => Ok(()),
        Note::Edit(ops) => note_edit(alloc, chain, ops),
        Note::Change(ops) => note_change(alloc, chain, follower, ops),
        Note::Undone => note_undone(alloc, chain),
        Note::Anew => begin(alloc, chain, follower),
    }
}
