// A chain of 100 entries at a document of letters, and what is done to it.
use std::alloc::Global;
use std::mem;
use test_wavelet_words::operations;
use undo_control::UndoChain;
use wavelet_op::Ops;
use wavelet_state::{WaveletState, apply_delta};

/// The chain, and the edit and the change that come next: each inserts a letter or takes it away again.
pub struct Bench {
    chain: UndoChain,
    edit: Ops,
    next_edit: Ops,
    change: Ops,
    next_change: Ops,
}

impl Drop for Bench {
    fn drop(self) {
        let Bench {
            chain: _chain,
            edit: _edit,
            next_edit: _next_edit,
            change: _change,
            next_change: _next_change,
        } = self;
    }
}

fn written(alloc: Global, letters: u64) -> Option<WaveletState> {
    let mut words = String::from_str(alloc, "b+1: +").ok()?;
    for _ in 0..letters {
        words.push('a').ok()?;
    }
    let mut state = WaveletState::new(alloc);
    apply_delta(alloc, &mut state, &operations(alloc, &words).ok()?).ok()?;
    Some(state)
}

// A letter in the middle is inserted or deleted, by its sign.
fn middle(alloc: Global, letters: u64, sign: &str) -> Option<Ops> {
    let before = letters / 2;
    let after = letters - before;
    let words = format!(in alloc; "b+1: {before} {sign}x {after}").ok()?;
    operations(alloc, &words).ok()
}

// A letter in front is inserted or deleted, by its sign.
fn front(alloc: Global, letters: u64, sign: &str) -> Option<Ops> {
    let words = format!(in alloc; "b+1: {sign}y {letters}").ok()?;
    operations(alloc, &words).ok()
}

impl Bench {
    /// A chain of 100 entries at a document of so many letters, of which there are at least two. None where it can't be made.
    pub fn new(alloc: Global, letters: u64) -> Option<Bench> {
        let mut bench = Bench {
            chain: UndoChain::new(alloc, written(alloc, letters)?),
            edit: middle(alloc, letters, "+")?,
            next_edit: middle(alloc, letters, "-")?,
            change: front(alloc, letters, "+")?,
            next_change: front(alloc, letters, "-")?,
        };
        for _ in 0..100 {
            bench.edit(alloc)?;
        }
        Some(bench)
    }

    /// The number of entries.
    pub fn entries(&self) -> u64 {
        self.chain.len()
    }

    fn edit(&mut self, alloc: Global) -> Option<()> {
        self.chain.note_edit(alloc, &self.edit).ok()?;
        mem::swap(&mut self.edit, &mut self.next_edit);
        Some(())
    }

    fn change(&mut self, alloc: Global) -> Option<()> {
        self.chain.note_change(alloc, &self.change).ok()?;
        mem::swap(&mut self.change, &mut self.next_change);
        Some(())
    }

    fn undo(&mut self, alloc: Global) -> Option<()> {
        self.chain.note_edit(alloc, &self.edit).ok()?;
        if self.chain.len() == 0 {
            return None;
        }
        self.chain.note_undone(alloc).ok()
    }

    /// Does the work once; None where a call is refused.
    pub fn once(&mut self, alloc: Global, work: &str) -> Option<()> {
        if work == "change" {
            return self.change(alloc);
        }
        if work == "undo" {
            return self.undo(alloc);
        }
        self.edit(alloc)
    }
}
