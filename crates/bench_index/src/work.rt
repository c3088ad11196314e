// An index with one document of letters, and what is done to it.
use delta_history::History;
use std::alloc::Global;
use test_wavelet_words::delta_at;
use wave_base::{Address, WaveletName};
use wave_index::Index;
use wavelet_op::AppliedDelta;

/// The index, and the deltas that it takes next: each inserts a letter in the middle of the document or takes it away again.
pub struct Bench {
    index: Index,
    name: WaveletName,
    user: Address,
    deltas: Vec<AppliedDelta>,
}

impl Drop for Bench {
    fn drop(self) {
        let Bench {
            index: _index,
            name: _name,
            user: _user,
            deltas: _deltas,
        } = self;
    }
}

// The operations that make a document of so many letters: words of five letters, with a full stop after each.
fn written(alloc: Global, letters: u64) -> Option<String> {
    let mut words = String::from_str(alloc, "add alice@a.com; b+1: +").ok()?;
    for place in 0..letters / 6 {
        let number = place % 100_000;
        let word = format!(in alloc; "{number:05}.").ok()?;
        words.push_str(word.as_str()).ok()?;
    }
    for _ in 0..letters % 6 {
        words.push('.').ok()?;
    }
    Some(words)
}

// A letter in the middle is inserted or deleted, by its sign.
fn middle(alloc: Global, letters: u64, sign: &str) -> Option<String> {
    let before = letters / 2;
    let after = letters - before;
    format!(in alloc; "b+1: {before} {sign}x {after}").ok()
}

// A delta of these operations at the head of the history, which takes it.
fn next(alloc: Global, history: &mut History, words: &str) -> Option<AppliedDelta> {
    let number = (history.deltas().len() as u64).min(1_000_000_000);
    let delta = delta_at(alloc, "alice@a.com", number, history.head(), words).ok()?;
    history.push_applied(alloc, delta.copy(alloc).ok()?).ok()?;
    Some(delta)
}

// So many deltas, the last one first.
fn deltas(
    alloc: Global,
    history: &mut History,
    letters: u64,
    count: u32,
) -> Option<Vec<AppliedDelta>> {
    let insertion = middle(alloc, letters, "+")?;
    let deletion = middle(alloc, letters, "-")?;
    let mut deltas = Vec::new(alloc);
    for turn in 0..count {
        let words = if turn % 2 == 0 { &insertion } else { &deletion };
        deltas.push(next(alloc, history, words.as_str())?).ok()?;
    }
    deltas.reverse();
    Some(deltas)
}

impl Bench {
    /// An index with a document of so many letters, and so many deltas to be taken. None where it can't be made.
    pub fn new(alloc: Global, letters: u64, count: u32) -> Option<Bench> {
        let name = WaveletName::parse(alloc, "a.com/w1/a.com/conv+root").ok()?;
        let mut history = History::new(alloc, name.copy(alloc).ok()?);
        let mut index = Index::new(alloc);
        let first = next(alloc, &mut history, written(alloc, letters)?.as_str())?;
        index.take(alloc, &name, &first).ok()?;
        Some(Bench {
            index,
            name,
            user: Address::parse(alloc, "alice@a.com").ok()?,
            deltas: deltas(alloc, &mut history, letters, count)?,
        })
    }

    fn take(&mut self, alloc: Global) -> Option<u64> {
        let delta = self.deltas.pop()?;
        self.index.take(alloc, &self.name, &delta).ok()?;
        Some(0)
    }

    fn search(&self, alloc: Global, word: &str) -> Option<u64> {
        let hits = self.index.search(alloc, &self.user, word).ok()?;
        Some(hits.len() as u64)
    }

    /// Does the work once, and gives the number of hits; None where a call is refused.
    pub fn once(&mut self, alloc: Global, work: &str) -> Option<u64> {
        if work == "search" {
            return self.search(alloc, "00007");
        }
        if work == "miss" {
            return self.search(alloc, "none");
        }
        self.take(alloc)
    }
}
