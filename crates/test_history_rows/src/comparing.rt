// Drawn histories in an index: `index-drawn SEED DELTAS`. So many deltas of two wavelets are drawn and taken. After each of them the
// inboxes of two users, and their searches for each word of the documents before and after it, are compared with what is computed
// anew. Printed are the numbers of deltas, of inboxes and of searches that were compared, and how many of these differ.
use crate::drawn::drawn_delta;
use crate::draws::Draws;
use crate::fault::Fault;
use crate::plain;
use crate::showing::{shown_hits, shown_lines};
use delta_history::History;
use doc_items::Memory;
use std::alloc::Global;
use test_row_words::{number, words};
use wave_base::{Address, WaveletName};
use wave_index::{Index, Marks};
use wavelet_state::WaveletState;

// How many answers were compared, and how many of them weren't alike.
#[derive(Drop)]
struct Counts {
    inboxes: u64,
    searches: u64,
    differ: u64,
}

// An index with the histories that it took, in byte order of their names.
struct Taken {
    index: Index,
    marks: Marks,
    histories: Vec<History>,
}

impl Drop for Taken {
    fn drop(self) {
        let Taken {
            index: _index,
            marks: _marks,
            histories: _histories,
        } = self;
    }
}

fn empty(alloc: Global, name: &str) -> Result<History, Fault> {
    Ok(History::new(alloc, WaveletName::parse(alloc, name)?))
}

// Puts the words of a document that aren't there yet after the others.
fn put_new(words: &mut Vec<String>, others: Vec<String>) -> Result<(), Memory> {
    for word in others {
        if !words.contains(&word) {
            words.push(word)?;
        }
    }
    Ok(())
}

// Puts the words of a state's documents after the others.
fn put_words(alloc: Global, state: &WaveletState, words: &mut Vec<String>) -> Result<(), Memory> {
    for name in state.document_names(alloc)?.as_slice() {
        if let Some(document) = state.document(alloc, name)? {
            put_new(words, plain::words_of(alloc, &document)?)?;
        }
    }
    Ok(())
}

impl Taken {
    fn new(alloc: Global) -> Result<Taken, Fault> {
        let mut histories = Vec::new(alloc);
        histories.push(empty(alloc, "a.com/w1/a.com/conv+root")?)?;
        histories.push(empty(alloc, "a.com/w2/a.com/conv+root")?)?;
        Ok(Taken {
            index: Index::new(alloc),
            marks: Marks::new(alloc),
            histories,
        })
    }

    fn has_same_inbox(&self, alloc: Global, user: &Address) -> Result<bool, Fault> {
        let lines = self.index.inbox(alloc, user, &self.marks)?;
        let answer = shown_lines(alloc, lines.as_slice())?;
        let plain = plain::inbox(alloc, self.histories.as_slice(), user, &self.marks)?;
        Ok(answer.as_str() == plain.as_str())
    }

    fn has_same_hits(&self, alloc: Global, user: &Address, word: &str) -> Result<bool, Fault> {
        let hits = self.index.search(alloc, user, word)?;
        let answer = shown_hits(alloc, hits.as_slice())?;
        let plain = plain::search(alloc, self.histories.as_slice(), user, word)?;
        Ok(answer.as_str() == plain.as_str())
    }

    // Draws and takes a delta of one of the wavelets, and gives the words of its documents before and after.
    fn take(&mut self, alloc: Global, draws: &mut Draws) -> Result<Vec<String>, Fault> {
        let place = draws.below(2) as usize;
        let Some(history) = self.histories.get_mut(place) else {
            return Err(Fault::Row);
        };
        let mut words = Vec::new(alloc);
        put_words(alloc, history.state(), &mut words)?;
        let delta = drawn_delta(alloc, draws, history)?;
        self.index.take(alloc, history.name(), &delta)?;
        history.push_applied(alloc, delta)?;
        if draws.below(4) == 0 {
            let version = draws.below(history.head().version);
            self.marks.set(alloc, history.name(), version)?;
        }
        put_words(alloc, history.state(), &mut words)?;
        Ok(words)
    }
}

impl Counts {
    fn count(&mut self, alike: bool) {
        if !alike {
            self.differ = self.differ.wrapping_add(1);
        }
    }

    fn compare(
        &mut self,
        alloc: Global,
        taken: &Taken,
        user: &Address,
        words: &[String],
    ) -> Result<(), Fault> {
        self.count(taken.has_same_inbox(alloc, user)?);
        self.inboxes = self.inboxes.wrapping_add(1);
        for word in words {
            self.count(taken.has_same_hits(alloc, user, word.as_str())?);
            self.searches = self.searches.wrapping_add(1);
        }
        Ok(())
    }
}

fn compared(alloc: Global, seed: u64, deltas: u64) -> Result<Counts, Fault> {
    let mut draws = Draws::new(seed);
    let mut taken = Taken::new(alloc)?;
    let alice = Address::parse(alloc, "alice@a.com")?;
    let bob = Address::parse(alloc, "bob@a.com")?;
    let mut counts = Counts {
        inboxes: 0,
        searches: 0,
        differ: 0,
    };
    for _ in 0..deltas {
        let words = taken.take(alloc, &mut draws)?;
        counts.compare(alloc, &taken, &alice, words.as_slice())?;
        counts.compare(alloc, &taken, &bob, words.as_slice())?;
    }
    Ok(counts)
}

/// The answer to `index-drawn`.
pub fn call(alloc: Global, verb: &str, rest: &str, out: &mut String) -> Result<bool, Fault> {
    if verb != "index-drawn" {
        return Ok(false);
    }
    let (seed, deltas) = words(rest);
    let counts = compared(alloc, number(seed), number(deltas))?;
    let Counts {
        inboxes,
        searches,
        differ,
    } = counts;
    write!(
        out,
        " => {deltas} deltas => {inboxes} inboxes => {searches} searches => {differ} differ"
    )?;
    Ok(true)
}
