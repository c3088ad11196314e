// An index of copies.
ghost use Rattle.std.specs.Prelude.{◌≡◌, ◌++◌, ◌∷◌, [], map, IfOk, OnOk};
ghost use Rattle.std.specs.FinMap as finite;
ghost use Rattle.delta_history.specs.Copying.{AreAscending};
ghost use Rattle.delta_history.specs.Histories.{head_of};
ghost use Rattle.delta_history.specs.Legal.{IsLegal};
ghost use Rattle.wave_index.specs.Taken.{deltas_in, history_in, with_delta};
ghost use Rattle.inbox_machine.specs.Indexing.{deltas_of, with_deltas, with_all, indexed};

use delta_history::{Copies, History, HistoryFault};
use doc_items::Memory;
use std::alloc::{AllocError, Global};
use wave_base::WaveletName;
use wave_index::Index;
use wavelet_op::AppliedDelta;

// The names that are hosted, in byte order.
fn names_of<'a, C: Copies>(alloc: Global, copies: &'a C) -> Result<Vec<&'a WaveletName>, Memory>
    ensures names { IfOk result (λ v. map (λ n. n.now) v.items ≡ C.hosts copies.entry.now) }
    ensures ascending { AreAscending (C.hosts copies.entry.now) }
{
    let mut names = Vec::new(alloc);
    while let Some(name) = copies.hosted(names.len() as u64) {
        names.push(name)?;
    }
    Ok(names)
}

// Takes the next delta of a legal history.
fn take_next(
    alloc: Global,
    index: &mut Index,
    name: &WaveletName,
    delta: &AppliedDelta,
) -> Result<(), Memory>
    requires next { delta.now.from ≡ (head_of (history_in index.old name.now)).at }
    requires legal { IsLegal name.now (deltas_in index.old name.now ++ delta.now ∷ []) }
    ensures { OnOk result (index.new ≡ with_delta index.old name.now delta.now) }
{
    match index.take(alloc, name, delta) {
        Ok(()) => Ok(()),
        Err(HistoryFault::Memory) => Err(AllocError),
        Err(HistoryFault::NotNext { .. }) => unreachable!(),
        Err(HistoryFault::NotLegal) => unreachable!(),
    }
}

// Takes the deltas of a history, of which the index has none.
fn take_history(alloc: Global, index: &mut Index, history: &History) -> Result<(), Memory>
    requires { deltas_in index.old history.now.name ≡ [] }
    ensures { OnOk result (index.new ≡ with_deltas index.old history.now.name history.now.deltas) }
{
    let name = history.name();
    for delta in history.deltas() {
        take_next(alloc, index, name, delta)?;
    }
    Ok(())
}

// Takes the deltas of the copy of a name, of which the index has none.
fn take_copy<C: Copies>(
    alloc: Global,
    copies: &C,
    name: &WaveletName,
    index: &mut Index,
) -> Result<(), Memory>
    requires { deltas_in index.old name.now ≡ [] }
    ensures { OnOk result (index.new ≡ with_deltas index.old name.now (deltas_of (C.copies copies.now name.now))) }
{
    match copies.copy_of(name) {
        Some(history) => take_history(alloc, index, history),
        None => Ok(()),
    }
}

// Takes the deltas of the copies of these names into an index that has none.
fn take_copies<C: Copies>(
    alloc: Global,
    copies: &C,
    names: &[&WaveletName],
    index: &mut Index,
) -> Result<(), Memory>
    requires empty { index.old ≡ finite.empty }
    requires ascending { AreAscending (map (λ n. n.now) names.now) }
    ensures { OnOk result (index.new ≡ indexed (map (λ n. n.now) names.now) (λ n. deltas_of (C.copies copies.now n))) }
{
    for name in names {
        take_copy(alloc, copies, name, index)?;
    }
    Ok(())
}

/// An index of the copies of all names that are hosted. The error is want of memory.
pub(crate) fn index_of<C: Copies>(alloc: Global, copies: &C) -> Result<Index, Memory>
    ensures { IfOk result (λ i. i ≡ indexed (C.hosts copies.now) (λ n. deltas_of (C.copies copies.now n))) }
{
    let names = names_of(alloc, copies)?;
    let mut index = Index::new(alloc);
    take_copies(alloc, copies, names.as_slice(), &mut index)?;
    Ok(index)
}
