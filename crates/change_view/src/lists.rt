// Lists of changes, one at a time.
ghost use Rattle.std.specs.Prelude.{◌≡◌, map, true, Some, IfOk, OnOk};
ghost use Rattle.std.specs.FinMap as finite;
ghost use Rattle.std.specs.Str.{chars, encode_utf8_all, is_utf8};
ghost use Rattle.doc_items.specs.Maps.{pair_of};
ghost use Rattle.doc_items.specs.Changes.{IsAscending, turned};
ghost use Rattle.change_view.specs.Sets.{one_inserted, one_deleted, fresh};
ghost use Rattle.change_view.specs.Texts.{as_change};
ghost use Rattle.change_view.specs.Lists.{entry_of, of_change, inserted_entries, all_texts, all_fit, put_all, turned_entry, deleted_entry, fresh_entry};

use crate::entry::{ChangeRef, same_values};
use doc_items::{Change, Memory, Text, TextMap};
use std::alloc::Global;

/// The changes, borrowed.
pub(crate) fn borrowed(alloc: Global, changes: &[Change]) -> Result<Vec<ChangeRef<'_>>, Memory>
    ensures same { IfOk result (λ v. map entry_of v.items ≡ map of_change changes.now) }
    ensures texts { IfOk result (λ v. all_texts (map entry_of v.items) ≡ true) }
{
    let mut out = Vec::with_capacity(alloc, changes.len())?;
    for change in changes {
        out.push(ChangeRef::of(change))?;
    }
    Ok(out)
}

/// The keys of a map, each as absent before.
pub(crate) fn of_map(alloc: Global, texts: &TextMap) -> Result<Vec<ChangeRef<'_>>, Memory>
    ensures same { IfOk result (λ v. map entry_of v.items ≡ map fresh_entry (finite.entries texts.now)) }
    ensures texts { IfOk result (λ v. all_texts (map entry_of v.items) ≡ true) }
{
    let mut out = Vec::new(alloc);
    for (key, value) in texts.iter() {
        out.push(ChangeRef {
            key: key.as_str(),
            old: None,
            new: Some(value.as_str()),
        })?;
    }
    Ok(out)
}

/// Old and new exchanged in each.
pub(crate) fn turned<'a>(
    alloc: Global,
    list: &[ChangeRef<'a>],
) -> Result<Vec<ChangeRef<'a>>, Memory>
    ensures { IfOk result (λ v. map entry_of v.items ≡ map turned_entry (map entry_of list.now)) }
{
    let mut out = Vec::with_capacity(alloc, list.len())?;
    for change in list {
        out.push(change.turned())?;
    }
    Ok(out)
}

/// Those with a new value, as absent before.
pub(crate) fn inserted<'a>(
    alloc: Global,
    list: &[ChangeRef<'a>],
) -> Result<Vec<ChangeRef<'a>>, Memory>
    ensures { IfOk result (λ v. map entry_of v.items ≡ inserted_entries (map entry_of list.now)) }
{
    let mut out = Vec::new(alloc);
    for change in list {
        if change.new.is_some() {
            out.push(ChangeRef {
                key: change.key,
                old: None,
                new: change.new,
            })?;
        }
    }
    Ok(out)
}

/// Each as absent afterwards.
pub(crate) fn deleted<'a>(
    alloc: Global,
    list: &[ChangeRef<'a>],
) -> Result<Vec<ChangeRef<'a>>, Memory>
    ensures { IfOk result (λ v. map entry_of v.items ≡ map deleted_entry (map entry_of list.now)) }
{
    let mut out = Vec::with_capacity(alloc, list.len())?;
    for change in list {
        out.push(ChangeRef {
            key: change.key,
            old: change.old,
            new: None,
        })?;
    }
    Ok(out)
}

/// Whether the map has each old value.
pub(crate) fn fits(list: &[ChangeRef<'_>], texts: &TextMap) -> bool
    ensures { result ≡ all_fit (map entry_of list.now) texts.now }
{
    for change in list {
        if !same_values(change.old, texts.get(change.key)) {
            return false;
        }
    }
    true
}

/// Sets each new value. After want of memory some are set.
pub(crate) fn put(alloc: Global, list: &[ChangeRef<'_>], texts: &mut TextMap) -> Result<(), Memory>
    ensures { OnOk result (texts.new ≡ put_all (map entry_of list.now) texts.old) }
{
    for change in list {
        texts.set(alloc, change.key, change.new)?;
    }
    Ok(())
}

/// The changes with texts of their own.
pub(crate) fn owned(alloc: Global, list: &[ChangeRef<'_>]) -> Result<Vec<Change>, Memory>
    ensures { IfOk result (λ v. v.items ≡ map as_change (map entry_of list.now)) }
{
    let mut out = Vec::with_capacity(alloc, list.len())?;
    for change in list {
        out.push(change.to_change(alloc)?)?;
    }
    Ok(out)
}

/// The keys with texts of their own.
pub(crate) fn keys(alloc: Global, list: &[ChangeRef<'_>]) -> Result<Vec<Text>, Memory>
    ensures { IfOk result (λ v. v.items ≡ map chars (map (λ e. e.0) (map entry_of list.now))) }
{
    let mut out = Vec::with_capacity(alloc, list.len())?;
    for change in list {
        out.push(Text::from_str(alloc, change.key)?)?;
    }
    Ok(out)
}
