// The hosted wavelets that are looked at for a peer.
ghost use Rattle.std.specs.Prelude.{◌≡◌, ◌≢◌, ◌-◌, ◌≤◌, ℕ, [], true, length, map, drop, IfOk, IfSome, OnOk};
ghost use Rattle.wavelet_shelf.specs.Hosting.{names_of};
ghost use Rattle.wavelet_shelf.specs.Shelves.{hosted_of};
ghost use Rattle.hosted_copies.specs.Domains.{hosted_by};
ghost use Rattle.shard_marks.specs.Told.{name_put, with_published, published};
ghost use Rattle.session_hub.specs.Published.{IsSpot, AreLookedAt};
ghost use Rattle.session_hub.specs.Records.{mark_of};

use crate::record::Record;
use doc_items::Memory;
use hosted_copies::{HostedCopies, is_hosted_by};
use session_core::Session;
use std::alloc::Global;
use std::cmp::Ordering;
use wave_base::{Domain, WaveletName};
use wave_outside::Folder;

/// Where more records than these came since, all that is hosted is looked at.
const MOST: usize = 256;

/// Where a name stands among others in byte order.
#[derive(Clone, Copy)]
pub(crate) enum Spot {
    /// It is one of them.
    Here,
    /// It would stand before the one at this place, or after all where the place is their number.
    Before(usize),
}

// The spot of a name among others in byte order.
fn spot_of(names: &[&WaveletName], name: &WaveletName) -> Spot
    ensures spot { IsSpot (map (λ n. n.now) names.now) name.now result }
    ensures within { (i : ℕ) → result ≡ Spot.Before i → i ≤ length names.now }
{
    for place in 0..names.len() {
        match name.cmp(names[place]) {
            Ordering::Less => return Spot::Before(place),
            Ordering::Equal => return Spot::Here,
            Ordering::Greater => {}
        }
    }
    Spot::Before(names.len())
}

// Puts a name among others in byte order, once. The error is want of memory, here and below.
fn put_name<'a>(names: &mut Vec<&'a WaveletName>, name: &'a WaveletName) -> Result<(), Memory>
    ensures { OnOk result (map (λ n. n.now) names.new.items ≡ name_put name.entry.now (map (λ n. n.now) names.old.items)) }
{
    match spot_of(names.as_slice(), name) {
        Spot::Here => Ok(()),
        Spot::Before(place) => {
            names.insert(place, name)?;
            Ok(())
        }
    }
}

// Puts the name of a record among others, where its wavelet is hosted and grew. False where the record doesn't name it.
fn put_record<'a>(
    domain: &Domain,
    kept: &'a Record,
    names: &mut Vec<&'a WaveletName>,
) -> Result<bool, Memory>
    ensures { IfOk result (λ b. b ≡ true
        → map (λ n. n.now) names.new.items ≡ with_published domain.now (map (λ n. n.now) names.old.items) (mark_of kept.entry.now)) }
{
    match kept {
        Record::Loaded { .. } => Ok(false),
        Record::Applied { name, .. } => {
            if is_hosted_by(domain, name) {
                put_name(names, name)?;
            }
            Ok(true)
        }
        Record::Fault { .. } => Ok(true),
        Record::Queued { .. } => Ok(true),
        Record::Answered { .. } => Ok(true),
        Record::Dropped { .. } => Ok(true),
    }
}

// The names that were published from a record on. None where a record doesn't name its wavelet.
fn named_from<'a>(
    alloc: Global,
    domain: &Domain,
    records: &'a [Record],
    from: usize,
) -> Result<Option<Vec<&'a WaveletName>>, Memory>
    ensures { IfOk result (λ o. IfSome o (λ v. map (λ n. n.now) v.items
        ≡ published domain.now [] (map mark_of (drop from records.entry.now)))) }
{
    let mut names = Vec::new(alloc);
    for index in from..records.len() {
        if !put_record(domain, &records[index], &mut names)? {
            return Ok(None);
        }
    }
    Ok(Some(names))
}

// The names of all that is hosted, in byte order.
fn hosted_names<'a, F: Folder>(
    alloc: Global,
    hosted: &HostedCopies<'a, F>,
) -> Result<Vec<&'a WaveletName>, Memory>
    ensures { IfOk result (λ v. map (λ n. n.now) v.items ≡ names_of (hosted_by hosted.now.domain.now (hosted_of hosted.now.shelf.now))) }
{
    let mut names = Vec::new(alloc);
    for place in 0..hosted.count() {
        if let Some(history) = hosted.history(place) {
            names.push(history.name())?;
        }
    }
    Ok(names)
}

// The names that a shard of these records published since it had so many marks. None where there are too many, or it isn't known.
fn published_since<'a>(
    alloc: Global,
    domain: &Domain,
    records: &'a [Record],
    sent: u64,
) -> Result<Option<Vec<&'a WaveletName>>, Memory>
    ensures { IfOk result (λ o. IfSome o (λ v. (sent ≢ 0) × (map (λ n. n.now) v.items
        ≡ published domain.now [] (map mark_of (drop (sent - 1) records.entry.now))))) }
{
    if sent == 0 {
        return Ok(None);
    }
    let from = (sent - 1) as usize;
    if records.len().saturating_sub(from) > MOST {
        return Ok(None);
    }
    named_from(alloc, domain, records, from)
}

/// The names that are looked at for a session: none unless it is a peer's, then those that the shard of these records published
/// since it had so many marks, or else all that is hosted.
pub(crate) fn names_for<'a, F: Folder>(
    alloc: Global,
    hosted: &HostedCopies<'a, F>,
    records: &'a [Record],
    session: &Session,
    sent: u64,
) -> Result<Vec<&'a WaveletName>, Memory>
    ensures { IfOk result (λ v. AreLookedAt hosted.now.domain.now
        (hosted_by hosted.now.domain.now (hosted_of hosted.now.shelf.now)) records.entry.now
        session.now sent (map (λ n. n.now) v.items)) }
{
    if !session.has_peer() {
        return Ok(Vec::new(alloc));
    }
    match published_since(alloc, hosted.domain, records, sent)? {
        Some(names) => Ok(names),
        None => hosted_names(alloc, hosted),
    }
}
