// What the bytes of a file stand for.
ghost use Rattle.std.specs.Prelude.{◌≡◌, ◌+◌, ◌^◌, ◌<◌, ◌≤◌, ℕ, [], ◌∷◌, ◌++◌, length, false, IfOk, IfErr, MatchOption, ◌≢◌};
ghost use Rattle.delta_journal.specs.File.{Closed, IsWhole, HasNoRecord, IsTornFrom, IsDamaged, header, framed, blocks};
ghost use Rattle.delta_journal.specs.Shape.{HasShape};
ghost use Rattle.delta_journal.specs.Stage.{front_at, shape_at, IsEmptyAt, HasBlock, is_unsure_at, least_length};
ghost use Rattle.delta_journal.specs.Stored.{bytes_of, StandFrom};
ghost use Rattle.delta_journal.specs.declared.fault.JournalFault.TheVariants.{Damaged, DiskFault};

use crate::stage::Stage;
use crate::{Bytes, JournalFault, Stored, StoredRecords};
use std::alloc::{AllocError, Global};

/// How far a file is, the place of the gate in question, and the records before it.
#[derive(Drop)]
pub(crate) struct Parsed {
    pub(crate) stage: Stage,
    pub(crate) place: u64,
    pub(crate) records: StoredRecords,
}

// The records of a file, and the place of the closed gate after them.
#[derive(Drop)]
struct Found {
    records: StoredRecords,
    place: u64,
}

// The bytes of a record after an open gate, and what follows, which begins with a gate.
fn record_in(rest: &[u8]) -> Option<(&[u8], &[u8])>
    ensures { MatchOption result (HasNoRecord rest.now) (λ r. (rest.now ≡ framed r.0.now ++ r.1.now) × (0 < length r.1.now)) }
{
    let [a, b, c, d, e, f, g, h, after @ ..] = rest else {
        return None;
    };
    let count = u64::from_be_bytes([*a, *b, *c, *d, *e, *f, *g, *h]);
    if after.len() as u64 <= count {
        return None;
    }
    Some(after.split_at(count as usize))
}

/// What stands after an open gate.
pub(crate) fn after_open(rest: &[u8]) -> Option<&[u8]>
    requires { 0 < length rest.now }
    ensures { MatchOption result (Closed [] rest.now) (λ behind. rest.now ≡ 1 ∷ behind.now) }
{
    match rest {
        [1, behind @ ..] => Some(behind),
        _ => None,
    }
}

// What stands after a header, where it is this one.
fn after_header<'a>(rest: &'a [u8], header: &[u8]) -> Option<&'a [u8]>
    ensures { MatchOption result (IsWhole header.now rest.now → ⊥) (λ r. (rest.now ≡ header.now ++ r.now) × (0 < length r.now)) }
{
    if rest.len() <= header.len() {
        return None;
    }
    let (front, next) = rest.split_at(header.len());
    if front != header {
        return None;
    }
    Some(next)
}

fn copy(alloc: Global, bytes: &[u8]) -> Result<Bytes, AllocError>
    ensures { IfOk result (λ copied. copied ≡ bytes.now) }
{
    let copied = bytes.to_vec(alloc)?;
    Ok(Bytes::new(copied))
}

// The records after a header, from the gate at `place` on.
fn records_in(alloc: Global, rest: &[u8], place: u64) -> Result<Found, JournalFault>
    requires some { 0 < length rest.now }
    requires small { place + length rest.now < 2 ^ 63 }
    ensures ok { IfOk result (λ found. Closed (blocks (bytes_of found.records)) rest.now) }
    ensures place { IfOk result (λ found. found.place ≡ place + length (blocks (bytes_of found.records))) }
    ensures gates { IfOk result (λ found. StandFrom place found.records) }
    ensures damaged { IfErr result (λ e. (offset : ℕ) → e ≡ Damaged offset → IsTornFrom place offset rest.now) }
    ensures no_fault { IfErr result (λ e. e ≢ DiskFault) }
{
    let mut records = StoredRecords::new(alloc);
    let mut place = place;
    let mut rest = rest;
    while let Some(behind) = after_open(rest) {
        let Some((bytes, next)) = record_in(behind) else {
            return Err(JournalFault::Damaged { offset: place });
        };
        let copied = copy(alloc, bytes)?;
        records.push(Stored {
            offset: place,
            bytes: copied,
        })?;
        place += 9 + bytes.len() as u64;
        rest = next;
    }
    Ok(Found { records, place })
}

/// What the bytes of a file stand for under a name, whose header is `spelled`.
pub(crate) fn parse(
    alloc: Global,
    name: &[u8],
    spelled: &[u8],
    file: &[u8],
) -> Result<Parsed, JournalFault>
    requires known { spelled.now ≡ header name.now }
    requires small { length file.now < 2 ^ 63 }
    ensures shape { IfOk result (λ p. HasShape (shape_at p.stage name.now (bytes_of p.records)) file.now) }
    ensures empty { IfOk result (λ p. IsEmptyAt p.stage (bytes_of p.records)) }
    ensures block { IfOk result (λ p. HasBlock p.stage) }
    ensures sure { IfOk result (λ p. is_unsure_at p.stage ≡ false) }
    ensures place { IfOk result (λ p. p.place ≡ length (front_at p.stage name.now (bytes_of p.records))) }
    ensures least { IfOk result (λ p. least_length p.stage p.place ≤ length file.now) }
    ensures gates { IfOk result (λ p. StandFrom (length (1 ∷ header name.now)) p.records) }
    ensures damaged { IfErr result (λ e. (offset : ℕ) → e ≡ Damaged offset → IsDamaged name.now offset file.now) }
    ensures no_fault { IfErr result (λ e. e ≢ DiskFault) }
{
    if file.len() < 2 {
        return Ok(Parsed {
            stage: Stage::Blank,
            place: 0,
            records: StoredRecords::new(alloc),
        });
    }
    let Some(behind) = after_open(file) else {
        return Ok(Parsed {
            stage: Stage::Shut,
            place: 0,
            records: StoredRecords::new(alloc),
        });
    };
    let Some(rest) = after_header(behind, spelled) else {
        return Err(JournalFault::Damaged { offset: 0 });
    };
    match records_in(alloc, rest, 1 + spelled.len() as u64) {
        Ok(found) => Ok(Parsed {
            stage: Stage::Headed,
            place: found.place,
            records: found.records,
        }),
        Err(fault) => Err(fault),
    }
}
