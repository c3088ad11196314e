// Journals over the disk in memory.
use crate::Fault;
use crate::text::{bytes_of, first_word, halves, number, put, put_digits, text_of};
use delta_journal::{Journal, JournalFault, Stored, StoredRecords, stored_name};
use disk_model::MemoryDisk;
use doc_items::Memory;
use std::alloc::Global;

const NAME: &str = "a.com/w1/a.com/conv+root";

// The first 37 bytes of a journal of that name.
const FRONT: &[u8] = b"\x01WAVEJNL1\0\0\0\x18a.com/w1/a.com/conv+root";

// A disk that doesn't fail.
fn sound(alloc: Global, bytes: Vec<u8>) -> MemoryDisk {
    MemoryDisk::new(alloc, bytes, Vec::new(alloc), None)
}

// The journal over a disk, and its records.
fn load(
    alloc: Global,
    disk: MemoryDisk,
) -> Result<(Journal<MemoryDisk>, StoredRecords), (MemoryDisk, JournalFault)> {
    match Journal::load(alloc, disk, NAME) {
        Ok(loaded) => Ok((loaded.journal, loaded.records)),
        Err(refused) => Err((refused.disk, refused.fault)),
    }
}

fn put_fault(alloc: Global, fault: JournalFault, out: &mut String) -> Result<(), Fault> {
    match fault {
        JournalFault::Memory => Err(Fault::Memory),
        JournalFault::DiskFault => Ok(put(out, "disk fault")?),
        JournalFault::Damaged { offset } => {
            let told = format!(in alloc; "damaged {offset}")?;
            Ok(put(out, told.as_str())?)
        }
    }
}

fn put_record(alloc: Global, record: &Stored, out: &mut String) -> Result<(), Fault> {
    let offset = format!(in alloc; "{} ", record.offset)?;
    put(out, offset.as_str())?;
    Ok(put_digits(alloc, out, record.bytes.as_slice())?)
}

fn put_records(alloc: Global, records: &StoredRecords, out: &mut String) -> Result<(), Fault> {
    put(out, "records")?;
    for record in records.copy(alloc)?.into_vec().as_slice() {
        put_record(alloc, record, out)?;
    }
    Ok(())
}

/// `journal DIGITS`: the records that a file stands for, each after its offset, or where it is damaged.
pub(crate) fn journal(alloc: Global, digits: &str, out: &mut String) -> Result<(), Fault> {
    let disk = sound(alloc, bytes_of(alloc, digits)?);
    match load(alloc, disk) {
        Ok((_, records)) => put_records(alloc, &records, out),
        Err((_, fault)) => put_fault(alloc, fault, out),
    }
}

fn put_name(found: &Option<Vec<u8>>, out: &mut String) -> Result<(), Fault> {
    match found {
        Some(name) => Ok(put(out, text_of(name.as_slice())?)?),
        None => Ok(put(out, "none")?),
    }
}

/// `stored_name DIGITS`: the name that a file tells, or where it is damaged.
pub(crate) fn name(alloc: Global, digits: &str, out: &mut String) -> Result<(), Fault> {
    let mut disk = sound(alloc, bytes_of(alloc, digits)?);
    match stored_name(alloc, &mut disk) {
        Ok(found) => put_name(&found, out),
        Err(fault) => put_fault(alloc, fault, out),
    }
}

// The records of digits, apart by spaces.
fn records(alloc: Global, words: &str) -> Result<Vec<Vec<u8>>, Fault> {
    let mut all = Vec::new(alloc);
    for digits in words.split(' ') {
        all.push(bytes_of(alloc, digits)?)?;
    }
    Ok(all)
}

// Adds the records after the first `from`, until a call fails: how many there are then.
fn append_from(
    alloc: Global,
    journal: &mut Journal<MemoryDisk>,
    records: &[Vec<u8>],
    from: usize,
) -> usize {
    for (place, record) in records.iter().enumerate() {
        if place >= from
            && (journal.needs_repair() || journal.append(alloc, record.as_slice()).is_err())
        {
            return place;
        }
    }
    records.len()
}

fn are_first(found: &StoredRecords, records: &[Vec<u8>]) -> bool {
    for (one, wanted) in found.as_slice().iter().zip(records) {
        if one.bytes.as_slice() != wanted.as_slice() {
            return false;
        }
    }
    found.as_slice().len() <= records.len()
}

// How many records a file stands for, where they are the first ones of these.
fn survivors(
    alloc: Global,
    file: Vec<u8>,
    records: &[Vec<u8>],
) -> Result<Option<usize>, JournalFault> {
    match load(alloc, sound(alloc, file)) {
        Ok((_, found)) => {
            if are_first(&found, records) {
                Ok(Some(found.as_slice().len()))
            } else {
                Ok(None)
            }
        }
        Err((_, fault)) => Err(fault),
    }
}

// The disk after these records were added, where it is read.
fn appended(
    alloc: Global,
    disk: MemoryDisk,
    records: &[Vec<u8>],
) -> Result<MemoryDisk, JournalFault> {
    match load(alloc, disk) {
        Ok((mut journal, _)) => {
            append_from(alloc, &mut journal, records, 0);
            Ok(journal.close())
        }
        Err((_, fault)) => Err(fault),
    }
}

/// `append DIGITS | RECORD ..`: the file once these records were added.
pub(crate) fn append(alloc: Global, rest: &str, out: &mut String) -> Result<(), Fault> {
    let (digits, words) = halves(rest);
    let records = records(alloc, words)?;
    let disk = sound(alloc, bytes_of(alloc, digits)?);
    match appended(alloc, disk, records.as_slice()) {
        Ok(disk) => {
            put(out, "")?;
            Ok(put_digits(alloc, out, disk.image(alloc, 0)?.as_slice())?)
        }
        Err(fault) => put_fault(alloc, fault, out),
    }
}

// Whether a file takes all records.
fn takes_all(alloc: Global, file: Vec<u8>, records: &[Vec<u8>]) -> Result<bool, Fault> {
    let Ok(disk) = appended(alloc, sound(alloc, file), records) else {
        return Ok(false);
    };
    let left = disk.image(alloc, 0)?;
    Ok(survivors(alloc, left, records) == Ok(Some(records.len())))
}

fn with_gate(alloc: Global, front: &[u8], gate: u8, rest: &[u8]) -> Result<Vec<u8>, Memory> {
    let mut file = Vec::from_slice(alloc, front)?;
    file.extend_from_slice(&[gate])?;
    file.extend_from_slice(rest)?;
    Ok(file)
}

// Whether files whose header's gate, or first record's gate, is this byte take all records.
fn gate_is_closed(alloc: Global, gate: u8, records: &[Vec<u8>]) -> Result<bool, Fault> {
    let headless = with_gate(alloc, b"", gate, b"WAVEJNL1 and so on")?;
    let headed = with_gate(alloc, FRONT, gate, b"")?;
    Ok(takes_all(alloc, headless, records)? && takes_all(alloc, headed, records)?)
}

/// `closed_gates RECORD ..`: how many of the bytes that aren't 1 are closed gates, after which all records are taken.
pub(crate) fn closed_gates(alloc: Global, words: &str, out: &mut String) -> Result<(), Fault> {
    let records = records(alloc, words)?;
    let mut count = 0u64;
    for gate in 0..=255u8 {
        if gate != 1 && gate_is_closed(alloc, gate, records.as_slice())? {
            count = count.saturating_add(1);
        }
    }
    let told = format!(in alloc; "{count} gates")?;
    Ok(put(out, told.as_str())?)
}

// A disk that stops at this call, and how many records were acknowledged on it.
fn stopped(alloc: Global, stop: u64, records: &[Vec<u8>]) -> (MemoryDisk, usize) {
    let disk = MemoryDisk::new(alloc, Vec::new(alloc), Vec::new(alloc), Some(stop));
    match load(alloc, disk) {
        Ok((mut journal, _)) => {
            let acknowledged = append_from(alloc, &mut journal, records, 0);
            (journal.close(), acknowledged)
        }
        Err((disk, _)) => (disk, 0),
    }
}

// Whether an image has the acknowledged records, and at most one more.
fn image_has(
    alloc: Global,
    disk: &MemoryDisk,
    choice: u64,
    acknowledged: usize,
    records: &[Vec<u8>],
) -> Result<bool, Fault> {
    let image = disk.image(alloc, choice)?;
    Ok(match survivors(alloc, image, records) {
        Ok(Some(found)) => found >= acknowledged && found - acknowledged <= 1,
        _ => false,
    })
}

fn put_stop(alloc: Global, stop: u64, records: &[Vec<u8>], out: &mut String) -> Result<(), Fault> {
    let (disk, acknowledged) = stopped(alloc, stop, records);
    let kept = image_has(alloc, &disk, 0, acknowledged, records)?
        && image_has(alloc, &disk, 1, acknowledged, records)?;
    let told = if kept {
        format!(in alloc; " {acknowledged}")?
    } else {
        String::from_str(alloc, " lost")?
    };
    Ok(out.push_str(told.as_str())?)
}

/// `journal_stops CALLS | RECORD ..`: how many records are acknowledged where the disk stops at each of so many calls; `lost` where one of
/// two images hasn't them, or more than one more.
pub(crate) fn stops(alloc: Global, rest: &str, out: &mut String) -> Result<(), Fault> {
    let (calls, words) = halves(rest);
    let records = records(alloc, words)?;
    put(out, "acknowledged")?;
    for stop in 0..number(calls)? {
        put_stop(alloc, stop, records.as_slice(), out)?;
    }
    Ok(())
}

// What a fault at one call leaves: how many records were acknowledged, and whether a repair is pending.
fn faulty(
    alloc: Global,
    failing: Vec<u64>,
    records: &[Vec<u8>],
) -> Result<(Journal<MemoryDisk>, usize, bool), JournalFault> {
    let disk = MemoryDisk::new(alloc, Vec::new(alloc), failing, None);
    match load(alloc, disk) {
        Ok((mut journal, _)) => {
            let acknowledged = append_from(alloc, &mut journal, records, 0);
            let pending = journal.needs_repair();
            Ok((journal, acknowledged, pending))
        }
        Err((_, fault)) => Err(fault),
    }
}

fn file_of(alloc: Global, disk: &MemoryDisk) -> Result<Vec<u8>, JournalFault> {
    Ok(disk.image(alloc, 0)?)
}

// How many records there are once the rest was added to what a repaired journal left.
fn whole(
    alloc: Global,
    disk: MemoryDisk,
    from: usize,
    records: &[Vec<u8>],
) -> Result<Option<usize>, JournalFault> {
    match load(alloc, disk) {
        Ok((mut journal, _)) => {
            append_from(alloc, &mut journal, records, from);
            let disk = journal.close();
            survivors(alloc, file_of(alloc, &disk)?, records)
        }
        Err((_, fault)) => Err(fault),
    }
}

// Whether a repair is pending, the records after it, and those after all were added.
fn repaired(
    alloc: Global,
    failing: Vec<u64>,
    records: &[Vec<u8>],
) -> Result<(bool, Option<usize>, Option<usize>), JournalFault> {
    let (mut journal, acknowledged, pending) = faulty(alloc, failing, records)?;
    journal.repair()?;
    let disk = journal.close();
    let kept = survivors(alloc, file_of(alloc, &disk)?, records)?;
    let whole = whole(alloc, disk, acknowledged, records)?;
    Ok((pending, kept, whole))
}

fn put_repair(
    alloc: Global,
    call: u64,
    records: &[Vec<u8>],
    out: &mut String,
) -> Result<(), Fault> {
    let failing = Vec::from_slice(alloc, &[call])?;
    match repaired(alloc, failing, records) {
        Ok((pending, Some(kept), Some(whole))) => {
            let word = if pending { "repaired" } else { "as it was" };
            let told = format!(in alloc; "{word} {kept} {whole}")?;
            Ok(put(out, told.as_str())?)
        }
        Ok(_) => Ok(put(out, "lost")?),
        Err(fault) => put_fault(alloc, fault, out),
    }
}

/// `journal_repairs FIRST LAST | RECORD ..`: what a fault at each of these calls leaves: whether a repair is pending, how many
/// records there are after it, and how many once the rest is added.
pub(crate) fn repairs(alloc: Global, rest: &str, out: &mut String) -> Result<(), Fault> {
    let (calls, words) = halves(rest);
    let (first, last) = first_word(calls);
    let records = records(alloc, words)?;
    for call in number(first)?..=number(last)? {
        put_repair(alloc, call, records.as_slice(), out)?;
    }
    Ok(())
}
