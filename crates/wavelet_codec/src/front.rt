// Numbers, texts and names at the front of bytes, and the bytes after them.
ghost use Rattle.std.specs.Prelude.{◌≤◌, IfOk};
ghost use Rattle.std.specs.Int.{w32, w64};
ghost use Rattle.doc_items.specs.Limits.{max_count};
ghost use Rattle.op_codec.specs.Reading.{Gives, number_at, string_at, key_at};
ghost use Rattle.wavelet_codec.specs.Reading.{count_at, address_at, document_at};

use doc_items::MAX_COUNT;
use op_codec::CodecFault;
use std::alloc::Global;
use wave_base::{Address, BaseFault, DocumentName};

/// The number that four bytes are.
pub(crate) fn length_at(bytes: &[u8]) -> Result<(u32, &[u8]), CodecFault>
    ensures { Gives (λ r. (r.0, r.1.now)) result (number_at w32 bytes.now) }
{
    if bytes.len() < 4 {
        return Err(CodecFault::BadBytes);
    }
    let (front, rest) = bytes.split_at(4);
    let number = u32::from_be_bytes([front[0], front[1], front[2], front[3]]);
    Ok((number, rest))
}

fn number_at(bytes: &[u8]) -> Result<(u64, &[u8]), CodecFault>
    ensures { Gives (λ r. (r.0, r.1.now)) result (number_at w64 bytes.now) }
{
    if bytes.len() < 8 {
        return Err(CodecFault::BadBytes);
    }
    let (front, rest) = bytes.split_at(8);
    let number = u64::from_be_bytes([
        front[0], front[1], front[2], front[3], front[4], front[5], front[6], front[7],
    ]);
    Ok((number, rest))
}

/// A number of at most 2^53 - 1.
#[tactic(auto, unfolding(crate::specs::Reading::count_at))]
pub(crate) fn count_at(bytes: &[u8]) -> Result<(u64, &[u8]), CodecFault>
    ensures read { Gives (λ r. (r.0, r.1.now)) result (count_at bytes.now) }
    ensures bound { IfOk result (λ r. r.0 ≤ max_count) }
{
    let (number, rest) = number_at(bytes)?;
    if number > MAX_COUNT {
        return Err(CodecFault::BadBytes);
    }
    Ok((number, rest))
}

#[tactic(auto, unfolding(op_codec::specs::Reading::string_at))]
fn string_at(bytes: &[u8]) -> Result<(&[u8], &[u8]), CodecFault>
    ensures { Gives (λ r. (r.0.now, r.1.now)) result (string_at bytes.now) }
{
    let (len, rest) = length_at(bytes)?;
    let len = len as usize;
    if rest.len() < len {
        return Err(CodecFault::BadBytes);
    }
    Ok(rest.split_at(len))
}

#[tactic(auto, using(op_codec::proofs::Texts::is_text, op_codec::proofs::Texts::no_text), unfolding(op_codec::specs::Reading::key_at))]
fn key_at(bytes: &[u8]) -> Result<(&str, &[u8]), CodecFault>
    ensures { Gives (λ r. (r.0.now, r.1.now)) result (key_at bytes.now) }
{
    let (key, rest) = string_at(bytes)?;
    match str::from_utf8(key) {
        Ok(key) => Ok((key, rest)),
        Err(_) => Err(CodecFault::BadBytes),
    }
}

/// A text in the grammar of addresses.
#[tactic(auto, unfolding(crate::specs::Reading::address_at))]
pub(crate) fn address_at(alloc: Global, bytes: &[u8]) -> Result<(Address, &[u8]), CodecFault>
    ensures { Gives (λ r. (r.0, r.1.now)) result (address_at bytes.now) }
{
    let (text, rest) = key_at(bytes)?;
    match Address::parse(alloc, text) {
        Ok(address) => Ok((address, rest)),
        Err(BaseFault::BadAddress) => Err(CodecFault::BadBytes),
        Err(BaseFault::BadName) => Err(CodecFault::BadBytes),
        Err(BaseFault::Memory) => Err(CodecFault::Memory),
    }
}

/// A text in the grammar of names of documents.
#[tactic(auto, unfolding(crate::specs::Reading::document_at))]
pub(crate) fn document_at(alloc: Global, bytes: &[u8]) -> Result<(DocumentName, &[u8]), CodecFault>
    ensures { Gives (λ r. (r.0, r.1.now)) result (document_at bytes.now) }
{
    let (text, rest) = key_at(bytes)?;
    match DocumentName::parse(alloc, text) {
        Ok(name) => Ok((name, rest)),
        Err(BaseFault::BadAddress) => Err(CodecFault::BadBytes),
        Err(BaseFault::BadName) => Err(CodecFault::BadBytes),
        Err(BaseFault::Memory) => Err(CodecFault::Memory),
    }
}
