// Deltas of a history, by their bytes.
ghost use Rattle.std.specs.Prelude.{◌≡◌, ◌<◌, length, Some, IfOk};
ghost use Rattle.serde_json.specs.View.{view};
ghost use Rattle.op_codec.specs.Spelling.{limit};
ghost use Rattle.json_fields.specs.Read.{bytes_of};
ghost use Rattle.json_fields.specs.Write.{bytes_data};
ghost use Rattle.wavelet_codec.specs.Spelling.{delta_bytes, IsDelta};
ghost use Rattle.wavelet_codec.specs.Reading.{delta_at as delta_read};
ghost use Rattle.wavelet_json.specs.Deltas.{at_version, delta_of};

use doc_items::Memory;
use json_fields::{bytes_at, bytes_value, version_at};
use op_codec::CodecFault;
use serde_json::Value;
use std::alloc::{AllocError, Global};
use wave_base::HashedVersion;
use wavelet_codec::{read_applied, write_applied};
use wavelet_op::AppliedDelta;

// The delta whose bytes these are, where the hash is this one.
#[tactic(auto, using(crate::proofs::Deltas::is_read, crate::proofs::Deltas::is_none))]
fn delta_of_bytes(
    alloc: Global,
    bytes: &[u8],
    hash: &[u8; 32],
) -> Result<Option<AppliedDelta>, Memory>
    ensures { IfOk result (λ delta. delta ≡ delta_read hash.now bytes.now) }
{
    match read_applied(alloc, bytes, hash) {
        Ok(delta) => Ok(Some(delta)),
        Err(CodecFault::BadBytes) => Ok(None),
        Err(CodecFault::Memory) => Err(AllocError),
    }
}

// The delta whose bytes these are, where it was applied there.
fn delta_from(
    alloc: Global,
    bytes: &[u8],
    from: HashedVersion,
) -> Result<Option<AppliedDelta>, Memory>
    ensures { IfOk result (λ delta. delta ≡ at_version from.version (delta_read from.hash bytes.now)) }
{
    let Some(delta) = delta_of_bytes(alloc, bytes, &from.hash)? else {
        return Ok(None);
    };
    if delta.from.version == from.version {
        Ok(Some(delta))
    } else {
        Ok(None)
    }
}

/// The delta in the members `delta`, `version` and `hash`: its bytes in base64, and where it was applied; None exactly where none
/// stands there, or one that was applied at another version. The error is want of memory.
pub fn delta_at(alloc: Global, value: &Value) -> Result<Option<AppliedDelta>, Memory>
    ensures { IfOk result (λ delta. delta ≡ delta_of (view value.now)) }
{
    let Some(from) = version_at(alloc, value)? else {
        return Ok(None);
    };
    let Some(bytes) = bytes_at(alloc, value, "delta")? else {
        return Ok(None);
    };
    delta_from(alloc, bytes.as_slice(), from)
}

#[tactic(auto, using(crate::proofs::Deltas::is_read))]
fn encoded(alloc: Global, delta: &AppliedDelta, bytes: &[u8]) -> Result<Value, Memory>
    requires bytes { bytes.now ≡ delta_bytes delta.now }
    requires is { IsDelta delta.now }
    ensures value { IfOk result (λ v. view v ≡ bytes_data (delta_bytes delta.now)) }
    ensures whole { IfOk result (λ v. bytes_of (bytes_data (delta_bytes delta.now)) ≡ Some (delta_bytes delta.now)) }
    ensures back { delta_read delta.now.from.hash (delta_bytes delta.now) ≡ Some delta.now }
{
    bytes_value(alloc, bytes)
}

/// The bytes of a delta, which are fewer than 4,294,967,296, in base64, as they are read. The error is want of memory.
pub fn delta_value(alloc: Global, delta: &AppliedDelta) -> Result<Value, Memory>
    requires { length (delta_bytes delta.now) < limit }
    ensures value { IfOk result (λ v. view v ≡ bytes_data (delta_bytes delta.now)) }
    ensures whole { IfOk result (λ v. bytes_of (bytes_data (delta_bytes delta.now)) ≡ Some (delta_bytes delta.now)) }
    ensures back { IfOk result (λ v. delta_read delta.now.from.hash (delta_bytes delta.now) ≡ Some delta.now) }
{
    let mut bytes = Vec::new(alloc);
    write_applied(alloc, delta, &mut bytes)?;
    encoded(alloc, delta, bytes.as_slice())
}
