// Deltas as whole bytes.
ghost use Rattle.std.specs.Prelude.{◌≡◌, IfOk, IfErr, MatchResult};
ghost use Rattle.op_codec.specs.declared.fault.CodecFault.TheVariants.{Memory};
ghost use Rattle.op_codec.specs.Reading.{Gives};
ghost use Rattle.wavelet_op.specs.Deltas.{DeltaOf};
ghost use Rattle.wavelet_codec.specs.Spelling.{delta_bytes, IsDelta, IsRefused};
ghost use Rattle.wavelet_codec.specs.Reading.{id_at, tagged_delta_at, delta_at};

use crate::format::format;
use crate::front::{address_at, count_at};
use crate::operation::ops_at;
use op_codec::CodecFault;
use std::alloc::Global;
use wave_base::{DeltaId, HashedVersion};
use wavelet_op::AppliedDelta;

#[tactic(auto, unfolding(crate::specs::Reading::id_at))]
fn id_at(alloc: Global, bytes: &[u8]) -> Result<(DeltaId, &[u8]), CodecFault>
    ensures { Gives (λ r. (r.0, r.1.now)) result (id_at bytes.now) }
{
    let (author, rest) = address_at(alloc, bytes)?;
    let (client, rest) = count_at(rest)?;
    let (number, rest) = count_at(rest)?;
    let id = DeltaId {
        author,
        client,
        number,
    };
    Ok((id, rest))
}

#[tactic(auto, unfolding(crate::specs::Reading::tagged_delta_at))]
fn tagged_delta_at(
    alloc: Global,
    tag: u8,
    bytes: &[u8],
    hash: &[u8; 32],
) -> Result<AppliedDelta, CodecFault>
    ensures { Gives (λ d. d) result (tagged_delta_at hash.now tag bytes.now) }
{
    let (id, rest) = id_at(alloc, bytes)?;
    let (version, rest) = count_at(rest)?;
    let (time, rest) = count_at(rest)?;
    let (ops, rest) = ops_at(alloc, rest)?;
    if tag != format(ops.as_slice()) || !rest.is_empty() {
        return Err(CodecFault::BadBytes);
    }
    let from = HashedVersion {
        version,
        hash: *hash,
    };
    Ok(AppliedDelta {
        id,
        from,
        time,
        ops,
    })
}

#[tactic(auto, unfolding(crate::specs::Reading::delta_at))]
fn delta_at(alloc: Global, bytes: &[u8], hash: &[u8; 32]) -> Result<AppliedDelta, CodecFault>
    ensures { Gives (λ d. d) result (delta_at hash.now bytes.now) }
{
    match bytes {
        [tag, rest @ ..] => tagged_delta_at(alloc, *tag, rest, hash),
        [] => Err(CodecFault::BadBytes),
    }
}

/// The delta that all of the bytes are, with this hash at the version at which it was applied. The error is `BadBytes` exactly
/// where they are those of no delta. No length is believed before its bytes are there.
pub fn read_applied(
    alloc: Global,
    bytes: &[u8],
    hash: &[u8; 32],
) -> Result<AppliedDelta, CodecFault>
    ensures is { IfOk result IsDelta }
    ensures bytes { IfOk result (λ d. bytes.now ≡ delta_bytes d) }
    ensures hash { IfOk result (λ d. d.from.hash ≡ hash.now) }
    ensures again { (d : DeltaOf) → IsDelta d → d.from.hash ≡ hash.now → bytes.now ≡ delta_bytes d
        → MatchResult result (λ r. r ≡ d) (λ e. e ≡ Memory) }
    ensures refused { IfErr result (IsRefused bytes.now) }
{
    delta_at(alloc, bytes, hash)
}
