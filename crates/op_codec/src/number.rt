// Numbers at the front of bytes, and the bytes after them.
ghost use Rattle.std.specs.Int.{w32, w64};
ghost use Rattle.op_codec.specs.Reading.{Gives, number_at};

use crate::CodecFault;

pub(crate) fn count_at(bytes: &[u8]) -> Result<(u32, &[u8]), CodecFault>
    ensures { Gives (λ r. (r.0, r.1.now)) result (number_at w32 bytes.now) }
{
    if bytes.len() < 4 {
        return Err(CodecFault::BadBytes);
    }
    let (front, rest) = bytes.split_at(4);
    let number = u32::from_be_bytes([front[0], front[1], front[2], front[3]]);
    Ok((number, rest))
}

pub(crate) fn number_at(bytes: &[u8]) -> Result<(u64, &[u8]), CodecFault>
    ensures { Gives (λ r. (r.0, r.1.now)) result (number_at w64 bytes.now) }
{
    if bytes.len() < 8 {
        return Err(CodecFault::BadBytes);
    }
    let (front, rest) = bytes.split_at(8);
    let number = u64::from_be_bytes([
        front[0], front[1], front[2], front[3], front[4], front[5], front[6], front[7],
    ]);
    Ok((number, rest))
}
