// Texts at the front of bytes, and the bytes after them.
ghost use Rattle.std.specs.Prelude.{length};
ghost use Rattle.op_codec.specs.Reading.{Gives, string_at, key_at, text_at, optional_at};

use crate::CodecFault;
use crate::number::count_at;
use doc_items::Text;
use std::alloc::Global;

#[tactic(auto, unfolding(crate::specs::Reading::string_at))]
fn string_at(bytes: &[u8]) -> Result<(&[u8], &[u8]), CodecFault>
    ensures { Gives (λ r. (r.0.now, r.1.now)) result (string_at bytes.now) }
{
    let (len, rest) = count_at(bytes)?;
    let len = len as usize;
    if rest.len() < len {
        return Err(CodecFault::BadBytes);
    }
    Ok(rest.split_at(len))
}

#[tactic(auto, using(crate::proofs::Texts::is_text, crate::proofs::Texts::no_text), unfolding(crate::specs::Reading::key_at))]
pub(crate) fn key_at(bytes: &[u8]) -> Result<(&str, &[u8]), CodecFault>
    ensures { Gives (λ r. (r.0.now, r.1.now)) result (key_at bytes.now) }
{
    let (key, rest) = string_at(bytes)?;
    match str::from_utf8(key) {
        Ok(key) => Ok((key, rest)),
        Err(_) => Err(CodecFault::BadBytes),
    }
}

#[tactic(auto, unfolding(crate::specs::Reading::text_at))]
pub(crate) fn text_at(alloc: Global, bytes: &[u8]) -> Result<(Text, &[u8]), CodecFault>
    ensures { Gives (λ r. (r.0, r.1.now)) result (text_at bytes.now) }
{
    let (text, rest) = key_at(bytes)?;
    let text = Text::from_str(alloc, text)?;
    Ok((text, rest))
}

#[tactic(auto, unfolding(crate::specs::Reading::optional_at))]
pub(crate) fn optional_at(alloc: Global, bytes: &[u8]) -> Result<(Option<Text>, &[u8]), CodecFault>
    ensures { Gives (λ r. (r.0, r.1.now)) result (optional_at bytes.now) }
{
    match bytes {
        [0, rest @ ..] => Ok((None, rest)),
        [1, rest @ ..] => {
            let (text, rest) = text_at(alloc, rest)?;
            Ok((Some(text), rest))
        }
        [] => Err(CodecFault::BadBytes),
        [_, ..] => Err(CodecFault::BadBytes),
    }
}
