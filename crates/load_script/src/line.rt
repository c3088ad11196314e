// The line that tells of a load.
ghost use Rattle.std.specs.Prelude.{◌≡◌, ◌++◌, string_bytes, decimal, IfOk, OnOk};
ghost use Rattle.base64.specs.Engines.{standard};
ghost use Rattle.base64.specs.GeneralPurpose.{encode_of};
ghost use Rattle.load_script.specs.Line.{line};

use crate::Summary;
use base64::engine::general_purpose::STANDARD;
use doc_items::Memory;
use itoa::Buffer;
use std::alloc::Global;

// A word and a number are at the end.
fn push_number(text: &mut String, word: &str, number: u64) -> Result<(), Memory>
    ensures { OnOk result (string_bytes text.new ≡ string_bytes text.old ++ word.now ++ decimal number) }
{
    let mut buffer = Buffer::new();
    text.push_str(word)?;
    text.push_str(buffer.format(number))?;
    Ok(())
}

// A word and a hash in base64 are at the end.
fn push_hash(alloc: Global, text: &mut String, word: &str, hash: &[u8; 32]) -> Result<(), Memory>
    ensures { OnOk result (string_bytes text.new ≡ string_bytes text.old ++ word.now ++ encode_of standard hash.now) }
{
    let spelled = STANDARD.encode(alloc, hash.as_slice())?;
    text.push_str(word)?;
    text.push_str(spelled.as_str())?;
    Ok(())
}

/// The line `load N version V items I hash X` of the load of a number, with the hash in base64, and a line feed. The error is want
/// of memory.
pub fn summary_line(alloc: Global, count: u64, summary: &Summary) -> Result<String, Memory>
    ensures { IfOk result (λ t. string_bytes t ≡ line count summary.now) }
{
    let mut text = String::new(alloc);
    push_number(&mut text, "load ", count)?;
    push_number(&mut text, " version ", summary.version)?;
    push_number(&mut text, " items ", summary.items)?;
    push_hash(alloc, &mut text, " hash ", &summary.hash)?;
    text.push_str("\n")?;
    Ok(text)
}
