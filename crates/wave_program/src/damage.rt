// The line that tells of a damaged file.
ghost use Rattle.std.specs.Prelude.{◌≡◌, string_bytes, IfOk, OnOk, OnErr};
ghost use Rattle.line_loop.specs.Output.{IsWritten};
ghost use Rattle.wave_program.specs.Damage.{damage_line};

use doc_items::Memory;
use itoa::Buffer;
use line_loop::write_all;
use std::alloc::Global;
use wave_outside::Sink;

// The line.
fn line_of_damage(alloc: Global, file: &str, offset: u64) -> Result<String, Memory>
    ensures { IfOk result (λ t. string_bytes t ≡ damage_line file.now offset) }
{
    let mut buffer = Buffer::new();
    let mut text = String::new(alloc);
    text.push_str("damaged ")?;
    text.push_str(file)?;
    text.push_str(" ")?;
    text.push_str(buffer.format(offset))?;
    text.push_str("\n")?;
    Ok(text)
}

/// Writes the line, as far as the sink takes it.
pub fn write_damage<W: Sink>(
    alloc: Global,
    sink: &mut W,
    file: &str,
    offset: u64,
) -> Result<(), Memory>
    ensures told { OnOk result (IsWritten (W.written sink.old) (W.written sink.new) (W.faults sink.old) (W.faults sink.new)
        (damage_line file.now offset)) }
    ensures silent { OnErr result (sink.new ≡ sink.old) }
{
    let line = line_of_damage(alloc, file, offset)?;
    match write_all(sink, line.as_bytes()) {
        Ok(()) => {}
        Err(_) => {}
    }
    Ok(())
}
