// What an inbox prints.
ghost use Rattle.std.specs.Prelude.{◌≡◌, ◌++◌, decimal, string_bytes, OnOk};
ghost use Rattle.inbox_machine.specs.Printed.{line_text, hit_text, lines_text, hits_text};

use doc_items::Memory;
use itoa::Buffer;
use wave_index::{Hit, InboxLine};
use wave_terminal::push_text;

// Appends a word and a number.
fn put_number(word: &str, number: u64, out: &mut String) -> Result<(), Memory>
    ensures { OnOk result (string_bytes out.new ≡ string_bytes out.old ++ word.now ++ decimal number) }
{
    let mut buffer = Buffer::new();
    out.push_str(word)?;
    out.push_str(buffer.format(number))
}

// Appends what there is of a wavelet.
fn put_line(line: &InboxLine, out: &mut String) -> Result<(), Memory>
    ensures { OnOk result (string_bytes out.new ≡ string_bytes out.old ++ line_text line.now) }
{
    out.push_str(line.name.text())?;
    put_number(" version ", line.version, out)?;
    put_number(" unread ", line.unread, out)?;
    out.push_str(" title ")?;
    push_text(out, line.title.as_str())?;
    out.push_str("\n")
}

// Appends where a word stands.
fn put_hit(hit: &Hit, out: &mut String) -> Result<(), Memory>
    ensures { OnOk result (string_bytes out.new ≡ string_bytes out.old ++ hit_text hit.now) }
{
    out.push_str(hit.name.text())?;
    out.push_str(" ")?;
    out.push_str(hit.document.text())?;
    out.push_str("\n")
}

/// Appends what there is of wavelets. The error is want of memory, here and below.
pub(crate) fn put_lines(lines: &[InboxLine], out: &mut String) -> Result<(), Memory>
    ensures { OnOk result (string_bytes out.new ≡ string_bytes out.old ++ lines_text lines.now) }
{
    for line in lines {
        put_line(line, out)?;
    }
    Ok(())
}

/// Appends where a word stands.
pub(crate) fn put_hits(hits: &[Hit], out: &mut String) -> Result<(), Memory>
    ensures { OnOk result (string_bytes out.new ≡ string_bytes out.old ++ hits_text hits.now) }
{
    for hit in hits {
        put_hit(hit, out)?;
    }
    Ok(())
}
