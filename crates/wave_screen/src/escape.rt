// Texts as they are shown.
ghost use Rattle.std.specs.Prelude.{◌≡◌, ◌<◌, ◌++◌, ◌∷◌, [], string_bytes, OnOk};
ghost use Rattle.std.specs.Char.{digit_char};
ghost use Rattle.wave_screen.specs.Escapes.{hex, escaped_char, escaped_text};

use doc_items::Memory;

// Appends a hexadecimal digit.
fn push_digit(out: &mut String, digit: u32) -> Result<(), Memory>
    requires { digit < 16 }
    ensures { OnOk result (string_bytes out.new ≡ string_bytes out.old ++ digit_char digit ∷ []) }
{
    match char::from_digit(digit, 16) {
        Some(c) => out.push(c),
        None => unreachable!(),
    }
}

// Appends a character below U+0080 by its number.
fn push_number(out: &mut String, code: u32) -> Result<(), Memory>
    requires { code < 256 }
    ensures { OnOk result (string_bytes out.new ≡ string_bytes out.old ++ hex code) }
{
    push_digit(out, code / 16)?;
    push_digit(out, code % 16)
}

/// Appends a character as it is shown.
pub(crate) fn push_char(out: &mut String, c: char) -> Result<(), Memory>
    ensures { OnOk result (string_bytes out.new ≡ string_bytes out.old ++ escaped_char c) }
{
    let code = c as u32;
    if c == '<' || c == '{' || c == '\\' {
        out.push('\\')?;
        return out.push(c);
    }
    if code < 0x20 || code == 0x7f {
        out.push_str("\\x")?;
        return push_number(out, code);
    }
    out.push(c)
}

/// Appends a text as it is shown: `<`, `{` and `\` after a `\`, and a character below U+0020 or U+007F by its number.
pub fn push_text(out: &mut String, text: &str) -> Result<(), Memory>
    ensures { OnOk result (string_bytes out.new ≡ string_bytes out.old ++ escaped_text text.now) }
{
    for c in text.chars() {
        push_char(out, c)?;
    }
    Ok(())
}
