// Values of options and words.
ghost use Rattle.std.specs.Prelude.{◌≡◌, ◌≤◌, ◌<◌, ◌+◌, ◌*◌, ◌^◌};
ghost use Rattle.command_words.specs.Commands.{digits, number};
ghost use Rattle.command_words.specs.Values.{is_value};

/// Whether a value isn't empty and doesn't begin with `-`.
pub(crate) fn is_value(text: &str) -> bool
    ensures { result ≡ is_value text.now }
{
    match text.as_bytes().first() {
        Some(byte) => *byte != b'-',
        None => false,
    }
}

// The number that goes on with these digits, up to the limit.
fn digits(limit: u64, number: u64, bytes: &[u8]) -> Option<u64>
    requires limit { limit ≤ 2 ^ 53 }
    requires number { number ≤ limit }
    ensures { result ≡ digits limit number bytes.now }
{
    let Some((byte, rest)) = bytes.split_first() else {
        return Some(number);
    };
    if !byte.is_ascii_digit() {
        return None;
    }
    let next = number * 10 + (*byte - b'0') as u64;
    if next > limit {
        return None;
    }
    digits(limit, next, rest)
}

/// Decimal digits without a sign or a leading zero, up to the limit.
pub(crate) fn number(limit: u64, text: &str) -> Option<u64>
    requires { limit ≤ 2 ^ 53 }
    ensures { result ≡ number limit text.now }
{
    match text.as_bytes() {
        [] => None,
        [_] => digits(limit, 0, text.as_bytes()),
        [first, ..] => {
            if *first == b'0' {
                None
            } else {
                digits(limit, 0, text.as_bytes())
            }
        }
    }
}
