// Numbers in the words of commands.
ghost use Rattle.std.specs.Prelude.{◌≡◌, ◌<◌, ◌^◌};
ghost use Rattle.wave_screen.specs.Numerals.{digits, number};

// The number that goes on with these digits.
fn digits(number: u64, bytes: &[u8]) -> Option<u64>
    ensures { result ≡ digits number bytes.now }
{
    let Some((byte, rest)) = bytes.split_first() else {
        return Some(number);
    };
    if !byte.is_ascii_digit() {
        return None;
    }
    let next = number as u128 * 10 + (*byte - b'0') as u128;
    if next > u64::MAX as u128 {
        return None;
    }
    digits(next as u64, rest)
}

/// Decimal digits without a leading zero, of at most 64 bits.
pub fn number(bytes: &[u8]) -> Option<u64>
    ensures { result ≡ number bytes.now }
{
    match bytes {
        [] => None,
        [_] => digits(0, bytes),
        [first, ..] => {
            if *first == b'0' {
                None
            } else {
                digits(0, bytes)
            }
        }
    }
}
