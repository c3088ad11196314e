// The names of journal files.
ghost use Rattle.std.specs.Prelude.{◌≡◌, IfOk, string_bytes};
ghost use Rattle.std.specs.List.{list_all};
ghost use Rattle.wavelet_shelf.specs.FileNames.{file_name_of, is_digit, is_file_name, shard_of};

use doc_items::Memory;
use std::alloc::Global;
use wave_base::WaveletName;
use wave_hash::zero_hash;

/// The name of the file in which the wavelet's journal stands: the zero hash in 64 lower-case hexadecimal digits, and `.wave`. The
/// error is want of memory.
pub fn file_name(alloc: Global, name: &WaveletName) -> Result<String, Memory>
    ensures { IfOk result (λ f. string_bytes f ≡ file_name_of name.now) }
{
    let mut text = hex::encode(alloc, zero_hash(name))?;
    text.push_str(".wave")?;
    Ok(text)
}

// Whether the byte is a lower-case hexadecimal digit.
fn is_digit(byte: u8) -> bool
    ensures { result ≡ is_digit byte }
{
    byte.is_ascii_digit() || (b'a' <= byte && byte <= b'f')
}

fn are_digits(bytes: &[u8]) -> bool
    ensures { result ≡ list_all is_digit bytes.now }
{
    bytes.iter().all(|byte| is_digit(*byte))
}

/// Whether a file of this name is a wavelet's.
pub(crate) fn is_file_name(text: &str) -> bool
    ensures { result ≡ is_file_name text.now }
{
    let bytes = text.as_bytes();
    if bytes.len() != 69 {
        return false;
    }
    let (digits, suffix) = bytes.split_at(64);
    are_digits(digits) && suffix == b".wave".as_slice()
}

/// The shard of the wavelet of this name, of sixteen.
pub fn shard(name: &WaveletName) -> u8
    ensures { result ≡ shard_of name.now }
{
    zero_hash(name)[0] % 16
}
