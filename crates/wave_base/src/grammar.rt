// The grammar of names, tested on texts.
ghost use Rattle.std.specs.Prelude.{◌≡◌};
ghost use Rattle.wave_base.specs.Grammar.{is_user, is_id, is_domain, is_address, is_wavelet_part, is_after_wave_domain, is_wavelet_name};

use crate::scanner::{Alphabet, cut, is_word};

/// Whether the text is a user: a word of at most 64 bytes.
fn is_user(text: &str) -> bool
    ensures { result ≡ is_user text.now }
{
    text.len() <= 64 && is_word(Alphabet::User, text)
}

/// Whether the text is an id: a word of at most 128 bytes.
pub fn is_id(text: &str) -> bool
    ensures { result ≡ is_id text.now }
{
    text.len() <= 128 && is_word(Alphabet::Id, text)
}

/// Whether the text is labels with a dot between each two, at most 255 bytes in all.
pub fn is_domain(text: &str) -> bool
    ensures { result ≡ is_domain text.now }
{
    text.len() <= 255 && text.split('.').all(|label| is_word(Alphabet::Label, label))
}

/// Whether the text is a user, `@` and a domain.
pub fn is_address(text: &str) -> bool
    ensures { result ≡ is_address text.now }
{
    match cut(text, '@') {
        Some((user, domain)) => is_user(user) && is_domain(domain),
        None => false,
    }
}

/// Whether the text is a wavelet domain, `/` and a wavelet id.
fn is_wavelet_part(text: &str) -> bool
    ensures { result ≡ is_wavelet_part text.now }
{
    match cut(text, '/') {
        Some((domain, id)) => is_domain(domain) && is_id(id),
        None => false,
    }
}

/// Whether the text is a wave id, `/`, and a wavelet domain with its wavelet id.
fn is_after_wave_domain(text: &str) -> bool
    ensures { result ≡ is_after_wave_domain text.now }
{
    match cut(text, '/') {
        Some((id, wavelet)) => is_id(id) && is_wavelet_part(wavelet),
        None => false,
    }
}

/// Whether the text is the name of a wavelet: wave domain, wave id, wavelet domain and wavelet id, with `/` between each two.
pub fn is_wavelet_name(text: &str) -> bool
    ensures { result ≡ is_wavelet_name text.now }
{
    match cut(text, '/') {
        Some((domain, rest)) => is_domain(domain) && is_after_wave_domain(rest),
        None => false,
    }
}
