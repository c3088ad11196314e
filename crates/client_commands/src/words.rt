// The words of a line: names, places and numbers.
ghost use Rattle.std.specs.Prelude.{◌≡◌, ◌<◌, ◌==◌, false, IfOk, MatchOption};
ghost use Rattle.std.specs.List.{list_any};
ghost use Rattle.wave_base.specs.Grammar.{is_wavelet_name, is_address, is_id, IsCut};
ghost use Rattle.client_commands.specs.Words.{space, has_space, checked, spot_at, stretch_at, role_named};

use crate::command::{Spot, Stretch};
use doc_items::Memory;
use std::alloc::{AllocError, Global};
use wave_base::{Address, BaseFault, DocumentName, WaveletName};
use wave_screen::number;
use wavelet_op::Role;

/// What stands before and after the first space; None where there is none.
pub(crate) fn cut(text: &str) -> Option<(&str, &str)>
    ensures { MatchOption result (has_space text.now ≡ false) (λ p. IsCut space text.now p.0.now p.1.now) }
{
    text.split_once(' ')
}

/// Whether there is a space.
pub(crate) fn has_space(text: &str) -> bool
    ensures { result ≡ has_space text.now }
{
    text.bytes().any(|byte| byte == b' ')
}

/// The name of a wavelet; None where the text is none. The error is want of memory, here and below.
pub(crate) fn wavelet_named(alloc: Global, text: &str) -> Result<Option<WaveletName>, Memory>
    ensures { IfOk result (λ o. o ≡ checked (is_wavelet_name text.now) text.now) }
{
    match WaveletName::parse(alloc, text) {
        Ok(name) => Ok(Some(name)),
        Err(BaseFault::BadName) => Ok(None),
        Err(BaseFault::BadAddress) => unreachable!(),
        Err(BaseFault::Memory) => Err(AllocError),
    }
}

/// An address; None where the text is none.
pub(crate) fn address_named(alloc: Global, text: &str) -> Result<Option<Address>, Memory>
    ensures { IfOk result (λ o. o ≡ checked (is_address text.now) text.now) }
{
    match Address::parse(alloc, text) {
        Ok(address) => Ok(Some(address)),
        Err(BaseFault::BadAddress) => Ok(None),
        Err(BaseFault::BadName) => unreachable!(),
        Err(BaseFault::Memory) => Err(AllocError),
    }
}

// The name of a document; None where the text is none.
fn document_named(alloc: Global, text: &str) -> Result<Option<DocumentName>, Memory>
    ensures { IfOk result (λ o. o ≡ checked (is_id text.now) text.now) }
{
    match DocumentName::parse(alloc, text) {
        Ok(name) => Ok(Some(name)),
        Err(BaseFault::BadName) => Ok(None),
        Err(BaseFault::BadAddress) => unreachable!(),
        Err(BaseFault::Memory) => Err(AllocError),
    }
}

/// The role of a word.
pub(crate) fn role_named(word: &str) -> Option<Role>
    ensures { result ≡ role_named word.now }
{
    if word == "full" {
        return Some(Role::Full);
    }
    if word == "read" {
        return Some(Role::ReadOnly);
    }
    None
}

/// A place in a document; None where one of the words is none.
pub(crate) fn spot_at(alloc: Global, document: &str, place: &str) -> Result<Option<Spot>, Memory>
    ensures { IfOk result (λ o. o ≡ spot_at document.now place.now) }
{
    let Some(document) = document_named(alloc, document)? else {
        return Ok(None);
    };
    let Some(place) = number(place.as_bytes()) else {
        return Ok(None);
    };
    Ok(Some(Spot { document, place }))
}

/// A stretch of a document; None where one of the words is none.
pub(crate) fn stretch_at(
    alloc: Global,
    document: &str,
    from: &str,
    count: &str,
) -> Result<Option<Stretch>, Memory>
    ensures { IfOk result (λ o. o ≡ stretch_at document.now from.now count.now) }
{
    let Some(spot) = spot_at(alloc, document, from)? else {
        return Ok(None);
    };
    let Some(count) = number(count.as_bytes()) else {
        return Ok(None);
    };
    Ok(Some(spot.with_count(count)))
}
