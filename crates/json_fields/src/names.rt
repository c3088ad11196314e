// Names, each a text in its grammar.
ghost use Rattle.std.specs.Prelude.{◌≡◌, IfOk};
ghost use Rattle.serde_json.specs.View.{view};
ghost use Rattle.wave_base.specs.Grammar.{is_address, is_domain, is_id, is_wavelet_name};
ghost use Rattle.json_fields.specs.Read.{in_member, good_text};

use crate::members::str_at;
use doc_items::Memory;
use serde_json::Value;
use std::alloc::{AllocError, Global};
use wave_base::{Address, BaseFault, DocumentName, Domain, SessionName, WaveletName};

/// The address in the member of this name; None exactly where none stands there. The error is want of memory, here and below.
pub fn address_at(alloc: Global, value: &Value, name: &str) -> Result<Option<Address>, Memory>
    ensures { IfOk result (λ found. found ≡ in_member (good_text is_address) name.now (view value.now)) }
{
    let Some(text) = str_at(value, name) else {
        return Ok(None);
    };
    match Address::parse(alloc, text) {
        Ok(found) => Ok(Some(found)),
        Err(BaseFault::Memory) => Err(AllocError),
        Err(BaseFault::BadAddress) => Ok(None),
        Err(BaseFault::BadName) => Ok(None),
    }
}

/// The domain in the member of this name; None exactly where none stands there.
pub fn domain_at(alloc: Global, value: &Value, name: &str) -> Result<Option<Domain>, Memory>
    ensures { IfOk result (λ found. found ≡ in_member (good_text is_domain) name.now (view value.now)) }
{
    let Some(text) = str_at(value, name) else {
        return Ok(None);
    };
    match Domain::parse(alloc, text) {
        Ok(found) => Ok(Some(found)),
        Err(BaseFault::Memory) => Err(AllocError),
        Err(BaseFault::BadAddress) => Ok(None),
        Err(BaseFault::BadName) => Ok(None),
    }
}

/// The wavelet name in the member of this name; None exactly where none stands there.
pub fn wavelet_at(alloc: Global, value: &Value, name: &str) -> Result<Option<WaveletName>, Memory>
    ensures { IfOk result (λ found. found ≡ in_member (good_text is_wavelet_name) name.now (view value.now)) }
{
    let Some(text) = str_at(value, name) else {
        return Ok(None);
    };
    match WaveletName::parse(alloc, text) {
        Ok(found) => Ok(Some(found)),
        Err(BaseFault::Memory) => Err(AllocError),
        Err(BaseFault::BadAddress) => Ok(None),
        Err(BaseFault::BadName) => Ok(None),
    }
}

/// The document's name in the member of this name; None exactly where none stands there.
pub fn document_at(alloc: Global, value: &Value, name: &str) -> Result<Option<DocumentName>, Memory>
    ensures { IfOk result (λ found. found ≡ in_member (good_text is_id) name.now (view value.now)) }
{
    let Some(text) = str_at(value, name) else {
        return Ok(None);
    };
    match DocumentName::parse(alloc, text) {
        Ok(found) => Ok(Some(found)),
        Err(BaseFault::Memory) => Err(AllocError),
        Err(BaseFault::BadAddress) => Ok(None),
        Err(BaseFault::BadName) => Ok(None),
    }
}

/// The session's name in the member of this name; None exactly where none stands there.
pub fn session_at(alloc: Global, value: &Value, name: &str) -> Result<Option<SessionName>, Memory>
    ensures { IfOk result (λ found. found ≡ in_member (good_text is_id) name.now (view value.now)) }
{
    let Some(text) = str_at(value, name) else {
        return Ok(None);
    };
    match SessionName::parse(alloc, text) {
        Ok(found) => Ok(Some(found)),
        Err(BaseFault::Memory) => Err(AllocError),
        Err(BaseFault::BadAddress) => Ok(None),
        Err(BaseFault::BadName) => Ok(None),
    }
}
