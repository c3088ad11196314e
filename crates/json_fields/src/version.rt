// Versions with their hashes, and ids of deltas.
ghost use Rattle.std.specs.Prelude.{◌≡◌, IfOk};
ghost use Rattle.serde_json.specs.View.{view};
ghost use Rattle.json_fields.specs.Read.{version_of, id_of};

use crate::bytes::hash_at;
use crate::members::count_at;
use crate::names::address_at;
use doc_items::Memory;
use serde_json::Value;
use std::alloc::Global;
use wave_base::{DeltaId, HashedVersion};

/// The version and the hash in the members `version` and `hash`; None exactly where they don't stand there. The error is want of
/// memory.
pub fn version_at(alloc: Global, value: &Value) -> Result<Option<HashedVersion>, Memory>
    ensures { IfOk result (λ at. at ≡ version_of (view value.now)) }
{
    let Some(version) = count_at(value, "version") else {
        return Ok(None);
    };
    let Some(hash) = hash_at(alloc, value, "hash")? else {
        return Ok(None);
    };
    Ok(Some(HashedVersion { version, hash }))
}

/// The id of a delta in the members `author`, `client` and `number`; None exactly where they don't stand there. The error is want
/// of memory.
pub fn id_at(alloc: Global, value: &Value) -> Result<Option<DeltaId>, Memory>
    ensures { IfOk result (λ id. id ≡ id_of (view value.now)) }
{
    let Some(author) = address_at(alloc, value, "author")? else {
        return Ok(None);
    };
    let Some(client) = count_at(value, "client") else {
        return Ok(None);
    };
    let Some(number) = count_at(value, "number") else {
        return Ok(None);
    };
    Ok(Some(DeltaId {
        author,
        client,
        number,
    }))
}
