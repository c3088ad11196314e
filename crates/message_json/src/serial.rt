// The members that many kinds share: the wavelet's name, and the client's key with its number for a delta.
ghost use Rattle.std.specs.Prelude.{◌≡◌, Some, codes, IfOk, OnOk};
ghost use Rattle.serde_json.specs.Data.{string, put as put_data};
ghost use Rattle.serde_json.specs.View.{view, members_view};
ghost use Rattle.wavelet_json.specs.Operations.{ops_data, ops_of};
ghost use Rattle.message_json.specs.Back.{IsGoodName, IsGoodId};
ghost use Rattle.message_json.specs.Read.{wavelet_of, serial_of};
ghost use Rattle.message_json.specs.Write.{kind_and_wavelet, serial_members, with_id};

use doc_items::Memory;
use json_fields::{count_at, put_count, put_text, string_value, wavelet_at};
use serde_json::{Map, Value, put};
use std::alloc::Global;
use wave_base::{DeltaId, WaveletName};
use wavelet_json::ops_value;
use wavelet_op::Ops;

/// The wavelet's name.
pub fn wavelet_of(alloc: Global, value: &Value) -> Result<Option<WaveletName>, Memory>
    ensures { IfOk result (λ name. name ≡ wavelet_of (view value.now)) }
{
    wavelet_at(alloc, value, "wavelet")
}

/// The client's key and its number for a delta.
pub fn serial_of(value: &Value) -> Option<(u64, u64)>
    ensures { result ≡ serial_of (view value.now) }
{
    let client = count_at(value, "client")?;
    let number = count_at(value, "number")?;
    Some((client, number))
}

/// The wavelet's name, written.
pub fn name_value(alloc: Global, name: &WaveletName) -> Result<Value, Memory>
    ensures value { IfOk result (λ v. view v ≡ string name.now) }
    ensures good { IfOk result (λ _. IsGoodName name.now) }
{
    string_value(alloc, name.text())
}

/// The members `type` and `wavelet`.
pub fn kind_and_wavelet(
    alloc: Global,
    kind: &str,
    name: &WaveletName,
) -> Result<Map<String, Value>, Memory>
    ensures good { IfOk result (λ _. IsGoodName name.now) }
    ensures value { IfOk result (λ members. members_view members.entries ≡ kind_and_wavelet kind.now name.now) }
{
    let mut members = Map::new(alloc);
    put_text(alloc, &mut members, "type", kind)?;
    put_name(alloc, &mut members, name)?;
    Ok(members)
}

/// The members that say which submission is meant.
pub fn serial_members(
    alloc: Global,
    kind: &str,
    name: &WaveletName,
    client: u64,
    number: u64,
) -> Result<Map<String, Value>, Memory>
    ensures good { IfOk result (λ _. IsGoodName name.now) }
    ensures value { IfOk result (λ members. members_view members.entries ≡ serial_members kind.now name.now client number) }
{
    let mut members = kind_and_wavelet(alloc, kind, name)?;
    put_count(alloc, &mut members, "client", client)?;
    put_count(alloc, &mut members, "number", number)?;
    Ok(members)
}

/// Puts the wavelet's name. After want of memory, here and below, it may be there.
pub fn put_name(
    alloc: Global,
    members: &mut Map<String, Value>,
    name: &WaveletName,
) -> Result<(), Memory>
    ensures good { OnOk result (IsGoodName name.now) }
    ensures value { OnOk result
        (members_view members.new.entries ≡ put_data (codes "wavelet") (string name.now) (members_view members.old.entries)) }
{
    let name = name_value(alloc, name)?;
    put(members, alloc, "wavelet", name)
}

/// Puts who made a delta, under which key and number.
#[tactic(auto, using(crate::proofs::Back::counts))]
pub fn put_id(alloc: Global, members: &mut Map<String, Value>, id: &DeltaId) -> Result<(), Memory>
    ensures good { OnOk result (IsGoodId id.now) }
    ensures value { OnOk result (members_view members.new.entries ≡ with_id id.now (members_view members.old.entries)) }
{
    put_count(alloc, members, "number", id.number)?;
    put_count(alloc, members, "client", id.client)?;
    put_text(alloc, members, "author", id.author.text())
}

/// Puts operations.
pub fn put_ops(alloc: Global, members: &mut Map<String, Value>, ops: &Ops) -> Result<(), Memory>
    ensures back { OnOk result (ops_of (ops_data ops.now) ≡ Some ops.now) }
    ensures value { OnOk result
        (members_view members.new.entries ≡ put_data (codes "operations") (ops_data ops.now) (members_view members.old.entries)) }
{
    let ops = ops_value(alloc, ops)?;
    put(members, alloc, "operations", ops)
}
