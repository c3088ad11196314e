// Messages from a client, and those of one wavelet alone, written.
ghost use Rattle.std.specs.Prelude.{◌≡◌, Some, IfOk};
ghost use Rattle.serde_json.specs.Data.{object};
ghost use Rattle.serde_json.specs.View.{view};
ghost use Rattle.message_json.specs.Back.{IsGoodName, IsReadBack, InRange};
ghost use Rattle.message_json.specs.Write.{kind_and_wavelet, hello_data, welcome_data, open_data, submit_data};

use crate::Message;
use crate::serial::{kind_and_wavelet, put_ops, serial_members};
use doc_items::{Memory, Text};
use json_fields::string_value;
use serde_json::{Value, json};
use std::alloc::Global;
use wave_base::{HashedVersion, WaveletName};
use wavelet_json::put_version;
use wavelet_op::Ops;

/// A message that holds the wavelet's name alone. The error is want of memory, here and in the others.
pub fn named_value(alloc: Global, kind: &str, name: &WaveletName) -> Result<Value, Memory>
    ensures value { IfOk result (λ v. view v ≡ object (kind_and_wavelet kind.now name.now)) }
    ensures good { IfOk result (λ _. IsGoodName name.now) }
{
    let members = kind_and_wavelet(alloc, kind, name)?;
    Ok(Value::Object(members))
}

/// A `hello`.
#[tactic(auto, using(crate::proofs::Back::hello_back))]
pub fn hello_value(alloc: Global, user: &Text) -> Result<Value, Memory>
    ensures value { IfOk result (λ v. view v ≡ hello_data user.now) }
    ensures back { IfOk result (λ _. IsReadBack (Message.Hello user.now)) }
{
    let user = string_value(alloc, user.as_str())?;
    json!(in alloc; {"type": "hello", "user": user})
}

/// A `welcome`.
#[tactic(auto, using(crate::proofs::Back::welcome_back))]
pub fn welcome_value(alloc: Global, user: &Text) -> Result<Value, Memory>
    ensures value { IfOk result (λ v. view v ≡ welcome_data user.now) }
    ensures back { IfOk result (λ _. IsReadBack (Message.Welcome user.now)) }
{
    let user = string_value(alloc, user.as_str())?;
    json!(in alloc; {"type": "welcome", "user": user})
}

/// An `open` with a version.
#[tactic(auto, using(crate::proofs::Back::open_at_back))]
pub fn open_at_value(
    alloc: Global,
    name: &WaveletName,
    from: &HashedVersion,
) -> Result<Value, Memory>
    ensures value { IfOk result (λ v. view v ≡ open_data name.now (Some from.now)) }
    ensures back { IfOk result (λ _. IsReadBack (Message.OpenWavelet name.now (Some from.now))) }
{
    let mut members = kind_and_wavelet(alloc, "open", name)?;
    put_version(alloc, &mut members, from)?;
    Ok(Value::Object(members))
}

/// A `submit`.
#[tactic(auto, using(crate::proofs::Back::submit_back))]
pub fn submit_value(
    alloc: Global,
    name: &WaveletName,
    client: u64,
    number: u64,
    from: &HashedVersion,
    ops: &Ops,
) -> Result<Value, Memory>
    ensures value { IfOk result (λ v. view v ≡ submit_data name.now client number from.now ops.now) }
    ensures back { IfOk result
        (λ _. InRange (Message.Submit name.now client number from.now ops.now)
        → IsReadBack (Message.Submit name.now client number from.now ops.now)) }
{
    let mut members = serial_members(alloc, "submit", name, client, number)?;
    put_version(alloc, &mut members, from)?;
    put_ops(alloc, &mut members, ops)?;
    Ok(Value::Object(members))
}
