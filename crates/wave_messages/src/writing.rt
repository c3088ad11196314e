// Messages and lines, written.
ghost use Rattle.std.specs.Prelude.{◌≡◌, ◌≤◌, ℕ, true, false, length, Some, Ok, IfOk};
ghost use Rattle.serde_json.specs.Data.{depth};
ghost use Rattle.serde_json.specs.Read.{max_depth};
ghost use Rattle.serde_json.specs.View.{view};
ghost use Rattle.serde_json.specs.Written.{compact_text, has_float};
ghost use Rattle.message_json.specs.Back.{IsReadBack, InRange};
ghost use Rattle.message_json.specs.Write.{message_data, IsShort};
ghost use Rattle.wave_base.specs.Grammar.{is_id};
ghost use Rattle.wave_messages.specs.Read.{data_of, read_of, max_client, line_read};
ghost use Rattle.wave_messages.specs.Write.{line_data};

use doc_items::Memory;
use json_fields::string_value;
use message_json::{Message, message_value};
use serde_json::{Value, json};
use std::alloc::Global;

// The value without white space, its members in byte order of their names. It is read back.
#[tactic(auto, using(crate::proofs::Texts::is_data))]
pub(crate) fn compact(alloc: Global, value: &Value) -> Result<Vec<u8>, Memory>
    requires clear { has_float (view value.now) ≡ false }
    requires shallow { depth (view value.now) ≤ max_depth }
    ensures text { IfOk result (λ bytes. bytes.items ≡ compact_text (view value.now)) }
    ensures read { IfOk result (λ bytes. data_of bytes.items ≡ Some (view value.now)) }
{
    value.to_vec(alloc)
}

/// The bytes of a message; those of the delta of an `applied` are fewer than 4,294,967,296. They are read as the same message under
/// each limit that they keep, where the numbers that the types don't bound are in range. The error is want of memory.
#[tactic(auto, using(crate::proofs::Floats::message_clear, crate::proofs::Depths::message_depth))]
pub fn write(alloc: Global, message: &Message) -> Result<Vec<u8>, Memory>
    requires { IsShort message.now }
    ensures value { IfOk result (λ bytes. bytes.items ≡ compact_text (message_data message.now)) }
    ensures back { IfOk result (λ _. InRange message.now → IsReadBack message.now) }
    ensures read { IfOk result
        (λ bytes. InRange message.now → (limit : ℕ) → length bytes.items ≤ limit → read_of bytes.items limit ≡ Ok message.now) }
{
    let value = message_value(alloc, message)?;
    compact(alloc, &value)
}

// A message's value with the session.
fn line_value(alloc: Global, session: &str, message: Value) -> Result<Value, Memory>
    ensures { IfOk result (λ v. view v ≡ line_data session.now (view message)) }
{
    let session = string_value(alloc, session)?;
    json!(in alloc; {"message": message, "session": session})
}

/// The bytes of a line for a session, without the line feed; those of the delta of an `applied` are fewer than 4,294,967,296. They
/// are read as the same line, where they keep its limit, the session is an id, and the message's numbers are in range. The error is
/// want of memory.
pub fn write_line(alloc: Global, session: &str, message: &Message) -> Result<Vec<u8>, Memory>
    requires { IsShort message.now }
    ensures value { IfOk result (λ bytes. bytes.items ≡ compact_text (line_data session.now (message_data message.now))) }
    ensures read { IfOk result
        (λ bytes. is_id session.now ≡ true → InRange message.now → length bytes.items ≤ max_client → line_read bytes.items
        ≡ Ok (session.now, message.now)) }
{
    let message = message_value(alloc, message)?;
    let line = line_value(alloc, session, message)?;
    compact(alloc, &line)
}
