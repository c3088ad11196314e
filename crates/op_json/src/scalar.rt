// Texts, a text or null, and what stands for "it is so".
ghost use Rattle.std.specs.Prelude.{◌≡◌, IfOk};
ghost use Rattle.serde_json.specs.View.{view};
ghost use Rattle.op_json.specs.Read.{is_true, text_of, optional_text_of};

use doc_items::{Memory, Text};
use serde_json::Value;
use std::alloc::Global;

// Whether the value is `true`.
pub fn is_true(value: &Value) -> bool
    ensures { result ≡ is_true (view value.now) }
{
    value.as_bool().unwrap_or(false)
}

// The text that a value is.
pub fn text_of(alloc: Global, value: &Value) -> Result<Option<Text>, Memory>
    ensures { IfOk result (λ text. text ≡ text_of (view value.now)) }
{
    match value.as_str() {
        Some(text) => Ok(Some(Text::from_str(alloc, text)?)),
        None => Ok(None),
    }
}

// The text that a value is, or that there is none.
pub fn optional_text_of(alloc: Global, value: &Value) -> Result<Option<Option<Text>>, Memory>
    ensures { IfOk result (λ text. text ≡ optional_text_of (view value.now)) }
{
    if value.is_null() {
        return Ok(Some(None));
    }
    match text_of(alloc, value)? {
        Some(text) => Ok(Some(Some(text))),
        None => Ok(None),
    }
}
