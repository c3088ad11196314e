// The change of one key.
ghost use Rattle.std.specs.Prelude.{◌≡◌, ◌≢◌, IfOk, option_map};
ghost use Rattle.std.specs.Option.{option_copied};
ghost use Rattle.std.specs.Str.{encode_utf8_all};
ghost use Rattle.doc_items.specs.Changes.{IsAscending, change_set, none_running};
ghost use Rattle.op_build.specs.Plans.{one_change};

use doc_items::{Change, Changes, Memory, Text};
use std::alloc::Global;

/// The list with the change of one key.
pub(crate) fn one_change(
    alloc: Global,
    key: &str,
    old: Option<&str>,
    new: Option<&str>,
) -> Result<Changes, Memory>
    ensures value { IfOk result (λ cs. change_set cs ≡ one_change key.now (option_copied old.entry) (option_copied new.entry)) }
    ensures ascending { IfOk result (λ cs. IsAscending cs) }
{
    let key = stored(alloc, key)?;
    let old = optional(alloc, old)?;
    let new = optional(alloc, new)?;
    let mut list = Vec::new(alloc);
    list.push(Change { key, old, new })?;
    Ok(Changes::from_vec(list))
}

fn optional(alloc: Global, value: Option<&str>) -> Result<Option<Text>, Memory>
    ensures { IfOk result (λ t. option_map encode_utf8_all t ≡ option_copied value.entry) }
{
    match value {
        Some(text) => Ok(Some(stored(alloc, text)?)),
        None => Ok(None),
    }
}

fn stored(alloc: Global, text: &str) -> Result<Text, Memory>
    ensures { IfOk result (λ t. encode_utf8_all t ≡ text.now) }
{
    Text::from_str(alloc, text)
}
