ghost use Rattle.std.specs.Prelude.{◌≡◌, true, Some, IfSome, IfOk};
ghost use Rattle.std.specs.Option.{option_copied, option_map};
ghost use Rattle.std.specs.Str.{chars, encode_utf8_all};
ghost use Rattle.doc_items.specs.Maps.{same_value};
ghost use Rattle.doc_items.specs.Changes.{turned};
ghost use Rattle.change_view.specs.Rules.{same_change};
ghost use Rattle.change_view.specs.Texts.{is_text_value, is_text_change, as_change};
ghost use Rattle.change_view.specs.Lists.{value_of, entry_of, of_change};

use doc_items::{Change, Memory, Text};
use std::alloc::Global;

/// What becomes of the value at a key, with texts that stand elsewhere.
#[derive(Clone, Copy)]
pub struct ChangeRef<'a> {
    pub key: &'a str,
    pub old: Option<&'a str>,
    pub new: Option<&'a str>,
}

impl<'a> ChangeRef<'a> {
    /// The change, borrowed.
    pub fn of(change: &'a Change) -> ChangeRef<'a>
        ensures same { entry_of result ≡ of_change change.now }
        ensures texts { is_text_change result.key.now (value_of result) ≡ true }
    {
        let key = change.key.as_str();
        let old = borrowed(&change.old);
        let new = borrowed(&change.new);
        ChangeRef { key, old, new }
    }

    /// The change with texts of its own.
    pub fn to_change(self, alloc: Global) -> Result<Change, Memory>
        ensures value { IfOk result (λ c. c ≡ as_change (entry_of self.entry)) }
        ensures same { IfOk result (λ c. of_change c ≡ entry_of self.entry) }
    {
        let key = owned(alloc, self.key)?;
        let old = owned_value(alloc, self.old)?;
        let new = owned_value(alloc, self.new)?;
        Ok(Change { key, old, new })
    }

    /// The same change of another key.
    pub(crate) fn at(self, key: &'a str) -> ChangeRef<'a>
        ensures value { value_of result ≡ value_of self.entry }
        ensures key { result.key.now ≡ key.entry.now }
    {
        ChangeRef {
            key,
            old: self.old,
            new: self.new,
        }
    }

    /// Old and new exchanged.
    pub(crate) fn turned(self) -> ChangeRef<'a>
        ensures value { value_of result ≡ turned (value_of self.entry) }
        ensures key { result.key.now ≡ self.entry.key.now }
    {
        ChangeRef {
            key: self.key,
            old: self.new,
            new: self.old,
        }
    }

    /// Whether the old and the new values are the same.
    pub(crate) fn same_values(self, other: ChangeRef<'_>) -> bool
        ensures { result ≡ same_change (value_of self.entry) (value_of other.entry) }
    {
        same_values(self.old, other.old) && same_values(self.new, other.new)
    }
}

fn owned(alloc: Global, text: &str) -> Result<Text, Memory>
    ensures value { IfOk result (λ t. t ≡ chars text.now) }
    ensures same { IfOk result (λ t. encode_utf8_all t ≡ text.now) }
{
    let copy = Text::from_str(alloc, text)?;
    Ok(copy)
}

fn owned_value(alloc: Global, value: Option<&str>) -> Result<Option<Text>, Memory>
    ensures value { IfOk result (λ v. v ≡ option_map chars (option_copied value.entry)) }
    ensures same { IfOk result (λ v. option_map encode_utf8_all v ≡ option_copied value.entry) }
{
    match value {
        Some(text) => Ok(Some(owned(alloc, text)?)),
        None => Ok(None),
    }
}

fn borrowed(value: &Option<Text>) -> Option<&str>
    ensures same { option_copied result ≡ option_map encode_utf8_all value.now }
    ensures texts { is_text_value (option_copied result) ≡ true }
{
    match value {
        Some(text) => Some(text.as_str()),
        None => None,
    }
}

/// Whether both are absent, or both are the same text.
pub(crate) fn same_values(a: Option<&str>, b: Option<&str>) -> bool
    ensures { result ≡ same_value (option_copied a.entry) (option_copied b.entry) }
{
    match a {
        Some(a) => match b {
            Some(b) => a == b,
            None => false,
        },
        None => b.is_none(),
    }
}
