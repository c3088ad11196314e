// How many bytes each part of an operation has.
ghost use Rattle.std.specs.Int.{w64, to_be_bytes};
ghost use Rattle.std.specs.Prelude.{◌≡◌, ◌<◌, ◌+◌, ◌^◌, ◌++◌, ℕ, length, IfSome};
ghost use Rattle.op_codec.specs.Spelling.{limit, capped, IsKey, IsText, IsAttribute, AreAttributes, AreAll, IsChange, IsBoundary, IsComponent, IsSpelled, string, text, optional, listed, attribute, attributes, change, boundary, component, spelling};

use doc_items::{Attributes, Boundary, Change, Text};
use doc_op::{Component, DocOp};

/// More bytes than the lengths in a spelling can tell.
pub(crate) const LIMIT: u64 = 1 << 32;

/// A number of bytes, or the limit where there are as many or more.
#[derive(Clone, Copy)]
pub(crate) struct Meter {
    size: u64,
}

impl Meter {
    /// Nothing counted.
    pub(crate) fn new() -> Meter
        ensures { result.size ≡ capped 0 }
    {
        Meter { size: 0 }
    }

    /// What was counted.
    pub(crate) fn size(&self) -> u64
        ensures { result ≡ self.now.size }
    {
        self.size
    }

    fn add(&mut self, count: u64)
        ensures size { (n : ℕ) → self.old.size ≡ capped n → self.new.size ≡ capped (n + count) }
    {
        self.size = self.size.saturating_add(count).min(LIMIT);
    }

    // The eight bytes of a number.
    fn add_number(&mut self, number: u64)
        ensures size { (n : ℕ) → self.old.size ≡ capped n → self.new.size ≡ capped (n + length (to_be_bytes w64 number)) }
        ensures short { number < 2 ^ 64 }
    {
        // For the proof alone it matters which number it is: each has eight bytes.
        let _any = number;
        self.add(8);
    }

    fn add_string(&mut self, value: &str)
        ensures size { (n : ℕ) → self.old.size ≡ capped n → self.new.size ≡ capped (n + length (string value.now)) }
        ensures short { length (string value.now) < limit → IsKey value.now }
    {
        self.add(value.len() as u64 + 4);
    }

    fn add_text(&mut self, value: &Text)
        ensures size { (n : ℕ) → self.old.size ≡ capped n → self.new.size ≡ capped (n + length (text value.now)) }
        ensures short { length (text value.now) < limit → IsText value.now }
    {
        self.add_string(value.as_str());
    }

    fn add_optional(&mut self, value: &Option<Text>)
        ensures size { (n : ℕ) → self.old.size ≡ capped n → self.new.size ≡ capped (n + length (optional value.now)) }
        ensures short { length (optional value.now) < limit → IfSome value.now IsText }
    {
        self.add(1);
        if let Some(text) = value {
            self.add_text(text);
        }
    }

    fn add_attributes(&mut self, map: &Attributes)
        ensures size { (n : ℕ) → self.old.size ≡ capped n → self.new.size ≡ capped (n + length (attributes map.now)) }
        ensures short { length (attributes map.now) < limit → AreAttributes map.now }
    {
        self.add(4);
        for (key, value) in map.iter() {
            self.add_attribute(key.as_str(), value.as_str());
        }
    }

    fn add_attribute(&mut self, key: &str, value: &str)
        ensures size { (n : ℕ) → self.old.size ≡ capped n → self.new.size ≡ capped (n + length (attribute (key.now, value.now))) }
        ensures short { length (attribute (key.now, value.now)) < limit → IsAttribute (key.now, value.now) }
    {
        self.add_string(key);
        self.add_string(value);
    }

    fn add_change(&mut self, value: &Change)
        ensures size { (n : ℕ) → self.old.size ≡ capped n → self.new.size ≡ capped (n + length (change value.now)) }
        ensures short { length (change value.now) < limit → IsChange value.now }
    {
        self.add_text(&value.key);
        self.add_optional(&value.old);
        self.add_optional(&value.new);
    }

    fn add_changes(&mut self, changes: &[Change])
        ensures size { (n : ℕ) → self.old.size ≡ capped n → self.new.size ≡ capped (n + length (listed change changes.now)) }
        ensures short { length (listed change changes.now) < limit → AreAll IsChange changes.now }
    {
        self.add(4);
        for change in changes {
            self.add_change(change);
        }
    }

    fn add_keys(&mut self, keys: &[Text])
        ensures size { (n : ℕ) → self.old.size ≡ capped n → self.new.size ≡ capped (n + length (listed text keys.now)) }
        ensures short { length (listed text keys.now) < limit → AreAll IsText keys.now }
    {
        self.add(4);
        for key in keys {
            self.add_text(key);
        }
    }

    fn add_boundary(&mut self, value: &Boundary)
        ensures size { (n : ℕ) → self.old.size ≡ capped n → self.new.size ≡ capped (n + length (boundary value.now)) }
        ensures short { length (boundary value.now) < limit → IsBoundary value.now }
    {
        self.add_keys(value.end.as_slice());
        self.add_changes(value.change.as_slice());
    }

    fn add_element(&mut self, kind: &Text, map: &Attributes)
        ensures size { (n : ℕ) → self.old.size ≡ capped n → self.new.size ≡ capped (n + length (text kind.now ++ attributes map.now)) }
        ensures short { length (text kind.now ++ attributes map.now) < limit → IsText kind.now × AreAttributes map.now }
    {
        self.add_text(kind);
        self.add_attributes(map);
    }

    fn add_component(&mut self, value: &Component)
        ensures size { (n : ℕ) → self.old.size ≡ capped n → self.new.size ≡ capped (n + length (component value.now)) }
        ensures short { length (component value.now) < limit → IsComponent value.now }
    {
        self.add(1);
        match value {
            Component::Retain(count) => self.add_number(*count),
            Component::Characters(text) => self.add_text(text),
            Component::ElementStart { kind, attributes } => self.add_element(kind, attributes),
            Component::ElementEnd => {}
            Component::DeleteCharacters(text) => self.add_text(text),
            Component::DeleteElementStart { kind, attributes } => {
                self.add_element(kind, attributes)
            }
            Component::DeleteElementEnd => {}
            Component::ReplaceAttributes { old, new } => {
                self.add_attributes(old);
                self.add_attributes(new);
            }
            Component::UpdateAttributes(changes) => self.add_changes(changes.as_slice()),
            Component::AnnotationBoundary(boundary) => self.add_boundary(boundary),
        }
    }

    /// Counts the bytes of an operation as it stands.
    pub(crate) fn add_components(&mut self, op: &DocOp)
        ensures size { (n : ℕ) → self.old.size ≡ capped n → self.new.size ≡ capped (n + length (spelling op.now)) }
        ensures short { length (spelling op.now) < limit → IsSpelled op.now }
    {
        self.add(4);
        let components = op.as_slice();
        for component in components {
            self.add_component(component);
        }
    }
}
