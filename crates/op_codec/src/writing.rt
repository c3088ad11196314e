// What is appended for each part of an operation. After want of memory a part of it may stand after what was there.
ghost use Rattle.std.specs.Prelude.{◌≡◌, ◌++◌, ◌∷◌, OnErr, OnOk};
ghost use Rattle.std.specs.Int.{w32, to_be_bytes};
ghost use Rattle.std.specs.Io.{StartsWith};
ghost use Rattle.op_codec.specs.Spelling.{string, text, optional, listed, attributes, change, boundary, component, spelling};

use doc_items::{Attributes, Boundary, Change, Memory, Text};
use doc_op::{Component, DocOp};

// The four low bytes of a count.
fn write_count(out: &mut Vec<u8>, count: usize) -> Result<(), Memory>
    ensures appended { OnOk result (out.new.items ≡ out.old.items ++ to_be_bytes w32 count) }
    ensures begins { OnErr result (StartsWith out.new.items out.old.items) }
{
    let bytes = (count as u64).to_be_bytes();
    let [_, _, _, _, low @ ..] = bytes.as_slice() else {
        unreachable!()
    };
    out.extend_from_slice(low)?;
    Ok(())
}

fn write_string(out: &mut Vec<u8>, value: &str) -> Result<(), Memory>
    ensures appended { OnOk result (out.new.items ≡ out.old.items ++ string value.now) }
    ensures begins { OnErr result (StartsWith out.new.items out.old.items) }
{
    write_count(out, value.len())?;
    out.extend_from_slice(value.as_bytes())?;
    Ok(())
}

fn write_text(out: &mut Vec<u8>, value: &Text) -> Result<(), Memory>
    ensures appended { OnOk result (out.new.items ≡ out.old.items ++ text value.now) }
    ensures begins { OnErr result (StartsWith out.new.items out.old.items) }
{
    write_string(out, value.as_str())
}

fn write_optional(out: &mut Vec<u8>, value: &Option<Text>) -> Result<(), Memory>
    ensures appended { OnOk result (out.new.items ≡ out.old.items ++ optional value.now) }
    ensures begins { OnErr result (StartsWith out.new.items out.old.items) }
{
    match value {
        Some(text) => {
            out.push(1)?;
            write_text(out, text)
        }
        None => {
            out.push(0)?;
            Ok(())
        }
    }
}

fn write_attributes(out: &mut Vec<u8>, map: &Attributes) -> Result<(), Memory>
    ensures appended { OnOk result (out.new.items ≡ out.old.items ++ attributes map.now) }
    ensures begins { OnErr result (StartsWith out.new.items out.old.items) }
{
    write_count(out, map.len())?;
    for (key, value) in map.iter() {
        write_string(out, key.as_str())?;
        write_string(out, value.as_str())?;
    }
    Ok(())
}

fn write_change(out: &mut Vec<u8>, value: &Change) -> Result<(), Memory>
    ensures appended { OnOk result (out.new.items ≡ out.old.items ++ change value.now) }
    ensures begins { OnErr result (StartsWith out.new.items out.old.items) }
{
    write_text(out, &value.key)?;
    write_optional(out, &value.old)?;
    write_optional(out, &value.new)
}

fn write_changes(out: &mut Vec<u8>, changes: &[Change]) -> Result<(), Memory>
    ensures appended { OnOk result (out.new.items ≡ out.old.items ++ listed change changes.now) }
    ensures begins { OnErr result (StartsWith out.new.items out.old.items) }
{
    write_count(out, changes.len())?;
    for change in changes {
        write_change(out, change)?;
    }
    Ok(())
}

fn write_boundary(out: &mut Vec<u8>, value: &Boundary) -> Result<(), Memory>
    ensures appended { OnOk result (out.new.items ≡ out.old.items ++ boundary value.now) }
    ensures begins { OnErr result (StartsWith out.new.items out.old.items) }
{
    write_keys(out, value.end.as_slice())?;
    write_changes(out, value.change.as_slice())
}

fn write_keys(out: &mut Vec<u8>, keys: &[Text]) -> Result<(), Memory>
    ensures appended { OnOk result (out.new.items ≡ out.old.items ++ listed text keys.now) }
    ensures begins { OnErr result (StartsWith out.new.items out.old.items) }
{
    write_count(out, keys.len())?;
    for key in keys {
        write_text(out, key)?;
    }
    Ok(())
}

fn write_element(out: &mut Vec<u8>, tag: u8, kind: &Text, map: &Attributes) -> Result<(), Memory>
    ensures appended { OnOk result (out.new.items ≡ out.old.items ++ tag ∷ (text kind.now ++ attributes map.now)) }
    ensures begins { OnErr result (StartsWith out.new.items out.old.items) }
{
    out.push(tag)?;
    write_text(out, kind)?;
    write_attributes(out, map)
}

fn write_component(out: &mut Vec<u8>, value: &Component) -> Result<(), Memory>
    ensures appended { OnOk result (out.new.items ≡ out.old.items ++ component value.now) }
    ensures begins { OnErr result (StartsWith out.new.items out.old.items) }
{
    match value {
        Component::Retain(count) => {
            out.push(1)?;
            out.extend_from_slice(&count.to_be_bytes())?;
            Ok(())
        }
        Component::Characters(text) => {
            out.push(2)?;
            write_text(out, text)
        }
        Component::ElementStart { kind, attributes } => write_element(out, 3, kind, attributes),
        Component::ElementEnd => {
            out.push(4)?;
            Ok(())
        }
        Component::DeleteCharacters(text) => {
            out.push(5)?;
            write_text(out, text)
        }
        Component::DeleteElementStart { kind, attributes } => {
            write_element(out, 6, kind, attributes)
        }
        Component::DeleteElementEnd => {
            out.push(7)?;
            Ok(())
        }
        Component::ReplaceAttributes { old, new } => {
            out.push(8)?;
            write_attributes(out, old)?;
            write_attributes(out, new)
        }
        Component::UpdateAttributes(changes) => {
            out.push(9)?;
            write_changes(out, changes.as_slice())
        }
        Component::AnnotationBoundary(boundary) => {
            out.push(10)?;
            write_boundary(out, boundary)
        }
    }
}

/// Appends the bytes of an operation as it stands. After want of memory a part of them may stand after what was there.
pub(crate) fn write_components(out: &mut Vec<u8>, op: &DocOp) -> Result<(), Memory>
    ensures appended { OnOk result (out.new.items ≡ out.old.items ++ spelling op.now) }
    ensures begins { OnErr result (StartsWith out.new.items out.old.items) }
{
    let components = op.as_slice();
    write_count(out, components.len())?;
    for component in components {
        write_component(out, component)?;
    }
    Ok(())
}
