use doc_items::{Attributes, Boundary, Change, Changes, Keys, Memory, Text};
use doc_op::{Builder, Component, DocOp, OpFault};
use std::alloc::Global;

fn value(alloc: Global, word: &str) -> Result<Option<Text>, Memory> {
    if word == "_" {
        return Ok(None);
    }
    Ok(Some(Text::from_str(alloc, word)?))
}

// What has no `=` is passed over: it is an element's type, or a key that ends.
fn attributes(alloc: Global, list: &str) -> Result<Attributes, Memory> {
    let mut attributes = Attributes::new(alloc);
    for part in list.split(',') {
        if let Some((key, value)) = part.split_once('=') {
            attributes.set(alloc, key, Some(value))?;
        }
    }
    Ok(attributes)
}

fn kind(alloc: Global, list: &str) -> Result<Text, Memory> {
    match list.split_once(',') {
        Some((kind, _)) => Text::from_str(alloc, kind),
        None => Text::from_str(alloc, list),
    }
}

fn changes(alloc: Global, list: &str) -> Result<Changes, Memory> {
    let mut changes = Vec::new(alloc);
    for part in list.split(',') {
        if let Some((key, values)) = part.split_once('=') {
            let (old, new) = values.split_once(':').unwrap_or((values, values));
            changes.push(Change {
                key: Text::from_str(alloc, key)?,
                old: value(alloc, old)?,
                new: value(alloc, new)?,
            })?;
        }
    }
    Ok(Changes::from_vec(changes))
}

fn ends(alloc: Global, list: &str) -> Result<Keys, Memory> {
    let mut keys = Vec::new(alloc);
    for part in list.split(',') {
        if let Some(key) = part.strip_prefix('!') {
            keys.push(Text::from_str(alloc, key)?)?;
        }
    }
    Ok(Keys::from_vec(keys))
}

fn component(alloc: Global, word: &str) -> Result<Component, Memory> {
    if let Some(deleted) = word.strip_prefix('-') {
        return deletion(alloc, deleted);
    }
    if let Some(list) = word.strip_prefix('<') {
        return Ok(Component::ElementStart {
            kind: kind(alloc, list)?,
            attributes: attributes(alloc, list)?,
        });
    }
    if let Some(characters) = word.strip_prefix('+') {
        return Ok(Component::Characters(Text::from_str(alloc, characters)?));
    }
    if word == ">" {
        return Ok(Component::ElementEnd);
    }
    change(alloc, word)
}

fn deletion(alloc: Global, word: &str) -> Result<Component, Memory> {
    if let Some(list) = word.strip_prefix('<') {
        return Ok(Component::DeleteElementStart {
            kind: kind(alloc, list)?,
            attributes: attributes(alloc, list)?,
        });
    }
    if word == ">" {
        return Ok(Component::DeleteElementEnd);
    }
    Ok(Component::DeleteCharacters(Text::from_str(alloc, word)?))
}

// What is no number retains nothing, which a builder refuses.
fn change(alloc: Global, word: &str) -> Result<Component, Memory> {
    if let Some(list) = word.strip_prefix('~') {
        return Ok(Component::UpdateAttributes(changes(alloc, list)?));
    }
    if let Some(list) = word.strip_prefix('/') {
        return Ok(Component::AnnotationBoundary(Boundary {
            end: ends(alloc, list)?,
            change: changes(alloc, list)?,
        }));
    }
    if let Some(lists) = word.strip_prefix('%') {
        let (old, new) = lists.split_once('|').unwrap_or((lists, ""));
        return Ok(Component::ReplaceAttributes {
            old: attributes(alloc, old)?,
            new: attributes(alloc, new)?,
        });
    }
    Ok(Component::Retain(word.parse::<u64>().unwrap_or(0)))
}

/// The operation of these words, which stand apart by spaces. Refusals are those of `Builder::add`.
pub fn operation(alloc: Global, words: &str) -> Result<DocOp, OpFault> {
    let mut builder = Builder::new(alloc);
    for word in words.split(' ') {
        if !word.is_empty() {
            builder.add(alloc, component(alloc, word)?)?;
        }
    }
    Ok(builder.finish())
}
