ghost use Rattle.std.specs.Prelude.{◌≤◌};
ghost use Rattle.doc_items.specs.Limits.{max_count};

use crate::WordsFault;
use std::alloc::Global;
use test_op_words::operation;
use wave_base::{Address, DeltaId, DocumentName, HashedVersion};
use wavelet_op::{AppliedDelta, Ops, Role, Submission, WaveletOp};

fn role(word: &str) -> Role {
    if word == "full" {
        Role::Full
    } else {
        Role::ReadOnly
    }
}

fn role_op(alloc: Global, words: &str) -> Result<WaveletOp, WordsFault> {
    let (address, roles) = words.split_once(' ').unwrap_or((words, ""));
    let (old, new) = roles.split_once(' ').unwrap_or((roles, ""));
    Ok(WaveletOp::SetRole {
        address: Address::parse(alloc, address)?,
        old: role(old),
        new: role(new),
    })
}

fn one(alloc: Global, words: &str) -> Result<WaveletOp, WordsFault> {
    if let Some((document, words)) = words.split_once(": ") {
        return Ok(WaveletOp::Mutate {
            document: DocumentName::parse(alloc, document)?,
            op: operation(alloc, words)?,
        });
    }
    if let Some(address) = words.strip_prefix("add ") {
        return Ok(WaveletOp::Add(Address::parse(alloc, address)?));
    }
    if let Some(address) = words.strip_prefix("remove ") {
        return Ok(WaveletOp::Remove(Address::parse(alloc, address)?));
    }
    if let Some(words) = words.strip_prefix("role ") {
        return role_op(alloc, words);
    }
    Ok(WaveletOp::NoOp)
}

/// The operations of these words.
pub fn operations(alloc: Global, words: &str) -> Result<Ops, WordsFault> {
    let mut list = Vec::new(alloc);
    for word in words.split("; ") {
        if list.push(one(alloc, word)?).is_err() {
            return Err(WordsFault::Memory);
        }
    }
    match Ops::new(list) {
        Some(ops) => Ok(ops),
        None => Err(WordsFault::Count),
    }
}

/// The id of the author's delta of this number, of client 1.
pub fn id(alloc: Global, author: &str, number: u64) -> Result<DeltaId, WordsFault>
    requires { number ≤ max_count }
{
    Ok(DeltaId {
        author: Address::parse(alloc, author)?,
        client: 1,
        number,
    })
}

/// The operations of these words, as the author submits them at a version.
pub fn submission(
    alloc: Global,
    author: &str,
    number: u64,
    at: HashedVersion,
    words: &str,
) -> Result<Submission, WordsFault>
    requires { number ≤ max_count }
{
    let id = id(alloc, author, number)?;
    let ops = operations(alloc, words)?;
    Ok(Submission { id, at, ops })
}

/// The delta of these words at a version, in normal form, applied at the time 1000.
pub fn delta_at(
    alloc: Global,
    author: &str,
    number: u64,
    from: HashedVersion,
    words: &str,
) -> Result<AppliedDelta, WordsFault>
    requires { number ≤ max_count }
{
    let id = id(alloc, author, number)?;
    let ops = operations(alloc, words)?;
    Ok(AppliedDelta {
        id,
        from,
        time: 1000,
        ops: ops.normal(alloc)?,
    })
}
