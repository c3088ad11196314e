//! Rows of text, each with what a public call answers to it.
//!
//! Each line of standard input is printed again, with the answer after it. A line that is empty or begins with `#` stays as it is.
//! `test_op_rows`, `test_undo_rows`, `test_wavelet_rows`, `test_history_rows` and `test_talk_rows` say which verbs there are.
#![tactic(auto)]

use std::alloc::{AllocError, Global};
use std::io;
use test_talk_rows::Talk;

// The answer of the first crate that has the verb.
fn below(alloc: Global, row: &str) -> Result<Option<String>, AllocError> {
    match test_op_rows::answer(alloc, row) {
        Ok(answer) => Ok(answer),
        Err(fault) => Ok(Some(format!(in alloc; " => {fault:?}")?)),
    }
}

fn undone(alloc: Global, row: &str) -> Result<Option<String>, AllocError> {
    match test_undo_rows::answer(alloc, row) {
        Ok(answer) => Ok(answer),
        Err(fault) => Ok(Some(format!(in alloc; " => {fault:?}")?)),
    }
}

fn above(alloc: Global, row: &str) -> Result<Option<String>, AllocError> {
    match test_wavelet_rows::answer(alloc, row) {
        Ok(answer) => Ok(answer),
        Err(fault) => Ok(Some(format!(in alloc; " => {fault:?}")?)),
    }
}

fn asked(alloc: Global, row: &str) -> Result<Option<String>, AllocError> {
    match test_history_rows::answer(alloc, row) {
        Ok(answer) => Ok(answer),
        Err(fault) => Ok(Some(format!(in alloc; " => {fault:?}")?)),
    }
}

// Rows of these verbs leave something for the rows after them.
fn talked(alloc: Global, talk: &mut Talk, row: &str) -> Result<Option<String>, AllocError> {
    match talk.answer(alloc, row) {
        Ok(answer) => Ok(answer),
        Err(fault) => Ok(Some(format!(in alloc; " => {fault:?}")?)),
    }
}

// What is printed after the row.
fn answer(alloc: Global, talk: &mut Talk, row: &str) -> Result<String, AllocError> {
    if let Some(answer) = below(alloc, row)? {
        return Ok(answer);
    }
    if let Some(answer) = undone(alloc, row)? {
        return Ok(answer);
    }
    if let Some(answer) = above(alloc, row)? {
        return Ok(answer);
    }
    if let Some(answer) = asked(alloc, row)? {
        return Ok(answer);
    }
    if let Some(answer) = talked(alloc, talk, row)? {
        return Ok(answer);
    }
    String::from_str(alloc, " => no such verb")
}

fn print(rt: &HostRuntime, alloc: Global, talk: &mut Talk, row: &str) -> io::Result<()> {
    if row.is_empty() || row.starts_with('#') {
        return println!(rt; "{row}");
    }
    match answer(alloc, talk, row) {
        Ok(answer) => println!(rt; "{row}{answer}"),
        Err(_) => println!(rt; "{row} => no memory"),
    }
}

fn main(rt: HostRuntime) -> io::Result<()> {
    let mut talk = Talk::new(rt.alloc());
    for line in rt.lines(rt.alloc()) {
        let line = line?;
        print(&rt, rt.alloc(), &mut talk, line.as_str())?;
    }
    Ok(())
}
