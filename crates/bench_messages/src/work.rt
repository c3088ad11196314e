//! The work that is measured.

use std::alloc::Global;
use wave_messages::{MAX_CLIENT, Message, read, write};

/// A message as it is written, and as it is read.
#[derive(Drop)]
pub struct Inputs {
    bytes: Vec<u8>,
    message: Message,
}

impl Inputs {
    /// The message that is written so; None where it is none, and for want of memory.
    pub fn read(alloc: Global, bytes: Vec<u8>) -> Option<Inputs> {
        match read(alloc, &bytes, MAX_CLIENT) {
            Ok(message) => Some(Inputs { bytes, message }),
            Err(_) => None,
        }
    }
}

/// What is done with it.
#[derive(Clone, Copy)]
pub enum Work {
    /// It is read.
    Read,
    /// It is written.
    Write,
}

impl Work {
    /// The work of that name.
    pub fn named(word: &str) -> Option<Work> {
        match word {
            "read" => Some(Work::Read),
            "write" => Some(Work::Write),
            _ => None,
        }
    }

    /// Does the work once, and tells how many bytes were read or written; None where there is no such message, and for want of
    /// memory.
    pub fn once(self, alloc: Global, inputs: &Inputs) -> Option<u64> {
        match self {
            Work::Read => read_once(alloc, &inputs.bytes),
            Work::Write => written(alloc, &inputs.message),
        }
    }
}

fn read_once(alloc: Global, bytes: &[u8]) -> Option<u64> {
    match read(alloc, bytes, MAX_CLIENT) {
        Ok(_) => Some(bytes.len() as u64),
        Err(_) => None,
    }
}

// Nothing but a `submit` is written.
fn written(alloc: Global, message: &Message) -> Option<u64> {
    match message {
        Message::Submit { .. } => match write(alloc, message) {
            Ok(bytes) => Some(bytes.len() as u64),
            Err(_) => None,
        },
        _ => None,
    }
}
