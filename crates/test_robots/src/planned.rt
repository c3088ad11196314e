// A robot whose answers are planned, call by call.
use crate::histories::ROBOT;
use doc_items::Memory;
use robot_host::{Reaction, Robot};
use std::alloc::{AllocError, Global};
use std::test::Fail;
use wave_base::{Address, WaveletName};
use wavelet_op::{AppliedDelta, Ops, WaveletOp};
use wavelet_state::WaveletState;

/// One answer of the robot.
#[derive(Clone, Copy, Drop)]
pub(crate) enum Answer {
    Quiet,
    Edit,
    Leave,
    Memory,
}

/// A robot that gives its answers in turn, and is quiet after them. It doesn't tell its calls.
pub(crate) struct Planned {
    address: Address,
    answers: Vec<Answer>,
    given: usize,
}

impl Drop for Planned {
    fn drop(self) {
        let Planned {
            address: _address,
            answers: _answers,
            given: _given,
        } = self;
    }
}

impl Planned {
    pub(crate) fn new(alloc: Global, answers: &[Answer]) -> Result<Planned, Fail> {
        Ok(Planned {
            address: Address::parse(alloc, ROBOT)?,
            answers: Vec::from_slice(alloc, answers)?,
            given: 0,
        })
    }
}

// An edit that does nothing.
fn edit(alloc: Global) -> Result<Reaction, Memory> {
    let mut list = Vec::new(alloc);
    list.push(WaveletOp::NoOp)?;
    match Ops::new(list) {
        Some(ops) => Ok(Reaction::Edit(ops)),
        None => Ok(Reaction::Quiet),
    }
}

impl Robot for Planned {
    ghost use Rattle.std.specs.Prelude.{None};

    ghost named = { λ r. r.address };

    ghost calls = { λ _. None };

    fn address(&self) -> &Address {
        &self.address
    }

    fn react(
        &mut self,
        alloc: Global,
        _name: &WaveletName,
        _delta: &AppliedDelta,
        _state: &WaveletState,
    ) -> Result<Reaction, Memory> {
        let answer = self.answers.get(self.given).copied();
        self.given = self.given.wrapping_add(1);
        match answer {
            Some(Answer::Edit) => edit(alloc),
            Some(Answer::Leave) => Ok(Reaction::Leave),
            Some(Answer::Memory) => Err(AllocError),
            Some(Answer::Quiet) | None => Ok(Reaction::Quiet),
        }
    }
}
