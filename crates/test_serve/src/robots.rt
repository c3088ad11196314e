//! The robots of a talk.
use doc_items::Memory;
use robot_echo::Echo;
use robot_host::{Reaction, Robot};
use std::alloc::Global;
use std::sync::Arc;
use std::sync::atomic::{AtomicU64, Ordering};
use test_disk_rows::Fault;
use wave_base::{Address, Domain, WaveletName};
use wavelet_op::{AppliedDelta, Ops, WaveletOp};
use wavelet_state::WaveletState;

/// What a robot answers to each delta that it is shown.
#[derive(Clone, Copy, Drop)]
pub enum Manner {
    /// What `echo` answers.
    Echoes,
    /// Nothing.
    Listens,
    /// An edit that does nothing.
    Nods,
    /// An edit that isn't valid: it removes itself twice.
    Errs,
    /// That it leaves.
    Leaves,
}

/// The manner of a row's word.
pub fn manner_of(word: &str) -> Result<Manner, Fault> {
    match word {
        "echoes" => Ok(Manner::Echoes),
        "listens" => Ok(Manner::Listens),
        "nods" => Ok(Manner::Nods),
        "errs" => Ok(Manner::Errs),
        "leaves" => Ok(Manner::Leaves),
        _ => Err(Fault::BadRow),
    }
}

/// A robot that counts what it is shown. It doesn't tell its calls.
pub struct StagedRobot {
    address: Address,
    manner: Manner,
    echo: Echo,
    shown: Arc<AtomicU64, Global>,
}

impl Drop for StagedRobot {
    fn drop(self) {
        let StagedRobot {
            address: _address,
            manner: _manner,
            echo: _echo,
            shown: _shown,
        } = self;
    }
}

impl StagedRobot {
    /// A robot of this address at this domain, which counts here.
    pub fn new(
        alloc: Global,
        address: Address,
        domain: &Domain,
        manner: Manner,
        shown: Arc<AtomicU64, Global>,
    ) -> Result<StagedRobot, Memory> {
        let echo = Echo::new(alloc, domain)?;
        Ok(StagedRobot {
            address,
            manner,
            echo,
            shown,
        })
    }
}

// An edit of one operation or two.
fn edit_of(alloc: Global, first: WaveletOp, second: Option<WaveletOp>) -> Result<Reaction, Memory> {
    let mut list = Vec::new(alloc);
    list.push(first)?;
    if let Some(second) = second {
        list.push(second)?;
    }
    match Ops::new(list) {
        Some(ops) => Ok(Reaction::Edit(ops)),
        None => Ok(Reaction::Quiet),
    }
}

impl Robot for StagedRobot {
    ghost use Rattle.std.specs.Prelude.{None};

    ghost named = { λ r. r.address };

    ghost calls = { λ _. None };

    fn address(&self) -> &Address {
        &self.address
    }

    fn react(
        &mut self,
        alloc: Global,
        name: &WaveletName,
        delta: &AppliedDelta,
        state: &WaveletState,
    ) -> Result<Reaction, Memory> {
        let _before = self.shown.fetch_add(1, Ordering::SeqCst);
        match self.manner {
            Manner::Echoes => self.echo.react(alloc, name, delta, state),
            Manner::Listens => Ok(Reaction::Quiet),
            Manner::Nods => edit_of(alloc, WaveletOp::NoOp, None),
            Manner::Errs => {
                let first = WaveletOp::Remove(self.address.copy(alloc)?);
                let second = WaveletOp::Remove(self.address.copy(alloc)?);
                edit_of(alloc, first, Some(second))
            }
            Manner::Leaves => Ok(Reaction::Leave),
        }
    }
}
