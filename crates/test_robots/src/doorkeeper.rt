// The robot of examples/README.md.
use doc_items::Memory;
use robot_host::{Reaction, Robot};
use std::alloc::Global;
use wave_base::{Address, WaveletName};
use wavelet_op::{AppliedDelta, Ops, Role, WaveletOp};
use wavelet_state::WaveletState;

/// A robot that lets new participants read, until somebody lets them write.
pub struct Doorkeeper {
    pub address: Address,
}

impl Drop for Doorkeeper {
    fn drop(self) {
        let Doorkeeper { address: _address } = self;
    }
}

fn lowered(alloc: Global, participant: &Address) -> Result<WaveletOp, Memory> {
    let address = participant.copy(alloc)?;
    Ok(WaveletOp::SetRole {
        address,
        old: Role::Full,
        new: Role::ReadOnly,
    })
}

// Those that a delta adds, but for its author and the robot itself.
fn lowered_all(
    alloc: Global,
    delta: &AppliedDelta,
    own: &Address,
) -> Result<Vec<WaveletOp>, Memory> {
    let mut answer = Vec::new(alloc);
    for op in delta.ops.as_slice() {
        if let WaveletOp::Add(participant) = op {
            if participant != own && *participant != delta.id.author {
                answer.push(lowered(alloc, participant)?)?;
            }
        }
    }
    Ok(answer)
}

impl Robot for Doorkeeper {
    ghost use Rattle.std.specs.Prelude.{None};

    ghost named = { λ r. r.address };

    ghost calls = { λ _. None };

    fn address(&self) -> &Address {
        &self.address
    }

    fn react(
        &mut self,
        alloc: Global,
        _name: &WaveletName,
        delta: &AppliedDelta,
        _state: &WaveletState,
    ) -> Result<Reaction, Memory> {
        let answer = lowered_all(alloc, delta, &self.address)?;
        match Ops::new(answer) {
            Some(ops) => Ok(Reaction::Edit(ops)),
            None => Ok(Reaction::Quiet),
        }
    }
}
