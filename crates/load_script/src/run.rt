// The load, from its beginning to its summary.
ghost use Rattle.std.specs.Prelude.{◌≡◌, ◌≤◌, IfOk, OnOk};
ghost use Rattle.std.specs.List.{All};
ghost use Rattle.load_script.specs.Loads.{Shows, founded, steps, loaded, summary};
ghost use Rattle.load_script.specs.Scripts.{load_of};

use crate::Summary;
use crate::script::Script;
use doc_items::Memory;
use std::alloc::Global;

// The steps from 1 to the number.
#[tactic(auto, using(crate::proofs::Stepping::steps_none, crate::proofs::Stepping::steps_more))]
fn run(alloc: Global, script: &mut Script, count: u64) -> Result<(), Memory>
    requires { count ≤ 100000 }
    ensures { OnOk result (load_of script.new ≡ steps count (load_of script.old)) }
{
    for before in 0..count {
        script.step(alloc, before + 1)?;
    }
    Ok(())
}

/// Runs the load of a number. A host has no journal and four users' followers, the first of whom adds them all. In each of so many
/// steps a follower that is drawn types or erases a letter at a place that is drawn, or submits what it has and receives what it
/// lacks. At the end the followers submit all that they have and receive all that they lack: then each one's screen is the host's
/// state. The error is want of memory.
#[tactic(auto, unfolding(crate::specs::Loads::loaded), using(crate::proofs::Loading::each_shows))]
pub fn run_load(alloc: Global, count: u64) -> Result<Summary, Memory>
    requires { count ≤ 100000 }
    ensures summary { IfOk result (λ s. s ≡ summary (loaded count)) }
    ensures shown { IfOk result (λ s. All (Shows (loaded count)) (loaded count).followers) }
{
    let mut script = Script::founded(alloc, count)?;
    run(alloc, &mut script, count)?;
    script.settle(alloc, count)?;
    script.level(alloc)?;
    script.summary(alloc)
}
