//! What stays so when the histories of shards grow.
ghost use Rattle.std.specs.Prelude.{ℕ, List};
ghost use Rattle.shard_marks.specs.declared.mark.Mark.{Mark};
ghost use Rattle.shard_marks.specs.Servers.{ServerOf};
ghost use Rattle.session_steps.specs.Going.{Grow};
ghost use Rattle.session_steps.specs.Served.{IsWalk};
ghost use Rattle.session_steps.specs.Steps.{Progress};
ghost use Rattle.session_steps.specs.declared.step.LinkStep.{LinkStep};

/// Steps that account for a session by some marks account for it by any marks that begin with them.
#[tactic(auto, using(crate::proofs::Growing::walk_later))]
pub fn walks_stay()
    ensures { (v : ServerOf) (m n : ℕ → List Mark) (begun : ℕ → ℕ) (ss : List LinkStep) (a : Progress) → Grow m n
        → IsWalk v m begun ss a → IsWalk v n begun ss a }
{}
