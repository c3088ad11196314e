// How deep a walk is in deleted elements.
ghost use Rattle.std.specs.Prelude.{◌≡◌, ◌<◌, ◌^◌};
ghost use Rattle.doc_op.specs.Runs.{contents};
ghost use Rattle.op_transform.specs.Walks.{levels};

use doc_op::ContentRun;

/// The depth after the contents.
#[tactic(auto, using(crate::proofs::Runs::levels_text))]
pub(crate) fn level(run: ContentRun<'_>, depth: u64) -> u64
    requires { depth < 2 ^ 63 }
    ensures { result ≡ levels (contents run.entry) depth }
{
    match run {
        ContentRun::Characters(_) => depth,
        ContentRun::Start { .. } => depth + 1,
        ContentRun::End => depth.saturating_sub(1),
    }
}
