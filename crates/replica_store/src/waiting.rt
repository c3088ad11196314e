// Submissions that wait for the host's verdict.
ghost use Rattle.std.specs.Prelude.{◌≡◌, OnOk, OnErr};
ghost use Rattle.follower_rules.specs.Replicas.{is_waiting, without};
ghost use Rattle.replica_store.specs.Settling.{with_waiting};

use doc_items::Memory;
use wave_base::DeltaId;
use wavelet_op::Submission;

/// Whether a submission of the id waits.
pub(crate) fn is_waiting(list: &[Submission], id: &DeltaId) -> bool
    ensures { result ≡ is_waiting id.now list.now }
{
    for submission in list {
        if *id == submission.id {
            return true;
        }
    }
    false
}

/// The submission waits after the others, unless one of its id does. After want of memory all is as it was.
pub(crate) fn queue(list: &mut Vec<Submission>, submission: Submission) -> Result<(), Memory>
    ensures ok { OnOk result (list.new.items ≡ with_waiting submission list.old.items) }
    ensures same { OnErr result (list.new.items ≡ list.old.items) }
{
    if !is_waiting(list.as_slice(), &submission.id) {
        list.push(submission)?;
    }
    Ok(())
}

/// None of the id waits.
pub(crate) fn settle(list: &mut Vec<Submission>, id: &DeltaId)
    ensures { list.new.items ≡ without id.now list.old.items }
{
    list.retain(|submission| *id != submission.id);
}
