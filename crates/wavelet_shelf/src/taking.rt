// Submissions to one container.
ghost use Rattle.wavelet_shelf.specs.Steps.{IsTaken};

use disk_model::Disk;
use std::alloc::Global;
use wavelet_container::{Container, SubmitFault};
use wavelet_op::{Submission, Verdict};

/// The verdict of the container.
pub(crate) fn taken<K: Disk>(
    alloc: Global,
    container: &mut Container<K>,
    submission: &Submission,
    time: u64,
) -> Result<Verdict, SubmitFault>
    ensures { IsTaken submission.now time container.old container.new result }
{
    container.submit(alloc, submission, time)
}
