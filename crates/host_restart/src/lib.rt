//! A host that comes back with what a crash left of its journal.
#![tactic(auto)]

ghost use Rattle.std.specs.Prelude.{◌≡◌, ◌≢◌, ℕ, List, [], IfOk, MatchResult, IsTrue};
ghost use Rattle.disk_model.specs.Disk.{LeavesJust};
ghost use Rattle.wave_world.specs.Worlds.{Mem, Event, world_of};
ghost use Rattle.wavelet_container.specs.Containers.{history_of, journal_of, OfBoth};
ghost use Rattle.host_restart.specs.Restarts.{AreLeft, Taking, IsTaking, IsImage, IsOnce, IsHostOf, IsHostAfter, AreImages, LeftIsAccepted, RestartIsEvents};

use disk_model::Disk;
use doc_items::Memory;
use std::alloc::Global;
use wave_base::WaveletName;
use wavelet_container::{Container, LoadFault, LoadRefused, SubmitFault};
use wavelet_op::{Submission, Verdict};

/// Whatever a crash leaves of a host's journal, while a submission is taken and between submissions, and whatever history that stands
/// for: events lead from the world before to one whose host has this history, and that is converged. It is the history before, or
/// that with one delta more, which the verdict accepted of a submission that was sent. So is what a failed append leaves over.
pub fn restart_is_events()
    ensures left { LeftIsAccepted }
    ensures reached { RestartIsEvents }
{}

/// A host's container at the start of the world: `Container::start`, with its conditions.
pub fn begin<K: Disk + Drop>(
    alloc: Global,
    name: WaveletName,
    disk: K,
) -> Result<Container<K>, Memory>
    requires empty { IsTrue K.tells → (K.view disk).seen ≡ [] }
    requires synced { IsTrue K.tells → LeavesJust [] (K.view disk) }
    ensures { IfOk result (λ c. IsTrue K.tells → IsHostOf name [] c) }
{
    Container::start(alloc, name, disk)
}

/// A submission that was sent is taken by a host's container: `Container::submit`. Whatever it answers, the container is that of the
/// host in a world to which events lead, and at each moment of the call a crash leaves an image of the journal.
pub fn take<K: Disk>(
    alloc: Global,
    host: &mut Container<K>,
    submission: &Submission,
    time: u64,
) -> Result<Verdict, SubmitFault>
    ensures host { (name : List ℕ) (events : List Event) → IsHostOf name events host.old
        → Mem submission.now (world_of name events).submissions → IsHostAfter name events host.new }
    ensures images { (name : List ℕ) (events : List Event) → IsHostOf name events host.old
        → OfBoth (journal_of host.old) (journal_of host.new) (AreImages name (world_of name events) submission.now time) }
{
    host.submit(alloc, submission, time)
}

/// A host's container, loaded from the disk of its journal. Where the disk holds what a crash may have left of it, the container is
/// that of the host in a world to which events lead from the world before, and the file isn't called damaged.
pub fn come_back<K: Disk>(
    alloc: Global,
    name: WaveletName,
    disk: K,
) -> Result<Container<K>, LoadRefused<K>>
    ensures { IsTrue K.tells → (events : List Event) (left : List (List ℕ)) (o : Taking) → AreLeft name (world_of name events) left
        → IsTaking (world_of name events) o → IsImage name (world_of name events) left o (K.view disk).seen
        → MatchResult result (λ c. IsHostAfter name events c × IsOnce name (world_of name events) (history_of c).deltas)
        (λ r. (offset : ℕ) → r.fault ≢ LoadFault.Damaged offset) }
{
    Container::load(alloc, name, disk)
}
