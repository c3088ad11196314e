// What is tested of a submission before its operations are looked at.
ghost use Rattle.std.specs.Prelude.{◌≡◌, None};
ghost use Rattle.wavelet_op.specs.Acts.{meanings};
ghost use Rattle.delta_history.specs.Histories.{head_of};
ghost use Rattle.delta_history.specs.Legal.{standing};
ghost use Rattle.delta_history.specs.Points.{start};
ghost use Rattle.delta_history.specs.Verdicts.{kept};
ghost use Rattle.wavelet_container.specs.Decisions.{IsTested, IsEarlyTold, MayWrite};

use delta_history::{History, adds_first, started_below};
use wave_base::Address;
use wavelet_op::{Ops, Role, Submission, Verdict};

/// What the first tests tell of a submission.
#[derive(Drop)]
pub(crate) enum Tested {
    /// The verdict.
    Told(Verdict),
    /// Its operations were made after this many deltas.
    Base(usize),
}

/// The first tests, in order: a delta has its id; its author is absent, or may only read; its version is no delta end; the hash
/// there is another.
pub(crate) fn test(history: &History, submission: &Submission) -> Tested
    ensures tested { IsTested history.now submission.now result }
    ensures early { IsEarlyTold result }
{
    match history.kept(&submission.id) {
        Some(kept) => Tested::Told(Verdict::Ack {
            at: kept.at,
            to: kept.to,
        }),
        None => test_author(history, submission),
    }
}

// The tests of its author and of its version, where its id is new.
fn test_author(history: &History, submission: &Submission) -> Tested
    requires { kept submission.now.id (start history.now.name) history.now.deltas ≡ None }
    ensures tested { IsTested history.now submission.now result }
    ensures early { IsEarlyTold result }
{
    // For the proof: the history is legal.
    let _deltas = history.deltas();
    match standing(history, &submission.id.author, &submission.ops) {
        None => Tested::Told(Verdict::NotParticipant),
        Some(Role::ReadOnly) => Tested::Told(Verdict::ReadOnly),
        Some(Role::Full) => test_base(history, submission),
    }
}

// The tests of its version, where the ones before it are passed.
fn test_base(history: &History, submission: &Submission) -> Tested
    requires { MayWrite history.now submission.now }
    ensures tested { IsTested history.now submission.now result }
    ensures early { IsEarlyTold result }
{
    match history.hash_at(submission.at.version) {
        None => Tested::Told(Verdict::UnknownVersion {
            head: history.head(),
        }),
        Some(host) => {
            if host == submission.at.hash {
                let deltas = history.deltas();
                Tested::Base(started_below(deltas, submission.at.version))
            } else {
                Tested::Told(Verdict::WrongHash { host })
            }
        }
    }
}

// The author's role at the head; in an empty history `Full` where the first operation adds it.
fn standing(history: &History, author: &Address, ops: &Ops) -> Option<Role>
    ensures { result ≡ standing history.now.deltas (head_of history.now) author.now (meanings ops.now) }
{
    if !history.deltas().is_empty() {
        return history.state().role(author);
    }
    if adds_first(ops, author) {
        Some(Role::Full)
    } else {
        None
    }
}
