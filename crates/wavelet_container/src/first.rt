// The first tests of the first submission to a wavelet.
ghost use Rattle.std.specs.Prelude.{◌≡◌, ℕ, [], None, true, IfSome};
ghost use Rattle.wavelet_op.specs.Acts.{meanings};
ghost use Rattle.delta_history.specs.Legal.{adds_first};
ghost use Rattle.delta_history.specs.Verdicts.{judge};
ghost use Rattle.wavelet_container.specs.Decisions.{LooksAtOps};

use delta_history::adds_first;
use wave_base::{HashedVersion, WaveletName};
use wave_hash::zero_hash;
use wavelet_op::{Submission, Verdict};

/// The verdict on a submission to the empty history of this name, where it comes before the operations are looked at: their author
/// isn't added by the first of them, or the version isn't 0, or the hash isn't that of the name. None exactly where the operations
/// decide. It takes no memory.
pub fn first_verdict(name: &WaveletName, submission: &Submission) -> Option<Verdict>
    ensures told { IfSome result (λ v. (t : ℕ) → judge name.now [] submission.now t ≡ (v, None)) }
    ensures left { result ≡ None → (t : ℕ) → LooksAtOps (judge name.now [] submission.now t) }
{
    if adds_first(&submission.ops, &submission.id.author) {
        at_start(name, submission)
    } else {
        Some(Verdict::NotParticipant)
    }
}

// The tests of the version and the hash.
fn at_start(name: &WaveletName, submission: &Submission) -> Option<Verdict>
    requires adds { adds_first (meanings submission.now.ops) submission.now.id.author ≡ true }
    ensures told { IfSome result (λ v. (t : ℕ) → judge name.now [] submission.now t ≡ (v, None)) }
    ensures left { result ≡ None → (t : ℕ) → LooksAtOps (judge name.now [] submission.now t) }
{
    let hash = zero_hash(name);
    if submission.at.version == 0 {
        if submission.at.hash == hash {
            None
        } else {
            Some(Verdict::WrongHash { host: hash })
        }
    } else {
        let head = HashedVersion { version: 0, hash };
        Some(Verdict::UnknownVersion { head })
    }
}
