ghost use Rattle.std.specs.Prelude.{◌≡◌};

use delta_history::History;
use std::marker::Model;
use wave_base::DeltaId;
use wavelet_op::Verdict;

/// The verdict that was noted for a submission.
#[derive(Drop)]
pub struct Noted {
    pub id: DeltaId,
    pub verdict: Verdict,
}

/// Verdicts that were noted, seen as a list.
#[derive(Drop)]
pub struct Notes {
    list: Vec<Noted>,
}

impl Model for Notes {
    ghost use Rattle.std.specs.Prelude.{List};
    ghost use Rattle.test_copies.specs.declared.held.Noted.{Noted};

    ghost Value = { List Noted };

    ghost view = { λ n. n.list.items };
}

impl Notes {
    /// The verdicts of a list.
    pub fn from_vec(list: Vec<Noted>) -> Notes
        ensures { result ≡ list.items }
    {
        Notes { list }
    }

    /// The verdicts.
    pub fn as_slice(&self) -> &[Noted]
        ensures { result.now ≡ self.now }
    {
        self.list.as_slice()
    }
}

/// A copy of a wavelet.
pub struct Held {
    pub history: History,
    /// Whether the wavelet is hosted here.
    pub hosted: bool,
    /// Whether the copy noted a drop, and took no delta since.
    pub dropped: bool,
    /// The verdicts that were noted for submissions.
    pub noted: Notes,
}

impl Drop for Held {
    fn drop(self) {
        let Held {
            history: _history,
            hosted: _hosted,
            dropped: _dropped,
            noted: _noted,
        } = self;
    }
}
