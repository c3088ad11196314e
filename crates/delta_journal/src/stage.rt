// How far a journal's file is.
ghost use Rattle.std.specs.Prelude.{◌≡◌, true, false, IfSome, IfNone, OnSome};
ghost use Rattle.delta_journal.specs.Stage.{is_unsure_at, repaired_at};

/// The byte of a closed gate that is written. Every other byte but `OPEN` is closed too.
pub(crate) const CLOSED: u8 = 0;

/// The byte of an open gate.
pub(crate) const OPEN: u8 = 1;

#[derive(Drop)]
pub(crate) enum Stage {
    /// There may be no first gate yet.
    Blank,
    /// The first gate is closed.
    Shut,
    /// The header is there, and its gate may be open.
    Opening,
    /// The header is there after an open gate, and the gate after the records is closed.
    Headed,
    /// The same, but that gate may be open, and this block is after it: a record's length, its bytes and a closed
    /// gate.
    Adding(Vec<u8>),
}

impl Stage {
    /// Whether the gate in question may be open.
    pub(crate) fn is_unsure(&self) -> bool
        ensures { result ≡ is_unsure_at self.now }
    {
        match self {
            Stage::Opening => true,
            Stage::Adding(_) => true,
            Stage::Blank => false,
            Stage::Shut => false,
            Stage::Headed => false,
        }
    }

    /// The stage once that gate is closed again, where it may be open.
    pub(crate) fn repaired(&self) -> Option<Stage>
        ensures sure { IfNone result (is_unsure_at self.now ≡ false) }
        ensures unsure { OnSome result (is_unsure_at self.now ≡ true) }
        ensures stage { IfSome result (λ stage. stage ≡ repaired_at self.now) }
    {
        match self {
            Stage::Opening => Some(Stage::Shut),
            Stage::Adding(_) => Some(Stage::Headed),
            Stage::Blank => None,
            Stage::Shut => None,
            Stage::Headed => None,
        }
    }
}
