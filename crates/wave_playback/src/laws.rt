ghost use Rattle.wave_playback.specs.Laws.{LeadBack};

/// The law of playing backwards: from the head of a legal history, what takes its deltas back leads to the state at each delta end,
/// the last delta first.
#[tactic(auto, using(crate::proofs::Backwards::lead_back))]
pub fn inverses_lead_back()
    ensures { LeadBack }
{}
