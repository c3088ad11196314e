ghost use Rattle.delta_history.specs.Laws.{PointIs, PointThere, PassIs, GoesOn, Begins, KeptIs, KeptThere, JudgedIs, CauseIs};

/// The law of points: a version names one point of a legal history, which the history leads through, and two versions name one way
/// of operations through it. A delta that may come next makes it longer, and what it began with keeps its points.
pub fn points_hold()
    ensures point { PointIs }
    ensures there { PointThere }
    ensures pass { PassIs }
    ensures longer { GoesOn }
    ensures beginning { Begins }
{}

/// The law of verdicts on a legal history. What is kept for an id tells where its delta stands, and nothing is kept exactly where
/// the id is new. An acknowledgement is that of a kept delta, or the history grows by a delta that may come next: the submission's
/// operations, passed through what came since they were made. A verdict of any other kind adds nothing, and has its cause: that the
/// author is absent at the head or may only read; that the version is no delta end, or has another hash; that the operations aren't
/// valid there; or that with the delta which they become at the head a bound would be broken.
pub fn verdicts_hold()
    ensures kept { KeptIs }
    ensures new { KeptThere }
    ensures judged { JudgedIs }
    ensures cause { CauseIs }
{}
