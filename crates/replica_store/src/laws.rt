ghost use Rattle.replica_store.specs.Laws.{AbsorbsNext, NextIsAbsorbed, NewestOnce, NewestStay};

/// The law of the next delta: a copy in the world absorbs exactly what may come next in its history.
pub fn copies_absorb()
    ensures absorbs { AbsorbsNext }
    ensures next { NextIsAbsorbed }
{}

/// The law of what is let go: a verdict is kept while fewer come after it than may be kept, and it makes no difference when older ones go.
pub fn newest_verdicts_stay()
    ensures once { NewestOnce }
    ensures stay { NewestStay }
{}
