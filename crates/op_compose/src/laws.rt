ghost use Rattle.op_compose.specs.Laws.{CompositionHolds};

/// The law of composition, on every document.
pub fn composition_holds()
    ensures { CompositionHolds }
{}
