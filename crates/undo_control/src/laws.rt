ghost use Rattle.undo_control.specs.Laws.{EditKeeps, ChangeKeeps, UndoKeeps, ChangeIsTaken, CrowdIsRefused, ChangeHasRoom, EditIsLight, ChangeIsLight, UndosTakeBack};

/// The law of the steps of a chain: an edit of one's own, a change made by others and an undo each keep the entries valid in turn
/// at the state.
#[tactic(auto, using(crate::proofs::Keeping::edit_keeps, crate::proofs::Keeping::change_keeps, crate::proofs::Keeping::undo_keeps))]
pub fn chains_keep()
    ensures edit { EditKeeps }
    ensures change { ChangeKeeps }
    ensures undo { UndoKeeps }
{}

/// The law of changes made by others: one that is valid at the state is taken, unless some entry and what is left of the change for
/// it are over too many items together, and then it is refused. None is where the state's documents, the entries and the change
/// have few enough items together.
pub fn changes_pass()
    ensures taken { ChangeIsTaken }
    ensures refused { CrowdIsRefused }
    ensures room { ChangeHasRoom }
{}

/// The law of what entries insert: an edit of at most two operations puts one in front that inserts no more than twice what a
/// document has then, and a change made by others makes none insert more.
pub fn entries_stay_light()
    ensures edit { EditIsLight }
    ensures change { ChangeIsLight }
{}

/// The law of undo: at most 100 edits of one's own, whose inverses have at most 1,000 operations each, and then as many undos lead
/// to the state before the first of them. The older entries are left, but for those that the edits pushed out.
#[tactic(auto, using(crate::proofs::Undoing::undos_take_back))]
pub fn undos_take_back()
    ensures { UndosTakeBack }
{}
