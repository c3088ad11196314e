ghost use Rattle.client_session.specs.Laws.{NewIsFollowed, EditIsFollowed, UndoIsFollowed, DropIsFollowed, SubmitIsFollowed, RefusalIsFollowed, SnapshotIsFollowed, UpdateIsFollowed};
ghost use Rattle.client_session.specs.Undoing.{BeginIsUndoable, LineIsUndoable, MessageIsUndoable, LinkIsUndoable, ChangePasses, UndoIsSaid, UndosLeadBack};

/// The law of chains: each step of a wavelet of a run keeps that its chain of undo stands at its follower's screen, and that what takes
/// edits back is valid in turn there.
pub fn chains_follow()
    ensures new { NewIsFollowed }
    ensures edit { EditIsFollowed }
    ensures undo { UndoIsFollowed }
    ensures dropped { DropIsFollowed }
    ensures submit { SubmitIsFollowed }
    ensures refusal { RefusalIsFollowed }
    ensures snapshot { SnapshotIsFollowed }
    ensures update { UpdateIsFollowed }
{}

/// The law of changes made by others: each step of a client keeps that its chains follow, have at most a hundred entries, and insert few
/// items. So another's delta by which a follower advances always passes what is pending and then the entries, and begins no new chain.
pub fn changes_pass()
    ensures begin { BeginIsUndoable }
    ensures line { LineIsUndoable }
    ensures message { MessageIsUndoable }
    ensures link { LinkIsUndoable }
    ensures passes { ChangePasses }
{}

/// The law of undo: at most a hundred edits of the current wavelet, none of them refused, and then as many undos, none of them refused,
/// with nothing received or dropped between, lead to the screen before them. An undo is refused only where there is nothing to undo, or
/// where too many items are pending or the edit that takes back is too big.
pub fn undos_lead_back()
    ensures leads { UndosLeadBack }
    ensures refused { UndoIsSaid }
{}
