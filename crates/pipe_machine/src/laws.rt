// The laws of what is sent.
ghost use Rattle.pipe_machine.specs.Held.{SentIsHeld};
ghost use Rattle.pipe_machine.specs.Meant.{SentIsMeant};

/// What turns send of deltas, snapshots and acknowledgements stands in the histories after them, which go on with the deltas that they
/// had.
pub fn sent_is_held()
    ensures { SentIsHeld }
{}

/// Sessions are sent to in ascending byte order of their names, each only what its user may see as the histories are; and an
/// acknowledgement names the delta of that user, the version at which it was applied, and the hashed version after it.
pub fn sent_is_meant()
    ensures { SentIsMeant }
{}
