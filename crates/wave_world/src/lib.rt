//! The laws of the world: each is the contract of a function that takes nothing and answers nothing.
#![tactic(auto)]

ghost use Rattle.wave_world.specs.Converged.{WorldConverges, OnlyGrows, DeltaIsTaken, DeltaIsAbsorbed, KeptIsAnswered, RefusedIsCaused, FollowerIsHeard, GoesOnAlike, AcceptedIsOneEvent};
ghost use Rattle.wave_world.specs.Square.{ActionSquare, Square};

/// Two operations that are valid at one document have a transform. Both ways round lead to one document, balanced where the
/// first was, and both results are structured. The same holds of lists of actions, spelled or not.
pub fn square_holds()
    ensures operations { Square }
    ensures actions { ActionSquare }
{}

/// Whatever happens to a wavelet, in whatever order, and whatever the network loses, repeats or reorders: it has one legal history,
/// which only grows. Every delta and snapshot ever sent is of it, every acknowledgement names its delta, and each copy is a
/// beginning of it. A follower at a version has the state, the hash and the number of inserted items of that version; its flight is
/// the submission as it was sent, passed through what came since, and what is pending is valid there. A delta that starts where a
/// follower or a copy stands is taken there, and moves the follower's screen as it should. A submission whose delta is there is
/// acknowledged. One that is refused has the cause that it is told: its author's access at the head, a version or hash that the history
/// hasn't, operations that aren't valid there, or a bound that its delta would break. A follower's is refused for access or for a
/// bound only.
pub fn world_converges()
    ensures converged { WorldConverges }
    ensures grows { OnlyGrows }
    ensures taken { DeltaIsTaken }
    ensures absorbed { DeltaIsAbsorbed }
    ensures kept { KeptIsAnswered }
    ensures refused { RefusedIsCaused }
    ensures heard { FollowerIsHeard }
{}

/// A host that goes on with the history that it had does so by no event. One that goes on with it and with the delta that it
/// accepted of a pooled submission, whose answer was lost, took that submission: the world is converged, and the submission sent
/// again is acknowledged.
pub fn restart_holds()
    ensures alike { GoesOnAlike }
    ensures one { AcceptedIsOneEvent }
{}
