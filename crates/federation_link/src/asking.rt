// What copies are asked.
ghost use Rattle.std.specs.Prelude.{◌≡◌, ◌++◌, IsTrue};
ghost use Rattle.peer_turns.specs.Calls.{told, refused, refusals, gifts};
ghost use Rattle.peer_turns.specs.declared.call.TurnCall.TheVariants.{NextRelay, NextCopy};

use peer_turns::{CopyAt, PeerTurns, Relay, TurnFault};
use std::alloc::Global;
use std::sync::Wait;
use wave_base::Domain;

/// The submission at a place among those that wait for an answer of this domain.
pub(crate) fn ask_relay<R: Wait, T: PeerTurns>(
    rt: &R,
    alloc: Global,
    domain: &Domain,
    place: u64,
    turns: &mut T,
) -> Result<Option<Relay>, TurnFault>
    ensures calls { IsTrue T.tells → T.calls turns.new ≡ T.calls turns.old ++ told (NextRelay domain.now place) result }
    ensures spent { IsTrue T.tells → refusals (T.calls turns.new) ≡ refusals (T.calls turns.old) ++ refused result }
    ensures gifts { IsTrue T.tells → gifts (T.calls turns.new) ≡ gifts (T.calls turns.old) }
{
    turns.next_relay(rt, alloc, domain, place)
}

/// How far the copy at a place reaches among those whose host is this domain.
pub(crate) fn ask_copy<R: Wait, T: PeerTurns>(
    rt: &R,
    alloc: Global,
    domain: &Domain,
    place: u64,
    turns: &mut T,
) -> Result<Option<CopyAt>, TurnFault>
    ensures calls { IsTrue T.tells → T.calls turns.new ≡ T.calls turns.old ++ told (NextCopy domain.now place) result }
    ensures spent { IsTrue T.tells → refusals (T.calls turns.new) ≡ refusals (T.calls turns.old) ++ refused result }
    ensures gifts { IsTrue T.tells → gifts (T.calls turns.new) ≡ gifts (T.calls turns.old) }
{
    turns.next_copy(rt, alloc, domain, place)
}
