// Texts that are sent.
ghost use Rattle.std.specs.Prelude.{◌≡◌, ◌≤◌, ◌<◌, ◌+◌, ◌++◌, ◌∷◌, [], map, drop, length, IsTrue, IfErr, OnOk, OnErr};
ghost use mathlib.Core.List.{IsPrefix};
ghost use Rattle.wave_outside.specs.Counts.{Rose};
ghost use Rattle.wave_outside.specs.Links.{received, sent};
ghost use Rattle.wave_outside.specs.declared.link.LinkFault.TheVariants.{Failed};
ghost use Rattle.session_steps.specs.Served.{poll_count};
ghost use Rattle.session_steps.specs.Texts.{text_of, texts_of};

use std::alloc::Global;
use wave_outside::{Link, LinkFault};

// Sends the text at a place.
#[tactic(auto, using(session_steps::proofs::Events::received_same, session_steps::proofs::Events::polls_same))]
fn send_one<L: Link>(
    alloc: Global,
    link: &mut L,
    texts: &[Vec<u8>],
    place: usize,
) -> Result<(), LinkFault>
    requires { place < length texts.now }
    ensures ok { IsTrue L.tells
        → OnOk result (sent (L.events link.new) ++ texts_of (drop (place + 1) texts.now) ≡ sent (L.events link.old)
        ++ texts_of (drop place texts.now)) }
    ensures err { IsTrue L.tells → OnErr result (sent (L.events link.new) ≡ sent (L.events link.old)) }
    ensures more { IsTrue L.tells → IsPrefix (sent (L.events link.old)) (sent (L.events link.new)) }
    ensures received { IsTrue L.tells → received (L.events link.new) ≡ received (L.events link.old) }
    ensures polls { IsTrue L.tells → poll_count (L.events link.new) ≡ poll_count (L.events link.old) }
    ensures failed { IfErr result (λ e. e ≡ Failed → Rose (L.faults link.old) (L.faults link.new)) }
    ensures later { L.faults link.old ≤ L.faults link.new }
    ensures closed { L.closed link.new ≡ L.closed link.old }
{
    match link.send(alloc, texts[place].as_slice()) {
        Ok(()) => Ok(()),
        Err(fault) => Err(fault),
    }
}

/// Sends texts, in order, up to the first that fails.
pub(crate) fn send_all<L: Link>(
    alloc: Global,
    link: &mut L,
    texts: &[Vec<u8>],
) -> Result<(), LinkFault>
    ensures ok { IsTrue L.tells → OnOk result (sent (L.events link.new) ≡ sent (L.events link.old) ++ texts_of texts.now) }
    ensures err { IsTrue L.tells
        → OnErr result (IsPrefix (sent (L.events link.old)) (sent (L.events link.new))
        × IsPrefix (sent (L.events link.new)) (sent (L.events link.old) ++ texts_of texts.now)) }
    ensures received { IsTrue L.tells → received (L.events link.new) ≡ received (L.events link.old) }
    ensures polls { IsTrue L.tells → poll_count (L.events link.new) ≡ poll_count (L.events link.old) }
    ensures failed { IfErr result (λ e. e ≡ Failed → Rose (L.faults link.old) (L.faults link.new)) }
    ensures later { L.faults link.old ≤ L.faults link.new }
    ensures closed { L.closed link.new ≡ L.closed link.old }
{
    for place in 0..texts.len() {
        send_one(alloc, link, texts, place)?;
    }
    Ok(())
}
