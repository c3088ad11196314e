// Messages on their way out.
ghost use Rattle.std.specs.Prelude.{◌≡◌, ◌≤◌, ◌++◌, ◌∷◌, [], IsTrue, IfErr, OnOk, OnErr};
ghost use Rattle.wave_outside.specs.Counts.{Rose};
ghost use Rattle.message_json.specs.Write.{IsShort};
ghost use Rattle.message_json.specs.declared.message.Message.TheVariants.{Peer};
ghost use Rattle.federation_link.specs.Sends.{sent_as, have, relay};
ghost use Rattle.federation_link.specs.Stops.{IsLinkStop};

use crate::stop::Stop;
use message_json::Message;
use peer_turns::{CopyAt, Relay};
use std::alloc::Global;
use wave_base::Domain;
use wave_messages::write;
use wave_outside::Link;

// Sends a message.
fn send<L: Link>(alloc: Global, link: &mut L, message: &Message) -> Result<(), Stop>
    requires { IsShort message.now }
    ensures sent { IsTrue L.tells → OnOk result (L.events link.new ≡ L.events link.old ++ sent_as message.now ∷ []) }
    ensures unsent { IsTrue L.tells → OnErr result (L.events link.new ≡ L.events link.old) }
    ensures cause { IfErr result IsLinkStop }
    ensures failed { IfErr result (λ e. e ≡ Stop.Link → Rose (L.faults link.old) (L.faults link.new)) }
    ensures later { L.faults link.old ≤ L.faults link.new }
    ensures same { (L.closed link.new ≡ L.closed link.old) × (L.looks link.new ≡ L.looks link.old) }
{
    let text = write(alloc, message)?;
    link.send(alloc, text.as_slice())?;
    Ok(())
}

/// Says for which domain this server speaks.
pub(crate) fn send_peer<L: Link>(alloc: Global, link: &mut L, own: &Domain) -> Result<(), Stop>
    ensures sent { IsTrue L.tells → OnOk result (L.events link.new ≡ L.events link.old ++ sent_as (Peer own.now) ∷ []) }
    ensures cause { IfErr result IsLinkStop }
    ensures failed { IfErr result (λ e. e ≡ Stop.Link → Rose (L.faults link.old) (L.faults link.new)) }
    ensures later { L.faults link.old ≤ L.faults link.new }
    ensures same { (L.closed link.new ≡ L.closed link.old) × (L.looks link.new ≡ L.looks link.old) }
{
    let domain = own.copy(alloc)?;
    send(alloc, link, &Message::Peer { domain })
}

/// Says how far a copy reaches.
pub(crate) fn send_have<L: Link>(alloc: Global, link: &mut L, copy: CopyAt) -> Result<(), Stop>
    ensures sent { IsTrue L.tells → OnOk result (L.events link.new ≡ L.events link.old ++ have copy ∷ []) }
    ensures cause { IfErr result IsLinkStop }
    ensures failed { IfErr result (λ e. e ≡ Stop.Link → Rose (L.faults link.old) (L.faults link.new)) }
    ensures later { L.faults link.old ≤ L.faults link.new }
    ensures same { (L.closed link.new ≡ L.closed link.old) × (L.looks link.new ≡ L.looks link.old) }
{
    let (name, at) = copy.into_parts();
    send(alloc, link, &Message::Have { name, at })
}

/// Passes a submission on to the wavelet's host.
pub(crate) fn send_relay<L: Link>(alloc: Global, link: &mut L, waiting: Relay) -> Result<(), Stop>
    ensures sent { IsTrue L.tells → OnOk result (L.events link.new ≡ L.events link.old ++ relay waiting ∷ []) }
    ensures unsent { IsTrue L.tells → OnErr result (L.events link.new ≡ L.events link.old) }
    ensures cause { IfErr result IsLinkStop }
    ensures failed { IfErr result (λ e. e ≡ Stop.Link → Rose (L.faults link.old) (L.faults link.new)) }
    ensures later { L.faults link.old ≤ L.faults link.new }
    ensures same { (L.closed link.new ≡ L.closed link.old) × (L.looks link.new ≡ L.looks link.old) }
{
    let (name, submission) = waiting.into_parts();
    send(alloc, link, &Message::Relay { name, submission })
}
