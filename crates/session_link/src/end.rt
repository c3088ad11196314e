// How sessions end.
ghost use Rattle.std.specs.Prelude.{◌≡◌, ◌≢◌, ℕ};
ghost use Rattle.wave_outside.specs.declared.link.LinkFault.TheVariants.{Failed as LinkFailed};

use session_hub::HubFault;
use session_steps::EndCause;
use turn_lock::Spent;
use wave_outside::LinkFault;

/// Why a session ends where its hub gave no answer.
pub(crate) fn hub_cause(fault: HubFault) -> EndCause
    ensures other { (result ≢ EndCause.Closed) × (result ≢ EndCause.Failed) }
    ensures spent { (s : Spent) → result ≡ EndCause.Spent s → fault ≡ HubFault.Spent s }
{
    match fault {
        HubFault::Spent(spent) => EndCause::Spent(spent),
        HubFault::Memory => EndCause::Memory,
    }
}

/// Why a session ends where its link gave nothing.
pub(crate) fn link_cause(fault: LinkFault) -> EndCause
    ensures other { (result ≢ EndCause.Closed) × ((s : Spent) → result ≢ EndCause.Spent s) }
    ensures failed { result ≡ EndCause.Failed → fault ≡ LinkFailed }
{
    match fault {
        LinkFault::Failed => EndCause::Failed,
        LinkFault::Memory => EndCause::Memory,
    }
}
