// Turns at one shard.
ghost use Rattle.std.specs.Prelude.{◌≡◌, ℕ, [], map, true, length, IfOk, IfErr, OnOk, OnErr, option_copied};
ghost use mathlib.Core.List.{IsPrefix};
ghost use Rattle.doc_items.specs.Maps.{Key};
ghost use Rattle.message_json.specs.Write.{IsShort};
ghost use Rattle.robot_host.specs.Hosts.{host_as};
ghost use Rattle.session_core.specs.Answers.{attached, had};
ghost use Rattle.session_core.specs.Deliveries.{delivered, after_delivery};
ghost use Rattle.session_core.specs.News.{reply_message};
ghost use Rattle.session_core.specs.Rules.{has_user, has_peer};
ghost use Rattle.turn_lock.specs.Passes.{seen, loads, added, IsOf};
ghost use Rattle.wavelet_shelf.specs.FileNames.{shard_of};
ghost use Rattle.shard_marks.specs.Frames.{frames_of};
ghost use Rattle.shard_marks.specs.Marks.{is_founded, copied, shown_at};
ghost use Rattle.shard_marks.specs.Servers.{server};
ghost use Rattle.shard_marks.specs.Told.{AreToldFrom};
ghost use Rattle.session_hub.specs.Robots.{MayTurnFrom, IsRoundAt, IsRoundCutAt};
ghost use Rattle.replica_store.specs.Listings.{IsSought};
ghost use Rattle.shard_marks.specs.Givings.{gift_mark};
ghost use Rattle.session_hub.specs.Items.{items_of};
ghost use Rattle.session_hub.specs.Turns.{IsBegun, IsAnsweredBy, IsGivenIn, IsFault};

use crate::fault::HubFault;
use crate::rounds::Round;
use crate::seeking::{Item, Wanted};
use crate::shard::Shard;
use replica_store::Sought;
use robot_host::{Robot, RobotHost};
use session_core::{Reply, Session, SubmitAnswer};
use shard_marks::{Given, Giving};
use std::alloc::Global;
use std::sync::Wait;
use turn_lock::{Logged, Pass, TurnCell};
use wave_base::{Domain, HashedVersion, WaveletName};
use wave_outside::Folder;
use wavelet_op::Submission;

/// The answer to a submission in a turn of the wavelet's shard, by these peers, and the length of its history then.
pub(crate) fn submit<F: Folder + Drop, R: Wait>(
    rt: &R,
    alloc: Global,
    cell: &TurnCell<Shard<F>>,
    pass: &mut Pass<Shard<F>>,
    peers: &[Domain],
    name: &WaveletName,
    submission: &Submission,
    time: u64,
) -> Result<(u64, SubmitAnswer), HubFault>
    requires own { IsOf cell.now pass.old }
    requires begun { IsBegun (shard_of name.now) (seen pass.old) }
    ensures own { IsOf cell.now pass.new }
    ensures later { IsPrefix (seen pass.old) (seen pass.new) }
    ensures looked { loads pass.new ≡ loads pass.old }
    ensures length { IfOk result (λ r. r.0 ≡ length (seen pass.new)) }
    ensures answered { IfOk result (λ r. (d : Key) → is_founded d (shard_of name.now) (seen pass.old) ≡ true
        → IsAnsweredBy pass.old pass.new (server d peers.now) (shard_of name.now) name.now submission.now time r.1) }
    ensures unadded { OnErr result (added pass.new ≡ added pass.old) }
    ensures fault { IfErr result (IsFault pass.new) }
{
    let mut guard = pass.enter(rt, cell)?;
    let answer = guard.value().submit(alloc, peers, name, submission, time);
    guard.leave();
    Ok(answer?)
}

/// The reply to an `open` in a turn of a shard, and the length of its history then.
pub(crate) fn attach<F: Folder + Drop, R: Wait>(
    rt: &R,
    alloc: Global,
    cell: &TurnCell<Shard<F>>,
    pass: &mut Pass<Shard<F>>,
    session: &mut Session,
    name: &WaveletName,
    from: Option<&HashedVersion>,
) -> Result<(u64, Reply), HubFault>
    requires own { IsOf cell.now pass.old }
    requires user { has_user session.old ≡ true }
    ensures own { IsOf cell.now pass.new }
    ensures later { IsPrefix (seen pass.old) (seen pass.new) }
    ensures looked { loads pass.new ≡ loads pass.old }
    ensures unadded { added pass.new ≡ added pass.old }
    ensures length { IfOk result (λ r. r.0 ≡ length (seen pass.new)) }
    ensures reply { IfOk result
        (λ r. (d : Key) (k : ℕ) → is_founded d k (seen pass.old) ≡ true → (session.new, reply_message r.1)
        ≡ attached (shown_at d k (seen pass.new)) session.old name.now (option_copied from.entry)) }
    ensures short { IfOk result (λ r. IsShort (reply_message r.1)) }
    ensures same { OnErr result (session.new ≡ session.old) }
    ensures fault { IfErr result (IsFault pass.new) }
{
    let mut guard = pass.enter(rt, cell)?;
    let shard = guard.value();
    let length = shard.length();
    let reply = shard.attach(alloc, session, name, from);
    guard.leave();
    Ok((length, reply?))
}

/// Notes up to where a peer has a wavelet, in a turn of its shard, and the length of the shard's history then.
pub(crate) fn have<F: Folder + Drop, R: Wait>(
    rt: &R,
    alloc: Global,
    cell: &TurnCell<Shard<F>>,
    pass: &mut Pass<Shard<F>>,
    session: &mut Session,
    name: &WaveletName,
    from: &HashedVersion,
) -> Result<u64, HubFault>
    requires own { IsOf cell.now pass.old }
    requires peer { has_peer session.old ≡ true }
    ensures own { IsOf cell.now pass.new }
    ensures later { IsPrefix (seen pass.old) (seen pass.new) }
    ensures looked { loads pass.new ≡ loads pass.old }
    ensures unadded { added pass.new ≡ added pass.old }
    ensures length { IfOk result (λ l. l ≡ length (seen pass.new)) }
    ensures after { OnOk result
        ((d : Key) (k : ℕ) → is_founded d k (seen pass.old) ≡ true → session.new
        ≡ had (shown_at d k (seen pass.new)) session.old name.now from.now) }
    ensures same { OnErr result (session.new ≡ session.old) }
    ensures fault { IfErr result (IsFault pass.new) }
{
    let mut guard = pass.enter(rt, cell)?;
    let shard = guard.value();
    let length = shard.length();
    let noted = shard.have(alloc, session, name, from);
    guard.leave();
    noted?;
    Ok(length)
}

/// What is new to a session in a turn of a shard, as texts, and the length of its history then. A peer was told all at the length
/// that is given; 0 says nothing.
pub(crate) fn deliver<F: Folder + Drop, R: Wait>(
    rt: &R,
    alloc: Global,
    cell: &TurnCell<Shard<F>>,
    pass: &mut Pass<Shard<F>>,
    session: &mut Session,
    sent: u64,
) -> Result<(u64, Vec<Vec<u8>>), HubFault>
    requires own { IsOf cell.now pass.old }
    requires told { AreToldFrom (seen pass.old) session.old sent }
    ensures own { IsOf cell.now pass.new }
    ensures later { IsPrefix (seen pass.old) (seen pass.new) }
    ensures looked { loads pass.new ≡ loads pass.old }
    ensures unadded { added pass.new ≡ added pass.old }
    ensures length { IfOk result (λ r. r.0 ≡ length (seen pass.new)) }
    ensures frames { IfOk result
        (λ r. (d : Key) (k : ℕ) → is_founded d k (seen pass.old) ≡ true → map (λ v. v.items) r.1.items
        ≡ frames_of (delivered (shown_at d k (seen pass.new)) session.old)) }
    ensures after { OnOk result
        ((d : Key) (k : ℕ) → is_founded d k (seen pass.old) ≡ true → session.new
        ≡ after_delivery (shown_at d k (seen pass.new)) session.old) }
    ensures told { OnOk result
        ((d : Key) (k : ℕ) → is_founded d k (seen pass.old) ≡ true → delivered (shown_at d k (seen pass.new)) session.new ≡ []) }
    ensures fault { IfErr result (IsFault pass.new) }
{
    let mut guard = pass.enter(rt, cell)?;
    let shard = guard.value();
    let length = shard.length();
    let frames = shard.deliver(alloc, session, sent);
    guard.leave();
    Ok((length, frames?))
}

/// Turns of the robots in a turn of a shard, and the length of its history then.
pub(crate) fn robot_turn<F: Folder + Drop, R: Wait>(
    rt: &R,
    alloc: Global,
    cell: &TurnCell<Shard<F>>,
    pass: &mut Pass<Shard<F>>,
    host: &mut RobotHost,
) -> Result<(u64, Round), HubFault>
    requires own { IsOf cell.now pass.old }
    requires may { MayTurnFrom (seen pass.old) (host_as ⟦<dyn Robot as Robot>⟧ host.old) }
    ensures own { IsOf cell.now pass.new }
    ensures later { IsPrefix (seen pass.old) (seen pass.new) }
    ensures looked { loads pass.new ≡ loads pass.old }
    ensures unadded { added pass.new ≡ added pass.old }
    ensures length { IfOk result (λ r. r.0 ≡ length (seen pass.new)) }
    ensures round { IfOk result
        (λ r. (d : Key) (k : ℕ) → is_founded d k (seen pass.old) ≡ true
        → IsRoundAt d k (seen pass.new) (host_as ⟦<dyn Robot as Robot>⟧ host.old)
        (host_as ⟦<dyn Robot as Robot>⟧ host.new) r.1.name r.1.edits.items) }
    ensures cut { OnErr result
        ((d : Key) (k : ℕ) → is_founded d k (seen pass.old) ≡ true
        → IsRoundCutAt d k (seen pass.new) (host_as ⟦<dyn Robot as Robot>⟧ host.old) (host_as ⟦<dyn Robot as Robot>⟧ host.new)) }
    ensures fault { IfErr result (IsFault pass.new) }
{
    let mut guard = pass.enter(rt, cell)?;
    let shard = guard.value();
    let length = shard.length();
    let round = shard.robot_turn(alloc, host);
    guard.leave();
    Ok((length, round?))
}

/// What is answered where the copy of the name is given something in a turn of its shard.
pub(crate) fn give<F: Folder + Drop, R: Wait>(
    rt: &R,
    alloc: Global,
    cell: &TurnCell<Shard<F>>,
    pass: &mut Pass<Shard<F>>,
    name: &WaveletName,
    giving: &Giving,
) -> Result<Given, HubFault>
    requires own { IsOf cell.now pass.old }
    requires begun { IsBegun (shard_of name.now) (seen pass.old) }
    ensures own { IsOf cell.now pass.new }
    ensures later { IsPrefix (seen pass.old) (seen pass.new) }
    ensures looked { loads pass.new ≡ loads pass.old }
    ensures given { IfOk result
        (λ a. (d : Key) → is_founded d (shard_of name.now) (seen pass.old) ≡ true
        → IsGivenIn pass.old pass.new d (shard_of name.now) (gift_mark name.now giving.now) a) }
    ensures unadded { OnErr result (added pass.new ≡ added pass.old) }
    ensures fault { IfErr result (IsFault pass.new) }
{
    let mut guard = pass.enter(rt, cell)?;
    let given = guard.value().give(alloc, name, giving);
    guard.leave();
    Ok(given?)
}

/// What is at a place of a shard's items for a domain, in a turn of the shard.
pub(crate) fn seek<F: Folder + Drop, R: Wait>(
    rt: &R,
    alloc: Global,
    cell: &TurnCell<Shard<F>>,
    pass: &mut Pass<Shard<F>>,
    wanted: Wanted,
    domain: &Domain,
    place: u64,
) -> Result<Sought<Item>, HubFault>
    requires own { IsOf cell.now pass.old }
    ensures own { IsOf cell.now pass.new }
    ensures later { IsPrefix (seen pass.old) (seen pass.new) }
    ensures looked { loads pass.new ≡ loads pass.old }
    ensures unadded { added pass.new ≡ added pass.old }
    ensures sought { IfOk result
        (λ s. (d : Key) (k : ℕ) → is_founded d k (seen pass.old) ≡ true
        → IsSought (items_of wanted domain.now (copied d k (seen pass.new))) place s) }
    ensures fault { IfErr result (IsFault pass.new) }
{
    let mut guard = pass.enter(rt, cell)?;
    let sought = guard.value().seek(alloc, wanted, domain, place);
    guard.leave();
    Ok(sought?)
}
