// Lines on their way out.
ghost use Rattle.std.specs.Prelude.{◌≡◌, ◌++◌, [], IfOk, IfSome, OnOk, Some, slice_get};
ghost use Rattle.serde_json.specs.Written.{compact_text};
ghost use Rattle.message_json.specs.Write.{message_data, IsShort};
ghost use Rattle.message_json.specs.declared.message.Message.{Message};
ghost use Rattle.session_core.specs.Access.{Shown};
ghost use Rattle.session_core.specs.News.{message_of, deltas_of, IsPlaced, reply_message};
ghost use Rattle.pipe_machine.specs.Lines.{sent_to, line_of};
ghost use Rattle.pipe_machine.specs.Updates.{IsLast, IsUpdate};

use doc_items::Memory;
use session_core::{News, Reply};
use std::alloc::Global;
use wave_base::{SessionName, WaveletName};
use wave_messages::{Message, push_framed, write, write_line, write_update};
use wavelet_op::AppliedDelta;

/// Appends the line of a message to no session that is named. The error is want of memory, here and below.
pub fn push_unnamed(alloc: Global, message: &Message, out: &mut Vec<u8>) -> Result<(), Memory>
    requires { IsShort message.now }
    ensures { OnOk result (out.new.items ≡ out.old.items ++ line_of (sent_to [] message.now)) }
{
    let line = write_line(alloc, "", message)?;
    out.extend_from_slice(line.as_slice())?;
    out.push(b'\n')?;
    Ok(())
}

/// Appends the line of a message to a session.
pub fn push_line(
    alloc: Global,
    session: &SessionName,
    message: &Message,
    out: &mut Vec<u8>,
) -> Result<(), Memory>
    requires { IsShort message.now }
    ensures { OnOk result (out.new.items ≡ out.old.items ++ line_of (sent_to session.now message.now)) }
{
    let text = write(alloc, message)?;
    push_framed(session, text.as_slice(), out)
}

/// Appends the line of a reply to a session. A snapshot isn't written once more.
#[tactic(auto, unfolding(wave_messages::specs::Write::snapshot_text))]
pub fn push_reply(
    alloc: Global,
    session: &SessionName,
    reply: &Reply,
    out: &mut Vec<u8>,
) -> Result<(), Memory>
    requires { IsShort (reply_message reply.now) }
    ensures { OnOk result (out.new.items ≡ out.old.items ++ line_of (sent_to session.now (reply_message reply.now))) }
{
    match reply {
        Reply::Message(message) => push_line(alloc, session, message, out),
        Reply::Snapshot(snapshot) => push_framed(session, snapshot.text(), out),
    }
}

/// The update that was written last: its place in the history of a wavelet, and its text.
#[derive(Drop)]
pub struct Update<'a> {
    name: &'a WaveletName,
    place: usize,
    text: Vec<u8>,
}

// The update, where it is that of this place.
fn at_place<'a>(last: Option<Update<'a>>, name: &WaveletName, place: usize) -> Option<Update<'a>>
    ensures same { IfSome result (λ u. last.entry ≡ Some u) }
    ensures name { IfSome result (λ u. u.name.now ≡ name.now) }
    ensures place { IfSome result (λ u. u.place ≡ place) }
{
    let last = last?;
    if last.place == place && last.name == name {
        Some(last)
    } else {
        None
    }
}

// The update with a delta, which is written unless it was written last.
fn update_with<'a>(
    alloc: Global,
    name: &'a WaveletName,
    place: usize,
    delta: &AppliedDelta,
    last: Option<Update<'a>>,
) -> Result<Update<'a>, Memory>
    ensures text { IfOk result
        (λ u. (c : Shown) → IsLast c last.entry → slice_get (deltas_of (c.copy name.entry.now)) place ≡ Some delta.now → u.text.items
        ≡ compact_text (message_data (Message.Update name.entry.now delta.now))) }
    ensures last { IfOk result
        (λ u. (c : Shown) → IsLast c last.entry → slice_get (deltas_of (c.copy name.entry.now)) place ≡ Some delta.now → IsUpdate c u) }
{
    match at_place(last, name, place) {
        Some(last) => Ok(last),
        None => {
            let text = write_update(alloc, name, delta)?;
            Ok(Update { name, place, text })
        }
    }
}

// The message with a delta, for a peer.
fn applied(alloc: Global, name: &WaveletName, delta: &AppliedDelta) -> Result<Message, Memory>
    ensures { IfOk result (λ m. m ≡ Message.Applied name.now delta.now) }
{
    let name = name.copy(alloc)?;
    let delta = delta.copy(alloc)?;
    Ok(Message::Applied { name, delta })
}

/// Appends the line of what a session is sent, and answers the update that was written last then. An update that was written last isn't
/// written once more.
pub fn push_news<'a>(
    alloc: Global,
    session: &SessionName,
    news: &News<'a>,
    last: Option<Update<'a>>,
    out: &mut Vec<u8>,
) -> Result<Option<Update<'a>>, Memory>
    requires { IsShort (message_of news.now) }
    ensures sent { OnOk result
        ((c : Shown) → IsLast c last.entry → IsPlaced c news.now → out.new.items ≡ out.old.items
        ++ line_of (sent_to session.now (message_of news.now))) }
    ensures last { IfOk result (λ o. (c : Shown) → IsLast c last.entry → IsPlaced c news.now → IsLast c o) }
{
    match news {
        News::Update { name, place, delta } => {
            let update = update_with(alloc, name, *place, delta, last)?;
            push_framed(session, update.text.as_slice(), out)?;
            Ok(Some(update))
        }
        News::Applied { name, delta, .. } => {
            push_line(alloc, session, &applied(alloc, name, delta)?, out)?;
            Ok(last)
        }
        News::Message(message) => {
            push_line(alloc, session, message, out)?;
            Ok(last)
        }
    }
}
