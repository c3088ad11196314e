// Messages as they are sent.
ghost use Rattle.std.specs.Prelude.{◌≡◌, List, map, IfOk};
ghost use Rattle.std.specs.List.{All};
ghost use Rattle.doc_items.specs.Maps.{Key};
ghost use Rattle.wavelet_op.specs.Deltas.{DeltaOf};
ghost use Rattle.message_json.specs.Write.{IsShort};
ghost use Rattle.message_json.specs.declared.message.Message.{Message};
ghost use Rattle.session_core.specs.News.{message_of, messages_of, reply_message};
ghost use Rattle.shard_marks.specs.Frames.{frame_of, frames_of};
ghost use Rattle.session_hub.specs.Texts.{AreWritten, IsPlacedIn};

use crate::texts::{Text, update_text};
use doc_items::Memory;
use session_core::{News, Reply};
use std::alloc::Global;
use wave_base::WaveletName;
use wave_messages::{Message, write};
use wavelet_op::AppliedDelta;

/// The text of a reply. The error is want of memory, here and below.
#[tactic(auto, unfolding(shard_marks::specs::Frames::frame_of, wave_messages::specs::Write::snapshot_text))]
pub fn frame(alloc: Global, reply: Reply) -> Result<Vec<u8>, Memory>
    requires { IsShort (reply_message reply) }
    ensures { IfOk result (λ v. v.items ≡ frame_of (reply_message reply)) }
{
    match &reply {
        Reply::Message(message) => write(alloc, message),
        Reply::Snapshot(snapshot) => {
            let mut text = Vec::new(alloc);
            text.extend_from_slice(snapshot.text())?;
            Ok(text)
        }
    }
}

// The message with a delta, for a peer.
fn applied(alloc: Global, name: &WaveletName, delta: &AppliedDelta) -> Result<Message, Memory>
    ensures { IfOk result (λ m. m ≡ Message.Applied name.now delta.now) }
{
    let name = name.copy(alloc)?;
    let delta = delta.copy(alloc)?;
    Ok(Message::Applied { name, delta })
}

// The text of what a session is sent.
#[tactic(auto, unfolding(shard_marks::specs::Frames::frame_of))]
fn news_frame(alloc: Global, news: &News, texts: &mut Vec<Text>) -> Result<Vec<u8>, Memory>
    requires { IsShort (message_of news.now) }
    ensures frame { IfOk result
        (λ v. (f : Key → List DeltaOf) → AreWritten f texts.old.items → IsPlacedIn f news.now → v.items ≡ frame_of (message_of news.now)) }
    ensures texts { (f : Key → List DeltaOf) → AreWritten f texts.old.items → IsPlacedIn f news.now → AreWritten f texts.new.items }
{
    match news {
        News::Update { name, place, delta } => update_text(alloc, name, *place, delta, texts),
        News::Applied { name, delta, .. } => write(alloc, &applied(alloc, name, delta)?),
        News::Message(message) => write(alloc, message),
    }
}

/// The texts of what a session is sent, in order. Updates are written once, and kept for others.
pub(crate) fn frames(
    alloc: Global,
    news: &[News],
    texts: &mut Vec<Text>,
) -> Result<Vec<Vec<u8>>, Memory>
    requires { All (λ n. IsShort (message_of n)) news.now }
    ensures frames { IfOk result
        (λ v. (f : Key → List DeltaOf) → AreWritten f texts.old.items → All (IsPlacedIn f) news.now → map (λ f. f.items) v.items
        ≡ frames_of (messages_of news.now)) }
    ensures texts { (f : Key → List DeltaOf) → AreWritten f texts.old.items → All (IsPlacedIn f) news.now → AreWritten f texts.new.items }
{
    let mut made = Vec::new(alloc);
    for item in news {
        made.push(news_frame(alloc, item, texts)?)?;
    }
    Ok(made)
}
