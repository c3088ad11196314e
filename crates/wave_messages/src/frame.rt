// Lines around messages that are written already.
ghost use Rattle.std.specs.Prelude.{◌≡◌, ◌++◌, ◌∷◌, [], OnOk};
ghost use Rattle.serde_json.specs.Data.{Data};
ghost use Rattle.serde_json.specs.Written.{compact_text};
ghost use Rattle.wave_messages.specs.Write.{line_data, framed};

use doc_items::Memory;
use wave_base::SessionName;

// Appends the line around a text.
fn push_around(session: &SessionName, message: &[u8], out: &mut Vec<u8>) -> Result<(), Memory>
    ensures { OnOk result (out.new.items ≡ out.old.items ++ framed session.now message.now) }
{
    out.extend_from_slice(b"{\"message\":")?;
    out.extend_from_slice(message)?;
    out.extend_from_slice(b",\"session\":\"")?;
    out.extend_from_slice(session.text().as_bytes())?;
    out.extend_from_slice(b"\"}\n")?;
    Ok(())
}

/// Appends the line of a message to a session, with its line feed, where this is the text of the message; so a text that goes to many
/// sessions is written once. The error is want of memory.
#[tactic(auto, using(crate::proofs::Frames::framed_is))]
pub fn push_framed(session: &SessionName, message: &[u8], out: &mut Vec<u8>) -> Result<(), Memory>
    ensures { OnOk result ((m : Data) → message.now ≡ compact_text m → out.new.items ≡ out.old.items
        ++ (compact_text (line_data session.now m) ++ 10 ∷ [])) }
{
    // For the proof: the text is an id.
    let _id = session.text();
    push_around(session, message, out)
}
