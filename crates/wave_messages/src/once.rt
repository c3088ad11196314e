// Messages that are written once, and sent to many or measured before they are sent.
ghost use Rattle.std.specs.Prelude.{◌≡◌, IfOk};
ghost use Rattle.serde_json.specs.Written.{compact_text};
ghost use Rattle.message_json.specs.Write.{message_data};
ghost use Rattle.message_json.specs.declared.message.Message.{Message};
ghost use Rattle.wave_messages.specs.Write.{snapshot_text};

use crate::writing::compact;
use doc_items::Memory;
use message_json::{snapshot_value, update_value};
use std::alloc::Global;
use std::marker::Model;
use wave_base::WaveletName;
use wavelet_op::AppliedDelta;
use wavelet_state::Snapshot;

/// A snapshot, and its message as it is written.
pub struct WrittenSnapshot {
    snapshot: Snapshot,
    text: Vec<u8>,
}

impl Drop for WrittenSnapshot {
    fn drop(self) {
        let WrittenSnapshot {
            snapshot: _snapshot,
            text: _text,
        } = self;
    }
}

impl Model for WrittenSnapshot {
    ghost use Rattle.std.specs.Prelude.{◌≡◌};
    ghost use Rattle.wavelet_op.specs.contracts.role.Role as role_row;
    ghost use Rattle.doc_items.specs.contracts.item.Item as item_row;
    ghost use Rattle.wavelet_state.specs.Snapshots.{SnapshotOf, snapshot_code};
    ghost use Rattle.wave_messages.specs.Write.{snapshot_text};

    ghost Value = { SnapshotOf };

    ghost coded = { snapshot_code role_row.the_row.coded item_row.the_row.coded };

    ghost view = { λ w. w.snapshot };

    ghost invariant = { λ w. w.text.items ≡ snapshot_text w.snapshot };
}

impl WrittenSnapshot {
    /// The text of its message.
    pub fn text(&self) -> &[u8]
        ensures { result.now ≡ snapshot_text self.now }
    {
        self.text.as_slice()
    }

    /// The snapshot.
    pub fn into_snapshot(self) -> Snapshot
        ensures { result ≡ self }
    {
        let WrittenSnapshot {
            snapshot,
            text: _text,
        } = self;
        snapshot
    }
}

/// The snapshot with its message, written once. The error is want of memory, here and below.
#[tactic(auto, unfolding(crate::specs::Write::snapshot_text))]
pub fn write_snapshot(alloc: Global, snapshot: Snapshot) -> Result<WrittenSnapshot, Memory>
    ensures { IfOk result (λ w. w ≡ snapshot) }
{
    let value = snapshot_value(alloc, &snapshot)?;
    let text = compact(alloc, &value)?;
    Ok(WrittenSnapshot { snapshot, text })
}

/// The text of the `update` with a delta of a wavelet.
pub fn write_update(
    alloc: Global,
    name: &WaveletName,
    delta: &AppliedDelta,
) -> Result<Vec<u8>, Memory>
    ensures { IfOk result (λ bytes. bytes.items ≡ compact_text (message_data (Message.Update name.now delta.now))) }
{
    let value = update_value(alloc, name, delta)?;
    compact(alloc, &value)
}
