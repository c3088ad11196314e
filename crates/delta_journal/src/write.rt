// One write that is synced.
ghost use Rattle.std.specs.Prelude.{◌≡◌, ◌+◌, ◌^◌, ◌<◌, ◌≤◌, length, IsTrue, OnOk};
ghost use Rattle.disk_model.specs.Disk.{HasCause, Kept, overwritten};
ghost use Rattle.delta_journal.specs.Shape.{Shape, HasShape, Spares, Stays};

use disk_model::{Disk, DiskFault};

/// Writes these bytes at this offset, and syncs.
pub(crate) fn write_through<K: Disk>(disk: &mut K, at: u64, bytes: &[u8]) -> Result<(), DiskFault>
    requires { IsTrue K.tells → at ≤ length (K.view disk.old).seen }
    ensures stays { (shape : Shape) → Spares shape at (length bytes.now) → Kept (K.view disk.old) (HasShape shape)
        → Stays (K.view disk.old) (K.view disk.new) (HasShape shape) }
    ensures written { OnOk result (IsTrue K.tells → Kept (K.view disk.new) (λ c. c ≡ overwritten (K.view disk.old).seen at bytes.now)) }
    ensures reaches { OnOk result (IsTrue K.tells → at + length bytes.now ≤ length (K.view disk.new).seen) }
    ensures bound { OnOk result (at + length bytes.now < 2 ^ 63) }
    ensures no_shorter { length (K.view disk.old).seen ≤ length (K.view disk.new).seen }
    ensures cause { HasCause (K.view disk.old) (K.view disk.new) result }
{
    disk.write_at(at, bytes)?;
    disk.sync()?;
    Ok(())
}
