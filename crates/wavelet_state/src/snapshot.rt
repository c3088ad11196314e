// The state of a wavelet at a version, as it is sent.
ghost use Rattle.std.specs.Prelude.{◌≡◌, ◌≤◌, ◌&&◌, nat_le, cond, Some, None, IfOk};
ghost use Rattle.wavelet_state.specs.Parts.{item_count};
ghost use Rattle.wavelet_state.specs.Snapshots.{max_inserted, is_snapshot};

use crate::WaveletState;
use doc_items::Memory;
use std::alloc::Global;
use std::marker::Model;
use wave_base::{HashedVersion, WaveletName};

/// The most items that all deltas of a history insert: 2^40.
pub const MAX_INSERTED: u64 = 1 << 40;

/// The state of a wavelet at a version. All its documents together have at most as many items as the history's deltas inserted,
/// and these are at most `MAX_INSERTED`.
pub struct Snapshot {
    name: WaveletName,
    at: HashedVersion,
    inserted: u64,
    state: WaveletState,
}

impl Drop for Snapshot {
    fn drop(self) {
        let Snapshot {
            name: _name,
            at: _at,
            inserted: _inserted,
            state: _state,
        } = self;
    }
}

impl Model for Snapshot {
    ghost use Rattle.std.specs.Prelude.{◌≡◌, true};
    ghost use Rattle.wavelet_op.specs.contracts.role.Role as role_row;
    ghost use Rattle.doc_items.specs.contracts.item.Item as item_row;
    ghost use Rattle.wavelet_state.specs.Snapshots.{SnapshotOf, is_snapshot, snapshot_code};

    ghost Value = { SnapshotOf };

    ghost coded = { snapshot_code role_row.the_row.coded item_row.the_row.coded };

    ghost view = { λ s. record { name = s.name; at = s.at; inserted = s.inserted; state = s.state } };

    ghost invariant = { λ s. is_snapshot s.inserted s.state ≡ true };
}

impl Snapshot {
    /// The snapshot of these parts. None exactly where the number of inserted items is above `MAX_INSERTED`, or all documents
    /// together have more items.
    pub fn new(
        name: WaveletName,
        at: HashedVersion,
        inserted: u64,
        state: WaveletState,
    ) -> Option<Snapshot>
        ensures { result ≡ cond (is_snapshot inserted state)
            (Some (record { name = name; at = at; inserted = inserted; state = state })) None }
    {
        if is_snapshot(inserted, &state) {
            Some(Snapshot {
                name,
                at,
                inserted,
                state,
            })
        } else {
            None
        }
    }

    /// The wavelet's name.
    pub fn name(&self) -> &WaveletName
        ensures { result.now ≡ self.now.name }
    {
        &self.name
    }

    /// The version at which the wavelet has this state.
    pub fn at(&self) -> HashedVersion
        ensures { result ≡ self.now.at }
    {
        self.at
    }

    /// The number of items that all deltas up to there inserted.
    pub fn inserted(&self) -> u64
        ensures value { result ≡ self.now.inserted }
        ensures bound { result ≤ max_inserted }
        ensures items { item_count self.now.state.documents ≤ result }
    {
        self.inserted
    }

    /// The state.
    pub fn state(&self) -> &WaveletState
        ensures { result.now ≡ self.now.state }
    {
        &self.state
    }

    /// The state, by value.
    pub fn into_state(self) -> WaveletState
        ensures { result ≡ self.state }
    {
        let Snapshot {
            name: _name,
            at: _at,
            inserted: _inserted,
            state,
        } = self;
        state
    }

    /// An equal snapshot.
    pub fn copy(&self, alloc: Global) -> Result<Snapshot, Memory>
        ensures { IfOk result (λ s. s ≡ self.now) }
    {
        let name = self.name.copy(alloc)?;
        let state = self.state.copy(alloc)?;
        Ok(Snapshot {
            name,
            at: self.at,
            inserted: self.inserted,
            state,
        })
    }
}

fn is_snapshot(inserted: u64, state: &WaveletState) -> bool
    ensures { result ≡ is_snapshot inserted state.now }
{
    inserted <= MAX_INSERTED && state.fits(inserted)
}
