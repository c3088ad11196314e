// The wavelets of one shard.
ghost use Rattle.std.specs.Prelude.{◌≡◌, ◌≤◌, true, min, map, Some};
ghost use Rattle.std.specs.List.{list_all};
ghost use Rattle.std.specs.Coded.{Coded-set, coded_list, coded_option, coded_ℕ};
ghost use Rattle.std.specs.FinMap.{code};
ghost use Rattle.replica_store.specs.Worlds.{worlds_of};
ghost use Rattle.replica_store.specs.contracts.outcomes.Noted as noted_row;
ghost use Rattle.wavelet_op.specs.contracts.delta.AppliedDelta as delta_row;
ghost use Rattle.wavelet_op.specs.contracts.delta.Submission as submission_row;
ghost use Rattle.wavelet_shelf.specs.Shelves.{hosted_of, fault_count as faults_of};
ghost use Rattle.hosted_copies.specs.Domains.{hosted_by};
ghost use Rattle.shard_copies.specs.Shown.{deltas_among};
ghost use Rattle.shard_marks.specs.Marks.{is_own_mark, replayed, copied, fault_count};
ghost use Rattle.shard_marks.specs.Histories.{are_sound};
ghost use Rattle.shard_marks.specs.Marks.{most_faults};
ghost use Rattle.session_hub.specs.Records.{marks_in, hosted_code, world_code};
ghost use Rattle.session_hub.specs.Texts.{AreWritten, update_in};

use crate::record::Record;
use crate::texts::Text;
use replica_store::Replicas;
use wave_base::Domain;
use wave_outside::Folder;
use wavelet_shelf::Shelf;

/// The wavelets of one shard, with the marks by which their histories came about. What the domain hosts there, and its copies of
/// what others host, is what the marks give, which are of wavelets of the shard, and no more of them tell of a fault than the store
/// has counted. Each hosted history is sound: nothing of it is left at its head, and a message may hold each of its deltas.
pub struct Shard<F: Folder> {
    pub(crate) domain: Domain,
    pub(crate) number: u64,
    pub(crate) shelf: Shelf<F>,
    pub(crate) replicas: Replicas,
    pub(crate) records: Vec<Record>,
    // Texts of updates that sessions were sent, for those that are still to be sent them.
    pub(crate) texts: Vec<Text>,
    ghost replay: { hosted_by domain (hosted_of shelf)
        ≡ replayed domain number (marks_in domain number records.items) } by { Coded-set (coded_list (hosted_code delta_row.the_row.coded))
            (hosted_by domain (hosted_of shelf)) (replayed domain number (marks_in domain number records.items)) },
    ghost copies: { worlds_of replicas
        ≡ copied domain number (marks_in domain number records.items) } by { Coded-set
            (code (coded_list coded_ℕ) (world_code delta_row.the_row.coded submission_row.the_row.coded noted_row.the_row.coded))
            (worlds_of replicas) (copied domain number (marks_in domain number records.items)) },
    ghost own: { list_all (is_own_mark domain number) (marks_in domain number records.items) ≡ true },
    ghost sound: { are_sound (hosted_by domain (hosted_of shelf)) ≡ true },
    ghost counted: { min (fault_count (marks_in domain number records.items)) most_faults ≤ faults_of shelf },
    ghost written: { AreWritten (deltas_among domain (hosted_by domain (hosted_of shelf)) (worlds_of replicas)) texts.items } by { Coded-set
        (coded_list (coded_option (coded_list coded_ℕ)))
        (map (λ w. update_in (deltas_among domain (hosted_by domain (hosted_of shelf)) (worlds_of replicas)) w.name w.place) texts.items)
        (map (λ w. Some w.bytes.items) texts.items) },
}

impl<F: Folder + Drop> Drop for Shard<F> {
    fn drop(self) {
        let Shard {
            domain: _domain,
            number: _number,
            shelf: _shelf,
            replicas: _replicas,
            records: _records,
            texts: _texts,
        } = self;
    }
}
