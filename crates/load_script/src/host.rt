// The host, without a journal.
ghost use Rattle.std.specs.Prelude.{◌≡◌, [], length, IfOk, OnOk};
ghost use Rattle.delta_history.specs.Legal.{IsLegal};
ghost use Rattle.delta_history.specs.Points.{end_of};
ghost use Rattle.delta_history.specs.Verdicts.{judge};
ghost use Rattle.wavelet_op.specs.States.{document_of};
ghost use Rattle.wave_world.specs.Worlds.{grown};
ghost use Rattle.load_script.specs.Names.{the_wavelet};

use crate::length::length;
use crate::names::wavelet;
use disk_model::MemoryDisk;
use doc_items::Memory;
use std::alloc::{AllocError, Global};
use std::marker::Model;
use wave_base::{DocumentName, HashedVersion};
use wavelet_container::{Container, SubmitFault};
use wavelet_op::{AppliedDelta, Submission, Verdict};

/// The host of the wavelet, without a journal. Seen as its deltas.
pub(crate) struct Host {
    container: Container<MemoryDisk>,
}

impl Drop for Host {
    fn drop(self) {
        let Host {
            container: _container,
        } = self;
    }
}

impl Model for Host {
    ghost use Rattle.std.specs.Prelude.{◌≡◌, List, true, is_none};
    ghost use Rattle.std.specs.Coded.{coded_list};
    ghost use Rattle.wavelet_op.specs.Deltas.{DeltaOf};
    ghost use Rattle.wavelet_op.specs.contracts.delta.AppliedDelta as delta_row;
    ghost use Rattle.wavelet_container.specs.Containers.{history_of, journal_of};
    ghost use Rattle.load_script.specs.Names.{the_wavelet};

    ghost Value = { List DeltaOf };

    ghost coded = { coded_list delta_row.the_row.coded };

    ghost view = { λ h. (history_of h.container).deltas };

    ghost invariant = { λ h. record {
      name : (history_of h.container).name ≡ the_wavelet;
      plain : is_none (journal_of h.container)
          ≡ true;
    } };
}

impl Host {
    /// No delta.
    pub fn new(alloc: Global) -> Result<Host, Memory>
        ensures { IfOk result (λ h. h ≡ []) }
    {
        let name = wavelet(alloc)?;
        Ok(Host {
            container: Container::new(alloc, name),
        })
    }

    /// The deltas, in order.
    pub fn deltas(&self) -> &[AppliedDelta]
        ensures value { result.now ≡ self.now }
        ensures legal { IsLegal the_wavelet self.now }
    {
        self.container.history().deltas()
    }

    /// The hashed version at the head.
    pub fn head(&self) -> HashedVersion
        ensures { result ≡ (end_of the_wavelet self.now).at }
    {
        self.container.history().head()
    }

    /// The number of items of a document at the head.
    pub fn items(&self, document: &DocumentName) -> u64
        ensures { result ≡ length (document_of (end_of the_wavelet self.now).state document.now) }
    {
        length(self.container.history().state(), document)
    }

    /// The verdict on a submission at the time; the delta that is accepted is after the others then.
    pub fn submit(
        &mut self,
        alloc: Global,
        submission: &Submission,
        time: u64,
    ) -> Result<Verdict, Memory>
        ensures verdict { IfOk result (λ v. v ≡ (judge the_wavelet self.old submission.now time).0) }
        ensures grown { OnOk result (self.new ≡ grown self.old (judge the_wavelet self.old submission.now time).1) }
    {
        match self.container.submit(alloc, submission, time) {
            Ok(verdict) => Ok(verdict),
            Err(SubmitFault::Memory) => Err(AllocError),
            Err(SubmitFault::DiskFault) => unreachable!(),
        }
    }
}
