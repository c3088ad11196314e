// What a shard's wavelets give a session.
ghost use Rattle.std.specs.Prelude.{◌≡◌, [], map, true, length, IfOk, OnOk, OnErr, option_copied};
ghost use Rattle.message_json.specs.Write.{IsShort};
ghost use Rattle.session_core.specs.Answers.{attached, had};
ghost use Rattle.session_core.specs.Deliveries.{delivered, after_delivery};
ghost use Rattle.session_core.specs.News.{reply_message};
ghost use Rattle.session_core.specs.Rules.{has_user, has_peer};
ghost use Rattle.session_hub.specs.Entries.{copies_at, entries_of};
ghost use Rattle.shard_marks.specs.Frames.{frames_of};
ghost use Rattle.shard_marks.specs.Told.{AreToldAt};

use crate::frames::frames;
use crate::published::names_for;
use crate::shard::Shard;
use doc_items::Memory;
use hosted_copies::HostedCopies;
use session_core::{Reply, Session};
use shard_copies::ShardCopies;
use std::alloc::Global;
use wave_base::{HashedVersion, WaveletName};
use wave_outside::Folder;

impl<F: Folder + Drop> Shard<F> {
    /// The reply to an `open`. After want of memory the session is as it was.
    pub(crate) fn attach(
        &self,
        alloc: Global,
        session: &mut Session,
        name: &WaveletName,
        from: Option<&HashedVersion>,
    ) -> Result<Reply, Memory>
        requires { has_user session.old ≡ true }
        ensures reply { IfOk result
            (λ r. (session.new, reply_message r) ≡ attached (copies_at self.now) session.old name.now (option_copied from.entry)) }
        ensures short { IfOk result (λ r. IsShort (reply_message r)) }
        ensures same { OnErr result (session.new ≡ session.old) }
    {
        let copies = ShardCopies {
            hosted: HostedCopies {
                domain: &self.domain,
                shelf: &self.shelf,
            },
            replicas: &self.replicas,
        };
        copies.are_shown();
        session.answer_attach(alloc, &copies, name, from)
    }

    /// Notes up to where a peer has a wavelet. After want of memory the session is as it was.
    pub(crate) fn have(
        &self,
        alloc: Global,
        session: &mut Session,
        name: &WaveletName,
        from: &HashedVersion,
    ) -> Result<(), Memory>
        requires { has_peer session.old ≡ true }
        ensures after { OnOk result (session.new ≡ had (copies_at self.now) session.old name.now from.now) }
        ensures same { OnErr result (session.new ≡ session.old) }
    {
        let copies = ShardCopies {
            hosted: HostedCopies {
                domain: &self.domain,
                shelf: &self.shelf,
            },
            replicas: &self.replicas,
        };
        copies.are_shown();
        session.answer_have(alloc, &copies, name, from)
    }

    /// What is new to a session, as texts. Of a peer that was told all that there was at this number of marks, or of whom nothing
    /// is known at 0, just the wavelets are looked at that were published since. The error is want of memory. The marks stay.
    pub(crate) fn deliver(
        &mut self,
        alloc: Global,
        session: &mut Session,
        sent: u64,
    ) -> Result<Vec<Vec<u8>>, Memory>
        requires told { AreToldAt self.old.domain self.old.number (entries_of self.old) session.old sent }
        ensures marks { entries_of self.new ≡ entries_of self.old }
        ensures frames { IfOk result (λ v. map (λ f. f.items) v.items ≡ frames_of (delivered (copies_at self.old) session.old)) }
        ensures after { OnOk result (session.new ≡ after_delivery (copies_at self.old) session.old) }
        ensures told { OnOk result (delivered (copies_at self.old) session.new ≡ []) }
    {
        let copies = ShardCopies {
            hosted: HostedCopies {
                domain: &self.domain,
                shelf: &self.shelf,
            },
            replicas: &self.replicas,
        };
        copies.are_shown();
        let records = self.records.as_slice();
        let names = names_for(alloc, &copies.hosted, records, session, sent)?;
        let named = names.as_slice();
        let news = session.deliver_named(alloc, &copies, named)?;
        frames(alloc, news.as_slice(), &mut self.texts)
    }
}
