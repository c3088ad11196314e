ghost use Rattle.std.specs.Prelude.{◌≡◌, ◌≤◌, ◌<◌, ◌+◌, ◌-◌, ◌^◌, ◌++◌, ◌||◌, min, true, false, Some, None, is_some, option_copied, IsTrue, IsSome};
ghost use mathlib.Core.List.{IsPrefix};
ghost use Rattle.std.specs.Coded.{Coded-set, coded_bool};
ghost use Rattle.std.specs.List.{All};
ghost use Rattle.std.specs.Str.{encode_utf8_all};
ghost use Rattle.wave_outside.specs.Links.{IsUnused};
ghost use Rattle.peer_turns.specs.Calls.{refused, refusals, gifts};
ghost use Rattle.federation_link.specs.Called.{Begins, Dials, GoesOn, Rests};
ghost use Rattle.federation_link.specs.Dials.{count_in, list_in, line_after, AreSent, IsGone, IsUnlinked, IsBack, WasAsked};
ghost use Rattle.federation_link.specs.Sends.{WasSent};
ghost use Rattle.federation_link.specs.Steps.{is_cut};

use crate::ear::Ear;
use crate::greeting::greet;
use crate::step::step;
use crate::stepped::Stepped;
use crate::stop::Stop;
use doc_items::Text;
use peer_turns::{PeerTurns, TurnFault};
use session_core::Waitings;
use std::alloc::Global;
use std::sync::Wait;
use wave_base::Domain;
use wave_outside::{Link, Net, NetFault};

/// The link with another domain, where there is one.
pub struct PeerLink<L: Link> {
    pub(crate) domain: Domain,
    pub(crate) own: Domain,
    pub(crate) address: Text,
    pub(crate) link: Option<L>,
    // Where there is no link it is `Cut`.
    pub(crate) ear: Ear,
    // What was sent on the link and has no answer yet.
    pub(crate) unanswered: Waitings,
    ghost linked: { (is_cut ear || is_some link) ≡ true } by { Coded-set coded_bool (is_cut ear || is_some link) true },
    ghost sent: { AreSent L.tells L.events link unanswered },
}

impl<L: Link> Drop for PeerLink<L> {
    fn drop(self) {
        let PeerLink {
            domain: _domain,
            own: _own,
            address: _address,
            link: _link,
            ear: _ear,
            unanswered: _unanswered,
        } = self;
    }
}

impl<L: Link> PeerLink<L> {
    /// A peer at this address that speaks for `domain`, with which `own` has no link yet.
    pub fn new(alloc: Global, domain: Domain, own: Domain, address: Text) -> PeerLink<L>
        ensures unlinked { result.link ≡ None }
        ensures names { (result.domain ≡ domain) × (result.own ≡ own) × (result.address ≡ address) }
        ensures cut { is_cut result.ear ≡ true }
    {
        PeerLink {
            domain,
            own,
            address,
            link: None,
            ear: Ear::Cut,
            unanswered: Waitings::new(alloc),
        }
    }

    /// The link; None exactly where there is none.
    pub fn link(&self) -> Option<&L>
        ensures { option_copied result ≡ self.now.link }
    {
        self.link.as_ref()
    }

    /// Whether the next step dials, and puts the link back first, where there is one.
    pub fn is_cut(&self) -> bool
        ensures { result ≡ is_cut self.now.ear }
    {
        self.ear.is_cut()
    }

    /// The link, by value; None exactly where there is none.
    pub fn close(self) -> Option<L>
        ensures { result ≡ self.link }
    {
        let PeerLink {
            domain: _domain,
            own: _own,
            address: _address,
            link,
            ear: _ear,
            unanswered: _unanswered,
        } = self;
        link
    }

    // One step on the link, which is open.
    fn go_on<R: Wait, T: PeerTurns>(
        &mut self,
        rt: &R,
        alloc: Global,
        turns: &mut T,
    ) -> Result<Stepped, TurnFault>
        requires open { is_cut self.old.ear ≡ false }
        ensures gone { GoesOn L.Link T.PeerTurns self.old.domain self.old.link self.new.link self.old.ear self.new.ear self.old.unanswered
            self.new.unanswered turns.old turns.new result }
        ensures later { IsGone self.old.link self.new.link
            (λ l m. (L.faults l ≤ L.faults m) × (IsTrue L.tells → IsPrefix (L.events l) (L.events m))) }
        ensures idle { Rests L.Link T.PeerTurns self.old.domain self.old.link self.new.link turns.old turns.new result }
        ensures spent { IsTrue T.tells → refusals (T.calls turns.new) ≡ refusals (T.calls turns.old) ++ refused result }
        ensures names { (self.new.domain ≡ self.old.domain) × (self.new.own ≡ self.old.own) × (self.new.address ≡ self.old.address) }
    {
        match &mut self.link {
            Some(link) => {
                step(
                    rt,
                    alloc,
                    &self.domain,
                    link,
                    &mut self.ear,
                    &mut self.unanswered,
                    turns,
                )
            }
            None => unreachable!(),
        }
    }

    // Puts the link back that there is.
    fn put_back<N: Net<Link = L>>(&mut self, alloc: Global, net: &mut N)
        requires out { IsSome self.old.link → 0 < N.out net.old }
        ensures unlinked { self.new.link ≡ None }
        ensures cut { self.new.ear ≡ Ear.Cut }
        ensures back { N.back net.new ≡ N.back net.old ++ list_in self.old.link }
        ensures out { N.out net.new + count_in self.old.link ≡ N.out net.old }
        ensures line { N.line net.new ≡ line_after L.faults self.old.link (N.line net.old) }
        ensures rises { min (N.line net.old) (2 ^ 64 - 1) ≤ N.line net.new }
        ensures asked { IsTrue N.tells → N.asked net.new ≡ N.asked net.old }
        ensures same { (N.door net.new ≡ N.door net.old) × (N.accepted net.new ≡ N.accepted net.old) × (N.looks net.new ≡ N.looks net.old) }
        ensures names { (self.new.domain ≡ self.old.domain) × (self.new.own ≡ self.old.own) × (self.new.address ≡ self.old.address) }
    {
        self.ear = Ear::Cut;
        self.unanswered = Waitings::new(alloc);
        match self.link.take() {
            Some(link) => net.put(link),
            None => {}
        }
    }
    // Begins a new link.
    fn begin<R: Wait, N: Net<Link = L>, T: PeerTurns>(
        &mut self,
        rt: &R,
        alloc: Global,
        net: &mut N,
        turns: &mut T,
        link: L,
    ) -> Result<Stepped, TurnFault>
        requires unused { IsUnused (L.faults link) (L.events link) (L.closed link) }
        requires unlinked { IsUnlinked self.old.link self.old.ear }
        requires out { 0 < N.out net.old }
        ensures begun { Begins L.Link T.PeerTurns self.old.domain self.old.own self.new.link self.new.ear self.new.unanswered turns.old
            turns.new result }
        ensures back { IsBack result None (N.back net.old) (N.back net.new) }
        ensures rises { min (N.line net.old) (2 ^ 64 - 1) ≤ N.line net.new }
        ensures out { N.out net.new + 1 ≡ N.out net.old + count_in self.new.link }
        ensures asked { IsTrue N.tells → N.asked net.new ≡ N.asked net.old }
        ensures same { (N.door net.new ≡ N.door net.old) × (N.accepted net.new ≡ N.accepted net.old) × (N.looks net.new ≡ N.looks net.old) }
        ensures spent { IsTrue T.tells → refusals (T.calls turns.new) ≡ refusals (T.calls turns.old) ++ refused result }
        ensures gifts { IsTrue T.tells → gifts (T.calls turns.new) ≡ gifts (T.calls turns.old) }
        ensures names { (self.new.domain ≡ self.old.domain) × (self.new.own ≡ self.old.own) × (self.new.address ≡ self.old.address) }
    {
        let mut link = link;
        let mut unanswered = Waitings::new(alloc);
        match greet(
            rt,
            alloc,
            &self.own,
            &self.domain,
            &mut link,
            &mut unanswered,
            turns,
        ) {
            Ok(()) => {
                self.hold(link, unanswered);
                Ok(Stepped::Dialled)
            }
            Err(Stop::Link) => {
                self.leave(alloc, link);
                Ok(Stepped::Cut)
            }
            Err(Stop::Turn(fault)) => {
                net.put(link);
                Err(fault)
            }
        }
    }

    // Holds a link that is open, on which this was sent.
    fn hold(&mut self, link: L, unanswered: Waitings)
        requires sent { IsTrue L.tells → All (WasSent (L.events link)) unanswered }
        ensures link { (self.new.link ≡ Some link) × (self.new.ear ≡ Ear.Open) × (self.new.unanswered ≡ unanswered) }
        ensures names { (self.new.domain ≡ self.old.domain) × (self.new.own ≡ self.old.own) × (self.new.address ≡ self.old.address) }
    {
        self.link = Some(link);
        self.ear = Ear::Open;
        self.unanswered = unanswered;
    }

    // Holds a link that was cut.
    fn leave(&mut self, alloc: Global, link: L)
        ensures link { (self.new.link ≡ Some link) × (self.new.ear ≡ Ear.Cut) }
        ensures names { (self.new.domain ≡ self.old.domain) × (self.new.own ≡ self.old.own) × (self.new.address ≡ self.old.address) }
    {
        self.link = Some(link);
        self.ear = Ear::Cut;
        self.unanswered = Waitings::new(alloc);
    }

    // Dials, after the link that was cut is put back.
    fn dial<R: Wait, N: Net<Link = L>, T: PeerTurns>(
        &mut self,
        rt: &R,
        alloc: Global,
        net: &mut N,
        turns: &mut T,
    ) -> Result<Stepped, TurnFault>
        requires out { IsSome self.old.link → 0 < N.out net.old }
        ensures dialled { Dials L.Link T.PeerTurns self.old.domain self.old.own self.old.link self.new.link self.new.ear self.new.unanswered
            turns.old turns.new (N.line net.old) (N.line net.new) result }
        ensures back { IsBack result self.old.link (N.back net.old) (N.back net.new) }
        ensures rises { min (N.line net.old) (2 ^ 64 - 1) ≤ N.line net.new }
        ensures out { N.out net.new + count_in self.old.link ≡ N.out net.old + count_in self.new.link }
        ensures asked { IsTrue N.tells → WasAsked result (encode_utf8_all self.old.address) (N.asked net.old) (N.asked net.new) }
        ensures same { (N.door net.new ≡ N.door net.old) × (N.accepted net.new ≡ N.accepted net.old) × (N.looks net.new ≡ N.looks net.old) }
        ensures spent { IsTrue T.tells → refusals (T.calls turns.new) ≡ refusals (T.calls turns.old) ++ refused result }
        ensures gifts { IsTrue T.tells → gifts (T.calls turns.new) ≡ gifts (T.calls turns.old) }
        ensures names { (self.new.domain ≡ self.old.domain) × (self.new.own ≡ self.old.own) × (self.new.address ≡ self.old.address) }
    {
        self.put_back(alloc, net);
        match net.dial(alloc, self.address.as_str()) {
            Ok(link) => self.begin(rt, alloc, net, turns, link),
            Err(NetFault::Failed) => Ok(Stepped::Cut),
            Err(NetFault::Memory) => Err(TurnFault::Memory),
        }
    }

    /// One step. Where there is no link, or the link was cut, it puts that link back, and dials: `Dialled`, or `Cut` where the net or the
    /// new link failed. Else it takes the message that came, or sends the submissions that weren't sent yet on this link: `Worked`; `Idle`
    /// where there was nothing of either kind, and `Cut` where the link failed or its peer closed it. The error is `Spent` exactly where a
    /// call of `turns` answered it; `Memory` for want of memory. A message that was not taken for either is the next one. A step that dials
    /// and ends so leaves no link.
    pub fn peer_step<R: Wait, N: Net<Link = L>, T: PeerTurns>(
        &mut self,
        rt: &R,
        alloc: Global,
        net: &mut N,
        turns: &mut T,
    ) -> Result<Stepped, TurnFault>
        requires out { IsSome self.old.link → 0 < N.out net.old }
        ensures dialled { is_cut self.old.ear ≡ true
            → Dials L.Link T.PeerTurns self.old.domain self.old.own self.old.link self.new.link self.new.ear self.new.unanswered turns.old
            turns.new (N.line net.old) (N.line net.new) result }
        ensures back { is_cut self.old.ear ≡ true → IsBack result self.old.link (N.back net.old) (N.back net.new) }
        ensures asked { is_cut self.old.ear ≡ true
            → IsTrue N.tells → WasAsked result (encode_utf8_all self.old.address) (N.asked net.old) (N.asked net.new) }
        ensures ungiven { is_cut self.old.ear ≡ true → IsTrue T.tells → gifts (T.calls turns.new) ≡ gifts (T.calls turns.old) }
        ensures gone { is_cut self.old.ear ≡ false
            → GoesOn L.Link T.PeerTurns self.old.domain self.old.link self.new.link self.old.ear self.new.ear self.old.unanswered
            self.new.unanswered turns.old turns.new result }
        ensures later { is_cut self.old.ear ≡ false
            → IsGone self.old.link self.new.link
            (λ l m. (L.faults l ≤ L.faults m) × (IsTrue L.tells → IsPrefix (L.events l) (L.events m))) }
        ensures idle { is_cut self.old.ear ≡ false
            → Rests L.Link T.PeerTurns self.old.domain self.old.link self.new.link turns.old turns.new result }
        ensures apart { is_cut self.old.ear ≡ false → net.new ≡ net.old }
        ensures rises { min (N.line net.old) (2 ^ 64 - 1) ≤ N.line net.new }
        ensures out { N.out net.new + count_in self.old.link ≡ N.out net.old + count_in self.new.link }
        ensures same { (N.door net.new ≡ N.door net.old) × (N.accepted net.new ≡ N.accepted net.old) × (N.looks net.new ≡ N.looks net.old) }
        ensures spent { IsTrue T.tells → refusals (T.calls turns.new) ≡ refusals (T.calls turns.old) ++ refused result }
        ensures names { (self.new.domain ≡ self.old.domain) × (self.new.own ≡ self.old.own) × (self.new.address ≡ self.old.address) }
    {
        if self.ear.is_cut() {
            self.dial(rt, alloc, net, turns)
        } else {
            self.go_on(rt, alloc, turns)
        }
    }
}
