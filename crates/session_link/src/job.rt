// A session as a job for a thread.
ghost use Rattle.std.specs.Prelude.{◌≡◌, ℕ, length, true, IsTrue};
ghost use Rattle.std.specs.Arc.{arc_value};
ghost use Rattle.wave_outside.specs.Counts.{Rose};
ghost use Rattle.turn_cells.specs.Cells.{Begins};
ghost use Rattle.session_hub.specs.Hubs.{AreOfHub, AreOfHub-prop, server_of};
ghost use Rattle.session_steps.specs.Jobs.{IsEnded};
ghost use Rattle.session_steps.specs.declared.end.EndCause.TheVariants.{Closed, Failed};

use crate::serve::serve_link;
use session_hub::{Hub, Passes};
use session_steps::EndCause;
use std::alloc::Global;
use std::sync::{Arc, Wait};
use wave_outside::{Clock, Folder, Gate, Job, Link};

/// One session that is to be served.
pub struct LinkJob<L: Link, F: Folder + Drop, C: Clock + Drop, G: Gate + Drop> {
    pub(crate) hub: Arc<Hub<F>, Global>,
    pub(crate) passes: Passes<F>,
    pub(crate) link: L,
    pub(crate) clock: C,
    pub(crate) gate: G,
    pub(crate) number: u64,
    ghost own: { AreOfHub (arc_value hub) passes } by { AreOfHub-prop (arc_value hub) passes },
    ghost unused: { length (L.events link) ≡ 0 },
}

impl<L: Link, F: Folder + Drop, C: Clock + Drop, G: Gate + Drop> Drop for LinkJob<L, F, C, G> {
    fn drop(self) {
        let LinkJob {
            hub: _hub,
            passes: _passes,
            link: _link,
            clock: _clock,
            gate: _gate,
            number: _number,
        } = self;
    }
}

/// What is left of a session.
pub struct LinkEnd<L: Link, F: Folder + Drop> {
    pub link: L,
    pub passes: Passes<F>,
    pub cause: EndCause,
}

impl<L: Link, F: Folder + Drop> Drop for LinkEnd<L, F> {
    fn drop(self) {
        let LinkEnd {
            link: _link,
            passes: _passes,
            cause: _cause,
        } = self;
    }
}

impl<L: Link, F: Folder + Drop> LinkEnd<L, F> {
    /// The link, the passes, and why the session ended.
    pub fn into_parts(self) -> (L, Passes<F>, EndCause)
        ensures { (result.0 ≡ self.link) × (result.1 ≡ self.passes) × (result.2 ≡ self.cause) }
    {
        let LinkEnd {
            link,
            passes,
            cause,
        } = self;
        (link, passes, cause)
    }
}

impl<L: Link, F: Folder + Drop, C: Clock + Drop, G: Gate + Drop> LinkJob<L, F, C, G> {
    /// A session over a new link, with passes of the hub.
    pub fn new(
        hub: Arc<Hub<F>, Global>,
        passes: Passes<F>,
        link: L,
        clock: C,
        gate: G,
        number: u64,
    ) -> LinkJob<L, F, C, G>
        requires own { AreOfHub (arc_value hub) passes }
        requires unused { length (L.events link) ≡ 0 }
        ensures shared { (result.hub ≡ hub) × (result.passes ≡ passes) }
        ensures own { (result.link ≡ link) × (result.clock ≡ clock) × (result.gate ≡ gate) × (result.number ≡ number) }
    {
        LinkJob {
            hub,
            passes,
            link,
            clock,
            gate,
            number,
        }
    }

    // The parts of a job, whose type keeps what a session needs.
    fn into_parts(self) -> (Arc<Hub<F>, Global>, Passes<F>, L, C, G, u64)
        ensures { (result.0 ≡ self.hub) × (result.1 ≡ self.passes) × (result.2 ≡ self.link) × (result.3 ≡ self.clock)
            × (result.4 ≡ self.gate) × (result.5 ≡ self.number) }
    {
        let LinkJob {
            hub,
            passes,
            link,
            clock,
            gate,
            number,
        } = self;
        (hub, passes, link, clock, gate, number)
    }
}

impl<L: Link, F: Folder + Drop, C: Clock + Drop, G: Gate + Drop> Job for LinkJob<L, F, C, G> {
    type End = LinkEnd<L, F>;

    ghost may_give = { λ j e. AreOfHub (arc_value j.hub) e.passes × Begins j.passes e.passes
        × (IsTrue L.tells → (after : ℕ → ℕ)
        × IsEnded (server_of (arc_value j.hub)) j.passes e.passes C.tells (C.readings j.clock) after (L.events e.link) e.cause)
        × (e.cause ≡ Closed → L.closed e.link ≡ true) × (e.cause ≡ Failed → Rose (L.faults j.link) (L.faults e.link)) };

    #[tactic(auto, using(session_steps::proofs::Serving::no_events))]
    fn work<R: Wait>(self, rt: &R, alloc: Global) -> LinkEnd<L, F> {
        let (hub, mut passes, mut link, mut clock, mut gate, number) = self.into_parts();
        let cause = serve_link(
            rt,
            alloc,
            &hub,
            &mut passes,
            &mut link,
            &mut clock,
            &mut gate,
            number,
        );
        LinkEnd {
            link,
            passes,
            cause,
        }
    }
}
