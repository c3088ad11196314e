// Who attends to the robots of a server.
ghost use Rattle.std.specs.Prelude.{◌<◌};
ghost use Rattle.turn_cells.specs.Cells.{Begins};
ghost use Rattle.session_hub.specs.Hubs.{AreOfHub};

use session_core::SubmitAnswer;
use session_hub::{Hub, Passes, Placed};
use shard_marks::News;
use wave_outside::{Clock, Folder, Gate};
use wavelet_op::Verdict;

/// The number under which the robots take turns at the gate. No session has it.
const ROBOTS: u64 = u64::MAX - 1;

/// Who attends to the robots: a clock and a gate, and how long each shard's history was when nothing of it was left for them.
pub(crate) struct Attendant<C, G> {
    clock: C,
    gate: G,
    looked: [u64; 16],
}

impl<C: Drop, G: Drop> Drop for Attendant<C, G> {
    fn drop(self) {
        let Attendant {
            clock: _clock,
            gate: _gate,
            looked: _looked,
        } = self;
    }
}

impl<C: Clock, G: Gate> Attendant<C, G> {
    /// With the readings of this clock, and at this gate. No shard was looked at yet.
    pub fn new(clock: &C, gate: &G) -> Attendant<C, G> {
        Attendant {
            clock: clock.another(),
            gate: gate.another(),
            looked: [0; 16],
        }
    }

    /// Whether the shard's history has another length than when nothing of it was left.
    pub fn has_news<F: Folder + Drop>(
        &self,
        hub: &Hub<F>,
        passes: &mut Passes<F>,
        shard: u8,
    ) -> bool
        requires own { AreOfHub hub.now passes.old }
        requires shard { shard < 16 }
        ensures own { AreOfHub hub.now passes.new }
        ensures later { Begins passes.old passes.new }
    {
        match hub.news(passes, shard, self.looked[shard as usize]) {
            News::Nothing => false,
            News::Grown { .. } => true,
        }
    }

    /// Notes that nothing of the shard's history is left at this length.
    pub fn note(&mut self, shard: u8, length: u64)
        requires { shard < 16 }
    {
        self.looked[shard as usize] = length;
    }

    /// The next reading of its clock.
    pub fn time(&mut self) -> u64 {
        self.clock.now()
    }

    /// Says at the gate that the robots take a turn of the shard.
    pub fn enter(&mut self, shard: u8) {
        self.gate.before(ROBOTS, shard);
    }

    /// Says there that they took it.
    pub fn leave(&mut self, shard: u8) {
        self.gate.after(ROBOTS, shard);
    }

    // Wakes those who wait for news of the shard, where a delta was accepted.
    fn tell_verdict(&mut self, verdict: Verdict, shard: u8) {
        match verdict {
            Verdict::Ack { .. } => self.gate.news(ROBOTS, shard),
            _ => {}
        }
    }

    /// Wakes those who wait for news of the shard, where the answer is that a delta was accepted.
    pub fn tell(&mut self, placed: &Placed) {
        if let SubmitAnswer::Verdict(verdict) = placed.answer {
            self.tell_verdict(verdict, placed.look.shard);
        }
    }
}
