//! The gate of a talk.
use crate::stage::Stage;
use std::alloc::Global;
use std::sync::Arc;
use wave_outside::{Gate, HoldingGate};

/// A gate that may hold a session, and counts the edits of robots that were accepted.
pub struct StagedGate {
    gate: HoldingGate,
    // None where no gate could share the talk.
    stage: Option<Arc<Stage, Global>>,
}

impl Drop for StagedGate {
    fn drop(self) {
        let StagedGate {
            gate: _gate,
            stage: _stage,
        } = self;
    }
}

impl StagedGate {
    pub fn new(gate: HoldingGate, stage: Arc<Stage, Global>) -> StagedGate {
        StagedGate {
            gate,
            stage: Some(stage),
        }
    }
}

impl Gate for StagedGate {
    fn before(&mut self, session: u64, shard: u8) {
        self.gate.before(session, shard);
    }

    fn after(&mut self, session: u64, shard: u8) {
        self.gate.after(session, shard);
    }

    fn news(&mut self, session: u64, shard: u8) {
        self.gate.news(session, shard);
        if let Some(stage) = &self.stage {
            stage.note_news(session);
        }
    }

    fn another(&self) -> StagedGate {
        let stage = match &self.stage {
            Some(stage) => Arc::try_clone(stage).ok(),
            None => None,
        };
        StagedGate {
            gate: self.gate.another(),
            stage,
        }
    }
}
