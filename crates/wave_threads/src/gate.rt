//! A gate that wakes the others.
use std::alloc::Global;
use std::sync::Arc;
use wave_outside::Gate;
use ws_link::Bells;

/// Wakes those who have opened a shard where it has news. Whoever takes a turn of a shard has opened it from then on: before the turn
/// the gate notes that at the bell of the session, so no news that come after the turn are missed. A gate without bells wakes
/// nobody, and the others look again by themselves within a second.
pub struct RingingGate {
    bells: Option<Arc<Bells, Global>>,
    seat: Option<Place>,
}

/// Where a session's bell is, and which shards it has opened.
#[derive(Clone, Copy)]
struct Place {
    session: u64,
    place: usize,
    shards: u64,
}

impl Drop for RingingGate {
    fn drop(self) {
        let RingingGate {
            bells: _bells,
            seat: _seat,
        } = self;
    }
}

impl RingingGate {
    /// A gate with these bells.
    pub fn new(bells: Arc<Bells, Global>) -> RingingGate {
        RingingGate {
            bells: Some(bells),
            seat: None,
        }
    }

    // What is known of the session.
    fn place_of(&self, bells: &Bells, session: u64) -> Place {
        match self.seat {
            Some(seat) if seat.session == session => seat,
            _ => Place {
                session,
                place: bells.place_of(session),
                shards: 0,
            },
        }
    }

    // Notes that the session opens the shard.
    fn opened(&self, session: u64, shard: u8) -> Option<Place> {
        let Some(bells) = &self.bells else {
            return None;
        };
        let mut seat = self.place_of(bells, session);
        let bit = 1u64.wrapping_shl(u32::from(shard));
        if seat.shards & bit == 0 {
            bells.want(seat.place, shard);
            seat.shards |= bit;
        }
        Some(seat)
    }
}

impl Gate for RingingGate {
    fn before(&mut self, session: u64, shard: u8) {
        self.seat = self.opened(session, shard);
    }

    fn after(&mut self, _session: u64, _shard: u8) {}

    fn news(&mut self, session: u64, shard: u8) {
        if let Some(bells) = &self.bells {
            let seat = self.place_of(bells, session);
            bells.ring_others(seat.place, shard);
        }
    }

    fn another(&self) -> RingingGate {
        let bells = match &self.bells {
            Some(bells) => Arc::try_clone(bells).ok(),
            None => None,
        };
        RingingGate { bells, seat: None }
    }
}
