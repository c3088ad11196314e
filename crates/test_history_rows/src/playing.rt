// A drawn history that is played: `play-drawn SEED DELTAS MOVES`. So many deltas are drawn, and the state after each is noted as text. A
// playback goes on from the start to the head, back to the start, and then makes so many drawn moves: on, back, and to drawn versions,
// some of which no delta ends at. After each move its answer, version and state are compared with what was noted. Printed are the
// numbers of deltas, of versions that were reached by going on, by going back and by going to them, of moves, and how many
// of these differ.
use crate::drawn::drawn_delta;
use crate::draws::Draws;
use crate::fault::Fault;
use delta_history::History;
use doc_items::Memory;
use std::alloc::Global;
use test_row_words::{number, words};
use test_wavelet_words::shown_state;
use wave_base::WaveletName;
use wave_playback::Playback;

// A version at which a delta ends, with the state there, and whether it was reached by going on, by going back, by going to it.
struct Stop {
    version: u64,
    state: String,
    on: bool,
    back: bool,
    to: bool,
}

impl Drop for Stop {
    fn drop(self) {
        let Stop {
            version: _version,
            state: _state,
            on: _on,
            back: _back,
            to: _to,
        } = self;
    }
}

// The stops of a history, the one where the playback is, and how many moves were made and went wrong.
struct Play {
    stops: Vec<Stop>,
    place: usize,
    moves: u64,
    differ: u64,
}

impl Drop for Play {
    fn drop(self) {
        let Play {
            stops: _stops,
            place: _place,
            moves: _moves,
            differ: _differ,
        } = self;
    }
}

fn stop_at(alloc: Global, history: &History) -> Result<Stop, Memory> {
    Ok(Stop {
        version: history.head().version,
        state: shown_state(alloc, history.state())?,
        on: false,
        back: false,
        to: false,
    })
}

impl Play {
    // Draws the deltas of a history.
    fn new(
        alloc: Global,
        draws: &mut Draws,
        history: &mut History,
        deltas: u64,
    ) -> Result<Play, Fault> {
        let mut stops = Vec::new(alloc);
        stops.push(stop_at(alloc, history)?)?;
        for _ in 0..deltas {
            let delta = drawn_delta(alloc, draws, history)?;
            history.push_applied(alloc, delta)?;
            stops.push(stop_at(alloc, history)?)?;
        }
        Ok(Play {
            stops,
            place: 0,
            moves: 0,
            differ: 0,
        })
    }

    fn last(&self) -> usize {
        self.stops.len().saturating_sub(1)
    }

    fn place_of(&self, version: u64) -> Option<usize> {
        for (place, stop) in self.stops.iter().enumerate() {
            if stop.version == version {
                return Some(place);
            }
        }
        None
    }

    // Whether the playback is where it should be.
    fn is_there(&self, alloc: Global, playback: &Playback<'_>) -> Result<bool, Fault> {
        let Some(stop) = self.stops.get(self.place) else {
            return Ok(false);
        };
        let state = shown_state(alloc, playback.state())?;
        Ok(playback.version() == stop.version && state.as_str() == stop.state.as_str())
    }

    fn note(&mut self, alike: bool) {
        self.moves = self.moves.wrapping_add(1);
        if !alike {
            self.differ = self.differ.wrapping_add(1);
        }
    }

    fn go_on(&mut self, alloc: Global, playback: &mut Playback<'_>) -> Result<(), Fault> {
        let should = self.place < self.last();
        let went = playback.forward(alloc)?;
        if should {
            self.place = self.place.wrapping_add(1);
        }
        let alike = self.is_there(alloc, playback)? && went == should;
        self.note(alike);
        if let Some(stop) = self.stops.get_mut(self.place) {
            stop.on = stop.on || went;
        }
        Ok(())
    }

    fn go_back(&mut self, alloc: Global, playback: &mut Playback<'_>) -> Result<(), Fault> {
        let should = self.place > 0;
        let went = playback.back(alloc)?;
        if should {
            self.place = self.place.wrapping_sub(1);
        }
        let alike = self.is_there(alloc, playback)? && went == should;
        self.note(alike);
        if let Some(stop) = self.stops.get_mut(self.place) {
            stop.back = stop.back || went;
        }
        Ok(())
    }

    fn go_to(
        &mut self,
        alloc: Global,
        playback: &mut Playback<'_>,
        version: u64,
    ) -> Result<(), Fault> {
        let place = self.place_of(version);
        let went = playback.seek(alloc, version)?;
        if let Some(place) = place {
            self.place = place;
        }
        let alike = self.is_there(alloc, playback)? && went == place.is_some();
        self.note(alike);
        if let Some(stop) = self.stops.get_mut(self.place) {
            stop.to = stop.to || went;
        }
        Ok(())
    }

    // From the start to the head, and back.
    fn go_both_ways(&mut self, alloc: Global, playback: &mut Playback<'_>) -> Result<(), Fault> {
        for _ in 0..self.stops.len() {
            self.go_on(alloc, playback)?;
        }
        for _ in 0..self.stops.len() {
            self.go_back(alloc, playback)?;
        }
        Ok(())
    }

    fn go_anywhere(
        &mut self,
        alloc: Global,
        draws: &mut Draws,
        playback: &mut Playback<'_>,
    ) -> Result<(), Fault> {
        match draws.below(4) {
            0 => self.go_on(alloc, playback),
            1 => self.go_back(alloc, playback),
            2 => {
                let head = playback.history().head().version;
                let version = draws.below(head.saturating_add(3));
                self.go_to(alloc, playback, version)
            }
            _ => {
                let place = draws.below(self.stops.len() as u64) as usize;
                let version = match self.stops.get(place) {
                    Some(stop) => stop.version,
                    None => 0,
                };
                self.go_to(alloc, playback, version)
            }
        }
    }

    fn put(&self, out: &mut String) -> Result<(), Memory> {
        let deltas = self.last();
        let mut on = 0u64;
        let mut back = 0u64;
        let mut to = 0u64;
        for stop in self.stops.as_slice() {
            on = on.wrapping_add(u64::from(stop.on));
            back = back.wrapping_add(u64::from(stop.back));
            to = to.wrapping_add(u64::from(stop.to));
        }
        let moves = self.moves;
        let differ = self.differ;
        Ok(write!(
            out,
            " => {deltas} deltas => {on} by next, {back} by back, {to} by goto => {moves} moves => {differ} differ"
        )?)
    }
}

fn played(alloc: Global, rest: &str, out: &mut String) -> Result<(), Fault> {
    let (seed, rest) = words(rest);
    let (deltas, moves) = words(rest);
    let mut draws = Draws::new(number(seed));
    let name = WaveletName::parse(alloc, "a.com/w1/a.com/conv+root")?;
    let mut history = History::new(alloc, name);
    let mut play = Play::new(alloc, &mut draws, &mut history, number(deltas))?;
    let mut playback = Playback::new(alloc, &history);
    play.go_both_ways(alloc, &mut playback)?;
    for _ in 0..number(moves) {
        play.go_anywhere(alloc, &mut draws, &mut playback)?;
    }
    Ok(play.put(out)?)
}

/// The answer to `play-drawn`.
pub fn call(alloc: Global, verb: &str, rest: &str, out: &mut String) -> Result<bool, Fault> {
    if verb != "play-drawn" {
        return Ok(false);
    }
    played(alloc, rest, out)?;
    Ok(true)
}
