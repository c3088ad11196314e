ghost use Rattle.std.specs.Prelude.{◌≡◌, ◌↔◌, Some, IsFalse, is_some, IfOk, OnErr};
ghost use Rattle.delta_history.specs.Histories.{head_of};
ghost use Rattle.wave_playback.specs.Playing.{shown_at, at_version, forward, back, sought};

use crate::places::{place_of, version_at};
use crate::steps::{Backs, step_back, step_on};
use crate::walk::go;
use delta_history::History;
use doc_items::Memory;
use std::alloc::Global;
use std::marker::Model;
use wavelet_state::WaveletState;

/// A history that is played: it shows the state at one of its delta ends, and goes on and back from there.
pub struct Playback<'a> {
    history: &'a History,
    // How many deltas lead to what is shown, and the version there.
    place: usize,
    version: u64,
    state: WaveletState,
    backs: Backs,
}

impl<'a> Drop for Playback<'a> {
    fn drop(self) {
        let Playback {
            history: _history,
            place: _place,
            version: _version,
            state: _state,
            backs: _backs,
        } = self;
    }
}

impl<'a> Model for Playback<'a> {
    ghost use Rattle.std.specs.Prelude.{◌≤◌, length};
    ghost use Rattle.std.specs.Coded.{codes};
    ghost use Rattle.delta_history.specs.contracts.history.History as history_row;
    ghost use Rattle.wave_playback.specs.Playing.{PlaybackOf};
    ghost use Rattle.wave_playback.specs.Places.{AreBacks, IsThere};

    ghost Value = { PlaybackOf };

    ghost coded = { Prim.hlevel (codes, history_row.the_row.coded) };

    ghost view = { λ p. record { history = p.history.now; version = p.version } };

    ghost invariant = { λ p. record {
      there : IsThere p.history.now p.place p.version p.state;
      backs : AreBacks p.history.now.deltas p.backs.items;
      reached : p.place ≤ length p.backs.items;
    } };
}

impl<'a> Playback<'a> {
    /// The history at version 0.
    pub fn new(alloc: Global, history: &'a History) -> Playback<'a>
        ensures { result ≡ at_version history.now 0 }
    {
        // The history is legal.
        let _deltas = history.deltas();
        let state = WaveletState::new(alloc);
        let backs = Vec::new(alloc);
        Playback {
            history,
            place: 0,
            version: 0,
            state,
            backs,
        }
    }

    /// The history.
    pub fn history(&self) -> &History
        ensures { result.now ≡ self.now.history }
    {
        self.history
    }

    /// The version that is shown.
    pub fn version(&self) -> u64
        ensures { result ≡ self.now.version }
    {
        self.version
    }

    /// The state at that version.
    pub fn state(&self) -> &WaveletState
        ensures { shown_at self.now.history self.now.version ≡ Some result.now }
    {
        &self.state
    }

    /// Goes on by one delta, whose inverse is kept; false exactly at the head. The error is want of memory. After false and after the
    /// error all is as it was.
    pub fn forward(&mut self, alloc: Global) -> Result<bool, Memory>
        ensures ok { IfOk result (λ went. (went, self.new) ≡ forward self.old) }
        ensures head { IfOk result (λ went. IsFalse went ↔ (self.old.version ≡ (head_of self.old.history).at.version)) }
        ensures kept { OnErr result (self.new ≡ self.old) }
    {
        if self.place == self.history.deltas().len() {
            return Ok(false);
        }
        step_on(
            alloc,
            self.history,
            self.place,
            &mut self.state,
            &mut self.backs,
        )?;
        self.place += 1;
        self.version = version_at(self.history, self.place);
        Ok(true)
    }

    /// Goes back by one delta, by its inverse; false exactly at version 0. The error is want of memory. After false and after the error
    /// all is as it was.
    pub fn back(&mut self, alloc: Global) -> Result<bool, Memory>
        ensures ok { IfOk result (λ went. (went, self.new) ≡ back self.old) }
        ensures start { IfOk result (λ went. IsFalse went ↔ (self.old.version ≡ 0)) }
        ensures kept { OnErr result (self.new ≡ self.old) }
    {
        if self.place == 0 {
            return Ok(false);
        }
        step_back(
            alloc,
            self.history,
            self.place,
            &mut self.state,
            &self.backs,
        )?;
        self.place -= 1;
        let before = version_at(self.history, self.place);
        self.version = before;
        Ok(true)
    }

    /// Goes to a version; false exactly where it is no delta end. It starts from the nearest of the states that are there: the one that
    /// is shown, the empty one, and the history's own at its head once all inverses are kept. The error is want of memory. After false
    /// and after the error all is as it was.
    pub fn seek(&mut self, alloc: Global, version: u64) -> Result<bool, Memory>
        ensures ok { IfOk result (λ went. (went, self.new) ≡ sought self.old version) }
        ensures end { IfOk result (λ went. went ≡ is_some (shown_at self.old.history version)) }
        ensures kept { OnErr result (self.new ≡ self.old) }
    {
        match place_of(self.history, version) {
            None => Ok(false),
            Some(place) => {
                go(
                    alloc,
                    self.history,
                    self.place,
                    place,
                    &mut self.state,
                    &mut self.backs,
                )?;
                self.place = place;
                self.version = version;
                Ok(true)
            }
        }
    }
}
