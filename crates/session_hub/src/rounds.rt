// A round of the robots over the histories of a shard.
ghost use Rattle.std.specs.Prelude.{◌≡◌, ◌≢◌, ◌∷◌, [], IfOk, OnErr, Some, None};
ghost use Rattle.robot_host.specs.Hosts.{host_as, MayTurn};
ghost use Rattle.robot_host.specs.Rounds.{IsRound, IsRoundCut};
ghost use Rattle.session_hub.specs.Entries.{entries_of};
ghost use Rattle.session_hub.specs.Robots.{MayTurnAt, IsRoundAt, IsRoundCutAt};

use crate::robots::RobotWork;
use crate::shard::Shard;
use delta_history::History;
use doc_items::Memory;
use hosted_copies::HostedCopies;
use robot_host::{Robot, RobotEdit, RobotHost};
use shard_marks::Look;
use std::alloc::Global;
use wave_base::WaveletName;
use wave_outside::Folder;

/// What a round gave: the edits of the first turn that gave any, and the name of its wavelet.
pub(crate) struct Round {
    pub name: Option<WaveletName>,
    pub edits: Vec<RobotEdit>,
}

impl Drop for Round {
    fn drop(self) {
        let Round {
            name: _name,
            edits: _edits,
        } = self;
    }
}

impl Round {
    // A round that gave nothing.
    fn none(alloc: Global) -> Round
        ensures name { result.name ≡ None }
        ensures edits { result.edits.items ≡ [] }
    {
        Round {
            name: None,
            edits: Vec::new(alloc),
        }
    }

    // What a turn over a wavelet's history gave.
    fn of(name: WaveletName, edits: Vec<RobotEdit>) -> Round
        ensures edits { result.edits.items ≡ edits.items }
        ensures none { edits.items ≡ [] → result.name ≡ None }
        ensures some { edits.items ≢ [] → result.name ≡ Some name }
    {
        if edits.is_empty() {
            Round { name: None, edits }
        } else {
            Round {
                name: Some(name),
                edits,
            }
        }
    }

    /// What the round gave, at the moment of a look.
    pub fn placed(self, look: Look) -> RobotWork
        ensures { result ≡ record { look = look; name = self.name; edits = self.edits } }
    {
        let Round { name, edits } = self;
        RobotWork { look, name, edits }
    }
}

// A turn over one history, unless nothing of it is left for the robots. The name is copied first, so that no edit is lost.
fn turn_over(alloc: Global, host: &mut RobotHost, history: &History) -> Result<Round, Memory>
    requires { MayTurn (host_as ⟦<dyn Robot as Robot>⟧ host.old) history.now }
    ensures round { IfOk result
        (λ r. IsRound (host_as ⟦<dyn Robot as Robot>⟧ host.old) (history.now ∷ [])
        (host_as ⟦<dyn Robot as Robot>⟧ host.new) r.name r.edits.items) }
    ensures cut { OnErr result
        (IsRoundCut (host_as ⟦<dyn Robot as Robot>⟧ host.old) (history.now ∷ []) (host_as ⟦<dyn Robot as Robot>⟧ host.new)) }
{
    if host.is_settled(history) {
        return Ok(Round::none(alloc));
    }
    let name = history.name().copy(alloc)?;
    let edits = host.turn(alloc, history)?;
    Ok(Round::of(name, edits))
}

impl<F: Folder + Drop> Shard<F> {
    /// Turns of the robots over what the domain hosts, in byte order of names, until one gives edits. The error is want of memory.
    pub(crate) fn robot_turn(&self, alloc: Global, host: &mut RobotHost) -> Result<Round, Memory>
        requires { MayTurnAt self.now.domain self.now.number (entries_of self.now) (host_as ⟦<dyn Robot as Robot>⟧ host.old) }
        ensures round { IfOk result
            (λ r. IsRoundAt self.now.domain self.now.number (entries_of self.now) (host_as ⟦<dyn Robot as Robot>⟧ host.old)
            (host_as ⟦<dyn Robot as Robot>⟧ host.new) r.name r.edits.items) }
        ensures cut { OnErr result
            (IsRoundCutAt self.now.domain self.now.number (entries_of self.now) (host_as ⟦<dyn Robot as Robot>⟧ host.old)
            (host_as ⟦<dyn Robot as Robot>⟧ host.new)) }
    {
        let copies = HostedCopies {
            domain: &self.domain,
            shelf: &self.shelf,
        };
        for place in 0..copies.count() {
            match copies.history(place) {
                Some(history) => {
                    let round = turn_over(alloc, host, history)?;
                    if round.name.is_some() {
                        return Ok(round);
                    }
                }
                None => {}
            }
        }
        Ok(Round::none(alloc))
    }
}
