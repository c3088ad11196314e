// The host and the followers, as the load moves them.
ghost use Rattle.std.specs.Prelude.{◌≡◌, ◌+◌, ◌<◌, ◌∷◌, [], map, IfOk, OnOk};
ghost use Rattle.doc_items.specs.Maps.{Key};
ghost use Rattle.follower_rules.specs.Followers.{new_follower};
ghost use Rattle.client_control.specs.Parts.{follower_of};
ghost use Rattle.load_script.specs.Exchanges.{meeting, level};
ghost use Rattle.load_script.specs.Loads.{client, first, edited, founding, on, each, founded, turned, step, settles, summary};
ghost use Rattle.load_script.specs.Names.{the_wavelet, users};
ghost use Rattle.load_script.specs.Scripts.{load_of};

use crate::Summary;
use crate::choice::Choice;
use crate::draws::Draws;
use crate::editing::{erase_one, invite, type_one};
use crate::exchange::{catch_up, exchange, settle};
use crate::host::Host;
use crate::names::{document, user0, user1, user2, user3, wavelet};
use client_control::Follower;
use doc_items::Memory;
use std::alloc::Global;
use wave_base::Address;

/// The draws, the host and the followers.
pub(crate) struct Script {
    pub draws: Draws,
    pub host: Host,
    pub followers: Vec<Follower>,
}

impl Drop for Script {
    fn drop(self) {
        let Script {
            draws: _draws,
            host: _host,
            followers: _followers,
        } = self;
    }
}

// A user's follower, at the start of the history.
fn follower(alloc: Global, user: Address) -> Result<Follower, Memory>
    ensures { IfOk result (λ f. follower_of f ≡ new_follower the_wavelet (client user)) }
{
    let name = wavelet(alloc)?;
    Ok(Follower::new(alloc, name, user, 1))
}

// The users' followers.
fn followers(alloc: Global) -> Result<Vec<Follower>, Memory>
    ensures { IfOk result (λ v. map follower_of v.items ≡ map (λ (u : Key). new_follower the_wavelet (client u)) users) }
{
    let mut all = Vec::with_capacity(alloc, 4)?;
    all.push(follower(alloc, user0(alloc)?)?)?;
    all.push(follower(alloc, user1(alloc)?)?)?;
    all.push(follower(alloc, user2(alloc)?)?)?;
    all.push(follower(alloc, user3(alloc)?)?)?;
    Ok(all)
}

// User 0 adds all users, and submits it.
fn found(alloc: Global, host: &mut Host, follower: &mut Follower) -> Result<(), Memory>
    ensures { OnOk result (meeting host.new (follower_of follower.new) ≡ founding (meeting host.old (follower_of follower.old))) }
{
    invite(alloc, follower)?;
    exchange(alloc, host, follower, 0)
}

// What a follower does at the time.
#[tactic(auto, unfolding(crate::specs::Loads::turned))]
fn turn(
    alloc: Global,
    draws: &mut Draws,
    host: &mut Host,
    follower: &mut Follower,
    time: u64,
    choice: Choice,
) -> Result<(), Memory>
    ensures { OnOk result ((draws.new, meeting host.new (follower_of follower.new))
        ≡ turned time choice draws.old (meeting host.old (follower_of follower.old))) }
{
    match choice {
        Choice::Types => type_one(alloc, draws, follower),
        Choice::Erases => erase_one(alloc, draws, follower),
        Choice::Exchanges => exchange(alloc, host, follower, time),
    }
}

impl Script {
    /// As the load of this number begins.
    pub fn new(alloc: Global, count: u64) -> Result<Script, Memory>
        ensures { IfOk result (λ s. load_of s ≡ first count) }
    {
        let host = Host::new(alloc)?;
        let followers = followers(alloc)?;
        Ok(Script {
            draws: Draws::new(count),
            host,
            followers,
        })
    }

    // The follower of user 0 founds the wavelet.
    fn found_first(&mut self, alloc: Global) -> Result<(), Memory>
        ensures { OnOk result (load_of self.new ≡ on 0 founding (load_of self.old)) }
    {
        match self.followers.get_mut(0) {
            Some(follower) => found(alloc, &mut self.host, follower),
            None => Ok(()),
        }
    }

    // The follower at a place exchanges until it is settled.
    fn settle_one(&mut self, alloc: Global, count: u64, who: usize) -> Result<(), Memory>
        requires { count < 1000000 }
        ensures { OnOk result (load_of self.new ≡ on who (settles count) (load_of self.old)) }
    {
        match self.followers.get_mut(who) {
            Some(follower) => settle(alloc, &mut self.host, follower, count + 1, count + 1),
            None => Ok(()),
        }
    }

    // The follower at a place catches up.
    fn level_one(&mut self, alloc: Global, who: usize) -> Result<(), Memory>
        ensures { OnOk result (load_of self.new ≡ on who level (load_of self.old)) }
    {
        match self.followers.get_mut(who) {
            Some(follower) => catch_up(alloc, &self.host, follower),
            None => Ok(()),
        }
    }

    /// Each follower receives all that it lacks.
    #[tactic(auto, unfolding(crate::specs::Loads::each))]
    pub fn level(&mut self, alloc: Global) -> Result<(), Memory>
        ensures { OnOk result (load_of self.new ≡ each level (load_of self.old)) }
    {
        self.level_one(alloc, 0)?;
        self.level_one(alloc, 1)?;
        self.level_one(alloc, 2)?;
        self.level_one(alloc, 3)
    }

    /// The load after its founding.
    #[tactic(auto, unfolding(crate::specs::Loads::founded))]
    pub fn founded(alloc: Global, count: u64) -> Result<Script, Memory>
        ensures { IfOk result (λ s. load_of s ≡ founded count) }
    {
        let mut script = Script::new(alloc, count)?;
        script.found_first(alloc)?;
        script.level(alloc)?;
        Ok(script)
    }

    /// The turn of a follower that is drawn.
    pub fn step(&mut self, alloc: Global, time: u64) -> Result<(), Memory>
        ensures { OnOk result (load_of self.new ≡ step time (load_of self.old)) }
    {
        let who = self.draws.below(4) as usize;
        let choice = Choice::of(self.draws.below(4));
        match self.followers.get_mut(who) {
            Some(follower) => turn(
                alloc,
                &mut self.draws,
                &mut self.host,
                follower,
                time,
                choice,
            ),
            None => Ok(()),
        }
    }

    /// The followers exchange, in order, until each is settled.
    pub fn settle(&mut self, alloc: Global, count: u64) -> Result<(), Memory>
        requires { count < 1000000 }
        ensures { OnOk result (load_of self.new ≡ each (settles count) (load_of self.old)) }
    {
        self.settle_one(alloc, count, 0)?;
        self.settle_one(alloc, count, 1)?;
        self.settle_one(alloc, count, 2)?;
        self.settle_one(alloc, count, 3)
    }

    /// What the load came to.
    #[tactic(auto, unfolding(crate::specs::Loads::summary))]
    pub fn summary(&self, alloc: Global) -> Result<Summary, Memory>
        ensures { IfOk result (λ s. s ≡ summary (load_of self.now)) }
    {
        let document = document(alloc)?;
        let head = self.host.head();
        let hash = head.hash;
        Ok(Summary {
            version: head.version,
            items: self.host.items(&document),
            hash,
        })
    }
}
