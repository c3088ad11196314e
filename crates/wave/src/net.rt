//! The net over sockets, which says on standard error where it listens.
ghost use Rattle.std.specs.Prelude.{[], false, map};

use std::alloc::Global;
use std::io;
use wave_outside::{Accepted, Net, NetFault};
use ws_link::{SocketLink, SocketNet};

/// A net that tells a person that it listens, and where. Nothing is promised of that line.
pub struct TellingNet {
    pub rt: HostRuntime,
    pub net: SocketNet<HostRuntime>,
}

impl Drop for TellingNet {
    fn drop(self) {
        let TellingNet { rt: _rt, net: _net } = self;
    }
}

// Tells the address. Where standard error is gone, nobody reads it.
fn tell(rt: &HostRuntime, address: &str) -> io::Result<()> {
    eprintln!(rt; "wave listens at {address}")
}

impl Net for TellingNet {
    type Link = SocketLink<HostRuntime>;

    ghost tells = { false };

    ghost asked = { λ _. [] };

    ghost door = { λ n. n.net.door_faults.count };

    ghost line = { λ n. n.net.line.count };

    ghost looks = { λ n. n.net.looks };

    ghost accepted = { λ n. n.net.accepted };

    ghost out = { λ n. n.net.out };

    ghost back = { λ n. map (λ s. s.value) n.net.back.items };

    fn listen(&mut self, alloc: Global, address: &str) -> Result<(), NetFault> {
        self.net.listen(alloc, address)?;
        let _told = tell(&self.rt, address);
        Ok(())
    }

    fn accept(&mut self, alloc: Global) -> Result<Accepted<SocketLink<HostRuntime>>, NetFault> {
        self.net.accept(alloc)
    }

    fn dial(&mut self, alloc: Global, address: &str) -> Result<SocketLink<HostRuntime>, NetFault> {
        self.net.dial(alloc, address)
    }

    fn rest(&mut self) {
        self.net.rest();
    }

    fn put(&mut self, link: SocketLink<HostRuntime>) {
        self.net.put(link);
    }
}
