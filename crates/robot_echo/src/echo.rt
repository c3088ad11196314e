ghost use Rattle.std.specs.Prelude.{◌≡◌, ◌++◌, ◌∷◌, None, IfOk};
ghost use Rattle.wave_base.specs.Grammar.{at_sign};
ghost use Rattle.robot_echo.specs.Echoes.{echo_name, echo_user, IsEcho};

use crate::marking::{are_elsewhere, mark};
use doc_items::Memory;
use robot_host::{Reaction, Robot};
use std::alloc::{AllocError, Global};
use std::marker::Model;
use wave_base::{Address, BaseFault, DocumentName, Domain, WaveletName, addresses_have_two_parts};
use wavelet_op::AppliedDelta;
use wavelet_state::WaveletState;

/// The robot `echo` of a server. It doesn't tell its calls.
pub struct Echo {
    address: Address,
    document: DocumentName,
}

impl Drop for Echo {
    fn drop(self) {
        let Echo {
            address: _address,
            document: _document,
        } = self;
    }
}

impl Model for Echo {
    ghost use Rattle.std.specs.Prelude.{◌≡◌};
    ghost use Rattle.doc_items.specs.Maps.{Key};
    ghost use Rattle.robot_echo.specs.Echoes.{echo_name};

    ghost Value = { Key };

    ghost view = { λ e. e.address };

    ghost invariant = { λ e. e.document ≡ echo_name };
}

// The address of the robot at a domain.
fn address_at(alloc: Global, domain: &Domain) -> Result<Address, Memory>
    ensures { IfOk result (λ a. a ≡ echo_user ++ at_sign ∷ domain.now) }
{
    addresses_have_two_parts();
    let mut text = String::from_str(alloc, "echo@")?;
    text.push_str(domain.text())?;
    match Address::parse(alloc, text.as_str()) {
        Ok(address) => Ok(address),
        Err(BaseFault::BadAddress) => unreachable!(),
        Err(BaseFault::BadName) => unreachable!(),
        Err(BaseFault::Memory) => Err(AllocError),
    }
}

// The name of its document.
fn document_name(alloc: Global) -> Result<DocumentName, Memory>
    ensures { IfOk result (λ d. d ≡ echo_name) }
{
    match DocumentName::parse(alloc, "echo") {
        Ok(name) => Ok(name),
        Err(BaseFault::BadAddress) => unreachable!(),
        Err(BaseFault::BadName) => unreachable!(),
        Err(BaseFault::Memory) => Err(AllocError),
    }
}

impl Echo {
    /// The robot `echo` of the server with this domain. The error is want of memory.
    pub fn new(alloc: Global, domain: &Domain) -> Result<Echo, Memory>
        ensures { IfOk result (λ e. e ≡ echo_user ++ at_sign ∷ domain.now) }
    {
        let address = address_at(alloc, domain)?;
        let document = document_name(alloc)?;
        Ok(Echo { address, document })
    }
}

impl Robot for Echo {
    ghost named = { λ e. e };

    ghost calls = { λ _. None };

    fn address(&self) -> &Address {
        &self.address
    }

    /// A mark at the end of the document `echo` for each delta that mutates another document; else nothing. It never leaves.
    fn react(
        &mut self,
        alloc: Global,
        _name: &WaveletName,
        delta: &AppliedDelta,
        state: &WaveletState,
    ) -> Result<Reaction, Memory>
        ensures same { self.new ≡ self.old }
        ensures answer { IfOk result (IsEcho delta.now state.now) }
    {
        if are_elsewhere(&delta.ops, &self.document) {
            return mark(alloc, state, &self.document);
        }
        Ok(Reaction::Quiet)
    }
}
