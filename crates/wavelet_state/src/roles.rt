// The roles of a wavelet's participants.
ghost use Rattle.std.specs.Prelude.{◌≡◌, List, length, map, IsSome, Option, Some, OnOk, OnErr, IfOk, IfErr, slice_get};
ghost use Rattle.std.specs.Option.{option_copied};
ghost use Rattle.std.specs.FinMap as finite;
ghost use Rattle.wavelet_op.specs.Acts.{meaning, same_role as is_same_role};
ghost use Rattle.wavelet_op.specs.States.{added, removed, role_set};
ghost use Rattle.wavelet_state.specs.Parts.{changed, on_roles, IsStepFault};

use doc_items::Memory;
use std::alloc::Global;
use std::collections::BTreeMap;
use std::marker::Model;
use wave_base::Address;
use wavelet_op::{Role, WaveletFault, WaveletOp};

/// Addresses with their roles, in byte order of the addresses.
#[derive(Drop)]
pub(crate) struct Roles {
    map: BTreeMap<Address, Role>,
}

impl Model for Roles {
    ghost use Rattle.std.specs.Coded.{coded_list, coded_ℕ};
    ghost use Rattle.std.specs.FinMap.{from_entries, code};
    ghost use Rattle.doc_items.specs.Maps.{Map};
    ghost use Rattle.wavelet_op.specs.declared.role.Role.{Role};
    ghost use Rattle.wavelet_op.specs.contracts.role.Role as role_row;

    ghost Value = { Map Role };

    ghost coded = { code (coded_list coded_ℕ) role_row.the_row.coded };

    ghost view = { λ r. from_entries r.map.entries };
}

impl Roles {
    /// No address.
    pub fn new(alloc: Global) -> Roles
        ensures { result ≡ finite.empty }
    {
        Roles {
            map: BTreeMap::new(alloc),
        }
    }

    /// The number of addresses.
    pub fn len(&self) -> usize
        ensures { result ≡ length (finite.entries self.now) }
    {
        self.map.len()
    }

    /// The role of an address; None exactly where the address is absent.
    pub fn get(&self, address: &Address) -> Option<Role>
        ensures { result ≡ finite.get self.now address.now }
    {
        self.map.get(address).copied()
    }

    /// The address at a place in byte order; None exactly where the place isn't below the number of addresses.
    pub fn at(&self, place: usize) -> Option<&Address>
        ensures { option_copied result ≡ slice_get (finite.keys self.now) place }
    {
        let mut left = place;
        for address in self.map.keys() {
            if left == 0 {
                return Some(address);
            }
            left -= 1;
        }
        None
    }

    /// The addresses in byte order. The error is want of memory.
    pub fn addresses(&self, alloc: Global) -> Result<Vec<&Address>, Memory>
        ensures { IfOk result (λ list. map (λ a. a.now) list.items ≡ finite.keys self.entry.now) }
    {
        let mut list = Vec::new(alloc);
        for address in self.map.keys() {
            list.push(address)?;
        }
        Ok(list)
    }

    /// Equal roles.
    pub fn copy(&self, alloc: Global) -> Result<Roles, Memory>
        ensures { IfOk result (λ r. r ≡ self.now) }
    {
        let mut map = BTreeMap::new(alloc);
        for (address, role) in self.map.iter() {
            let address = address.copy(alloc)?;
            let _old = map.insert(address, *role)?;
        }
        Ok(Roles { map })
    }

    /// The address has this role from now on. After want of memory all is as it was.
    pub fn insert(&mut self, alloc: Global, address: &Address, role: Role) -> Result<(), Memory>
        ensures ok { OnOk result (self.new ≡ finite.insert self.old address.now role) }
        ensures err { OnErr result (self.new ≡ self.old) }
    {
        let address = address.copy(alloc)?;
        let _old = self.map.insert(address, role)?;
        Ok(())
    }

    /// The address that is there has this role from now on.
    pub fn set(&mut self, address: &Address, role: Role)
        requires { IsSome (finite.get self.old address.now) }
        ensures { self.new ≡ finite.insert self.old address.now role }
    {
        if let Some(old) = self.map.get_mut(address) {
            *old = role;
        }
    }

    /// The address is there no more.
    pub fn remove(&mut self, address: &Address)
        ensures { self.new ≡ finite.remove self.old address.now }
    {
        let _old = self.map.remove(address);
    }

    /// Does what an operation does to roles. Refusals: `OpInvalid` with this index.
    pub fn step(&mut self, alloc: Global, op: &WaveletOp, index: u32) -> Result<(), WaveletFault>
        ensures ok { OnOk result (on_roles self.old (meaning op.now) ≡ Some self.new) }
        ensures refused { IfErr result (IsStepFault index (on_roles self.old (meaning op.now))) }
        ensures kept { OnErr result (self.new ≡ self.old) }
    {
        match op {
            WaveletOp::NoOp => Ok(()),
            WaveletOp::Add(address) => self.add(alloc, address, index),
            WaveletOp::Remove(address) => self.drop_address(address, index),
            WaveletOp::Mutate { .. } => Ok(()),
            WaveletOp::SetRole { address, old, new } => self.change(address, *old, *new, index),
        }
    }

    // An address that is absent gets the role `Full`.
    fn add(&mut self, alloc: Global, address: &Address, index: u32) -> Result<(), WaveletFault>
        ensures ok { OnOk result (changed self.old address.now (added (finite.get self.old address.now)) ≡ Some self.new) }
        ensures refused { IfErr result (IsStepFault index (changed self.old address.now (added (finite.get self.old address.now)))) }
        ensures kept { OnErr result (self.new ≡ self.old) }
    {
        match self.get(address) {
            Some(_) => Err(WaveletFault::OpInvalid(index)),
            None => {
                self.insert(alloc, address, Role::Full)?;
                Ok(())
            }
        }
    }

    // An address that is there goes.
    fn drop_address(&mut self, address: &Address, index: u32) -> Result<(), WaveletFault>
        ensures ok { OnOk result (changed self.old address.now (removed (finite.get self.old address.now)) ≡ Some self.new) }
        ensures refused { IfErr result (IsStepFault index (changed self.old address.now (removed (finite.get self.old address.now)))) }
        ensures kept { OnErr result (self.new ≡ self.old) }
    {
        match self.get(address) {
            Some(_) => {
                self.remove(address);
                Ok(())
            }
            None => Err(WaveletFault::OpInvalid(index)),
        }
    }

    // An address with the old role gets the new one.
    fn change(
        &mut self,
        address: &Address,
        old: Role,
        new: Role,
        index: u32,
    ) -> Result<(), WaveletFault>
        ensures ok { OnOk result (changed self.old address.now (role_set old new (finite.get self.old address.now)) ≡ Some self.new) }
        ensures refused { IfErr result
            (IsStepFault index (changed self.old address.now (role_set old new (finite.get self.old address.now)))) }
        ensures kept { OnErr result (self.new ≡ self.old) }
    {
        let Some(role) = self.get(address) else {
            return Err(WaveletFault::OpInvalid(index));
        };
        if !same_role(role, old) {
            return Err(WaveletFault::OpInvalid(index));
        }
        self.set(address, new);
        Ok(())
    }
}

fn same_role(role: Role, other: Role) -> bool
    ensures { result ≡ is_same_role role other }
{
    match (role, other) {
        (Role::Full, Role::Full) => true,
        (Role::Full, Role::ReadOnly) => false,
        (Role::ReadOnly, Role::Full) => false,
        (Role::ReadOnly, Role::ReadOnly) => true,
    }
}
