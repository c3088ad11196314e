// A file in memory as a disk that may fail.
ghost use Rattle.std.specs.Prelude.{◌≡◌, true, min, is_err, ◌+◌, ◌-◌, ◌^◌, ◌≤◌, IfOk, OnErr};
ghost use Rattle.disk_model.specs.Disk.{LeavesJust, IsUntouched, Elapses};
ghost use Rattle.disk_model.specs.Steps.{is_to_fail};

use crate::steps::{copy, sync, write};
use crate::{Disk, DiskError, DiskFault, MemoryDisk};
use std::alloc::{AllocError, Global};

const MAX_LENGTH: u64 = (1 << 63) - 1;

// Counts a call, and a fault where the call is to fail.
fn call(
    failing: &[u64],
    stop: Option<u64>,
    calls: &mut u64,
    faults: &mut u64,
) -> Result<(), DiskFault>
    ensures planned { is_err result ≡ is_to_fail failing.now stop calls.old }
    ensures later { faults.old ≤ faults.new }
    ensures failed { OnErr result (min (faults.old + 1) (2 ^ 64 - 1) ≤ faults.new) }
{
    let number = *calls;
    *calls = number.saturating_add(1);
    let stopped = match stop {
        Some(first) => first <= number,
        None => false,
    };
    if stopped || failing.contains(&number) {
        return Err(fault(faults));
    }
    Ok(())
}

// Counts a fault.
fn fault(faults: &mut u64) -> DiskFault
    ensures rose { min (faults.old + 1) (2 ^ 64 - 1) ≤ faults.new }
    ensures later { faults.old ≤ faults.new }
{
    *faults = faults.saturating_add(1);
    DiskFault
}

impl MemoryDisk {
    ghost use Rattle.disk_model.specs.Memory.{disk_view, failing_calls, first_stopped, call_count};

    /// A file with these bytes, all of them synced, and no fault yet.
    pub fn new(alloc: Global, bytes: Vec<u8>, failing: Vec<u64>, stop: Option<u64>) -> MemoryDisk
        ensures seen { (disk_view result).seen ≡ bytes.items }
        ensures synced { LeavesJust bytes.items (disk_view result) }
        ensures faults { (disk_view result).faults ≡ 0 }
        ensures failing { failing_calls result ≡ failing.items }
        ensures stop { first_stopped result ≡ stop }
        ensures calls { call_count result ≡ 0 }
    {
        MemoryDisk {
            alloc,
            bytes,
            first: None,
            steps: Vec::new(alloc),
            failing,
            stop,
            calls: 0,
            faults: 0,
        }
    }

    /// A disk of its own that reads the same, all of it synced, with the same calls to fail. None was made yet.
    pub fn fork(&self, alloc: Global) -> Result<MemoryDisk, AllocError>
        ensures seen { IfOk result (λ d. (disk_view d).seen ≡ (disk_view self.now).seen) }
        ensures synced { IfOk result (λ d. LeavesJust (disk_view self.now).seen (disk_view d)) }
        ensures faults { IfOk result (λ d. (disk_view d).faults ≡ 0) }
    {
        let bytes = copy(alloc, &self.bytes)?;
        let mut failing = Vec::new(alloc);
        failing.extend_from_slice(self.failing.as_slice())?;
        Ok(MemoryDisk::new(alloc, bytes, failing, self.stop))
    }

    /// The count of faults, which begins anew at 0. Nothing else changes.
    pub fn take_faults(&mut self) -> u64
        ensures value { result ≡ (disk_view self.old).faults }
        ensures anew { (disk_view self.new).faults ≡ 0 }
        ensures same { IsUntouched (disk_view self.old) (disk_view self.new) }
        ensures time { Elapses (disk_view self.old) (disk_view self.new) }
    {
        let faults = self.faults;
        self.faults = 0;
        faults
    }
}

impl Disk for MemoryDisk {
    ghost use Rattle.disk_model.specs.Memory.{disk_view, clocked, bounded};

    ghost tells = { true };

    ghost view = { disk_view };

    ghost clocked = { clocked };

    ghost bounded = { bounded };

    fn length(&mut self) -> Result<u64, DiskFault> {
        call(&self.failing, self.stop, &mut self.calls, &mut self.faults)?;
        let length = self.bytes.len() as u64;
        if length > MAX_LENGTH {
            return Err(fault(&mut self.faults));
        }
        Ok(length)
    }

    fn read(&mut self, alloc: Global, at: u64, count: u64) -> Result<Vec<u8>, DiskError> {
        if call(&self.failing, self.stop, &mut self.calls, &mut self.faults).is_err() {
            return Err(DiskError::Failed);
        }
        match copy(alloc, &self.bytes[at as usize..(at + count) as usize]) {
            Ok(bytes) => Ok(bytes),
            Err(_) => Err(DiskError::Memory),
        }
    }

    fn write_at(&mut self, at: u64, bytes: &[u8]) -> Result<(), DiskFault> {
        call(&self.failing, self.stop, &mut self.calls, &mut self.faults)?;
        if bytes.len() as u64 > MAX_LENGTH - at {
            return Err(fault(&mut self.faults));
        }
        match write(
            self.alloc,
            &mut self.first,
            &mut self.bytes,
            &mut self.steps,
            at,
            bytes,
        ) {
            Ok(()) => Ok(()),
            Err(_) => Err(fault(&mut self.faults)),
        }
    }

    fn sync(&mut self) -> Result<(), DiskFault> {
        call(&self.failing, self.stop, &mut self.calls, &mut self.faults)?;
        match sync(self.alloc, &mut self.first, &self.bytes, &mut self.steps) {
            Ok(()) => Ok(()),
            Err(_) => Err(fault(&mut self.faults)),
        }
    }
}
