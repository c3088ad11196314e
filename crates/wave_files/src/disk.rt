// A file as a disk.
ghost use Rattle.std.specs.Prelude.{◌≡◌, ◌≤◌, ◌+◌, ◌-◌, ◌^◌, min};
ghost use Rattle.wave_files.specs.Files.{file_faults};

use disk_model::{Disk, DiskError, DiskFault};
use std::alloc::Global;
use std::fs::File;
use std::os::unix::fs::FileExt;

// A file is at most so many bytes long.
const MAX_LENGTH: u64 = (1 << 63) - 1;

/// An open file of the operating system.
#[derive(Drop)]
pub struct FileDisk {
    file: File,
    faults: u64,
}

impl FileDisk {
    /// The file as a disk, with no fault counted.
    pub fn new(file: File) -> FileDisk
        ensures { file_faults result ≡ 0 }
    {
        FileDisk { file, faults: 0 }
    }

    /// How many calls have failed.
    pub fn faults(&self) -> u64
        ensures { result ≡ file_faults self.now }
    {
        self.faults
    }

    // Counts a fault.
    fn fault(&mut self) -> DiskFault
        ensures rose { min (self.old.faults + 1) (2 ^ 64 - 1) ≤ self.new.faults }
        ensures later { self.old.faults ≤ self.new.faults }
    {
        self.faults = self.faults.saturating_add(1);
        DiskFault
    }
}

impl Disk for FileDisk {
    ghost use Rattle.std.specs.Prelude.{false};
    ghost use Rattle.wave_files.specs.Files.{file_view, file_clocked, file_bounded};

    ghost tells = { false };

    ghost view = { file_view };

    fn length(&mut self) -> Result<u64, DiskFault> {
        match self.file.metadata() {
            Ok(metadata) if metadata.len() <= MAX_LENGTH => Ok(metadata.len()),
            _ => Err(self.fault()),
        }
    }

    fn read(&mut self, alloc: Global, at: u64, count: u64) -> Result<Vec<u8>, DiskError> {
        let Ok(mut bytes) = vec![in alloc; 0u8; count as usize] else {
            return Err(DiskError::Memory);
        };
        match self.file.read_exact_at(bytes.as_mut_slice(), at) {
            Ok(()) => Ok(bytes),
            Err(_) => {
                let _fault = self.fault();
                Err(DiskError::Failed)
            }
        }
    }

    fn write_at(&mut self, at: u64, bytes: &[u8]) -> Result<(), DiskFault> {
        if at > MAX_LENGTH || bytes.len() as u64 > MAX_LENGTH - at {
            return Err(self.fault());
        }
        match self.file.write_all_at(bytes, at) {
            Ok(()) => Ok(()),
            Err(_) => Err(self.fault()),
        }
    }

    // The bytes and the length outlive a crash then; the times of the file needn't.
    fn sync(&mut self) -> Result<(), DiskFault> {
        match self.file.sync_data() {
            Ok(()) => Ok(()),
            Err(_) => Err(self.fault()),
        }
    }

    ghost clocked = { file_clocked };

    ghost bounded = { file_bounded };
}
