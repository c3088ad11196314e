// What a crash may leave of a file in memory.
ghost use Rattle.std.specs.Prelude.{◌≡◌, ◌<◌, ◌+◌, ◌^◌, IfOk, OnOk};
ghost use Rattle.disk_model.specs.Steps.{file_step, image_step, next_number, is_chosen};

use crate::MemoryDisk;
use crate::memory::Step;
use crate::steps::{copy, overwrite, place};
use std::alloc::{AllocError, Global};

// Whether the image of a choice has the write of this number.
fn has(choice: u64, number: u64) -> bool
    ensures { result ≡ is_chosen choice number }
{
    (choice >> (number % 64)) & 1 == 1
}

// Takes one more step on the image of a choice.
fn step_image(
    choice: u64,
    number: u64,
    file: &[u8],
    image: &mut Vec<u8>,
    step: &Step,
) -> Result<(), AllocError>
    ensures { OnOk result (image.new.items ≡ image_step choice number file.now image.old.items step.now) }
{
    match step {
        Step::Synced => {
            image.clear();
            image.extend_from_slice(file)
        }
        Step::Wrote(at, bytes) => {
            if has(choice, number) {
                place(image, *at as usize, bytes)
            } else {
                Ok(())
            }
        }
    }
}

// Takes one more step on the file.
fn step_file(file: &mut Vec<u8>, step: &Step) -> Result<(), AllocError>
    ensures { OnOk result (file.new.items ≡ file_step file.old.items step.now) }
{
    match step {
        Step::Synced => Ok(()),
        Step::Wrote(at, bytes) => overwrite(file, *at as usize, bytes),
    }
}

// The number of the step after this one.
fn number_after(step: &Step, number: u64) -> u64
    requires { number + 1 < 2 ^ 64 }
    ensures { result ≡ next_number number step.now }
{
    match step {
        Step::Synced => 0,
        Step::Wrote(_, _) => number + 1,
    }
}

impl MemoryDisk {
    ghost use Rattle.disk_model.specs.Memory.{disk_view, chosen_image, first_file};

    fn first_file(&self, alloc: Global) -> Result<Vec<u8>, AllocError>
        ensures { IfOk result (λ v. v.items ≡ first_file self.now) }
    {
        match &self.first {
            Some(file) => copy(alloc, file),
            None => copy(alloc, &self.bytes),
        }
    }

    /// One image that a crash may leave now. It has the i-th write since the last sync, counted from 0, exactly
    /// where bit i modulo 64 of `choice` is set. Places past the old end that no such write reached hold 0.
    pub fn image(&self, alloc: Global, choice: u64) -> Result<Vec<u8>, AllocError>
        ensures chosen { IfOk result (λ v. v.items ≡ chosen_image self.now choice) }
        ensures image { IfOk result (λ v. (disk_view self.now).may_leave v.items) }
    {
        let mut file = self.first_file(alloc)?;
        let mut image = self.first_file(alloc)?;
        let mut number = 0u64;
        for step in &self.steps {
            step_image(choice, number, &file, &mut image, step)?;
            step_file(&mut file, step)?;
            number = number_after(step, number);
        }
        Ok(image)
    }
}
