// The steps of a file in memory.
ghost use Rattle.std.specs.Prelude.{◌≡◌, ℕ, ◌-◌, ◌≤◌, List, [], ◌++◌, ◌∷◌, length, IfOk, OnOk, OnErr};
ghost use Rattle.disk_model.specs.Disk.{overwritten};
ghost use Rattle.disk_model.specs.Steps.{file_before, placed};
ghost use Rattle.disk_model.specs.declared.memory.Step.TheVariants.{Wrote, Synced};

use crate::memory::Step;
use std::alloc::{AllocError, Global};

/// Puts these bytes at this offset, or at the end where it lies beyond.
pub(crate) fn overwrite(file: &mut Vec<u8>, at: usize, bytes: &[u8]) -> Result<(), AllocError>
    ensures ok { OnOk result (file.new.items ≡ overwritten file.old.items at bytes.now) }
    ensures err { OnErr result (file.new.items ≡ file.old.items) }
{
    let at = at.min(file.len());
    let over = bytes.len().min(file.len() - at);
    file.extend_from_slice(&bytes[over..])?;
    file[at..at + over].copy_from_slice(&bytes[..over]);
    Ok(())
}

/// Puts these bytes at this offset, and 0 between the end and there.
pub(crate) fn place(file: &mut Vec<u8>, at: usize, bytes: &[u8]) -> Result<(), AllocError>
    ensures { OnOk result (file.new.items ≡ placed file.old.items at bytes.now) }
{
    if file.len() < at {
        file.resize(at, 0)?;
    }
    overwrite(file, at, bytes)?;
    Ok(())
}

/// A copy of these bytes.
pub(crate) fn copy(alloc: Global, bytes: &[u8]) -> Result<Vec<u8>, AllocError>
    ensures { IfOk result (λ v. v.items ≡ bytes.now) }
{
    bytes.to_vec(alloc)
}

// Keeps the file from before the first step.
fn keep_first(alloc: Global, first: &mut Option<Vec<u8>>, bytes: &[u8]) -> Result<(), AllocError>
    ensures ok { OnOk result ((now : List ℕ) → file_before first.new now ≡ file_before first.old bytes.now) }
    ensures err { OnErr result (first.new ≡ first.old) }
{
    if first.is_none() {
        *first = Some(copy(alloc, bytes)?);
    }
    Ok(())
}

/// Puts these bytes at this offset, and keeps the step.
pub(crate) fn write(
    alloc: Global,
    first: &mut Option<Vec<u8>>,
    file: &mut Vec<u8>,
    steps: &mut Vec<Step>,
    at: u64,
    bytes: &[u8],
) -> Result<(), AllocError>
    requires { at ≤ length file.old.items }
    ensures first { file_before first.new file.new.items ≡ file_before first.old file.old.items }
    ensures file { OnOk result (file.new.items ≡ overwritten file.old.items at bytes.now) }
    ensures step { OnOk result ((v : _) × (v.items ≡ bytes.now) × (steps.new.items ≡ steps.old.items ++ Wrote at v ∷ [])) }
    ensures same_file { OnErr result (file.new.items ≡ file.old.items) }
    ensures same_steps { OnErr result (steps.new.items ≡ steps.old.items) }
{
    let kept = copy(alloc, bytes)?;
    keep_first(alloc, first, file)?;
    steps.push(Step::Wrote(at, kept))?;
    match overwrite(file, at as usize, bytes) {
        Ok(()) => Ok(()),
        Err(refused) => {
            steps.pop();
            Err(refused)
        }
    }
}

/// Keeps a sync.
pub(crate) fn sync(
    alloc: Global,
    first: &mut Option<Vec<u8>>,
    file: &[u8],
    steps: &mut Vec<Step>,
) -> Result<(), AllocError>
    ensures first { file_before first.new file.now ≡ file_before first.old file.now }
    ensures step { OnOk result (steps.new.items ≡ steps.old.items ++ Synced ∷ []) }
    ensures same { OnErr result (steps.new.items ≡ steps.old.items) }
{
    keep_first(alloc, first, file)?;
    steps.push(Step::Synced)?;
    Ok(())
}
