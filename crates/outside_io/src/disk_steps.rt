//! What the calls of a disk in memory did, as a record of steps.
//!
//! The record is all that is kept beside the bytes that a read finds: what a crash may leave, now or at an earlier
//! moment, is what the steps up to there make of the first bytes. So no past content is copied.
ghost use Rattle.std.specs.Prelude.{◌≡◌, ◌≤◌, ◌^◌, ◌<◌, ◌+◌, ◌⊎◌, length, OnOk, OnErr, IfOk};
ghost use Rattle.outside_io.specs.Causes.{one_more};
ghost use Rattle.outside_io.specs.Disk.{overwritten};
ghost use Rattle.outside_io.specs.Images.{at_rest, wrote, lost};
ghost use Rattle.outside_io.specs.DiskSteps.{Extends};

use std::alloc::{AllocError, Global};

/// One step of a disk: it wrote bytes, or may have written any in a range, or made all of it stable.
#[derive(Drop)]
pub(crate) enum DiskStep {
    Wrote { at: u64, bytes: Vec<u8> },
    Lost { at: u64, end: u64 },
    Synced,
}

/// Writes bytes, with a record of it.
pub(crate) fn write_down(
    alloc: Global,
    file: &mut Vec<u8>,
    steps: &mut Vec<DiskStep>,
    at: u64,
    bytes: &[u8],
) -> Result<(), AllocError>
    requires { at ≤ length file.old.items }
    ensures file { OnOk result (file.new.items ≡ overwritten file.old.items at bytes.now) }
    ensures steps { OnOk result (Extends steps.old.items steps.new.items (λ state. wrote state at bytes.now)) }
    ensures err_file { OnErr result (file.new.items ≡ file.old.items) }
    ensures err_steps { OnErr result (steps.new.items ≡ steps.old.items) }
{
    let new = with_bytes(alloc, file, at, bytes)?;
    let bytes = bytes.to_vec(alloc)?;
    steps.push(DiskStep::Wrote { at, bytes })?;
    *file = new;
    Ok(())
}

/// The file with these bytes at this offset, or after its end where that comes first.
pub(crate) fn with_bytes(
    alloc: Global,
    file: &[u8],
    at: u64,
    bytes: &[u8],
) -> Result<Vec<u8>, AllocError>
    ensures { IfOk result (λ new. new.items ≡ overwritten file.now at bytes.now) }
{
    let at = (at as usize).min(file.len());
    let mut new = file[..at].to_vec(alloc)?;
    new.extend_from_slice(bytes)?;
    if bytes.len() < file.len() - at {
        new.extend_from_slice(&file[at + bytes.len()..])?;
    }
    Ok(new)
}

/// Records that a range may have been written. Where there is no memory for that, none of it was, and this is counted.
pub(crate) fn lose(steps: &mut Vec<DiskStep>, starved: &mut u64, at: u64, size: u64)
    requires { at + size < 2 ^ 64 }
    ensures { Extends steps.old.items steps.new.items (λ state. lost state at size) × (starved.new ≡ starved.old)
        ⊎ (steps.new.items ≡ steps.old.items) × (starved.new ≡ one_more starved.old) }
{
    let end = at + size;
    if steps.push(DiskStep::Lost { at, end }).is_err() {
        *starved = starved.saturating_add(1);
    }
}

/// Records that all is stable.
pub(crate) fn settle(steps: &mut Vec<DiskStep>) -> Result<(), AllocError>
    ensures steps { OnOk result (Extends steps.old.items steps.new.items (λ state. at_rest state.seen)) }
    ensures err { OnErr result (steps.new.items ≡ steps.old.items) }
{
    Ok(steps.push(DiskStep::Synced)?)
}
