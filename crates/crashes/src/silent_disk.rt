//! A disk that tells nothing of its bytes, and watches how it is called.
ghost use Rattle.std.specs.Prelude.{None};
ghost use Rattle.outside_io.specs.Causes.{HasCause};

use outside_io::{Disk, Failed, MemDisk};
use std::alloc::Global;

/// The most bytes of one read.
const MOST_READ: usize = 4_096;

/// A write that isn't stable yet.
#[derive(Drop)]
pub struct PendingWrite {
    pub at: usize,
    pub bytes: Vec<u8>,
}

/// Passes its calls on to a disk in memory. It fails at a read of more than 4,096 bytes, at a read or a write that isn't
/// within the file, and at a write before the one before it is synced.
#[derive(Drop)]
pub struct SilentDisk {
    inner: MemDisk,
    alloc: Global,
    pending: Option<PendingWrite>,
    calls: u64,
    faults: u64,
}

impl SilentDisk {
    /// A disk over this one.
    pub fn new(inner: MemDisk, alloc: Global) -> SilentDisk {
        SilentDisk {
            inner,
            alloc,
            pending: None,
            calls: 0,
            faults: 0,
        }
    }

    /// The disk in memory.
    pub fn inner(&self) -> &MemDisk {
        &self.inner
    }

    /// The write that isn't stable yet.
    pub fn pending(&self) -> Option<&PendingWrite> {
        self.pending.as_ref()
    }

    /// How many calls were made.
    pub fn calls(&self) -> u64 {
        self.calls
    }

    /// How many of them failed.
    pub fn faults(&self) -> u64 {
        self.faults
    }
}

// Counts an answer that failed.
fn counted<T>(faults: &mut u64, answer: Result<T, Failed>) -> Result<T, Failed>
    ensures { HasCause faults.old faults.new result }
{
    match answer {
        Ok(value) => Ok(value),
        Err(failed) => {
            *faults = faults.saturating_add(1);
            Err(failed)
        }
    }
}

// Reads where all bytes are there and are no more than one read may have.
fn read_within(inner: &mut MemDisk, at: u64, out: &mut [u8]) -> Result<(), Failed> {
    let len = inner.bytes().len();
    if out.len() > MOST_READ || out.len() > len || at > (len - out.len()) as u64 {
        return Err(Failed);
    }
    inner.read_at(at, out)
}

// Writes where the offset is there and the write before is stable, and remembers what is written.
fn write_within(
    inner: &mut MemDisk,
    alloc: Global,
    pending: &mut Option<PendingWrite>,
    at: u64,
    bytes: &[u8],
) -> Result<(), Failed> {
    if pending.is_some() || at > inner.bytes().len() as u64 {
        return Err(Failed);
    }
    let Ok(bytes) = bytes.to_vec(alloc) else {
        return Err(Failed);
    };
    let answer = inner.write_at(at, bytes.as_slice());
    *pending = Some(PendingWrite {
        at: at as usize,
        bytes,
    });
    answer
}

// Syncs, after which no write is pending.
fn sync_all(inner: &mut MemDisk, pending: &mut Option<PendingWrite>) -> Result<(), Failed> {
    inner.sync()?;
    *pending = None;
    Ok(())
}

impl Disk for SilentDisk {
    ghost reads_as = { λ _. None };

    ghost may_leave = { λ _ _. ⊥ };

    ghost moment = { λ _. 0 };

    ghost left_since = { λ _ _ _. ⊥ };

    ghost faults = { λ disk. disk.faults };

    ghost reads_now = { λ _. tt };

    ghost counts_now = { λ _ _ _ _ none. none };

    ghost only_now = { λ _ _ none. none };

    fn len(&mut self) -> Result<u64, Failed> {
        self.calls = self.calls.saturating_add(1);
        let answer = self.inner.len();
        counted(&mut self.faults, answer)
    }

    fn read_at(&mut self, at: u64, out: &mut [u8]) -> Result<(), Failed> {
        self.calls = self.calls.saturating_add(1);
        let answer = read_within(&mut self.inner, at, out);
        counted(&mut self.faults, answer)
    }

    fn write_at(&mut self, at: u64, bytes: &[u8]) -> Result<(), Failed> {
        self.calls = self.calls.saturating_add(1);
        let answer = write_within(&mut self.inner, self.alloc, &mut self.pending, at, bytes);
        counted(&mut self.faults, answer)
    }

    fn sync(&mut self) -> Result<(), Failed> {
        self.calls = self.calls.saturating_add(1);
        let answer = sync_all(&mut self.inner, &mut self.pending);
        counted(&mut self.faults, answer)
    }
}
