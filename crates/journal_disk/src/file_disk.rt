//! A file of the system as the disk of a journal.
ghost use Rattle.std.specs.Prelude.{◌≡◌, None};
ghost use Rattle.outside_io.specs.Causes.{HasCause};

use crate::grant_count::GrantCount;
use crate::journal_file::{JournalFile, Purpose};
use outside_io::{Disk, Failed};
use real_outside::{Failure, Progress};
use std::alloc::Global;
use std::fs::File;
use std::rt::{Clock, Files as HostFiles};

/// A file by its path, for one purpose. It tells nothing of what it holds; `faults` counts the calls that failed, and stays at its
/// last value.
#[derive(Drop)]
pub struct FileDisk<'a, R> {
    file: JournalFile<'a, R>,
    absence: Option<&'a str>,
    progress: Progress<'a, R>,
    bytes: u64,
    grants: GrantCount,
    faults: u64,
}

impl<'a, R: HostFiles<File = File> + Clock + Eprint> FileDisk<'a, R> {
    /// A disk on the file of this name, of which no call has failed yet. Nothing is opened before the first call. It may be shown how
    /// much of a long file is read, and how many grants are written.
    pub fn new(
        rt: &'a R,
        alloc: Global,
        name: &'a str,
        purpose: Purpose,
        shows: bool,
    ) -> FileDisk<'a, R> {
        FileDisk {
            file: JournalFile::new(rt, alloc, name, purpose),
            absence: None,
            progress: Progress::new(rt, shows),
            bytes: 0,
            grants: GrantCount::default(),
            faults: 0,
        }
    }

    /// The same disk, which tells this line on standard error when it is opened and no file of this name is there.
    pub fn telling(mut self, absence: Option<&'a str>) -> FileDisk<'a, R> {
        self.absence = absence;
        self
    }

    /// Whether no file of this name was there when it was opened. One to be added to was made then.
    pub fn was_absent(&self) -> bool {
        self.file.was_absent()
    }

    /// The last call that failed.
    pub fn failure(&self) -> Option<Failure<'a>> {
        self.file.failure()
    }

    // The answer of a call, and one fault more where it is one. What few calls do is no part of their code: a server makes four for each
    // group of grants, and after its wait for the group each line of code is read in anew.
    #[inline(always)]
    fn counted<T>(&mut self, answer: Result<T, Failed>) -> Result<T, Failed>
        ensures { HasCause self.old.faults self.new.faults result }
    {
        if self.absence.is_some() {
            self.tell_absence();
        }
        match answer {
            Ok(value) => Ok(value),
            Err(failed) => {
                self.faults = self.faults.saturating_add(1);
                Err(failed)
            }
        }
    }

    // The first call that came to the open file tells where it was not there.
    #[cold]
    #[inline(never)]
    fn tell_absence(&mut self)
        ensures { self.new.faults ≡ self.old.faults }
    {
        if self.file.is_found() {
            if let Some(line) = self.absence.take() {
                if self.file.was_absent() {
                    self.progress.tell(line);
                }
            }
        }
    }

    // What was written is stable, which is shown.
    #[cold]
    #[inline(never)]
    fn show_stable(&mut self)
        ensures { self.new.faults ≡ self.old.faults }
    {
        if let Some(grants) = self.grants.sync() {
            self.progress.show_grants(grants);
        }
    }
}

impl<R: HostFiles<File = File> + Clock + Eprint> Disk for FileDisk<'_, R> {
    ghost reads_as = { λ _. None };

    ghost may_leave = { λ _ _. ⊥ };

    ghost moment = { λ _. 0 };

    ghost left_since = { λ _ _ _. ⊥ };

    ghost faults = { λ disk. disk.faults };

    ghost reads_now = { λ _. tt };

    ghost counts_now = { λ _ _ _ _ none. none };

    ghost only_now = { λ _ _ none. none };

    fn len(&mut self) -> Result<u64, Failed> {
        let length = self.file.len();
        self.bytes = *length.as_ref().unwrap_or(&0);
        self.counted(length)
    }

    fn read_at(&mut self, at: u64, out: &mut [u8]) -> Result<(), Failed> {
        let read = self.file.read_at(at, out);
        let end = at.saturating_add(out.len() as u64);
        self.progress.show_read(self.file.name(), end, self.bytes);
        self.counted(read)
    }

    #[inline(always)]
    fn write_at(&mut self, at: u64, bytes: &[u8]) -> Result<(), Failed> {
        let written = self.file.write_at(at, bytes);
        if self.progress.is_on() {
            self.grants.write(at, bytes.len() as u64);
        }
        self.counted(written)
    }

    #[inline(always)]
    fn sync(&mut self) -> Result<(), Failed> {
        let synced = self.file.sync();
        if self.progress.is_on() && synced.is_ok() {
            self.show_stable();
        }
        self.counted(synced)
    }
}
