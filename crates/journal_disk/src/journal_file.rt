//! The file of a journal: looked at and opened at the first call, and held until the program ends.
//!
//! It has to be a regular file. A folder, a device, a pipe or a socket is refused before it is opened: a pipe would wait for its other
//! end, and a block device has the length 0 by its metadata and would be taken for blank.
//!
//! To add to it, the file is made where it isn't there, and a lock keeps others out who would add to it; where one of them has it, it is
//! waited for. An empty file may be new: its folder is synced before anything is written, so that its name survives a power cut.
//!
//! To read it, neither the file nor its folder is changed, and no lock is taken. A file that isn't there is blank. A read-only medium
//! may know no syncs, and needs none: nobody can write there.
use crate::look::Look;
use outside_io::Failed;
use real_outside::Failure;
use std::alloc::Global;
use std::fs::{File, Metadata, OpenOptions, TryLockError};
use std::io::{self, Error, ErrorKind};
use std::os::unix::fs::FileExt;
use std::path::Path;
use std::rt::{Clock, Files};
use std::thread;
use std::time::Duration;

/// How often a lock that is held is tried again, and the milliseconds before each time: two seconds in all.
const LOCK_TRIES: u32 = 100;

const LOCK_PAUSE: u64 = 20;

/// What a journal's file is opened for.
#[derive(Clone, Copy, Debug, PartialEq, Eq)]
pub enum Purpose {
    /// To read it as it stands, also while another program adds to it. A file that isn't there is blank, and a write fails.
    ToRead,
    /// To read it and to write grants to it. A file that isn't there is made. A lock that another program has is waited for, up to two
    /// seconds.
    ToAdd,
}

/// A name, and what stands under it from the first call on; and the last call that failed.
#[derive(Drop)]
pub struct JournalFile<'a, R> {
    failed: Option<Failure<'a>>,
    rt: &'a R,
    alloc: Global,
    name: &'a str,
    purpose: Purpose,
    found: Option<Found>,
}

// What stands under a name.
#[derive(Drop)]
enum Found {
    /// No file, for one who only reads.
    Nothing,
    /// A file that is only read.
    Looked(Look),
    /// A file that is locked, and whether it was made when it was opened.
    Locked { file: File, is_new: bool },
}

impl<'a, R: Files<File = File> + Clock> JournalFile<'a, R> {
    /// The file of this name, not yet opened.
    pub fn new(rt: &'a R, alloc: Global, name: &'a str, purpose: Purpose) -> JournalFile<'a, R> {
        JournalFile {
            failed: None,
            rt,
            alloc,
            name,
            purpose,
            found: None,
        }
    }

    /// Its name.
    pub fn name(&self) -> &'a str {
        self.name
    }

    /// Whether it was opened, or seen not to be there.
    pub fn is_found(&self) -> bool {
        self.found.is_some()
    }

    /// Whether no file of this name was there when it was opened.
    pub fn was_absent(&self) -> bool {
        match &self.found {
            Some(Found::Nothing) => true,
            Some(Found::Locked { is_new, .. }) => *is_new,
            Some(Found::Looked(_)) | None => false,
        }
    }

    /// The last call that failed.
    pub fn failure(&self) -> Option<Failure<'a>> {
        self.failed
    }

    /// The number of bytes.
    pub fn len(&mut self) -> Result<u64, Failed> {
        let length = match self.found()? {
            Found::Nothing => Ok(0),
            Found::Looked(look) => look.len(),
            Found::Locked { file, .. } => file.metadata().map(|found| found.len()),
        };
        self.noted("look at", length)
    }

    /// Fills `out` with the bytes from `at` on. An end that is met before `out` is full is an error.
    pub fn read_at(&mut self, at: u64, out: &mut [u8]) -> Result<(), Failed> {
        let read = match self.found()? {
            Found::Nothing if out.is_empty() => Ok(()),
            Found::Nothing => Err(Error::from(ErrorKind::UnexpectedEof)),
            Found::Looked(look) => look.read_at(at, out),
            Found::Locked { file, .. } => file.read_exact_at(out, at),
        };
        self.noted("read", read)
    }

    /// Writes all the bytes from `at` on. A write that takes nothing of what is left is an error, and so is any to a file that was
    /// opened to be read.
    #[inline(always)]
    pub fn write_at(&mut self, at: u64, bytes: &[u8]) -> Result<(), Failed> {
        match self.found()? {
            Found::Nothing | Found::Looked(_) => {
                self.noted("write", Err(Error::from(ErrorKind::PermissionDenied)))
            }
            Found::Locked { file, .. } => {
                let written = file.write_all_at(bytes, at);
                self.noted("write", written)
            }
        }
    }

    /// Makes the bytes and the length stable; times of access need not be.
    #[inline(always)]
    pub fn sync(&mut self) -> Result<(), Failed> {
        let (rt, name) = (self.rt, self.name);
        match self.found()? {
            Found::Nothing => Ok(()),
            Found::Looked(look) => {
                let synced = sync_look(rt, name, look);
                self.noted("sync", synced)
            }
            Found::Locked { file, .. } => {
                let synced = file.sync_data();
                self.noted("sync", synced)
            }
        }
    }

    // What stands under the name, opened where it isn't yet.
    #[inline(always)]
    fn found(&mut self) -> Result<&mut Found, Failed> {
        match self.found {
            Some(ref mut found) => Ok(found),
            None => self.open(),
        }
    }

    // Opens what stands under the name.
    #[cold]
    #[inline(never)]
    fn open(&mut self) -> Result<&mut Found, Failed> {
        let opened = match self.purpose {
            Purpose::ToRead => open_to_read(self.rt, self.name),
            Purpose::ToAdd => open_to_add(self.rt, self.alloc, self.name),
        };
        let found = self.noted("open", opened)?;
        Ok(self.found.insert(found))
    }

    // The answer of a call, which is noted where it failed.
    #[inline(always)]
    fn noted<T>(&mut self, call: &'static str, answer: io::Result<T>) -> Result<T, Failed> {
        match answer {
            Ok(value) => Ok(value),
            Err(error) => Err(self.note(call, error)),
        }
    }

    // Notes a call that failed.
    #[cold]
    #[inline(never)]
    fn note(&mut self, call: &'static str, error: Error) -> Failed {
        let name = self.name;
        self.failed = Some(Failure { call, name, error });
        Failed
    }
}

// Makes what a look has read stable.
#[cold]
#[inline(never)]
fn sync_look<R: Files<File = File>>(rt: &R, name: &str, look: &Look) -> io::Result<()> {
    match look.sync(rt, name) {
        Err(error) if error.kind() == ErrorKind::InvalidInput => {
            error_unless_read_only(rt, name, error)
        }
        synced => synced,
    }
}

// Opens a file to read it.
fn open_to_read<R: Files<File = File>>(rt: &R, name: &str) -> io::Result<Found> {
    if !is_there(rt, name)? {
        return Ok(Found::Nothing);
    }
    let file = File::open(rt, name)?;
    regular_length(&file.metadata()?)?;
    Ok(Found::Looked(Look::new(file)))
}

// Opens a file to read and write it, makes it where it isn't there, and locks it. The lock goes with the file.
fn open_to_add<R: Files<File = File> + Clock>(
    rt: &R,
    alloc: Global,
    name: &str,
) -> io::Result<Found> {
    let is_new = !is_there(rt, name)?;
    let mut how = OpenOptions::new();
    how.read(true).write(true).create(true);
    let file = how.open(rt, name)?;
    lock(rt, &file)?;
    if regular_length(&file.metadata()?)? == 0 {
        sync_folder(rt, alloc, name)?;
    }
    Ok(Found::Locked { file, is_new })
}

// Locks a file. A lock that is held is waited for: a program that has just ended, or one that is being replaced, gives it back soon.
fn lock<C: Clock>(clock: &C, file: &File) -> io::Result<()> {
    for _ in 0..LOCK_TRIES {
        match file.try_lock() {
            Err(TryLockError::WouldBlock) => {
                thread::sleep(clock, Duration::from_millis(LOCK_PAUSE));
            }
            locked => return Ok(locked?),
        }
    }
    Ok(file.try_lock()?)
}

// Whether a regular file of this name is there; anything else of this name is an error. No file has the empty name, and none gets it.
fn is_there<R: Files>(rt: &R, name: &str) -> io::Result<bool> {
    match rt.metadata(name) {
        Ok(found) => {
            regular_length(&found)?;
            Ok(true)
        }
        Err(error) if error.kind() == ErrorKind::NotFound && !name.is_empty() => Ok(false),
        Err(error) => Err(error),
    }
}

// The number of bytes of a regular file.
fn regular_length(found: &Metadata) -> io::Result<u64> {
    if found.is_file() {
        Ok(found.len())
    } else {
        Err(Error::new(ErrorKind::InvalidInput, "no regular file"))
    }
}

// The error, but none where the medium is read-only, as an opening of the file for writing tells.
fn error_unless_read_only<R: Files>(rt: &R, name: &str, error: Error) -> io::Result<()> {
    match OpenOptions::new().write(true).open(rt, name) {
        Err(refused) if refused.kind() == ErrorKind::ReadOnlyFilesystem => Ok(()),
        _ => Err(error),
    }
}

// Makes a name in its folder stable. A link is followed, since the file's own name is what has to be found again; that path alone takes
// memory.
fn sync_folder<R: Files<File = File>>(rt: &R, alloc: Global, name: &str) -> io::Result<()> {
    if rt.symlink_metadata(name)?.is_symlink() {
        sync_parent(rt, rt.canonicalize(alloc, name)?.as_path())
    } else {
        sync_parent(rt, Path::new(name))
    }
}

// Makes the entries of the folder that holds a file stable: the current one for a name without a folder.
fn sync_parent<R: Files<File = File>>(rt: &R, path: Path<'_>) -> io::Result<()> {
    match path.parent() {
        Some(folder) if folder.as_str().is_empty() => File::open(rt, ".")?.sync_all(),
        Some(folder) => File::open(rt, folder)?.sync_all(),
        None => Ok(()),
    }
}
