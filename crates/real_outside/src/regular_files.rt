//! Files that can be read once more.
ghost use Rattle.std.specs.Prelude.{◌≡◌, [], None, ⊤};

use crate::DirFiles;
use outside_io::{FileFail, Files};
use std::alloc::Global;
use std::rt::{Clock, Files as HostFiles};

/// The regular files by their paths: a pipe that was read is empty, or would wait for a writer, and so no file of another kind is opened.
#[derive(Drop)]
pub struct RegularFiles<'a, R> {
    rt: &'a R,
    files: DirFiles<'a, R>,
    faults: u64,
}

impl<'a, R: HostFiles + Clock + Eprint> RegularFiles<'a, R> {
    /// The files that a runtime opens, of which no call has failed yet.
    pub fn new(rt: &'a R) -> RegularFiles<'a, R> {
        RegularFiles {
            rt,
            files: DirFiles::new(rt, false),
            faults: 0,
        }
    }

    // Whether a regular file has this name.
    fn is_regular(&self, name: &str) -> bool {
        match self.rt.metadata(name) {
            Ok(found) => found.is_file(),
            Err(_) => false,
        }
    }
}

impl<R: HostFiles + Clock + Eprint> Files for RegularFiles<'_, R> {
    ghost holds = { λ _. None };

    ghost is_sound = { λ _. ⊤ };

    ghost faults = { λ files. files.faults };

    fn read_file(
        &mut self,
        alloc: Global,
        name: &str,
        limit: u64,
        out: &mut Vec<u8>,
    ) -> Result<(), FileFail> {
        let read = if self.is_regular(name) {
            self.files.read_file(alloc, name, limit, out)
        } else {
            out.clear();
            Err(FileFail::Failed)
        };
        if let Err(FileFail::Failed) = read {
            self.faults = self.faults.saturating_add(1);
        }
        read
    }
}
