//! The files of a conversation, which stay from one to the next.

use anyhow::{Context, Result};
use lists::List;
use outside_io::MemFiles;
use std::alloc::Global;

#[derive(Drop)]
struct Kept {
    name: String,
    bytes: Vec<u8>,
}

/// Files by their names, each name once.
#[derive(Drop)]
pub struct Folder {
    alloc: Global,
    files: Vec<Kept>,
}

impl Folder {
    /// A folder without files.
    pub fn new(alloc: Global) -> Folder {
        Folder {
            alloc,
            files: Vec::new(alloc),
        }
    }

    /// Keeps a file, in the place of any of its name.
    pub fn put(&mut self, name: String, bytes: Vec<u8>) -> Result<()> {
        self.take_away(name.as_str());
        self.files.push(Kept { name, bytes })?;
        Ok(())
    }

    /// Takes a file away, where there is one of this name.
    pub fn take_away(&mut self, name: &str) {
        self.files.retain(|file| file.name.as_str() != name);
    }

    /// The bytes of a file.
    pub fn bytes_of(&self, name: &str) -> Option<&[u8]> {
        for file in &self.files {
            if file.name.as_str() == name {
                return Some(file.bytes.as_slice());
            }
        }
        None
    }

    /// These files, of which the named one is cut to this length.
    pub fn with_cut(&self, name: &str, length: usize) -> Result<Folder> {
        let mut folder = Folder::new(self.alloc);
        for file in &self.files {
            let bytes = file.bytes.as_slice();
            let bytes = if file.name.as_str() == name {
                bytes.get(..length).context("a file that is shorter")?
            } else {
                bytes
            };
            let name = String::from_str(self.alloc, file.name.as_str())?;
            folder.put(name, bytes.to_vec(self.alloc)?)?;
        }
        Ok(folder)
    }

    /// These files in memory, of which the listed reads fail.
    pub fn in_memory(&self, fails: List<u64>) -> Result<MemFiles> {
        let mut files = MemFiles::new(self.alloc, fails);
        for file in &self.files {
            if files
                .add(file.name.as_str(), file.bytes.as_slice())
                .is_err()
            {
                anyhow::bail!("no memory");
            }
        }
        Ok(files)
    }
}
