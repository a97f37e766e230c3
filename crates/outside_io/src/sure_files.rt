//! Files in memory that have every name and never fail.
ghost use Rattle.std.specs.Prelude.{◌≡◌, [], Some, OnOk, OnErr, ⊤};
ghost use Rattle.outside_io.specs.Files.{Adds};
ghost use Rattle.outside_io.specs.SureFiles.{sure_names};

use crate::held::{NamedBytes, add_entry, copy_cut, find_entry};
use crate::{FileFail, Files};
use lists::NoMemory;
use std::alloc::Global;
use std::marker::Model;

/// Names and bytes in memory, where every name is there: one that was not added holds no bytes. No call is a fault.
/// Contracts see the names and bytes.
#[derive(Drop)]
pub struct SureFiles {
    alloc: Global,
    entries: Vec<NamedBytes>,
}

impl Model for SureFiles {
    ghost use Rattle.std.specs.Prelude.{List};
    ghost use Rattle.outside_io.specs.Held.{HeldFile, files_of};

    ghost Value = { List HeldFile };

    ghost view = { λ files. files_of files.entries.items };
}

impl SureFiles {
    /// Files whose every name holds no bytes.
    pub fn new(alloc: Global) -> SureFiles
        ensures { (name : _) → sure_names result name ≡ Some [] }
    {
        SureFiles {
            alloc,
            entries: Vec::new(alloc),
        }
    }

    /// Gives a name these bytes, in the place of any that it held.
    pub fn add(&mut self, name: &str, bytes: &[u8]) -> Result<(), NoMemory>
        ensures ok { OnOk result (Adds (sure_names self.old) (sure_names self.new) name.now bytes.now) }
        ensures err { OnErr result (sure_names self.new ≡ sure_names self.old) }
    {
        add_entry(self.alloc, &mut self.entries, name, bytes)
    }
}

impl Files for SureFiles {
    ghost holds = { λ files. Some (sure_names files) };

    ghost is_sound = { λ _. ⊤ };

    ghost faults = { λ _. 0 };

    fn read_file(
        &mut self,
        _alloc: Global,
        name: &str,
        limit: u64,
        out: &mut Vec<u8>,
    ) -> Result<(), FileFail> {
        out.clear();
        if let Some(bytes) = find_entry(&self.entries, name) {
            copy_cut(bytes, limit, out)?;
        }
        Ok(())
    }
}
