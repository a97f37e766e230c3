//! A file that is cut to each of some lengths.

use anyhow::{Result, bail};
use std::alloc::Global;

/// The name of a file, and the lengths to which it is cut.
#[derive(Drop)]
pub struct Cut {
    name: String,
    lengths: Vec<usize>,
}

impl Cut {
    /// Reads lengths and ranges of lengths with one blank between them, as `0 2-8`.
    pub fn new(alloc: Global, name: &str, ranges: &str) -> Result<Cut> {
        let mut lengths = Vec::new(alloc);
        for range in ranges.split(' ') {
            let (from, to) = range.split_once('-').unwrap_or((range, range));
            match (from.parse::<usize>(), to.parse::<usize>()) {
                (Ok(from), Ok(to)) => {
                    for length in from..=to {
                        lengths.push(length)?;
                    }
                }
                _ => bail!("no lengths"),
            }
        }
        let name = String::from_str(alloc, name)?;
        Ok(Cut { name, lengths })
    }

    /// The name of the file.
    pub fn name(&self) -> &str {
        self.name.as_str()
    }

    /// The lengths.
    pub fn lengths(&self) -> &[usize] {
        self.lengths.as_slice()
    }
}
