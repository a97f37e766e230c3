//! A file that is being written by the lines of a script. Some of them have a meaning of their own:
//!
//! | Line | Meaning |
//! |---|---|
//! | `< LINE` | the other file is copied up to this line, which is left out |
//! | `\rest` | the rest of the other file is copied |
//! | `> LINE` | this line is added, whatever it begins with |
//! | `\times N TEXT` | the text N times, without a newline |
//! | `\hex DIGITS` | these bytes |

use anyhow::{Result, anyhow, bail};
use std::alloc::Global;

/// What is written of a file so far, and of the file that it is like the lines that are still to come, the last first.
#[derive(Drop)]
pub struct Draft {
    alloc: Global,
    name: String,
    bytes: Vec<u8>,
    rest: Vec<Vec<u8>>,
}

impl Draft {
    /// An empty file.
    pub fn new(alloc: Global, name: &str) -> Result<Draft> {
        Ok(Draft {
            alloc,
            name: String::from_str(alloc, name)?,
            bytes: Vec::new(alloc),
            rest: Vec::new(alloc),
        })
    }

    /// A file that is like another but for the lines that are read from now on.
    pub fn like(alloc: Global, name: &str, other: &[u8]) -> Result<Draft> {
        let mut draft = Draft::new(alloc, name)?;
        for line in other.split_inclusive(|byte| *byte == b'\n') {
            draft.rest.push(line.to_vec(alloc)?)?;
        }
        draft.rest.reverse();
        Ok(draft)
    }

    /// Reads a line of the script.
    pub fn read_line(&mut self, line: &str) -> Result<()> {
        if let Some(gone) = line.strip_prefix("< ") {
            return self.leave_out(gone);
        }
        if line == "\\rest" {
            return self.copy_rest();
        }
        if let Some(digits) = line.strip_prefix("\\hex ") {
            let Ok(bytes) = hex::decode(self.alloc, digits) else {
                bail!("no hexadecimal bytes");
            };
            self.bytes.extend_from_slice(bytes.as_slice())?;
            return Ok(());
        }
        if let Some(times) = line.strip_prefix("\\times ") {
            return self.repeat(times);
        }
        self.add_line(line.strip_prefix("> ").unwrap_or(line))
    }

    fn add_line(&mut self, line: &str) -> Result<()> {
        self.bytes.extend_from_slice(line.as_bytes())?;
        self.bytes.push(b'\n')?;
        Ok(())
    }

    // Copies the lines before this one, and leaves it out.
    fn leave_out(&mut self, gone: &str) -> Result<()> {
        for _ in 0..self.rest.len() {
            if let Some(line) = self.rest.pop() {
                if line.strip_suffix(b"\n".as_slice()) == Some(gone.as_bytes()) {
                    return Ok(());
                }
                self.bytes.extend_from_slice(line.as_slice())?;
            }
        }
        bail!("there is no such line to leave out")
    }

    // Copies the lines that are still to come.
    fn copy_rest(&mut self) -> Result<()> {
        for _ in 0..self.rest.len() {
            if let Some(line) = self.rest.pop() {
                self.bytes.extend_from_slice(line.as_slice())?;
            }
        }
        Ok(())
    }

    // A number and a text: the text so many times, without newlines.
    fn repeat(&mut self, times: &str) -> Result<()> {
        let (number, text) = times.split_once(' ').ok_or_else(|| anyhow!("no text"))?;
        for _ in 0..number.parse::<u32>()? {
            self.bytes.extend_from_slice(text.as_bytes())?;
        }
        Ok(())
    }

    /// The name and the bytes of the file, with all that is still to come of the one that it is like.
    pub fn finish(mut self) -> Result<(String, Vec<u8>)> {
        self.copy_rest()?;
        let Draft { name, bytes, .. } = self;
        Ok((name, bytes))
    }
}
