//! The files of a script, as its lines make them.
//!
//! | Line | Meaning |
//! |---|---|
//! | `-- FILE` | the lines that follow are this file, each with its newline |
//! | `-- FILE like OTHER` | the file is like the other one but for the lines that follow |
//! | `-- FILE printed` | the file is what the last conversation printed |
//! | `-- FILE left` | the file is what the last conversation left of its journal |
//! | `-- FILE gone` | the file is taken away |
//! | `-- FILE cut LENGTHS` | this conversation is played once for each of the lengths, as `0 2-8`, with the file cut to it |
//!
//! `draft` has the lines within a file that have a meaning of their own.

use crate::scripted::call_end::CallEnd;
use crate::scripted::cut::Cut;
use crate::scripted::draft::Draft;
use crate::scripted::folder::Folder;
use anyhow::{Context, Result, bail};
use std::alloc::Global;

/// The files as they stand, the one that is being written, and how the last conversation ended.
#[derive(Drop)]
pub struct ScriptFiles {
    alloc: Global,
    folder: Folder,
    draft: Option<Draft>,
    last: Option<CallEnd>,
}

impl ScriptFiles {
    /// No files.
    pub fn new(alloc: Global) -> ScriptFiles {
        ScriptFiles {
            alloc,
            folder: Folder::new(alloc),
            draft: None,
            last: None,
        }
    }

    /// The files that are whole.
    pub fn folder(&self) -> &Folder {
        &self.folder
    }

    /// The last conversation ended like this.
    pub fn keep_told(&mut self, told: CallEnd) {
        self.last = Some(told);
    }

    /// Begins a file by the words after its sign. Where they tell how a file is cut, that is answered.
    pub fn begin(&mut self, words: &str) -> Result<Option<Cut>> {
        self.end()?;
        let (name, how) = words.split_once(' ').unwrap_or((words, ""));
        match how.strip_prefix("cut ") {
            Some(lengths) => Ok(Some(Cut::new(self.alloc, name, lengths)?)),
            None => {
                self.begin_file(name, how)?;
                Ok(None)
            }
        }
    }

    fn begin_file(&mut self, name: &str, how: &str) -> Result<()> {
        if how.is_empty() {
            self.draft = Some(Draft::new(self.alloc, name)?);
            return Ok(());
        }
        if how == "gone" {
            self.folder.take_away(name);
            return Ok(());
        }
        match how.strip_prefix("like ") {
            Some(other) => self.begin_like(name, other),
            None => self.keep_last(name, how),
        }
    }

    fn begin_like(&mut self, name: &str, other: &str) -> Result<()> {
        let bytes = self
            .folder
            .bytes_of(other)
            .context("there is no file to be like")?;
        self.draft = Some(Draft::like(self.alloc, name, bytes)?);
        Ok(())
    }

    // Keeps what the last conversation printed, or left of its journal.
    fn keep_last(&mut self, name: &str, how: &str) -> Result<()> {
        let told = self.last.as_ref().context("no conversation came before")?;
        let bytes = match how {
            "printed" => told.text.as_slice(),
            "left" => told.left(),
            _ => bail!("a file of no kind"),
        };
        let bytes = bytes.to_vec(self.alloc)?;
        self.folder.put(String::from_str(self.alloc, name)?, bytes)
    }

    /// Reads a line of the file.
    pub fn read_line(&mut self, line: &str) -> Result<()> {
        match &mut self.draft {
            Some(draft) => draft.read_line(line),
            None => bail!("a line of no file"),
        }
    }

    /// Ends the file that is being written.
    pub fn end(&mut self) -> Result<()> {
        if let Some(draft) = self.draft.take() {
            let (name, bytes) = draft.finish()?;
            self.folder.put(name, bytes)?;
        }
        Ok(())
    }
}
