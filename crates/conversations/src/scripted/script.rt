//! Scripts: conversations as a person reads and writes them.
//!
//! A script is read line by line. A line that stands between conversations and begins with none of these signs is a
//! remark.
//!
//! | Line | Meaning |
//! |---|---|
//! | `== NAME` | a conversation begins |
//! | `-- FILE ..` | a file, of which `files` tells more |
//! | `$ WORDS` | the words of the call, of which the last may stand in quotes; what is printed follows |
//! | `= STATUS` | the exit status: the conversation is whole |
//! | `= STATUS leaves FILE` | the same, and it leaves its journal as this file is |
//!
//! Files stay from one conversation to the next. In what is printed a line `...` stands for any lines, and `{usage}` for the line that lists
//! the commands.

use crate::scripted::call_end::CallEnd;
use crate::scripted::conversation::Conversation;
use crate::scripted::files::ScriptFiles;
use crate::scripted::folder::Folder;
use anyhow::{Result, bail};
use std::alloc::Global;
use std::mem;

// What the next line belongs to.
#[derive(Clone, Copy)]
enum Part {
    Remarks,
    Files,
    Printed,
}

/// A script, as far as it has been read.
#[derive(Drop)]
pub struct Script {
    alloc: Global,
    files: ScriptFiles,
    part: Part,
    next: Conversation,
}

impl Script {
    /// A script of which nothing has been read, with no files.
    pub fn new(alloc: Global) -> Result<Script> {
        Ok(Script {
            alloc,
            files: ScriptFiles::new(alloc),
            part: Part::Remarks,
            next: Conversation::new(alloc, "")?,
        })
    }

    /// The files as they stand for the conversation that was read last.
    pub fn folder(&self) -> &Folder {
        self.files.folder()
    }

    /// The conversation that was read last ended like this.
    pub fn keep_told(&mut self, told: CallEnd) {
        self.files.keep_told(told);
    }

    /// Whether a script may end here.
    pub fn is_whole(&self) -> bool {
        matches!(self.part, Part::Remarks)
    }

    /// Reads a line, and answers the conversation that ends with it.
    pub fn read_line(&mut self, line: &str) -> Result<Option<Conversation>> {
        match self.part {
            Part::Remarks => self.begin(line)?,
            // A forgotten end would make the next conversation a part of this one.
            _ if line.starts_with("== ") => bail!("a conversation within another"),
            Part::Files => self.read_files(line)?,
            Part::Printed => return self.read_printed(line),
        }
        Ok(None)
    }

    fn begin(&mut self, line: &str) -> Result<()> {
        if let Some(name) = line.strip_prefix("== ") {
            self.next = Conversation::new(self.alloc, name)?;
            self.part = Part::Files;
        }
        Ok(())
    }

    fn read_files(&mut self, line: &str) -> Result<()> {
        if let Some(words) = line.strip_prefix("-- ") {
            if let Some(cut) = self.files.begin(words)? {
                self.next.cut(cut);
            }
            return Ok(());
        }
        match line.strip_prefix("$") {
            Some(words) => self.read_words(words),
            None => self.files.read_line(line),
        }
    }

    fn read_words(&mut self, words: &str) -> Result<()> {
        self.files.end()?;
        let (words, last) = match words.split_once(" \"") {
            Some((words, last)) => (words, last.strip_suffix("\"")),
            None => (words, None),
        };
        for word in words.split(' ').skip(1) {
            self.next.add_word(word)?;
        }
        if let Some(last) = last {
            self.next.add_word(last)?;
        }
        self.part = Part::Printed;
        Ok(())
    }

    fn read_printed(&mut self, line: &str) -> Result<Option<Conversation>> {
        let Some(status) = line.strip_prefix("= ") else {
            self.next.add_printed(line)?;
            return Ok(None);
        };
        self.next.end(status)?;
        self.part = Part::Remarks;
        let empty = Conversation::new(self.alloc, "")?;
        Ok(Some(mem::replace(&mut self.next, empty)))
    }
}
