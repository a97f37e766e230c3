//! A conversation: the words of a call, what it is to print with which status, and what it is to leave of its journal.

use crate::scripted::command::runs_at_once;
use crate::scripted::cut::Cut;
use anyhow::{Result, bail};
use cell_program::usage;
use std::alloc::Global;
use std::str;

/// The words of one call, what it is to print, its status, and what it is to leave of its journal.
#[derive(Drop)]
pub struct Conversation {
    alloc: Global,
    name: String,
    cut: Option<Cut>,
    words: Vec<String>,
    // What is to be printed; where any lines may stand in it, what comes before the first of them, and then each piece
    // after some.
    printed: String,
    later: Vec<String>,
    status: u8,
    // The file that the journal is to be left as, where the script names one.
    left: Option<String>,
}

impl Conversation {
    /// A conversation without words and with nothing printed.
    pub fn new(alloc: Global, name: &str) -> Result<Conversation> {
        Ok(Conversation {
            alloc,
            name: String::from_str(alloc, name)?,
            cut: None,
            words: Vec::new(alloc),
            printed: String::new(alloc),
            later: Vec::new(alloc),
            status: 0,
            left: None,
        })
    }

    /// Is played with a file cut to each of these lengths.
    pub fn cut(&mut self, cut: Cut) {
        self.cut = Some(cut);
    }

    /// Adds a word of the call.
    pub fn add_word(&mut self, word: &str) -> Result<()> {
        self.words.push(String::from_str(self.alloc, word)?)?;
        Ok(())
    }

    /// Adds a line of what is to be printed; `...` stands for any lines, `\hex DIGITS` for these bytes, which are a text, and `{usage}`
    /// for the line that lists the commands.
    pub fn add_printed(&mut self, line: &str) -> Result<()> {
        if let Some(digits) = line.strip_prefix("\\hex ") {
            return self.add_hex(digits);
        }
        if line == "{usage}" {
            return self.add_bytes(usage());
        }
        if line == "..." {
            self.later.push(String::new(self.alloc))?;
            return Ok(());
        }
        match self.later.last_mut() {
            Some(piece) => add_line(piece, line),
            None => add_line(&mut self.printed, line),
        }
    }

    fn add_hex(&mut self, digits: &str) -> Result<()> {
        let Ok(bytes) = hex::decode(self.alloc, digits) else {
            bail!("no hexadecimal bytes");
        };
        self.add_bytes(bytes.as_slice())
    }

    fn add_bytes(&mut self, bytes: &[u8]) -> Result<()> {
        self.printed.push_str(str::from_utf8(bytes)?)?;
        Ok(())
    }

    /// Ends with this exit status, after which the file may stand that the journal is left as.
    pub fn end(&mut self, end: &str) -> Result<()> {
        let status = match end.split_once(" leaves ") {
            Some((status, file)) => {
                self.left = Some(String::from_str(self.alloc, file)?);
                status
            }
            None => end,
        };
        match status.parse::<u8>() {
            Ok(status) => self.status = status,
            Err(_) => bail!("no status"),
        }
        Ok(())
    }

    /// What the script calls it.
    pub fn name(&self) -> &str {
        self.name.as_str()
    }

    /// The words of the call.
    pub fn words(&self) -> &[String] {
        self.words.as_slice()
    }

    /// The file that is cut, with its lengths.
    pub fn file_cut(&self) -> Option<&Cut> {
        self.cut.as_ref()
    }

    /// The name of the file that the journal is to be left as.
    pub fn file_left(&self) -> Option<&String> {
        self.left.as_ref()
    }

    /// Whether lines are left open of what a run prints, since its sessions ask at the same time.
    pub fn is_open_run(&self) -> bool {
        runs_at_once(self.words.as_slice()) && !self.later.is_empty()
    }

    /// How many lines are written of what is to be printed.
    pub fn lines(&self) -> u64 {
        let mut lines = lines_in(self.printed.as_str());
        for piece in &self.later {
            lines = lines.saturating_add(lines_in(piece.as_str()));
        }
        lines
    }

    /// Whether a call that ended like this went as written.
    pub fn is_met_by(&self, status: u8, text: &[u8]) -> bool {
        status == self.status && self.is_printed_as(text)
    }

    fn is_printed_as(&self, text: &[u8]) -> bool {
        let Some(mut rest) = text.strip_prefix(self.printed.as_bytes()) else {
            return false;
        };
        let Some((last, pieces)) = self.later.split_last() else {
            return rest.is_empty();
        };
        for piece in pieces {
            match after_piece(rest, piece.as_bytes()) {
                Some(later) => rest = later,
                None => return false,
            }
        }
        match rest.strip_suffix(last.as_bytes()) {
            Some(between) => between.is_empty() || between.ends_with(b"\n"),
            None => false,
        }
    }

    /// What is to be printed with which status, as the script has it.
    pub fn written(&self) -> Result<String> {
        let mut text = String::from_str(self.alloc, self.printed.as_str())?;
        for piece in &self.later {
            text.push_str("...\n")?;
            text.push_str(piece.as_str())?;
        }
        let status = self.status;
        let text = text.as_str();
        Ok(format!(in self.alloc; "{text}= {status}\n")?)
    }
}

fn lines_in(text: &str) -> u64 {
    text.lines().count() as u64
}

fn add_line(text: &mut String, line: &str) -> Result<()> {
    text.push_str(line)?;
    text.push_str("\n")?;
    Ok(())
}

// What comes after a piece, where it first stands at the beginning of a line.
fn after_piece<'a>(text: &'a [u8], piece: &[u8]) -> Option<&'a [u8]> {
    let mut rest = text;
    for line in text.split_inclusive(|byte| *byte == b'\n') {
        if let Some(later) = rest.strip_prefix(piece) {
            return Some(later);
        }
        rest = rest.get(line.len()..)?;
    }
    None
}
