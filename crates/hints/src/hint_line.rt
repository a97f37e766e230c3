//! A line for a terminal, made piece by piece. Text of a file or of a word moves no cursor there, and a long one is cut.
use std::alloc::Global;
use std::fmt::{Display, Write};
use std::str;

/// The most characters of a text that are shown.
const MOST: usize = 120;

/// A line without its newline, while it is made. It notes whether it is whole, which it isn't once there was no memory for a piece: so
/// whoever adds has nothing to test, and nobody reads a part of a line.
#[derive(Drop)]
pub struct HintLine {
    text: String,
    is_whole: bool,
}

impl HintLine {
    /// A line of nothing.
    pub fn new(alloc: Global) -> HintLine {
        HintLine {
            text: String::new(alloc),
            is_whole: true,
        }
    }

    /// The line; `None` where nothing was added, and where there was no memory for all of it.
    pub fn finish(self) -> Option<String> {
        if self.is_whole && !self.text.is_empty() {
            Some(self.text)
        } else {
            None
        }
    }

    /// Adds a text of this program.
    pub fn add(&mut self, text: &str) {
        if self.text.push_str(text).is_err() {
            self.is_whole = false;
        }
    }

    /// Adds a value as it is displayed.
    pub fn display<T: Display>(&mut self, value: &T) {
        if write!(self.text, "{value}").is_err() {
            self.is_whole = false;
        }
    }

    /// Adds which one it is of those that a word counts, as `, line 3`.
    pub fn number(&mut self, word: &str, number: u64) {
        self.add(", ");
        self.add(word);
        self.add(" ");
        self.display(&number);
    }

    /// Adds how many there are of what a word names, as `, 65 elements`.
    pub fn count(&mut self, number: u64, word: &str) {
        self.add(", ");
        self.display(&number);
        self.add(" ");
        self.add(word);
    }

    /// Adds what stands in a file, in quotes.
    pub fn quote(&mut self, bytes: &[u8]) {
        self.add("\"");
        self.show(bytes);
        self.add("\"");
    }

    /// Adds what stands in a file: as characters, or byte by byte where it is no text.
    pub fn show(&mut self, bytes: &[u8]) {
        match str::from_utf8(bytes) {
            Ok(text) => self.show_text(text),
            Err(_) => self.show_bytes(bytes),
        }
    }

    fn show_text(&mut self, text: &str) {
        for c in text.chars().take(MOST) {
            if c.is_control() {
                self.show_number(u32::from(c));
            } else {
                self.display(&c);
            }
        }
        self.cut(text.chars().count());
    }

    fn show_bytes(&mut self, bytes: &[u8]) {
        for byte in bytes.iter().take(MOST) {
            if byte.is_ascii_graphic() || *byte == b' ' {
                self.display(&char::from(*byte));
            } else {
                self.show_number(u32::from(*byte));
            }
        }
        self.cut(bytes.len());
    }

    // A byte by its number, as `\x1b`.
    fn show_number(&mut self, number: u32) {
        if write!(self.text, "\\x{number:02x}").is_err() {
            self.is_whole = false;
        }
    }

    // Adds that more isn't shown, if there is more.
    fn cut(&mut self, length: usize) {
        if length > MOST {
            self.add("..");
        }
    }
}
