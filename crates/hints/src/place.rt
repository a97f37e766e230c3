//! Where a fault lies.

use crate::asked::Asked;

/// Where a fault lies in what the line of a refusal is about.
#[derive(Clone, Copy)]
pub enum Place<'a> {
    /// It is the word of the command line itself.
    Word,
    /// The whole file.
    File,
    /// It may lie in this other cell file as well.
    OneOf(&'a str),
    /// Where a file stops being a TOML document.
    NotToml,
    /// A section of a TOML document with a key too many, or a key that is missing.
    Key,
    /// A value of a TOML document.
    Value,
    /// An array of a TOML document with too many elements.
    Elements,
    /// A line of a file.
    Line,
    /// The first bytes of a journal.
    Mark,
    /// A byte of a journal's cell text, which isn't that of this cell file.
    CellText(&'a str),
    /// A gate of a journal.
    Gate,
    /// The length of a file.
    Length,
    /// What is counted by this word.
    Numbered(&'a str),
}

impl<'a> Place<'a> {
    /// The place that a row of the table of texts names.
    pub fn named(word: &'a str, asked: &Asked<'a>) -> Place<'a> {
        match word {
            "word" => Place::Word,
            "file" => Place::File,
            "toml" => Place::NotToml,
            "key" => Place::Key,
            "value" => Place::Value,
            "elements" => Place::Elements,
            "line" => Place::Line,
            "mark" => Place::Mark,
            "place" => Place::CellText(asked.word("CELL")),
            "gate" => Place::Gate,
            "length" => Place::Length,
            _ => Place::Numbered(word),
        }
    }
}
