//! A refusal that was printed, as the table of texts tells it.
use crate::asked::Asked;
use crate::place::Place;
use crate::texts::{ROWS, policy_text};

/// What a printed line is about: the line, the word that was given on the command line, where in it the fault lies, the last number of the
/// line that the table asks for, or 0, and what is wrong, with a space before it.
#[derive(Clone, Copy)]
pub struct Refusal<'a> {
    pub line: &'a str,
    pub given: &'a str,
    pub place: Place<'a>,
    pub number: u64,
    pub text: &'static str,
}

// A row of the table: the word of the command line that a line is about, where in it the fault lies, the words of the line, and what is
// wrong.
#[derive(Clone, Copy)]
struct Row {
    about: &'static str,
    place: &'static str,
    words: &'static str,
    text: &'static str,
}

impl<'a> Refusal<'a> {
    /// What a line tells; there is no text where the table has no such line.
    pub fn of(asked: &Asked<'a>, line: &'a str) -> Refusal<'a> {
        let row = row_for(asked.form, line);
        Refusal {
            line,
            given: asked.word(row.about),
            place: place_of(row, asked),
            number: number_in(row.words, line).unwrap_or(0),
            text: text_of(row, line),
        }
    }
}

// The row of the table that a line fits, of those about a word of the form; an empty one where there is none.
fn row_for(form: &str, line: &str) -> Row {
    for text in ROWS.lines() {
        let row = row_of(text);
        if form.contains(row.about) && number_in(row.words, line).is_some() {
            return row;
        }
    }
    row_of("")
}

// Where the fault lies. A line about one of two cell files doesn't say which of them is refused, and so neither is looked at.
fn place_of<'a>(row: Row, asked: &Asked<'a>) -> Place<'a> {
    let second = asked.word("CELL2");
    if row.about == "CELL" && !second.is_empty() {
        Place::OneOf(second)
    } else {
        Place::named(row.place, asked)
    }
}

fn row_of(row: &'static str) -> Row {
    let (head, text) = cut(row, ":");
    let (about, rest) = cut(head, " ");
    let (place, words) = cut(rest, " ");
    Row {
        about,
        place,
        words,
        text,
    }
}

// What stands before a mark, and after it.
fn cut(text: &'static str, mark: &str) -> (&'static str, &'static str) {
    text.split_once(mark).unwrap_or((text, ""))
}

// The last number that the words of a row ask of a line, or 0, where it begins with them.
fn number_in(row: &str, line: &str) -> Option<u64> {
    let mut number = 0;
    let mut words = line.split_whitespace();
    for wanted in row.split_whitespace() {
        let word = words.next()?;
        if wanted == "#" {
            number = word.parse::<u64>().unwrap_or(0);
        } else if wanted != "*" && wanted != word {
            return None;
        }
    }
    Some(number)
}

// The text of a row, or that of the policy where the row has none: it refuses by the fourth word.
fn text_of(row: Row, line: &str) -> &'static str {
    if row.text.is_empty() {
        policy_text(line.split_whitespace().nth(3).unwrap_or(""))
    } else {
        row.text
    }
}
