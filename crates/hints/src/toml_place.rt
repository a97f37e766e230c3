//! A place of a TOML file, and the value that was found there.
use crate::found::{add_foreign_key, add_value};
use crate::hint_line::HintLine;
use crate::place::Place;
use crate::refusal::Refusal;
use std::alloc::Global;
use std::str::{self, SplitWhitespace};
use toml::Value;
use toml::de::Error;

/// Adds where a file stops being a TOML document, in the reader's own words.
pub fn add_not_toml(alloc: Global, hint: &mut HintLine, bytes: &[u8]) {
    match str::from_utf8(bytes) {
        Ok(text) => add_fault(alloc, hint, text),
        Err(error) => {
            hint.add(", byte ");
            hint.display(&error.valid_up_to());
            hint.add(", which is no UTF-8");
        }
    }
}

// The fault of a text that is no TOML document; nothing where it is one by now.
fn add_fault(alloc: Global, hint: &mut HintLine, text: &str) {
    if let Err(error) = toml::table_from_str(alloc, text) {
        add_error(alloc, hint, &error);
    }
}

// The place and what is wrong there, which the reader tells on a line each.
fn add_error(alloc: Global, hint: &mut HintLine, error: &Error) {
    if let Ok(told) = format!(in alloc; "{error}") {
        for line in told.as_str().lines() {
            hint.add(": ");
            hint.show(line.as_bytes());
        }
    }
}

/// Adds the place that a line names, and what stands there.
pub fn add_toml_place(alloc: Global, hint: &mut HintLine, refusal: &Refusal<'_>, bytes: &[u8]) {
    match document_of(alloc, bytes) {
        Some(document) => add_place(hint, refusal, Some(&document)),
        None => add_place(hint, refusal, None),
    }
}

// The document of a file, where it could be read again.
fn document_of(alloc: Global, bytes: &[u8]) -> Option<Value> {
    let text = str::from_utf8(bytes).ok()?;
    match toml::table_from_str(alloc, text) {
        Ok(table) => Some(Value::Table(table)),
        Err(_) => None,
    }
}

// The place as the line names it after the number of its fault, and what stands there in a document.
fn add_place(hint: &mut HintLine, refusal: &Refusal<'_>, document: Option<&Value>) {
    let mut words = place_of(refusal).split_whitespace();
    match words.nth(3) {
        Some("top") | None => add_key(hint, refusal, document, &mut words),
        Some(section) => add_section(hint, refusal, document, section, &mut words),
    }
}

// A line without the number of elements at its end.
fn place_of<'a>(refusal: &Refusal<'a>) -> &'a str {
    match (refusal.place, refusal.line.trim_end().rsplit_once(" ")) {
        (Place::Elements, Some((place, _))) => place,
        _ => refusal.line,
    }
}

// Adds a section, with its number and its name, unless the place is that name.
fn add_section(
    hint: &mut HintLine,
    refusal: &Refusal<'_>,
    document: Option<&Value>,
    section: &str,
    words: &mut SplitWhitespace<'_>,
) {
    let item = words.next().unwrap_or("");
    hint.add(", ");
    hint.add(section);
    hint.add(" ");
    hint.add(item);
    let found = element(member(document, section), section, item);
    if !refusal.line.contains(" name") {
        add_name(hint, found);
    }
    add_key(hint, refusal, found, words);
}

fn member<'t>(table: Option<&'t Value>, key: &str) -> Option<&'t Value> {
    table?.get(key)
}

// An element of the array of a key. Sessions are counted from 1, and the others from 0.
fn element<'t>(array: Option<&'t Value>, key: &str, index: &str) -> Option<&'t Value> {
    let number = index.parse::<usize>().unwrap_or(0);
    let first = if key == "session" { 1 } else { 0 };
    array?.get(number.wrapping_sub(first))
}

// Adds the name of what was found.
fn add_name(hint: &mut HintLine, found: Option<&Value>) {
    if let Some(Value::String(name)) = member(found, "name") {
        hint.add(" ");
        hint.quote(name.as_bytes());
    }
}

// Adds a key of a section, if any, where in its array, and what stands there.
fn add_key(
    hint: &mut HintLine,
    refusal: &Refusal<'_>,
    section: Option<&Value>,
    words: &mut SplitWhitespace<'_>,
) {
    let Some(key) = words.next() else {
        add_end(hint, refusal, ", ", section);
        return;
    };
    hint.add(", ");
    let found = member(section, key);
    match words.next() {
        Some(index) => {
            add_index(hint, key, index);
            add_end(hint, refusal, ", ", element(found, key, index));
        }
        None => {
            hint.add(key);
            add_end(hint, refusal, " ", found);
        }
    }
}

// Adds one of the elements of a key.
fn add_index(hint: &mut HintLine, key: &str, index: &str) {
    hint.add(if key == "steps" { "step" } else { key });
    hint.add(" ");
    hint.add(index);
}

// Adds what stands at the end of a place: a value that is no list after this mark.
fn add_end(hint: &mut HintLine, refusal: &Refusal<'_>, mark: &str, found: Option<&Value>) {
    match (refusal.place, found) {
        (Place::Elements, _) => hint.count(refusal.number, "elements"),
        (Place::Key, Some(Value::Table(table))) => add_foreign_key(hint, table, refusal.text),
        (Place::Value, Some(value)) => {
            hint.add(if value.is_array() { ", " } else { mark });
            add_value(hint, value);
        }
        _ => {}
    }
}
