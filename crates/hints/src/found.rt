//! What stands in a TOML document, in a few words.
use crate::hint_line::HintLine;
use toml::{Table, Value};

/// Adds a value.
pub fn add_value(hint: &mut HintLine, value: &Value) {
    match value {
        Value::String(text) => hint.quote(text.as_bytes()),
        Value::Integer(number) => hint.display(number),
        Value::Boolean(is) => hint.display(is),
        Value::Array(array) => {
            hint.add("an array of ");
            hint.display(&array.len());
        }
        Value::Float(_) | Value::Datetime(_) | Value::Table(_) => {
            hint.add("a ");
            hint.add(value.type_str());
        }
    }
}

/// Adds the first key that a text doesn't name, in quotes.
pub fn add_foreign_key(hint: &mut HintLine, table: &Table, text: &str) {
    for (key, _) in table {
        if !is_named(key.as_str(), text) {
            hint.add(", ");
            hint.quote(key.as_bytes());
            return;
        }
    }
}

// Whether a text has this word, with a comma or a semicolon after it or none.
fn is_named(key: &str, text: &str) -> bool {
    for word in text.split_whitespace() {
        if word.trim_end_matches(',').trim_end_matches(';') == key {
            return true;
        }
    }
    false
}
