//! The line of words that are no command.
use crate::asked::Asked;
use crate::hint_line::HintLine;

/// Adds what is wrong with the words of the command line.
pub fn add_words(hint: &mut HintLine, asked: &Asked<'_>) {
    if asked.words.is_empty() {
        hint.add("no word was given");
    } else if asked.form.is_empty() {
        hint.quote(asked.verb().as_bytes());
        hint.add(": no command");
    } else {
        hint.add(asked.form);
        add_wrong_words(hint, asked);
    }
}

// Adds that the words aren't as many as the command has, or that the last one is no number: no other is looked at before it begins.
fn add_wrong_words(hint: &mut HintLine, asked: &Asked<'_>) {
    if asked.is_whole() {
        hint.add(", ");
        hint.quote(asked.last().as_bytes());
        hint.add(": no number from 0 to 18446744073709551615");
    } else {
        hint.add(": another number of words was given");
    }
}
