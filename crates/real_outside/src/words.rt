//! The words of the command line.
use std::env;
use std::rt::Env;

/// The words after the program's name. Words that can't be had, as those that aren't UTF-8, are none: no command has none, so the program
/// answers with its usage line.
pub fn words_after_name<R: Env + AllocGlobal>(rt: &R) -> Vec<String> {
    let mut words = Vec::new(rt.alloc());
    let Ok(given) = env::args(rt) else {
        return words;
    };
    for word in given.skip(1) {
        if words.push(word).is_err() {
            return Vec::new(rt.alloc());
        }
    }
    words
}
