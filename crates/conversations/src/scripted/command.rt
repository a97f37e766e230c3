//! What the words of a call name of the outside.

use cell_program::{Journal, journal_in};

/// The name of the file that the disk of a call holds: its journal. Where the words name none it is the file of the third word, which stays
/// as it is.
pub fn disk_name(words: &[String]) -> &str {
    match journal_in(words) {
        Some(Journal::Read(name) | Journal::Added(name)) => name,
        None => match words {
            [_, _, name, ..] => name.as_str(),
            _ => "",
        },
    }
}

/// Whether a command has a journal.
pub fn has_journal(words: &[String]) -> bool {
    journal_in(words).is_some()
}

/// Whether a command may write to its journal.
pub fn may_write(words: &[String]) -> bool {
    matches!(journal_in(words), Some(Journal::Added(_)))
}

/// Whether the sessions of a shift ask at the same time, so that their entries may stand otherwise each time.
pub fn runs_at_once(words: &[String]) -> bool {
    is_one_of(words, &["run"])
}

/// Whether a command answers each frame by a line.
pub fn answers_frames(words: &[String]) -> bool {
    is_one_of(words, &["follow"])
}

/// How many bytes a piece has that a command puts: a frame; every other piece is a line.
pub fn piece_bytes(words: &[String], status: u8) -> Option<usize> {
    if is_one_of(words, &["feed"]) && status == 0 {
        Some(24)
    } else {
        None
    }
}

fn is_one_of(words: &[String], verbs: &[&str]) -> bool {
    match words {
        [verb, ..] => verbs.iter().any(|other| verb.as_str() == *other),
        [] => false,
    }
}
