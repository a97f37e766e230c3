//! What is told beside standard output.
use real_outside::Seen;
use std::rt::Env;

/// The variable that puts all of it off by 0, and hints on by 1.
const VARIABLE: &str = "WISHKABE_HINTS";

/// What is told on standard error.
#[derive(Clone, Copy, Debug, PartialEq, Eq)]
pub struct Manner {
    /// How far a long command is. Only a terminal shows it, since a line of it wipes the one before.
    pub shows_progress: bool,
    /// A line in plain words after a refusal.
    pub gives_hints: bool,
    /// That a journal is not there. It is told terminal or not, since a program may have got a mistyped name.
    pub tells_absence: bool,
}

impl Manner {
    /// The manner that is wanted where standard error is a terminal, or is none.
    pub fn of<R: Env>(rt: &R, is_terminal: bool) -> Manner {
        let mut value = [0u8; 2];
        let wanted = match rt.var(VARIABLE, &mut value) {
            Ok(1) => value[0],
            _ => b' ',
        };
        let shows_progress = is_terminal && wanted != b'0';
        Manner {
            shows_progress,
            gives_hints: shows_progress || wanted == b'1',
            tells_absence: wanted != b'0',
        }
    }

    /// What the sink does for it.
    pub fn seen(self) -> Seen {
        Seen {
            keeps: self.gives_hints,
            wipes: self.shows_progress,
        }
    }
}
