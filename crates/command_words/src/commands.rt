//! The commands: how each is written, its journal, and which command words are.
ghost use Rattle.std.specs.Prelude.{◌≡◌, ◌∷◌, [], map, IfSome, IfNone, List, None, Some, ℕ};
ghost use Rattle.std.specs.String.{string_bytes};
ghost use Rattle.std.specs.Option.{option_map};
ghost use Rattle.command_words.specs.Words.{Task, journal_of, named, of_verb, serve_words, served_journal, task_in, task_of, usage_text};
ghost use Rattle.command_words.specs.Words.{with_words, words_of};

use crate::served::served_in;

/// A command with its words.
#[derive(Drop)]
pub enum Command<'a> {
    /// A shift on the empty cell, on one thread.
    Solo {
        cell: &'a str,
        shift: &'a str,
    },
    /// A shift on a journal, its sessions at the same time.
    Run {
        cell: &'a str,
        shift: &'a str,
        journal: &'a str,
    },
    /// The plan of the state after a journal's grants.
    Plan {
        cell: &'a str,
        journal: &'a str,
    },
    /// The steps of that plan, each asked and written to the journal.
    Drain {
        cell: &'a str,
        journal: &'a str,
    },
    /// What a step would be told in that state.
    Why {
        cell: &'a str,
        journal: &'a str,
        step: &'a str,
    },
    /// Whether a record is right.
    Check {
        cell: &'a str,
        record_file: &'a str,
    },
    /// A cell's neighborhoods.
    Show {
        cell: &'a str,
    },
    /// A shift on a cell, both drawn from a number.
    Make {
        number: &'a str,
    },
    /// The parts after a journal's grants, as they are carried to another cell.
    Carry {
        cell: &'a str,
        journal: &'a str,
        other: &'a str,
    },
    /// A cell that begins with parts in it.
    Begin {
        cell: &'a str,
        start: &'a str,
        journal: &'a str,
    },
    /// A shift under the policy and the Banker's test together.
    Hybrid {
        cell: &'a str,
        shift: &'a str,
    },
    /// A shift whose saturated requests wait on a board.
    Queue {
        cell: &'a str,
        shift: &'a str,
    },
    /// The orders with the fewest memberships, of a small cell.
    Advise {
        cell: &'a str,
    },
    /// The same of a larger one.
    Arrange {
        cell: &'a str,
    },
    /// A journal's grants, as a record.
    Grants {
        cell: &'a str,
        journal: &'a str,
    },
    /// Where the parts stand after these grants.
    Parts {
        cell: &'a str,
        journal: &'a str,
    },
    /// The grants from an index on, as frames.
    Feed {
        cell: &'a str,
        journal: &'a str,
        from: &'a str,
    },
    /// Frames that a standby takes.
    Follow {
        cell: &'a str,
        frames: &'a str,
        journal: &'a str,
    },
}

/// The journal of a command by its name, and what it is opened for.
#[derive(Drop)]
pub enum Journal<'a> {
    /// It is only read.
    Read(&'a str),
    /// Grants may be added to it.
    Added(&'a str),
}

impl<'a> Command<'a> {
    // Its journal.
    fn journal(self) -> Option<Journal<'a>>
        ensures { option_map named result ≡ journal_of (task_in self.entry) }
    {
        match self {
            Command::Run { journal, .. }
            | Command::Drain { journal, .. }
            | Command::Begin { journal, .. }
            | Command::Follow { journal, .. } => Some(Journal::Added(journal)),
            Command::Plan { journal, .. }
            | Command::Why { journal, .. }
            | Command::Carry { journal, .. }
            | Command::Grants { journal, .. }
            | Command::Parts { journal, .. }
            | Command::Feed { journal, .. } => Some(Journal::Read(journal)),
            Command::Solo { .. }
            | Command::Check { .. }
            | Command::Show { .. }
            | Command::Make { .. }
            | Command::Hybrid { .. }
            | Command::Queue { .. }
            | Command::Advise { .. }
            | Command::Arrange { .. } => None,
        }
    }
}

// The command of a verb and a word.
fn decide_one<'a>(verb: &str, a: &'a str) -> Option<Command<'a>>
    ensures written { IfSome result (λ command. words_of (task_in command) ≡ verb.now ∷ a.now ∷ []) }
    ensures none { IfNone result (of_verb verb.now (with_words (a.now ∷ [])) ≡ None) }
{
    match verb {
        "show" => Some(Command::Show { cell: a }),
        "make" => Some(Command::Make { number: a }),
        "advise" => Some(Command::Advise { cell: a }),
        "arrange" => Some(Command::Arrange { cell: a }),
        _ => None,
    }
}

// The command of a verb and two words.
fn decide_two<'a>(verb: &str, a: &'a str, b: &'a str) -> Option<Command<'a>>
    ensures written { IfSome result (λ command. words_of (task_in command) ≡ verb.now ∷ a.now ∷ b.now ∷ []) }
    ensures none { IfNone result (of_verb verb.now (with_words (a.now ∷ b.now ∷ [])) ≡ None) }
{
    match verb {
        "solo" => Some(Command::Solo { cell: a, shift: b }),
        "plan" => Some(Command::Plan {
            cell: a,
            journal: b,
        }),
        "drain" => Some(Command::Drain {
            cell: a,
            journal: b,
        }),
        "check" => Some(Command::Check {
            cell: a,
            record_file: b,
        }),
        "hybrid" => Some(Command::Hybrid { cell: a, shift: b }),
        "queue" => Some(Command::Queue { cell: a, shift: b }),
        "grants" => Some(Command::Grants {
            cell: a,
            journal: b,
        }),
        "parts" => Some(Command::Parts {
            cell: a,
            journal: b,
        }),
        _ => None,
    }
}

// The command of a verb and three words.
fn decide_three<'a>(verb: &str, a: &'a str, b: &'a str, c: &'a str) -> Option<Command<'a>>
    ensures written { IfSome result (λ command. words_of (task_in command) ≡ verb.now ∷ a.now ∷ b.now ∷ c.now ∷ []) }
    ensures none { IfNone result (of_verb verb.now (with_words (a.now ∷ b.now ∷ c.now ∷ [])) ≡ None) }
{
    match verb {
        "run" => Some(Command::Run {
            cell: a,
            shift: b,
            journal: c,
        }),
        "why" => Some(Command::Why {
            cell: a,
            journal: b,
            step: c,
        }),
        "carry" => Some(Command::Carry {
            cell: a,
            journal: b,
            other: c,
        }),
        "begin" => Some(Command::Begin {
            cell: a,
            start: b,
            journal: c,
        }),
        "feed" => Some(Command::Feed {
            cell: a,
            journal: b,
            from: c,
        }),
        "follow" => Some(Command::Follow {
            cell: a,
            frames: b,
            journal: c,
        }),
        _ => None,
    }
}

// The command that the words decide.
fn decide(words: &[String]) -> Option<Command<'_>>
    ensures written { IfSome result (λ command. words_of (task_in command) ≡ map string_bytes words.now) }
    ensures none { IfNone result (task_of (map string_bytes words.now) ≡ None) }
{
    match words {
        [verb, a] => decide_one(verb.as_str(), a.as_str()),
        [verb, a, b] => decide_two(verb.as_str(), a.as_str(), b.as_str()),
        [verb, a, b, c] => decide_three(verb.as_str(), a.as_str(), b.as_str(), c.as_str()),
        _ => None,
    }
}

/// The command that the words are written as.
pub fn command_of(words: &[String]) -> Option<Command<'_>>
    ensures written { IfSome result (λ command. words_of (task_in command) ≡ map string_bytes words.now) }
    ensures none { IfNone result ((task : Task) → words_of task ≡ map string_bytes words.now → ⊥) }
{
    decide(words)
}

/// The journal of what the words are written as, a command or `serve CELL JOURNAL`.
pub fn journal_in(words: &[String]) -> Option<Journal<'_>>
    ensures journal { (task : Task) → words_of task ≡ map string_bytes words.now → option_map named result ≡ journal_of task }
    ensures served { (cell journal : List ℕ) → serve_words cell journal ≡ map string_bytes words.now
        → option_map named result ≡ Some (served_journal journal) }
    ensures none { ((task : Task) → words_of task ≡ map string_bytes words.now → ⊥)
        → ((cell journal : List ℕ) → serve_words cell journal ≡ map string_bytes words.now → ⊥) → result ≡ None }
{
    if let Some(served) = served_in(words) {
        return Some(Journal::Added(served.journal));
    }
    match command_of(words) {
        Some(command) => command.journal(),
        None => None,
    }
}

/// The commands with their words.
pub fn usage() -> &'static [u8]
    ensures { result.now ≡ usage_text }
{
    b"usage: solo CELL SHIFT, run CELL SHIFT JOURNAL, plan CELL JOURNAL, drain CELL JOURNAL, why CELL JOURNAL STEP, check CELL RECORD, \
      show CELL, make NUMBER, carry CELL1 JOURNAL CELL2, begin CELL START JOURNAL, hybrid CELL SHIFT, queue CELL SHIFT, \
      advise CELL, feed CELL JOURNAL FROM, follow CELL FRAMES JOURNAL, arrange CELL, grants CELL JOURNAL, parts CELL JOURNAL, \
      serve CELL JOURNAL\n"
}
