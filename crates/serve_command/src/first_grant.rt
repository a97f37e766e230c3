//! The first grant of a group.
ghost use Rattle.std.specs.Prelude.{◌≡◌, ◌≤◌, ◌∷◌, [], codes, length, None};
ghost use Rattle.std.specs.Option.{option_map};
ghost use Rattle.record_text.specs.Lines.{line_after};
ghost use Rattle.serve_command.specs.FirstGrants.{FirstGrant, first_with};

use record_text::Line;
use std::marker::Model;

/// Where the answer to the first grant of a group stands among the answers, and the line that says that it halted; or that the group has
/// no grant. Contracts see it as an option.
///
/// The line is written in its place, in which that of an earlier group may stand: a line of 160 bytes is neither cleared nor copied.
#[derive(Drop)]
pub struct FirstOfGroup {
    is_there: bool,
    at: usize,
    line: Line,
}

impl Model for FirstOfGroup {
    ghost use Rattle.std.specs.Prelude.{if◌then◌else◌, Option, Some, None};
    ghost use Rattle.serve_command.specs.FirstGrants.{FirstGrant};

    ghost Value = { Option FirstGrant };

    ghost view = { λ s. if s.is_there then Some (record { at = s.at; line = s.line }) else None };
}

impl FirstOfGroup {
    /// The group has no grant.
    pub fn none() -> FirstOfGroup
        ensures { result ≡ None }
    {
        FirstOfGroup {
            is_there: false,
            at: 0,
            line: Line::new(),
        }
    }

    /// Where the answer to the first grant stands, and its line.
    pub fn get(&self) -> Option<(usize, &Line)>
        ensures { option_map (λ found. record { at = found.0; line = found.1.now }) result ≡ self.now }
    {
        if self.is_there {
            Some((self.at, &self.line))
        } else {
            None
        }
    }

    /// Takes a grant for the first one, if there is none yet: its answer stands here, and this is the text of its request.
    pub fn offer(&mut self, at: usize, text: &[u8])
        requires { length text.now ≤ 76 }
        ensures { self.new ≡ first_with self.old at (line_after text.now (codes "halted" ∷ [])) }
    {
        if !self.is_there {
            self.is_there = true;
            self.at = at;
            write_halted(&mut self.line, text);
        }
    }

    /// The group has no grant any more. The room stays.
    pub fn clear(&mut self)
        ensures { self.new ≡ None }
    {
        self.is_there = false;
    }
}

// Writes the line of a request of this text whose grant could not be written.
fn write_halted(line: &mut Line, text: &[u8])
    requires { length text.now ≤ 76 }
    ensures { line.new ≡ line_after text.now (codes "halted" ∷ []) }
{
    line.begin(text);
    line.word(b"halted");
    line.close();
}
