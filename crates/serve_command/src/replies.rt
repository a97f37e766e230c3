//! The answers of a group, which wait until its grants are stable.
ghost use Rattle.std.specs.Prelude.{◌≡◌, ◌<◌, ◌≤◌, ◌∷◌, ◌++◌, [], length, take, vec_capacity, IfOk};
ghost use Rattle.record_text.specs.Fitting.{ToldFits};
ghost use Rattle.record_text.specs.Lines.{line_after, told_words};

use cell_base::{Cell, NoMemory, Told};
use record_text::{Line, write_told};
use std::alloc::Global;
use std::marker::Model;

/// The most lines of a group.
pub const GROUP_LINES: u64 = 512;

/// The most sessions that wait: as many as parts may be in a cell.
pub const MAX_WAITERS: u16 = 4_096;

/// The most lines of the answers of a group. Each session may end a wait that waited before the group, each line of the group has an answer
/// and may begin a wait, and one of them may list all parts, as many as may be in a cell.
pub const MAX_REPLIES: u64 = 9_216;

/// Answers in their order, with room for those of a group. Contracts see them as lines.
///
/// An answer is written in its place, in which one of an earlier group may stand: a line of 160 bytes is neither cleared nor copied.
#[derive(Drop)]
pub struct Replies {
    lines: Vec<Line>,
    count: usize,
}

impl Model for Replies {
    ghost use Rattle.std.specs.Prelude.{List, ℕ, ◌≤◌, length, take, vec_capacity};

    ghost Value = { List (List ℕ) };

    ghost view = { λ s. take s.count s.lines.items };

    ghost invariant = { λ s. (9216 ≤ vec_capacity s.lines) × (s.count ≤ length s.lines.items) };
}

impl Replies {
    /// No answers.
    pub fn with_room(alloc: Global) -> Result<Replies, NoMemory>
        ensures { IfOk result (λ replies. replies ≡ []) }
    {
        let lines = Vec::with_capacity(alloc, MAX_REPLIES as usize)?;
        Ok(Replies { lines, count: 0 })
    }

    /// Appends an answer. It takes no memory.
    pub fn push(&mut self, line: Line)
        requires { length self.old < MAX_REPLIES }
        ensures { self.new ≡ self.old ++ line ∷ [] }
    {
        make_place(&mut self.lines, self.count);
        self.lines[self.count] = line;
        self.count += 1;
    }

    /// Appends the line that begins with this text, and then says what was told. It takes no memory.
    #[inline(always)]
    pub fn push_told(&mut self, text: &[u8], cell: &Cell, told: &Told)
        requires short { length self.old < MAX_REPLIES }
        requires brief { length text.now ≤ 76 }
        requires known { ToldFits cell.now told.now }
        ensures { self.new ≡ self.old ++ line_after text.now (told_words cell.now told.now) ∷ [] }
    {
        make_place(&mut self.lines, self.count);
        write_told(&mut self.lines[self.count], text, cell, told);
        self.count += 1;
    }

    /// How many answers there are.
    pub fn len(&self) -> usize
        ensures { result ≡ length self.now }
    {
        self.count
    }

    /// The answers.
    pub fn as_slice(&self) -> &[Line]
        ensures { result.now ≡ self.now }
    {
        &self.lines[..self.count]
    }

    /// Takes all answers out. The room stays.
    pub fn clear(&mut self)
        ensures { self.new ≡ [] }
    {
        self.count = 0;
    }
}

// A line stands behind so many.
fn make_place(lines: &mut Vec<Line>, count: usize)
    requires short { count < MAX_REPLIES }
    requires room { MAX_REPLIES ≤ vec_capacity lines.old }
    requires inside { count ≤ length lines.old.items }
    ensures place { count < length lines.new.items }
    ensures same { take count lines.new.items ≡ take count lines.old.items }
    ensures room { MAX_REPLIES ≤ vec_capacity lines.new }
{
    if count == lines.len() {
        lines.push_reserved(Line::new());
    }
}
