//! What is told of a shift that was drawn from a number and ran.
ghost use Rattle.std.specs.Prelude.{◌≡◌, ◌≤◌, IfOk};
ghost use Rattle.make_command.specs.Clauses.{Drains, IsSummaryOf, MAX_STEPS, granted_in, left_words, number_words};
ghost use Rattle.make_command.specs.Clauses.{plan_of, refused_in, size_words, steps_of, summary_of, told_words};
ghost use Rattle.record_text.specs.Lines.{line_of};

use cell_base::{Entry, NoMemory, Reply, Shift, Told};
use cell_make::{Made, make};
use drain_planner::Drainer;
use record_text::Line;
use solo_rounds::{SoloRun, run_rounds, steps_of};
use std::alloc::Global;

/// How much was drawn from a number, and what came of it.
#[derive(Clone, Copy, Debug, PartialEq, Eq)]
pub struct Summary {
    /// The number.
    pub number: u64,
    /// How many resources the cell has.
    pub resources: u64,
    /// How many types.
    pub types: u64,
    /// How many sessions the shift has.
    pub sessions: u64,
    /// How many steps all sessions have together.
    pub steps: u64,
    /// How many requests were granted.
    pub granted: u64,
    /// How many were refused.
    pub refused: u64,
    /// How many parts were left in the cell.
    pub left: u32,
    /// How many steps the plan has that brings them out.
    pub plan: u64,
}

/// The summary of the shift that is drawn from a number. All memory is taken before the first session asks.
pub fn summary_of(alloc: Global, number: u64) -> Result<Summary, NoMemory>
    ensures { IfOk result (IsSummaryOf number) }
{
    let Made { cell, shift } = make(alloc, number)?;
    let run = run_rounds(alloc, cell, &shift)?;
    Ok(sum_up(number, &shift, run))
}

// What is told of a shift that ran.
fn sum_up(number: u64, shift: &Shift, run: SoloRun) -> Summary
    requires { steps_of shift.now ≤ MAX_STEPS }
    ensures summary { result ≡ summary_of number run.core.cell shift.now run.history.items run.core.parts }
    ensures drains { Drains run.core.cell run.core.parts (plan_of run.core.cell run.core.parts) }
{
    let SoloRun { core, history, .. } = run;
    Summary {
        number,
        resources: core.cell().resources.len(),
        types: core.cell().types.len(),
        sessions: shift.scripts.len(),
        steps: steps_of(shift),
        granted: granted_in(history.as_slice()),
        refused: refused_in(history.as_slice()),
        left: core.parts_left(),
        plan: Drainer::new(core).length(),
    }
}

// How many entries were granted.
fn granted_in(history: &[Entry]) -> u64
    ensures { result ≡ granted_in history.now }
{
    let is_granted = |entry: &&Entry| matches!(&entry.told, Told::Answered(Reply::Granted));
    history.iter().filter(is_granted).count() as u64
}

// How many were refused.
fn refused_in(history: &[Entry]) -> u64
    ensures { result ≡ refused_in history.now }
{
    let is_refused = |entry: &&Entry| matches!(&entry.told, Told::Answered(Reply::Refused(_)));
    history.iter().filter(is_refused).count() as u64
}

impl Summary {
    // What it was drawn from.
    pub fn number_line(&self) -> Line
        ensures { result ≡ line_of (number_words self.now) }
    {
        let mut line = Line::of_word(b"make");
        line.number(self.number);
        line.end()
    }

    // How much was drawn.
    pub fn size_line(&self) -> Line
        ensures { result ≡ line_of (size_words self.now) }
    {
        let mut line = Line::of_word(b"resources");
        line.number(self.resources);
        line.word(b"types");
        line.number(self.types);
        line.word(b"sessions");
        line.number(self.sessions);
        line.word(b"steps");
        line.number(self.steps);
        line.end()
    }

    // What the sessions were told.
    pub fn told_line(&self) -> Line
        ensures { result ≡ line_of (told_words self.now) }
    {
        let mut line = Line::of_word(b"granted");
        line.number(self.granted);
        line.word(b"refused");
        line.number(self.refused);
        line.end()
    }

    // What was left, and how many steps bring it out.
    pub fn left_line(&self) -> Line
        ensures { result ≡ line_of (left_words self.now) }
    {
        let mut line = Line::of_word(b"left");
        line.number(self.left);
        line.word(b"plan");
        line.number(self.plan);
        line.end()
    }
}
