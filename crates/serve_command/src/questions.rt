//! The lines that answer questions. They change nothing.
ghost use Rattle.std.specs.Prelude.{◌≡◌, ◌≤◌, ◌+◌, ◌∷◌, ◌++◌, [], codes, length, IfSome, None, Some};
ghost use Rattle.std.specs.Fmt.{decimal};
ghost use Rattle.cell_base.specs.declared.cells.Cell.{Cell};
ghost use Rattle.record_text.specs.Lines.{line_of};
ghost use Rattle.record_text.specs.Spaced.{spaced};
ghost use Rattle.serve_command.specs.Clauses.{CellFits, IsStage, RequestFits, job_words, jobs_words, last_words, part_of};
ghost use Rattle.serve_command.specs.Clauses.{part_words, plan_step, stage_of, step_or_none};

use admission_core::Core;
use cell_base::{Cell, JobId, Part, Request};
use record_text::{Line, add_request, add_resource, add_type, done_word};

/// How many grants a session has.
pub fn count_line(session: u16, count: u32) -> Line
    ensures { result ≡ line_of (decimal session ∷ codes "grants" ∷ decimal count ∷ []) }
{
    let mut line = Line::new();
    line.begin_number(session);
    line.word(b"grants");
    line.number(count);
    line.end()
}

/// How many grants a session has, and the request of the last of them.
pub fn last_line(cell: &Cell, session: u16, count: u32, last: Option<Request>) -> Line
    requires { IfSome last (RequestFits cell.now) }
    ensures { result ≡ line_of (last_words cell.now session count last) }
{
    let mut line = Line::new();
    line.begin_number(session);
    line.word(b"last");
    line.number(count);
    add_step(&mut line, cell, last);
    line.end()
}

/// The next step of the plan that empties a cell.
pub fn next_line(core: &Core) -> Line
    ensures { result ≡ line_of (codes "next" ∷ step_or_none core.now.cell (plan_step core.now.cell core.now.parts)) }
{
    let step = core.plan_step();
    let mut line = Line::of_word(b"next");
    add_step(&mut line, core.cell(), step);
    line.end()
}

/// Appends a step, or that there is none.
pub fn add_step(line: &mut Line, cell: &Cell, step: Option<Request>)
    requires fits { IfSome step (RequestFits cell.now) }
    requires room { length line.old ≤ 40 }
    ensures words { line.new ≡ line.old ++ spaced (step_or_none cell.now step) }
    ensures len { length line.new ≤ length line.old + 66 }
{
    match step {
        Some(request) => add_request(line, cell, &request),
        None => line.word(b"none"),
    }
}

/// Where the part of a job stands.
pub fn job_line(core: &Core, job: JobId) -> Line
    ensures { result ≡ line_of (job_words core.now.cell job (part_of core.now.parts job)) }
{
    match core.part_of(job) {
        Some(part) => part_line(core.cell(), b"job", job, part),
        None => gone_line(job),
    }
}

/// The same of a part, in a line that begins with this word.
pub fn part_line(cell: &Cell, word: &[u8], job: JobId, part: Part) -> Line
    requires fits { CellFits cell.now }
    requires brief { length word.now ≤ 7 }
    requires standing { IsStage cell.now (stage_of part) }
    ensures { result ≡ line_of (part_words cell.now word.now job part) }
{
    let mut line = Line::of_word(word);
    line.number(job.0);
    add_type(&mut line, cell, part.kind);
    line.number(part.place);
    add_resource(&mut line, cell, cell.resource_at(part.kind, part.place));
    line.word(done_word(part.done));
    line.end()
}

// No part of a job is in the cell.
fn gone_line(job: JobId) -> Line
    ensures { (cell : Cell) → result ≡ line_of (job_words cell job None) }
{
    let mut line = Line::of_word(b"job");
    line.number(job.0);
    line.word(b"none");
    line.end()
}

/// The head of the list of all parts.
pub fn parts_line(count: u32) -> Line
    ensures { result ≡ line_of (codes "parts" ∷ decimal count ∷ []) }
{
    let mut line = Line::of_word(b"parts");
    line.number(count);
    line.end()
}

/// The head of the list of the parts that stand in the way of a step.
pub fn jobs_line(cell: &Cell, request: &Request, count: u32) -> Line
    requires { RequestFits cell.now request.now }
    ensures { result ≡ line_of (jobs_words cell.now request.now count) }
{
    let mut line = Line::of_word(b"jobs");
    add_request(&mut line, cell, request);
    line.number(count);
    line.end()
}

/// For how many grants more the journal has room.
pub fn room_line(grants: u64) -> Line
    ensures { result ≡ line_of (codes "room" ∷ decimal grants ∷ []) }
{
    let mut line = Line::of_word(b"room");
    line.number(grants);
    line.end()
}

/// The line of this number asks nothing.
pub fn refused_line(number: u64) -> Line
    ensures { result ≡ line_of (codes "line" ∷ codes "refused" ∷ decimal number ∷ []) }
{
    let mut line = Line::of_word(b"line");
    line.word(b"refused");
    line.number(number);
    line.end()
}
