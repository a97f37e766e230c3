//! A start file: the parts that stand in a cell already, one line each, both ways.
//!
//! A line places one part, `place 7 A 1 waiting` or `place 7 A 1 done`: its job, its type, its place in the route, from 0, and whether
//! its work there is done. There may be no line.
ghost use Rattle.std.specs.Prelude.{◌≡◌, ◌<◌, ◌⊎◌, [], length, IfSome, IfOk, IfErr, List as Items};
ghost use Rattle.cell_base.specs.Fits.{CellFits, RequestFits};
ghost use Rattle.cell_base.specs.declared.requests.Request.{Request};
ghost use Rattle.cell_base.specs.declared.requests.Request.TheVariants.{Place};
ghost use Rattle.step_text.specs.Words.{words};
ghost use Rattle.record_text.specs.BadLines.{pieces};
ghost use Rattle.record_text.specs.Reading.{placing_of};
ghost use Rattle.record_text.specs.StartLines.{GivesStart, next_request, read_from};
ghost use Rattle.record_text.specs.declared.start.TheConstants.{MAX_START_LINES};
ghost use Rattle.record_text.specs.StartFiles.{IsPlacing, IsStartOf, StartRefusedAt, place_line};

use crate::lines::{add_type, done_word};
use crate::lines_at::placing_of;
use crate::record::{RecordFault, cut_line};
use cell_base::{Cell, JobId, List, Request, TypeId};
use line_text::Line;
use std::alloc::Global;
use step_text::{IndexedCell, NameIndex};

/// The most bytes of a start file.
pub const MAX_START_BYTES: u64 = 262_144;

/// The most lines of a start file: as many as a cell may have units.
pub const MAX_START_LINES: u64 = 4_096;

/// The requests whose lines the bytes are. The bytes are read once, and no copy of them is made.
pub fn read_start(alloc: Global, cell: &Cell, bytes: &[u8]) -> Result<List<Request>, RecordFault>
    requires { CellFits cell.now }
    ensures found { IfOk result (IsStartOf cell.now bytes.now) }
    ensures complete { (requests : Items Request) → IsStartOf cell.now bytes.now requests
        → (result ≡ Ok requests) ⊎ (result ≡ Err RecordFault.Memory) }
    ensures refused { IfErr result (StartRefusedAt cell.now bytes.now) }
{
    if bytes.len() as u64 > MAX_START_BYTES {
        return Err(RecordFault::Bad { line: 0 });
    }
    let names = NameIndex::of(cell);
    read_lines(alloc, &IndexedCell::over(cell, &names), bytes)
}

// The requests of all lines.
fn read_lines(
    alloc: Global,
    cell: &IndexedCell<'_>,
    bytes: &[u8],
) -> Result<List<Request>, RecordFault>
    ensures { GivesStart result (read_from cell.now [] (pieces bytes.now)) }
{
    let mut found: List<Request> = List::new(alloc);
    let mut rest = bytes;
    loop {
        let number = found.len() as u32 + 1;
        let (line, more) = cut_line(rest);
        let more = match more {
            Some(more) => more,
            None if line.is_empty() => return Ok(found),
            None => return Err(RecordFault::Bad { line: number }),
        };
        match next_request(cell, &found, line) {
            Some(request) => found.try_push(request)?,
            None => return Err(RecordFault::Bad { line: number }),
        }
        rest = more;
    }
}

// The request of a line after those that were found.
fn next_request(cell: &IndexedCell<'_>, found: &List<Request>, line: &[u8]) -> Option<Request>
    ensures request { result ≡ next_request cell.now found.now line.now }
    ensures room { IfSome result (λ request. length found.now < MAX_START_LINES) }
{
    if found.len() >= MAX_START_LINES {
        return None;
    }
    placing_of(cell, line)
}

/// The request that a line without its newline places a part by, where it is such a line.
#[tactic(auto, using(crate::proofs::Placing::placed_fits))]
pub fn read_place(cell: &IndexedCell<'_>, line: &[u8]) -> Option<Request>
    ensures request { result ≡ placing_of cell.now (words line.now) }
    ensures fits { IfSome result (RequestFits cell.now) }
{
    placing_of(cell, line)
}

/// The line of a request that places a part.
pub fn place_line(cell: &Cell, request: &Request) -> Line
    requires fits { CellFits cell.now }
    requires placing { IsPlacing cell.now request.now }
    ensures { result ≡ place_line cell.now request.now }
{
    match *request {
        Request::Place {
            job,
            kind,
            place,
            done,
        } => line_of_place(cell, job, kind, place, done),
        _ => Line::new(),
    }
}

// The line of a place, by the fields of the request.
fn line_of_place(cell: &Cell, job: JobId, kind: TypeId, place: u16, done: bool) -> Line
    requires fits { CellFits cell.now }
    requires placing { IsPlacing cell.now (Place done kind job place) }
    ensures { result ≡ place_line cell.now (Place done kind job place) }
{
    let mut line = Line::of_word(b"place");
    line.number(job.0);
    add_type(&mut line, cell, kind);
    line.number(place);
    line.word(done_word(done));
    line.end()
}
