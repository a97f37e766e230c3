//! The start of a cell: its file read, and its requests tried in turn.
ghost use Rattle.std.specs.Prelude.{◌≡◌, ◌≤◌, [], length, Ok, Err, IfOk, IfErr, IfNone, IfSome, OnOk};
ghost use Rattle.std.specs.List.{All};
ghost use Rattle.cell_walks.specs.Clauses.{IsEndedAt, ShowsFile, files_told};
ghost use Rattle.cell_texts.specs.Clauses.{CellFits};
ghost use Rattle.carry_commands.specs.BeginClauses.{EndsBeforeJournal, IsGrantedStart, IsPlacing, IsRefusedStart};
ghost use Rattle.carry_commands.specs.BeginClauses.{MAX_START_LINES, start_file, start_reads};

use crate::refusals::{StartFault, at_start_fault};
use admission_core::Core;
use cell_base::{Cell, List, Reply, Request};
use cell_texts::{at_record_fault, read_named};
use cell_walks::EarlyEnd;
use outside_io::Files;
use record_text::{MAX_START_BYTES, read_start};
use refusal_reason::laws::refusal_is_present;
use std::alloc::Global;

/// The requests of a start file for this cell, or the end in their place.
pub fn read_start_file<F: Files>(
    alloc: Global,
    files: &mut F,
    cell: &Cell,
    name: &str,
) -> Result<List<Request>, EarlyEnd>
    requires { CellFits cell.now }
    ensures read { IfOk result (λ requests. ShowsFile (files_told F.holds F.is_sound F.faults files.old files.new) name.now
        (λ bytes. start_reads cell.now bytes (Ok requests))) }
    ensures placing { IfOk result (λ requests. All (IsPlacing cell.now) requests) }
    ensures few { IfOk result (λ requests. length requests ≤ MAX_START_LINES) }
    ensures ended { IfErr result (IsEndedAt (files_told F.holds F.is_sound F.faults files.old files.new) (start_file cell.now name.now)) }
{
    let bytes = match read_named(alloc, files, name, MAX_START_BYTES as u32) {
        Ok(bytes) => bytes,
        Err(end) => return Err(end),
    };
    match read_start(alloc, cell, &bytes) {
        Ok(requests) => Ok(requests),
        Err(fault) => Err(at_record_fault(fault)),
    }
}

/// Whether each request is granted in its turn from the empty cell, or the end at the first that isn't.
pub fn check_start(alloc: Global, cell: &Cell, requests: &[Request]) -> Result<(), EarlyEnd>
    requires fits { CellFits cell.now }
    requires placing { All (IsPlacing cell.now) requests.now }
    requires few { length requests.now ≤ MAX_START_LINES }
    ensures granted { OnOk result (IsGrantedStart cell.now requests.now) }
    ensures ended { IfErr result (EndsBeforeJournal cell.now requests.now) }
{
    let Ok(copy) = cell.copied(alloc) else {
        return Err(EarlyEnd::WantOfMemory);
    };
    let Ok(mut core) = Core::open(alloc, copy) else {
        return Err(EarlyEnd::WantOfMemory);
    };
    match first_refused(&mut core, requests) {
        Some(fault) => Err(at_start_fault(cell, &fault)),
        None => Ok(()),
    }
}

// The first request that isn't granted in its turn.
fn first_refused(core: &mut Core, requests: &[Request]) -> Option<StartFault>
    requires empty { core.old.parts ≡ [] }
    requires placing { All (IsPlacing core.old.cell) requests.now }
    requires few { length requests.now ≤ MAX_START_LINES }
    ensures none { IfNone result (IsGrantedStart core.old.cell requests.now) }
    ensures some { IfSome result (IsRefusedStart core.old.cell requests.now) }
{
    let mut line: u32 = 1;
    for request in requests {
        match core.decide(request) {
            Reply::Granted => core.apply(request),
            Reply::Refused(why) => {
                refusal_is_present(core, request, &why);
                return Some(StartFault { line, why });
            }
        }
        line += 1;
    }
    None
}
