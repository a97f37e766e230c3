//! The changes of granted requests. A part that comes, goes on or leaves changes four things in step: the table of parts, the counts of the
//! neighborhoods by the masks of its stages, the steps that all parts need together, and the marks of the resources that are occupied.
ghost use Rattle.std.specs.Prelude.{◌≡◌, ◌<◌, ◌++◌, ◌∷◌, [], length, Some, None};
ghost use Rattle.std.specs.List.{list_any};
ghost use Rattle.cell_base.specs.Policy.{first_over};
ghost use Rattle.cell_base.specs.Outcomes.{finish_first, is_waiting_on, outcome_of_entry, outcome_of_move, without};
ghost use Rattle.admission_core.specs.Clauses.{CellFits, Granted, IsStage, Process, RequestFits, part_of, reply_to, stage_of, state_after};
ghost use Rattle.admission_core.specs.CoreState.{IsSound, IsTallied};
ghost use Rattle.admission_core.specs.Occupied.{IsMarked};
ghost use Rattle.admission_core.specs.Rows.{IsRowOf};

use crate::occupied::Occupied;
use crate::stage_masks::StageMasks;
use crate::stage_rows::Row;
use crate::tally::Tally;
use cell_base::{JobId, Part, Request, ResId};
use part_table::Found;

/// The change of a granted request.
pub fn apply(table: &StageMasks, tally: &mut Tally, occupied: &mut Occupied, request: &Request)
    requires sound { IsSound table.now tally.old }
    requires marked { IsMarked table.now tally.old.parts.parts occupied.old }
    requires request { RequestFits table.now request.now }
    requires granted { reply_to table.now tally.old.parts.parts request.now ≡ Granted }
    ensures parts { tally.new.parts.parts ≡ state_after table.now tally.old.parts.parts request.now }
    ensures tallied { IsTallied table.now tally.new }
    ensures marked { IsMarked table.now tally.new.parts.parts occupied.new }
{
    match *request {
        Request::Load { job, kind } => come_in(table, tally, occupied, table.entry(job, kind)),
        Request::Process { machine } => {
            let _ = finish_first_on(table, tally, machine);
        }
        Request::Move { job, branch } => move_job(table, tally, occupied, job, branch),
        Request::Unload { job } => leave(table, tally, occupied, job),
        Request::Place {
            job,
            kind,
            place,
            done,
        } => come_in(
            table,
            tally,
            occupied,
            Part {
                job,
                kind,
                place,
                done,
            },
        ),
    }
}

/// A part that is granted to enter comes to its resource.
#[inline(always)]
pub fn come_in(table: &StageMasks, tally: &mut Tally, occupied: &mut Occupied, part: Part)
    requires sound { IsSound table.now tally.old }
    requires marked { IsMarked table.now tally.old.parts.parts occupied.old }
    requires stage { IsStage table.now (stage_of part) }
    requires granted { (outcome_of_entry table.now tally.old.parts.parts part).0 ≡ Granted }
    ensures parts { tally.new.parts.parts ≡ (outcome_of_entry table.now tally.old.parts.parts part).1 }
    ensures tallied { IsTallied table.now tally.new }
    ensures marked { IsMarked table.now tally.new.parts.parts occupied.new }
{
    let there = table.row_of(part);
    enter(table, tally, part, there);
    occupied.mark(there.on);
}

/// A part that is granted to enter.
#[inline(always)]
fn enter(table: &StageMasks, tally: &mut Tally, part: Part, there: Row)
    requires sound { IsSound table.now tally.old }
    requires stage { IsStage table.now (stage_of part) }
    requires there { IsRowOf table.now (stage_of part) there }
    requires granted { (outcome_of_entry table.now tally.old.parts.parts part).0 ≡ Granted }
    ensures parts { tally.new.parts.parts ≡ (outcome_of_entry table.now tally.old.parts.parts part).1 }
    ensures tallied { IsTallied table.now tally.new }
{
    tally.counts.enter(there.mask);
    tally.parts.arrive(part);
    tally.work += there.work(part.done);
}

/// The work on the first part that waits on the machine. Tells whether there is one.
pub fn finish_first_on(table: &StageMasks, tally: &mut Tally, machine: ResId) -> bool
    requires sound { IsSound table.now tally.old }
    requires machine { RequestFits table.now (Process machine) }
    ensures waits { result ≡ list_any (is_waiting_on table.now machine.0) tally.old.parts.parts }
    ensures parts { tally.new.parts.parts ≡ finish_first (is_waiting_on table.now machine.0) tally.old.parts.parts }
    ensures tallied { IsTallied table.now tally.new }
{
    if let Some(_) = tally.parts.finish_first(machine) {
        tally.work -= 1;
        true
    } else {
        false
    }
}

/// A part that is granted to go on.
fn move_job(table: &StageMasks, tally: &mut Tally, occupied: &mut Occupied, job: JobId, branch: u16)
    requires sound { IsSound table.now tally.old }
    requires marked { IsMarked table.now tally.old.parts.parts occupied.old }
    requires granted { (outcome_of_move table.now tally.old.parts.parts (part_of tally.old.parts.parts job) branch).0 ≡ Granted }
    ensures parts { tally.new.parts.parts
        ≡ (outcome_of_move table.now tally.old.parts.parts (part_of tally.old.parts.parts job) branch).1 }
    ensures tallied { IsTallied table.now tally.new }
    ensures marked { IsMarked table.now tally.new.parts.parts occupied.new }
{
    if let Some(found) = tally.parts.find(job) {
        move_part(table, tally, occupied, found, branch);
    }
}

/// The part that was found, which is granted to go on.
pub fn move_part(
    table: &StageMasks,
    tally: &mut Tally,
    occupied: &mut Occupied,
    found: Found,
    branch: u16,
)
    requires sound { IsSound table.now tally.old }
    requires marked { IsMarked table.now tally.old.parts.parts occupied.old }
    requires found { part_of tally.old.parts.parts found.part.job ≡ Some found.part }
    requires granted { (outcome_of_move table.now tally.old.parts.parts (Some found.part) branch).0 ≡ Granted }
    ensures parts { tally.new.parts.parts ≡ (outcome_of_move table.now tally.old.parts.parts (Some found.part) branch).1 }
    ensures tallied { IsTallied table.now tally.new }
    ensures marked { IsMarked table.now tally.new.parts.parts occupied.new }
{
    if let Some(place) = table.next_place(found.part, branch) {
        let next = table.arrival(found.part.job, found.part.kind, place);
        move_between(table, tally, occupied, found, next);
    }
}

/// A part goes on from its resource to the next one.
fn move_between(
    table: &StageMasks,
    tally: &mut Tally,
    occupied: &mut Occupied,
    found: Found,
    next: Part,
)
    requires sound { IsSound table.now tally.old }
    requires marked { IsMarked table.now tally.old.parts.parts occupied.old }
    requires found { part_of tally.old.parts.parts found.part.job ≡ Some found.part }
    requires same { next ≡ record found.part { place = next.place; done = next.done } }
    requires stage { IsStage table.now (stage_of next) }
    requires room { first_over table.now (without tally.old.parts.parts found.part.job ++ next ∷ []) ≡ None }
    ensures parts { tally.new.parts.parts ≡ without tally.old.parts.parts found.part.job ++ next ∷ [] }
    ensures tallied { IsTallied table.now tally.new }
    ensures marked { IsMarked table.now tally.new.parts.parts occupied.new }
{
    let here = table.row_of(found.part);
    let there = table.row_of(next);
    update_tables(table, tally, found, next, here, there);
    occupied.mark(there.on);
    unmark_free(table, tally, occupied, here.on);
}

/// A resource that a part has left is marked no longer where no other part stands there.
#[inline(always)]
fn unmark_free(table: &StageMasks, tally: &Tally, occupied: &mut Occupied, from: ResId)
    requires fits { CellFits table.now }
    requires from { from.0 < length table.now.resources }
    requires tallied { IsTallied table.now tally.now }
    requires marked { IsMarked table.now tally.now.parts.parts occupied.old }
    ensures { IsMarked table.now tally.now.parts.parts occupied.new }
{
    if tally.parts.find_on(from).is_none() {
        occupied.unmark(from);
    }
}

/// A part goes on to its next stage.
fn update_tables(
    table: &StageMasks,
    tally: &mut Tally,
    found: Found,
    next: Part,
    here: Row,
    there: Row,
)
    requires sound { IsSound table.now tally.old }
    requires found { part_of tally.old.parts.parts found.part.job ≡ Some found.part }
    requires same { next ≡ record found.part { place = next.place; done = next.done } }
    requires stage { IsStage table.now (stage_of next) }
    requires here { IsRowOf table.now (stage_of found.part) here }
    requires there { IsRowOf table.now (stage_of next) there }
    requires room { first_over table.now (without tally.old.parts.parts found.part.job ++ next ∷ []) ≡ None }
    ensures parts { tally.new.parts.parts ≡ without tally.old.parts.parts found.part.job ++ next ∷ [] }
    ensures tallied { IsTallied table.now tally.new }
{
    let part = found.part;
    tally.counts.shift(here.mask, there.mask);
    tally.parts.advance_found(found, next.place, next.done);
    tally.work = tally.work - here.work(part.done) + there.work(next.done);
}

/// The part of a job leaves the cell.
fn leave(table: &StageMasks, tally: &mut Tally, occupied: &mut Occupied, job: JobId)
    requires sound { IsSound table.now tally.old }
    requires marked { IsMarked table.now tally.old.parts.parts occupied.old }
    ensures parts { tally.new.parts.parts ≡ without tally.old.parts.parts job }
    ensures tallied { IsTallied table.now tally.new }
    ensures marked { IsMarked table.now tally.new.parts.parts occupied.new }
{
    if let Some(found) = tally.parts.find(job) {
        send_out(table, tally, occupied, found);
    }
}

/// The part that was found leaves the cell.
#[inline(always)]
pub fn send_out(table: &StageMasks, tally: &mut Tally, occupied: &mut Occupied, found: Found)
    requires sound { IsSound table.now tally.old }
    requires marked { IsMarked table.now tally.old.parts.parts occupied.old }
    requires found { part_of tally.old.parts.parts found.part.job ≡ Some found.part }
    ensures parts { tally.new.parts.parts ≡ without tally.old.parts.parts found.part.job }
    ensures tallied { IsTallied table.now tally.new }
    ensures marked { IsMarked table.now tally.new.parts.parts occupied.new }
{
    let here = table.row_of(found.part);
    take_out(table, tally, found, here);
    unmark_free(table, tally, occupied, here.on);
}

/// A part leaves the cell.
#[inline(always)]
fn take_out(table: &StageMasks, tally: &mut Tally, found: Found, here: Row)
    requires sound { IsSound table.now tally.old }
    requires here { IsRowOf table.now (stage_of found.part) here }
    requires found { part_of tally.old.parts.parts found.part.job ≡ Some found.part }
    ensures parts { tally.new.parts.parts ≡ without tally.old.parts.parts found.part.job }
    ensures tallied { IsTallied table.now tally.new }
{
    let part = found.part;
    tally.counts.leave(here.mask);
    tally.parts.depart_found(found);
    tally.work -= here.work(part.done);
}
