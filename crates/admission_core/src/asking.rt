//! A request that is decided and, where it is granted, applied: the part that it changes is looked up once for both.
//!
//! An ask and its reply are made inline, whole: as calls they took a shift of refusals a quarter more instructions (28 November 2026).
//! So are the changes of a part that comes or leaves: as calls they took an eighth more, over grants and refusals (1 December 2026).
//! A move stays a call: inline it took 355 instructions, and so 339.
ghost use Rattle.std.specs.Prelude.{◌≡◌, Some};
ghost use Rattle.cell_base.specs.Outcomes.{finish_first, is_waiting_on, outcome_of_entry, outcome_of_move, outcome_of_process};
ghost use Rattle.cell_base.specs.Outcomes.{outcome_of_unload};
ghost use Rattle.admission_core.specs.Clauses.{IsStage, Process, RequestFits, part_of, reply_to, stage_of, state_after};
ghost use Rattle.admission_core.specs.CoreState.{IsSound, IsTallied};
ghost use Rattle.admission_core.specs.Occupied.{IsMarked};

use crate::changes::{come_in, finish_first_on, move_part, send_out};
use crate::occupied::Occupied;
use crate::replies::{reply_to_entry, reply_to_move, reply_to_unload};
use crate::stage_masks::StageMasks;
use crate::tally::Tally;
use cell_base::{Part, Refusal, Reply, Request, ResId};
use part_table::Found;

/// The reply to a request, and its change if it is granted.
#[inline(always)]
pub fn ask(
    table: &StageMasks,
    tally: &mut Tally,
    occupied: &mut Occupied,
    request: &Request,
) -> Reply
    requires sound { IsSound table.now tally.old }
    requires marked { IsMarked table.now tally.old.parts.parts occupied.old }
    requires request { RequestFits table.now request.now }
    ensures reply { result ≡ reply_to table.now tally.old.parts.parts request.now }
    ensures parts { tally.new.parts.parts ≡ state_after table.now tally.old.parts.parts request.now }
    ensures tallied { IsTallied table.now tally.new }
    ensures marked { IsMarked table.now tally.new.parts.parts occupied.new }
{
    match *request {
        Request::Load { job, kind } => ask_to_enter(table, tally, occupied, table.entry(job, kind)),
        Request::Process { machine } => ask_to_process(table, tally, machine),
        Request::Move { job, branch } => match tally.parts.find(job) {
            None => Reply::Refused(Refusal::NoSuchJob),
            Some(found) => ask_to_move(table, tally, occupied, found, branch),
        },
        Request::Unload { job } => match tally.parts.find(job) {
            None => Reply::Refused(Refusal::NoSuchJob),
            Some(found) => ask_to_unload(table, tally, occupied, found),
        },
        Request::Place {
            job,
            kind,
            place,
            done,
        } => {
            let part = Part {
                job,
                kind,
                place,
                done,
            };
            ask_to_place(table, tally, occupied, part)
        }
    }
}

/// A part that comes new into the cell.
#[inline(always)]
fn ask_to_enter(table: &StageMasks, tally: &mut Tally, occupied: &mut Occupied, part: Part) -> Reply
    requires sound { IsSound table.now tally.old }
    requires marked { IsMarked table.now tally.old.parts.parts occupied.old }
    requires stage { IsStage table.now (stage_of part) }
    ensures reply { result ≡ (outcome_of_entry table.now tally.old.parts.parts part).0 }
    ensures parts { tally.new.parts.parts ≡ (outcome_of_entry table.now tally.old.parts.parts part).1 }
    ensures tallied { IsTallied table.now tally.new }
    ensures marked { IsMarked table.now tally.new.parts.parts occupied.new }
{
    let reply = reply_to_entry(table, tally, part);
    if let Reply::Granted = reply {
        come_in(table, tally, occupied, part);
    }
    reply
}

/// A part that comes new to any place. It is a call, since parts are placed only where a cell begins with some.
#[inline(never)]
fn ask_to_place(table: &StageMasks, tally: &mut Tally, occupied: &mut Occupied, part: Part) -> Reply
    requires sound { IsSound table.now tally.old }
    requires marked { IsMarked table.now tally.old.parts.parts occupied.old }
    requires stage { IsStage table.now (stage_of part) }
    ensures reply { result ≡ (outcome_of_entry table.now tally.old.parts.parts part).0 }
    ensures parts { tally.new.parts.parts ≡ (outcome_of_entry table.now tally.old.parts.parts part).1 }
    ensures tallied { IsTallied table.now tally.new }
    ensures marked { IsMarked table.now tally.new.parts.parts occupied.new }
{
    ask_to_enter(table, tally, occupied, part)
}

/// The work on the first part that waits on the machine, which is looked for once.
#[inline(always)]
fn ask_to_process(table: &StageMasks, tally: &mut Tally, machine: ResId) -> Reply
    requires sound { IsSound table.now tally.old }
    requires machine { RequestFits table.now (Process machine) }
    ensures reply { result ≡ (outcome_of_process table.now tally.old.parts.parts machine.0).0 }
    ensures parts { tally.new.parts.parts ≡ (outcome_of_process table.now tally.old.parts.parts machine.0).1 }
    ensures tallied { IsTallied table.now tally.new }
    ensures finished { tally.new.parts.parts ≡ finish_first (is_waiting_on table.now machine.0) tally.old.parts.parts }
{
    if finish_first_on(table, tally, machine) {
        Reply::Granted
    } else {
        Reply::Refused(Refusal::Idle)
    }
}

/// The move of the part that was found.
#[inline(always)]
fn ask_to_move(
    table: &StageMasks,
    tally: &mut Tally,
    occupied: &mut Occupied,
    found: Found,
    branch: u16,
) -> Reply
    requires sound { IsSound table.now tally.old }
    requires marked { IsMarked table.now tally.old.parts.parts occupied.old }
    requires found { part_of tally.old.parts.parts found.part.job ≡ Some found.part }
    ensures reply { result ≡ (outcome_of_move table.now tally.old.parts.parts (Some found.part) branch).0 }
    ensures parts { tally.new.parts.parts ≡ (outcome_of_move table.now tally.old.parts.parts (Some found.part) branch).1 }
    ensures tallied { IsTallied table.now tally.new }
    ensures marked { IsMarked table.now tally.new.parts.parts occupied.new }
{
    let reply = reply_to_move(table, tally, found.part, branch);
    if let Reply::Granted = reply {
        move_part(table, tally, occupied, found, branch);
    }
    reply
}

/// The unload of the part that was found.
#[inline(always)]
fn ask_to_unload(
    table: &StageMasks,
    tally: &mut Tally,
    occupied: &mut Occupied,
    found: Found,
) -> Reply
    requires sound { IsSound table.now tally.old }
    requires marked { IsMarked table.now tally.old.parts.parts occupied.old }
    requires found { part_of tally.old.parts.parts found.part.job ≡ Some found.part }
    ensures reply { result ≡ (outcome_of_unload table.now tally.old.parts.parts (Some found.part)).0 }
    ensures parts { tally.new.parts.parts ≡ (outcome_of_unload table.now tally.old.parts.parts (Some found.part)).1 }
    ensures tallied { IsTallied table.now tally.new }
    ensures marked { IsMarked table.now tally.new.parts.parts occupied.new }
{
    let reply = reply_to_unload(table, found.part);
    if let Reply::Granted = reply {
        send_out(table, tally, occupied, found);
    }
    reply
}
