//! Replies to requests, by the tests of the policy in their order. Room is the last of them: of the neighborhoods that a part would enter,
//! which a mask has, the lowest full one refuses it.
ghost use Rattle.std.specs.Prelude.{◌≡◌, List, Some};
ghost use Rattle.cell_base.specs.Outcomes.{outcome_of_process, outcome_of_entry, outcome_of_move, outcome_of_unload};
ghost use Rattle.neighborhood_counts.specs.Counts.{IsMaskOf, first_full};
ghost use Rattle.admission_core.specs.Clauses.{IsStage, Part, Process, RequestFits, part_of, reply_to, stage_of};
ghost use Rattle.admission_core.specs.CoreState.{IsSound};
ghost use Rattle.admission_core.specs.Replies.{reply_at};

use crate::stage_masks::StageMasks;
use crate::tally::Tally;
use cell_base::{Part, Refusal, Reply, Request, ResId};

/// The reply to a request.
#[inline(always)]
pub fn reply_to(table: &StageMasks, tally: &Tally, request: &Request) -> Reply
    requires sound { IsSound table.now tally.now }
    requires request { RequestFits table.now request.now }
    ensures { result ≡ reply_to table.now tally.now.parts.parts request.now }
{
    match *request {
        Request::Load { job, kind } => reply_to_entry(table, tally, table.entry(job, kind)),
        Request::Process { machine } => reply_to_process(table, tally, machine),
        Request::Move { job, branch } => match tally.parts.get(job) {
            None => Reply::Refused(Refusal::NoSuchJob),
            Some(part) => reply_to_move(table, tally, part, branch),
        },
        Request::Unload { job } => match tally.parts.get(job) {
            None => Reply::Refused(Refusal::NoSuchJob),
            Some(part) => reply_to_unload(table, part),
        },
        Request::Place {
            job,
            kind,
            place,
            done,
        } => reply_to_entry(
            table,
            tally,
            Part {
                job,
                kind,
                place,
                done,
            },
        ),
    }
}

/// The reply to a part that comes new into the cell.
#[inline(always)]
pub fn reply_to_entry(table: &StageMasks, tally: &Tally, part: Part) -> Reply
    requires sound { IsSound table.now tally.now }
    requires stage { IsStage table.now (stage_of part) }
    ensures { result ≡ (outcome_of_entry table.now tally.now.parts.parts part).0 }
{
    match tally.parts.find(part.job) {
        Some(_) => Reply::Refused(Refusal::JobLoaded),
        None => reply_at(table, tally, table.mask(part)),
    }
}

/// The reply to the work on a resource.
#[inline(always)]
fn reply_to_process(table: &StageMasks, tally: &Tally, machine: ResId) -> Reply
    requires sound { IsSound table.now tally.now }
    requires machine { RequestFits table.now (Process machine) }
    ensures { result ≡ (outcome_of_process table.now tally.now.parts.parts machine.0).0 }
{
    match tally.parts.first_waiting(table.stages(), machine) {
        Some(_) => Reply::Granted,
        None => Reply::Refused(Refusal::Idle),
    }
}

/// The reply to the move of a part.
#[inline(always)]
pub fn reply_to_move(table: &StageMasks, tally: &Tally, part: Part, branch: u16) -> Reply
    requires sound { IsSound table.now tally.now }
    requires found { part_of tally.now.parts.parts part.job ≡ Some part }
    ensures { result ≡ (outcome_of_move table.now tally.now.parts.parts (Some part) branch).0 }
{
    if !part.done {
        Reply::Refused(Refusal::NotProcessed)
    } else if table.is_last(part) {
        Reply::Refused(Refusal::AtLast)
    } else {
        match table.next_place(part, branch) {
            None => Reply::Refused(Refusal::NoBranch),
            Some(place) => {
                let next = table.arrival(part.job, part.kind, place);
                reply_at(table, tally, table.mask(next) & !table.mask(part))
            }
        }
    }
}

/// The reply to the unload of a part.
#[inline(always)]
pub fn reply_to_unload(table: &StageMasks, part: Part) -> Reply
    requires { IsStage table.now (stage_of part) }
    ensures { (parts : List Part) → result ≡ (outcome_of_unload table.now parts (Some part)).0 }
{
    if !part.done {
        Reply::Refused(Refusal::NotProcessed)
    } else if table.is_last(part) {
        Reply::Granted
    } else {
        Reply::Refused(Refusal::NotLast)
    }
}

/// The reply where a part would come to the neighborhoods of a mask.
fn reply_at(table: &StageMasks, tally: &Tally, mask: u64) -> Reply
    requires sound { IsSound table.now tally.now }
    requires mask { IsMaskOf tally.now.counts mask }
    ensures { result ≡ reply_at table.now tally.now.parts.parts (first_full tally.now.counts mask) }
{
    match tally.counts.first_full(mask) {
        None => Reply::Granted,
        Some(at) => Reply::Refused(Refusal::Saturated {
            at,
            count: tally.counts.count(at),
            capacity: table.cell().capacity_of(at),
        }),
    }
}
