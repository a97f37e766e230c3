//! The requests of a start, asked of a durable cell.
ghost use Rattle.std.specs.Prelude.{◌≡◌, ◌≤◌, length, true, IfOk, IfNone, IfSome};
ghost use Rattle.std.specs.List.{All};
ghost use Rattle.cell_walks.specs.Clauses.{disk_told};
ghost use Rattle.journal_texts.specs.Clauses.{EntriesFit, IsFresh, recorded_outcome};
ghost use Rattle.carry_commands.specs.BeginClauses.{AreAsked, AreDue, ArePrefix, HasBegun, IsAskedIn, IsGrantedStart, IsOtherStart};
ghost use Rattle.carry_commands.specs.BeginClauses.{IsPlacing, KeepsHistory, MAX_START_LINES, StandsForAdded, all_granted, first_parts};

use crate::refusals::at_other_start;
use cell_base::Request;
use cell_texts::{Answered, Made};
use durable_cell::{Durable, Recalled, durable_law};
use journal_texts::{Recorded, give_back, record_of};
use outside_io::Disk;

/// Asks the requests that the journal does not hold yet; or gives the disk back with the early end, where the journal holds other grants,
/// the first of them at the index `other`.
pub fn begin_opened<D: Disk>(
    durable: Durable<D, Recalled>,
    requests: &[Request],
    other: Option<u64>,
) -> Answered<Recorded, D>
    requires fresh { IsFresh durable }
    requires limit { durable.limit ≡ MAX_START_LINES }
    requires placing { All (IsPlacing durable.cell) requests.now }
    requires few { length requests.now ≤ MAX_START_LINES }
    requires granted { IsGrantedStart durable.cell requests.now }
    requires none { IfNone other (ArePrefix requests.now durable.opening) }
    requires some { IfSome other (IsOtherStart requests.now durable.opening) }
    ensures begun { HasBegun (disk_told D.reads_as D.may_leave D.moment D.left_since D.faults durable.entry result.disk)
        durable.cell durable.text requests.now durable.opening result.made }
    ensures due { AreDue durable.cell durable.opening }
    ensures fits { IfOk result.made EntriesFit }
{
    durable_law(&durable);
    match other {
        None => {
            let held = durable.held() as usize;
            let Made {
                made: recorded,
                disk,
            } = ask_all(durable, &requests[held..]);
            Made {
                made: Ok(recorded),
                disk,
            }
        }
        Some(at) => give_back(durable, at_other_start(at)),
    }
}

// Asks these requests, and takes the durable cell apart.
fn ask_all<D: Disk>(mut durable: Durable<D, Recalled>, requests: &[Request]) -> Made<Recorded, D>
    requires fresh { IsFresh durable }
    requires limit { length requests.now ≤ durable.limit }
    requires placing { All (IsPlacing durable.cell) requests.now }
    requires granted { all_granted durable.cell (first_parts durable) requests.now ≡ true }
    ensures begun { AreAsked durable.cell durable.opening requests.now (recorded_outcome result.made) }
    ensures stands { let outcome = recorded_outcome result.made in
        StandsForAdded (disk_told D.reads_as D.may_leave D.moment D.left_since D.faults durable.entry result.disk)
        durable.text durable.opening outcome.added outcome.unsure }
    ensures fits { EntriesFit result.made }
{
    ask_each(&mut durable, requests);
    record_of(durable, 0)
}

// Asks each request as session 0 of shift 0, up to the first whose writing fails.
fn ask_each<D: Disk>(durable: &mut Durable<D, Recalled>, requests: &[Request])
    requires fresh { IsFresh durable.old }
    requires limit { length requests.now ≤ durable.old.limit }
    requires placing { All (IsPlacing durable.old.cell) requests.now }
    requires granted { all_granted durable.old.cell (first_parts durable.old) requests.now ≡ true }
    ensures asked { IsAskedIn requests.now durable.old durable.new }
    ensures kept { KeepsHistory durable.old }
{
    durable_law(durable);
    for request in requests {
        match durable.ask(0, 0, request) {
            Ok(_) => {}
            Err(_) => return,
        }
    }
}
