//! What was asked of a durable cell since it was opened, and its record: a drain and a run end alike.
ghost use Rattle.std.specs.Prelude.{◌≡◌, [], Err, IfOk};
ghost use Rattle.cell_base.specs.Scripts.{holds_halt};
ghost use Rattle.journal_format.specs.Replayed.{AreDue};
ghost use Rattle.cell_walks.specs.Allowed.{StandsForAdded};
ghost use Rattle.cell_walks.specs.Clauses.{IsDelivered, IsTaken, disk_told, or_early, sink_seen};
ghost use Rattle.printer.specs.Printing.{Prints};
ghost use Rattle.journal_texts.specs.Clauses.{EntriesFit, IsAskedUnder, IsFresh, IsHaltedIn, IsRecordedOrHalted};
ghost use Rattle.journal_texts.specs.Clauses.{IsUnhaltedIn, recorded_outcome};

use admission_core::Core;
use cell_base::{Entry, List, Told};
use cell_texts::{Answered, Made};
use cell_walks::{EarlyEnd, Status, finish_early};
use durable_cell::{Durable, Finished, Recall};
use outside_io::{Disk, Sink};
use printer::Printer;
use record_printer::records::{print_block, print_history};

/// What was asked: the core after it, the number that it was asked under, how many grants there were before it, and what was decided.
#[derive(Drop)]
pub struct Asked {
    pub core: Core,
    pub number: u32,
    pub after: u64,
    pub history: List<Entry>,
}

/// The record of what was asked.
#[derive(Drop)]
pub enum Recorded {
    /// No writing failed: after the history stands the plan that drains the state after it.
    Whole(Asked),
    /// The writing of the last grant failed: the record ends there.
    Halted(Asked),
}

/// Takes a durable cell apart in which everything was asked under one number.
pub fn record_of<D: Disk, G: Recall>(durable: Durable<D, G>, number: u32) -> Made<Recorded, D>
    requires { IsAskedUnder number durable }
    ensures recorded { IsRecordedOrHalted durable.cell number durable.opening (IsUnhaltedIn durable) (IsHaltedIn durable)
        (recorded_outcome result.made) }
    ensures stands { let outcome = recorded_outcome result.made in
        StandsForAdded (disk_told D.reads_as D.may_leave D.moment D.left_since D.faults durable.entry result.disk)
        durable.text durable.opening outcome.added outcome.unsure }
    ensures fits { EntriesFit result.made }
    ensures due { AreDue durable.cell durable.opening }
{
    let Finished {
        disk,
        core,
        history,
        after,
    } = durable.finish();
    let halted = has_halted(history.as_slice());
    let asked = Asked {
        core,
        number,
        after,
        history,
    };
    if halted {
        return Made {
            made: Recorded::Halted(asked),
            disk,
        };
    }
    Made {
        made: Recorded::Whole(asked),
        disk,
    }
}

/// Gives the disk of a durable cell back of which nothing was asked, with the end of the command in the place of an answer.
pub fn give_back<D: Disk, G: Recall, T>(durable: Durable<D, G>, end: EarlyEnd) -> Answered<T, D>
    requires fresh { IsFresh durable }
    ensures made { result.made ≡ Err end }
    ensures stands { StandsForAdded (disk_told D.reads_as D.may_leave D.moment D.left_since D.faults durable.entry result.disk)
        durable.text durable.opening [] [] }
{
    let Finished {
        disk,
        core: _,
        history: _,
        after: _,
    } = durable.finish();
    Made::ended(end, disk)
}

// Whether an entry halted.
fn has_halted(history: &[Entry]) -> bool
    ensures { result ≡ holds_halt history.now }
{
    history
        .iter()
        .any(|entry| matches!(entry.told, Told::Halted))
}

/// Prints a record: the history, and where no writing failed the plan after it. It answers the status.
pub fn print_record<K: Sink>(out: &mut Printer<K>, recorded: Recorded) -> Status
    requires { EntriesFit recorded }
    ensures printed { Prints K.Sink out.old out.new (recorded_outcome recorded).pieces }
    ensures status { result ≡ (recorded_outcome recorded).status }
    ensures taken { IsTaken result }
{
    match recorded {
        Recorded::Whole(asked) => {
            let Asked {
                core,
                number,
                after,
                history,
            } = asked;
            print_block(out, core, number, after, history.as_slice());
            Status::Done
        }
        Recorded::Halted(asked) => {
            let Asked {
                core,
                number,
                after,
                history,
            } = asked;
            print_history(out, core.cell(), number, after, history.as_slice());
            Status::DeviceFault
        }
    }
}

/// Prints a record, or the early end in its place, and answers the status.
pub fn print_recorded<K: Sink>(out: &mut K, made: Result<Recorded, EarlyEnd>) -> Status
    requires { IfOk made EntriesFit }
    ensures { IsDelivered (sink_seen K.Sink out.old out.new) (or_early recorded_outcome made) result }
{
    match made {
        Ok(recorded) => print_whole(out, recorded),
        Err(end) => finish_early(out, end),
    }
}

// Prints a record, and answers its status, or the sink's fault.
fn print_whole<K: Sink>(out: &mut K, recorded: Recorded) -> Status
    requires { EntriesFit recorded }
    ensures { IsDelivered (sink_seen K.Sink out.old out.new) (recorded_outcome recorded) result }
{
    let mut printer = Printer::new(out);
    let status = print_record(&mut printer, recorded);
    printer.status(status)
}
