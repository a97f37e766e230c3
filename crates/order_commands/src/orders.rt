//! `advise CELL` and `arrange CELL`: the orders of a cell's resources whose neighborhoods weigh least.
ghost use Rattle.std.specs.Prelude.{◌≡◌, ◌≤◌, length, IfOk, IfErr};
ghost use Rattle.order_advisor.specs.declared.advice.TheConstants.{ARRANGED};
ghost use Rattle.printer.specs.Printing.{Prints};
ghost use Rattle.cell_walks.specs.Clauses.{Ends, disk_seen, end_with, files_seen, observed, sink_seen};
ghost use Rattle.cell_walks.specs.declared.early_end.Subject.TheVariants.{Cell as OfCell};
ghost use Rattle.cell_texts.specs.Clauses.{CellFits};
ghost use Rattle.order_commands.specs.Advised.{HasNoAdvice, IsAdviceOn, IsComplete};
ghost use Rattle.order_commands.specs.Lines.{advice_lines, order_lines};
ghost use Rattle.order_commands.specs.Orders.{best_orders, fault_line, limit_of};
ghost use Rattle.cell_driver.specs.Driving.{on_cell};

use crate::lines::{order_line, too_many_line, weight_line};
use cell_base::{Cell, ResId};
use cell_driver::{Command, drive};
use cell_texts::{Answered, CellFile, CommandEnd, Made};
use cell_walks::{EarlyEnd, Refusal, Status, Subject};
use order_advisor::{ADVISED, ARRANGED, Advice, AdviceFault, Weighing, best_within};
use outside_io::{Disk, Files, Sink};
use printer::Printer;
use std::alloc::Global;

/// Runs `advise CELL` or `arrange CELL`, whichever weighs so.
pub fn run_orders<F: Files, K: Sink, D: Disk>(
    alloc: Global,
    files: &mut F,
    out: &mut K,
    cell: &str,
    weighing: Weighing,
    disk: D,
) -> CommandEnd<D>
    ensures ends { Ends (observed (files_seen F.Files files.old files.new) (disk_seen D.Disk disk result.disk))
        (sink_seen K.Sink out.old out.new) (on_cell cell.now (best_orders weighing)) result.status }
    ensures same { result.disk ≡ disk }
{
    drive(&BestOrders { weighing }, alloc, files, out, cell, disk)
}

/// The command `advise`, where each membership weighs 1, or `arrange`, where it weighs 1,000 divided by the capacity of the resource,
/// rounded down. All memory is taken before the first line is printed.
#[derive(Drop)]
pub struct BestOrders {
    pub weighing: Weighing,
}

/// A cell and its best orders.
#[derive(Drop)]
pub struct Advised {
    cell: Cell,
    advice: Advice,
}

impl Command for BestOrders {
    ghost use Rattle.std.specs.Prelude.{⊤};
    ghost use Rattle.cell_walks.specs.Outcomes.{done};
    ghost use Rattle.order_commands.specs.Orders.{best_orders};

    type Answer = Advised;

    ghost onward = { λ orders. best_orders orders.weighing };

    ghost outcome = { λ advised. done (advice_lines advised.cell advised.advice) };

    ghost is_whole = { IsComplete };

    ghost has_no_journal = { λ _. ⊤ };

    fn answer<F: Files, D: Disk>(
        &self,
        alloc: Global,
        held: CellFile,
        _files: &mut F,
        disk: D,
    ) -> Answered<Advised, D> {
        Made {
            made: advise_on(alloc, held.cell, self.weighing),
            disk,
        }
    }

    fn print<K: Sink>(advised: Advised, out: &mut Printer<K>) -> Status {
        print_advice(out, &advised);
        Status::Done
    }
}

// Finds the best orders of a cell, if it has no more resources than are taken of cells that are weighed so.
fn advise_on(alloc: Global, cell: Cell, weighing: Weighing) -> Result<Advised, EarlyEnd>
    requires { CellFits cell }
    ensures best { IfOk result (IsAdviceOn cell weighing) }
    ensures whole { IfOk result IsComplete }
    ensures ended { IfErr result (HasNoAdvice cell weighing) }
{
    match best_within(alloc, &cell, weighing, limit_of(weighing)) {
        Ok(advice) => Ok(Advised { cell, advice }),
        Err(fault) => Err(at_fault(fault)),
    }
}

// The most resources of a cell whose memberships are weighed so.
fn limit_of(weighing: Weighing) -> u16
    ensures is { result ≡ limit_of weighing }
    ensures most { result ≤ ARRANGED }
{
    match weighing {
        Weighing::Alike => ADVISED,
        Weighing::ByCapacity => ARRANGED,
    }
}

// The end where there is no advice.
fn at_fault(fault: AdviceFault) -> EarlyEnd
    ensures { result ≡ end_with OfCell (fault_line fault) }
{
    match fault {
        AdviceFault::TooManyResources { count } => EarlyEnd::Refused(Refusal {
            subject: Subject::Cell,
            line: too_many_line(count),
        }),
        AdviceFault::Memory => EarlyEnd::WantOfMemory,
    }
}

// Prints the weights, and the order of each resource.
fn print_advice<K: Sink>(out: &mut Printer<K>, advised: &Advised)
    requires { IsComplete advised.now }
    ensures { Prints K.Sink out.old out.new (advice_lines advised.now.cell advised.now.advice) }
{
    out.line(&weight_line(&advised.advice));
    print_orders(out, &advised.cell, advised.advice.orders.as_slice());
}

// Prints the order of each resource.
fn print_orders<K: Sink>(out: &mut Printer<K>, cell: &Cell, orders: &[u32])
    requires each { length orders.now ≡ length cell.now.resources }
    requires fits { CellFits cell.now }
    ensures { Prints K.Sink out.old out.new (order_lines cell.now orders.now) }
{
    for r in 0..orders.len() {
        out.line(&order_line(cell, orders, ResId(r as u16)));
    }
}
