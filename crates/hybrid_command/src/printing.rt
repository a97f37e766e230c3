//! The record of a hybrid's shift printed. It takes no memory.
ghost use Rattle.std.specs.Prelude.{[], ◌∷◌, map};
ghost use Rattle.printer.specs.Printing.{Prints};
ghost use Rattle.hybrid_command.specs.Clauses.{EntryFits, HistoryFits, block_of, entry_line, history_lines};
ghost use Rattle.hybrid_command.specs.Clauses.{left_in_hybrid, plan_h_of, plan_lines, step_line, taken};

use crate::lines::entry_line;
use crate::planning::take_step;
use banker_check::Hybrid;
use cell_base::Cell;
use hybrid_rounds::HybridEntry;
use outside_io::Sink;
use printer::Printer;
use record_text::{Line, head_line, left_line, plan_line, write_step};

/// Prints a block with a plan: the history of a shift from the empty cell, the number of the parts that it left in a hybrid, and their plan.
pub fn print_block<K: Sink>(
    out: &mut Printer<K>,
    hybrid: &mut Hybrid,
    shift: u32,
    entries: &[HybridEntry],
)
    requires { HistoryFits hybrid.old.cell entries.now }
    ensures { Prints K.Sink out.old out.new (block_of hybrid.old shift entries.now) }
{
    print_history(out, hybrid.cell(), shift, entries);
    print_left(out, hybrid);
}

// Prints the head of a block and the line of each entry.
fn print_history<K: Sink>(out: &mut Printer<K>, cell: &Cell, shift: u32, entries: &[HybridEntry])
    requires { HistoryFits cell.now entries.now }
    ensures { Prints K.Sink out.old out.new (history_lines cell.now shift entries.now) }
{
    out.line(&head_line(shift, 0));
    print_entries(out, cell, entries);
}

// Prints the line of each entry.
fn print_entries<K: Sink>(out: &mut Printer<K>, cell: &Cell, entries: &[HybridEntry])
    requires { HistoryFits cell.now entries.now }
    ensures { Prints K.Sink out.old out.new (map (entry_line cell.now) entries.now) }
{
    for entry in entries {
        print_entry(out, cell, entry);
    }
}

// Prints the line of one entry.
fn print_entry<K: Sink>(out: &mut Printer<K>, cell: &Cell, entry: &HybridEntry)
    requires { EntryFits cell.now (taken entry.now) }
    ensures { Prints K.Sink out.old out.new (entry_line cell.now entry.now ∷ []) }
{
    out.piece(entry_line(cell, entry).as_slice());
}

// Prints the number of the parts that are left, and their plan.
fn print_left<K: Sink>(out: &mut Printer<K>, hybrid: &mut Hybrid)
    ensures { Prints K.Sink out.old out.new (left_in_hybrid hybrid.old) }
{
    out.line(&left_line(hybrid.parts_left()));
    print_plan(out, hybrid);
}

// Prints how many steps the plan has, and the line of each.
fn print_plan<K: Sink>(out: &mut Printer<K>, hybrid: &mut Hybrid)
    ensures { Prints K.Sink out.old out.new (plan_lines hybrid.old.cell (plan_h_of hybrid.old.cell hybrid.old.parts)) }
{
    out.line(&plan_line(hybrid.work_left()));
    print_steps(out, hybrid);
}

// Prints the line of each step.
fn print_steps<K: Sink>(out: &mut Printer<K>, hybrid: &mut Hybrid)
    ensures { Prints K.Sink out.old out.new (map (step_line hybrid.old.cell) (plan_h_of hybrid.old.cell hybrid.old.parts)) }
{
    let mut line = Line::new();
    while let Some(step) = take_step(hybrid) {
        write_step(&mut line, hybrid.cell(), &step);
        out.line(&line);
    }
}
