//! The record of a journal's grants printed. It takes no memory.
ghost use Rattle.std.specs.Prelude.{◌≡◌, map};
ghost use Rattle.std.specs.List.{All};
ghost use Rattle.journal_texts.specs.Clauses.{GrantsFit};
ghost use Rattle.cell_texts.specs.Clauses.{RequestFits};
ghost use Rattle.record_printer.specs.Blocks.{history_lines};
ghost use Rattle.printer.specs.Printing.{Prints};
ghost use Rattle.look_commands.specs.Grants.{found_lines, grant_line, history_of};

use cell_base::{Cell, Entry, Grant, Reply, Told};
use journal_texts::Found;
use outside_io::Sink;
use printer::Printer;
use record_printer::records::print_left;
use record_text::{Line, head_line, write_entry};

/// Prints the record of what was found.
pub fn print_found<K: Sink>(out: &mut Printer<K>, found: Found)
    requires { GrantsFit found }
    ensures { Prints K.Sink out.old out.new (found_lines found) }
{
    let Found { core, grants } = found;
    print_history(out, core.cell(), grants.as_slice());
    print_left(out, core);
}

// Prints the head of the record, and the line of each grant.
fn print_history<K: Sink>(out: &mut Printer<K>, cell: &Cell, grants: &[Grant])
    requires { All (λ grant. RequestFits cell.now grant.request) grants.now }
    ensures { Prints K.Sink out.old out.new (history_lines cell.now 0 0 (history_of grants.now)) }
{
    out.line(&head_line(0, 0));
    print_grants(out, cell, grants);
}

// Prints the line of each grant.
fn print_grants<K: Sink>(out: &mut Printer<K>, cell: &Cell, grants: &[Grant])
    requires { All (λ grant. RequestFits cell.now grant.request) grants.now }
    ensures { Prints K.Sink out.old out.new (map (grant_line cell.now) grants.now) }
{
    let mut line = Line::new();
    for grant in grants {
        write_grant(&mut line, cell, grant);
        out.line(&line);
    }
}

// Makes the line of a grant in the place of what stood on a line.
fn write_grant(line: &mut Line, cell: &Cell, grant: &Grant)
    requires { RequestFits cell.now grant.now.request }
    ensures { line.new ≡ grant_line cell.now grant.now }
{
    let entry = Entry {
        session: grant.session,
        request: grant.request,
        told: Told::Answered(Reply::Granted),
    };
    write_entry(line, cell, &entry);
}
