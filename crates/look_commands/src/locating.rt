//! The parts of a state printed, resource by resource. It takes no memory.
ghost use Rattle.std.specs.Prelude.{◌≡◌, ◌+◌, ◌<◌, ◌≤◌, ◌==◌, ◌++◌, length, map, All};
ghost use Rattle.cell_base.specs.Neighborhoods.{count};
ghost use Rattle.cell_base.specs.Stages.{IsStage, stage_of};
ghost use Rattle.cell_texts.specs.Clauses.{CellFits};
ghost use Rattle.printer.specs.Printing.{Prints};
ghost use Rattle.look_commands.specs.Clauses.{line_of, resource_of_part, spaced};
ghost use Rattle.look_commands.specs.Parts.{part_line, parts_lines, parts_on, resource_lines, resource_words, share_words};

use admission_core::Core;
use cell_base::{Cell, Part, ResId};
use outside_io::Sink;
use printer::Printer;
use record_text::{Line, add_resource, add_type, done_word};

/// Prints each resource of a core with its parts, which are these.
pub fn print_parts<K: Sink>(out: &mut Printer<K>, core: &Core, parts: &[Part])
    requires { parts.now ≡ core.now.parts }
    ensures { Prints K.Sink out.old out.new (parts_lines core.now.cell core.now.parts) }
{
    for r in 0..core.cell().resources.len() {
        print_resource(out, core, parts, ResId(r as u16));
    }
}

// Prints a resource, and the parts that stand on it.
fn print_resource<K: Sink>(out: &mut Printer<K>, core: &Core, parts: &[Part], r: ResId)
    requires listed { parts.now ≡ core.now.parts }
    requires resource { r.0 < length core.now.cell.resources }
    ensures { Prints K.Sink out.old out.new (resource_lines core.now.cell core.now.parts r.0) }
{
    let held = held_on(core.cell(), parts, r);
    out.line(&resource_line(core.cell(), r, held, core.count(r)));
    print_parts_on(out, core.cell(), parts, r);
}

// How many of these parts stand on a resource.
fn held_on(cell: &Cell, parts: &[Part], r: ResId) -> u64
    requires { All (λ part. IsStage cell.now (stage_of part)) parts.now }
    ensures { result ≡ length (parts_on cell.now parts.now r.0) }
{
    let mut held = 0;
    for part in parts {
        if stands_on(cell, *part, r) {
            held += 1;
        }
    }
    held
}

// Prints the line of each of these parts that stands on a resource.
fn print_parts_on<K: Sink>(out: &mut Printer<K>, cell: &Cell, parts: &[Part], r: ResId)
    requires fits { CellFits cell.now }
    requires standing { All (λ part. IsStage cell.now (stage_of part)) parts.now }
    ensures { Prints K.Sink out.old out.new (map (part_line cell.now) (parts_on cell.now parts.now r.0)) }
{
    for part in parts {
        if stands_on(cell, *part, r) {
            out.line(&part_line(cell, *part));
        }
    }
}

// Whether a part stands on a resource.
fn stands_on(cell: &Cell, part: Part, r: ResId) -> bool
    requires { IsStage cell.now (stage_of part) }
    ensures { result ≡ (resource_of_part cell.now part == r.0) }
{
    cell.resource_at(part.kind, part.place) == r
}

// The line of a resource that holds so many parts, and whose neighborhood counts so many.
fn resource_line(cell: &Cell, r: ResId, held: u64, counted: u32) -> Line
    requires { r.0 < length cell.now.resources }
    ensures { result ≡ line_of (resource_words cell.now r.0 held counted) }
{
    let mut line = Line::of_word(b"resource");
    add_resource(&mut line, cell, r);
    add_share(&mut line, b"holds", held, cell.capacity_of(r));
    add_share(
        &mut line,
        b"counted",
        u64::from(counted),
        cell.capacity_of(r),
    );
    line.end()
}

// Appends a word, and a number of so many units.
fn add_share(line: &mut Line, word: &[u8], number: u64, units: u32)
    requires word { length word.now ≤ 7 }
    requires room { length line.old ≤ 90 }
    ensures words { line.new ≡ line.old ++ spaced (share_words word.now number units) }
    ensures len { length line.new ≤ length line.old + 44 }
{
    line.word(word);
    line.number(number);
    line.word(b"of");
    line.number(units);
}

// The line of a part.
fn part_line(cell: &Cell, part: Part) -> Line
    requires fits { CellFits cell.now }
    requires standing { IsStage cell.now (stage_of part) }
    ensures { result ≡ part_line cell.now part }
{
    let mut line = Line::of_word(b"part");
    line.number(part.job.0);
    add_type(&mut line, cell, part.kind);
    line.number(part.place);
    line.word(done_word(part.done));
    line.end()
}
