//! The text that shows a cell: a line for each resource, and one for each stage of its neighborhood.
ghost use Rattle.std.specs.Prelude.{◌≡◌, ◌<◌, ◌++◌, length, IfOk, OnOk};
ghost use Rattle.std.specs.List.{All, concat};
ghost use Rattle.cell_base.specs.Numbers.{IsNumber, stage_numbered};
ghost use Rattle.refusal_reason.specs.Shown.{member_lines, resource_line, show_lines, stage_line};

use admission_core::Core;
use cell_base::{Cell, List, NoMemory, ResId};
use record_text::{Line, add_resource, add_type};
use route_table::{StageNo, StageTable};
use std::alloc::Global;

/// The text that shows a core's cell: each resource with its capacity and order, and behind it the stages that lead to it.
pub fn show_text(alloc: Global, core: &Core) -> Result<List<u8>, NoMemory>
    ensures text { IfOk result (λ text. text ≡ concat (show_lines core.now.cell)) }
{
    let neighborhoods = core.upstream().neighborhoods(alloc)?;
    let mut text = List::new(alloc);
    for r in 0..core.cell().resources.len() {
        add_resource_lines(
            &mut text,
            core.table(),
            ResId(r as u16),
            neighborhoods[r as usize].as_slice(),
        )?;
    }
    Ok(text)
}

// Appends the line of a resource, and those of the stages of its neighborhood.
fn add_resource_lines(
    text: &mut List<u8>,
    table: &StageTable,
    r: ResId,
    members: &[StageNo],
) -> Result<(), NoMemory>
    requires resource { r.0 < length table.now.resources }
    requires members { All (λ stage. IsNumber table.now stage.0) members.now }
    ensures { OnOk result
        (text.new ≡ text.old ++ resource_line table.now r.0 ++ concat (member_lines table.now members.now)) }
{
    text.try_append(resource_line(table.cell(), r).bytes())?;
    let mut line = Line::new();
    for stage in members {
        write_stage(&mut line, table, *stage);
        text.try_append(line.bytes())?;
    }
    Ok(())
}

// The line of a resource.
fn resource_line(cell: &Cell, r: ResId) -> Line
    requires { r.0 < length cell.now.resources }
    ensures { result ≡ resource_line cell.now r.0 }
{
    let mut line = Line::of_word(b"resource");
    add_resource(&mut line, cell, r);
    line.word(b"capacity");
    line.number(cell.capacity_of(r));
    line.word(b"order");
    line.number(cell.order_of(r));
    line.end()
}

// The line of a stage, in the place of what stood on a line.
fn write_stage(line: &mut Line, table: &StageTable, stage: StageNo)
    requires { IsNumber table.now stage.0 }
    ensures { line.new ≡ stage_line table.now (stage_numbered table.now stage.0) }
{
    line.begin(b"stage");
    add_type(line, table.cell(), table.kind_of(stage));
    line.number(table.place_of(stage));
    line.close();
}
