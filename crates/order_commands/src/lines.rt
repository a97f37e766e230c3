//! The lines of the advice, and that of a cell with too many resources.
ghost use Rattle.std.specs.Prelude.{◌≡◌, ◌<◌, length};
ghost use Rattle.order_commands.specs.Lines.{order_line, too_many_line, weight_line};

use cell_base::{Cell, ResId};
use order_advisor::Advice;
use record_text::{Line, add_resource};

/// What the advised orders weigh, and what the given ones do.
pub fn weight_line(advice: &Advice) -> Line
    ensures { result ≡ weight_line advice.now }
{
    let mut line = Line::of_word(b"weight");
    line.number(advice.weight);
    line.word(b"given");
    line.number(advice.given);
    line.end()
}

/// A resource with its order among these.
pub fn order_line(cell: &Cell, orders: &[u32], r: ResId) -> Line
    requires resource { r.0 < length cell.now.resources }
    requires order { r.0 < length orders.now }
    ensures { result ≡ order_line cell.now orders.now r.0 }
{
    let mut line = Line::of_word(b"resource");
    add_resource(&mut line, cell, r);
    line.word(b"order");
    line.number(orders[usize::from(r.0)]);
    line.end()
}

/// A cell that has more resources than the limit: so many.
pub fn too_many_line(count: u32) -> Line
    ensures { result ≡ too_many_line count }
{
    let mut line = Line::of_word(b"cell");
    line.word(b"refused");
    line.number(12u8);
    line.number(count);
    line.end()
}
