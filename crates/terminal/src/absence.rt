//! The line on standard error about a journal that is not there: its name may be mistyped.
use hints::HintLine;
use journal_disk::Purpose;
use std::alloc::Global;

/// What is told of a journal of this name where none is there. Where no line can be made nothing is told.
pub fn absence_line(alloc: Global, name: &str, purpose: Purpose) -> Option<String> {
    let mut line = HintLine::new(alloc);
    line.show(name.as_bytes());
    line.add(match purpose {
        Purpose::ToRead => ": no such file; read as a journal of no grants",
        Purpose::ToAdd => ": made, a journal of no grants",
    });
    line.finish()
}
