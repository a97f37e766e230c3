//! A line at the end of a command.
ghost use Rattle.std.specs.Prelude.{◌≡◌, [], ◌∷◌};
ghost use Rattle.outside_io.specs.Puts.{sink_told};
ghost use Rattle.cell_walks.specs.Outcomes.{IsDelivered, early, printed};
ghost use Rattle.cell_walks.specs.Statuses.{IsTaken, early_line};

use crate::early_end::EarlyEnd;
use crate::status::Status;
use line_text::Line;
use outside_io::Sink;

/// Puts a line, and answers its status, or the sink's fault.
pub fn finish<K: Sink>(out: &mut K, status: Status, line: &Line) -> Status
    requires { IsTaken status }
    ensures { IsDelivered (sink_told K.taken K.was_put K.faults out.old out.new) (printed status (line.now ∷ [])) result }
{
    match out.put(line.bytes()) {
        Ok(()) => status,
        Err(_) => Status::SinkFault,
    }
}

impl EarlyEnd {
    // Its line.
    fn into_line(self) -> Line
        ensures { result ≡ early_line self }
    {
        match self {
            EarlyEnd::NotRead => Line::of_word(b"read fault").end(),
            EarlyEnd::DeviceFailed => Line::of_word(b"device fault").end(),
            EarlyEnd::WantOfMemory => Line::of_word(b"want of memory").end(),
            EarlyEnd::Refused(refusal) => refusal.line,
        }
    }
}

/// Puts the line of an early end, and answers its status, or the sink's fault.
pub fn finish_early<K: Sink>(out: &mut K, end: EarlyEnd) -> Status
    ensures { IsDelivered (sink_told K.taken K.was_put K.faults out.old out.new) (early end) result }
{
    let status = end.status();
    finish(out, status, &end.into_line())
}
