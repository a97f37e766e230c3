//! A summary on its way to the sink.
ghost use Rattle.cell_walks.specs.Clauses.{IsDelivered, sink_seen};
ghost use Rattle.cell_walks.specs.Outcomes.{done};
ghost use Rattle.make_command.specs.Clauses.{summary_lines};

use crate::summary::Summary;
use cell_walks::Status;
use outside_io::Sink;
use printer::Printer;

/// Prints a summary, and answers the status.
pub fn print_summary<K: Sink>(out: &mut K, summary: &Summary) -> Status
    ensures { IsDelivered (sink_seen K.Sink out.old out.new) (done (summary_lines summary.now)) result }
{
    let mut printer = Printer::new(out);
    printer.lines(&[
        summary.number_line(),
        summary.size_line(),
        summary.told_line(),
        summary.left_line(),
    ]);
    printer.status(Status::Done)
}
