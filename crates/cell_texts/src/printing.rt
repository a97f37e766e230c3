//! Lines put into a sink by whoever goes no further once it has failed; and the commands with their words.
ghost use Rattle.std.specs.Prelude.{[], ◌∷◌, OnOk, OnErr};
ghost use Rattle.cell_walks.specs.Clauses.{HasCause, IsDelivered, TookAll, TookSome, printed, sink_told};
ghost use Rattle.cell_walks.specs.declared.status.Status.TheVariants.{NoCommand};

use cell_walks::Status;
use outside_io::{Failed, Sink};
use printer::Printer;
use record_text::Line;

/// Puts each of these lines, up to the first that the sink doesn't take.
pub fn print_lines<K: Sink>(out: &mut K, lines: &[Line]) -> Result<(), Failed>
    ensures whole { OnOk result (TookAll (sink_told K.taken K.was_put K.faults out.old out.new) lines.now) }
    ensures part { OnErr result (TookSome (sink_told K.taken K.was_put K.faults out.old out.new) lines.now) }
    ensures cause { HasCause (K.faults out.old) (K.faults out.new) result }
{
    let mut printer = Printer::new(out);
    printer.lines(lines);
    if printer.has_failed() {
        return Err(Failed);
    }
    Ok(())
}

/// Puts the commands with their words, which are one line, and answers the status of words that are no command.
pub fn print_usage<K: Sink>(out: &mut K, usage: &[u8]) -> Status
    ensures { IsDelivered (sink_told K.taken K.was_put K.faults out.old out.new) (printed NoCommand (usage.now ∷ [])) result }
{
    match out.put(usage) {
        Ok(()) => Status::NoCommand,
        Err(_) => Status::SinkFault,
    }
}
