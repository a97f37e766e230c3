//! Frames and answers printed.
ghost use Rattle.std.specs.Prelude.{◌≤◌, length, map};
ghost use Rattle.printer.specs.Printing.{Prints};
ghost use Rattle.standby_commands.specs.Lines.{ack_line};
ghost use Rattle.standby_link.specs.Fed.{fed};

use crate::refusals::ack_line;
use outside_io::Sink;
use printer::Printer;
use standby_link::Feeder;

/// Prints the frame of each grant from an index on.
pub fn print_frames<K: Sink>(out: &mut Printer<K>, feeder: &Feeder, first: u64)
    requires { first ≤ length feeder.now.grants }
    ensures { Prints K.Sink out.old out.new (fed first feeder.now.grants) }
{
    for at in first..feeder.len() {
        out.piece(&feeder.frame(at));
    }
}

/// Prints the line of each answer.
pub fn print_acks<K: Sink>(out: &mut Printer<K>, acks: &[u64])
    ensures { Prints K.Sink out.old out.new (map ack_line acks.now) }
{
    for ack in acks {
        out.line(&ack_line(*ack));
    }
}
