//! What is left in a core, put into a sink by whoever goes no further once it has failed.
ghost use Rattle.std.specs.Prelude.{OnOk, OnErr};
ghost use Rattle.cell_walks.specs.Clauses.{HasCause, TookAll, TookSome, sink_told};
ghost use Rattle.record_printer.specs.Blocks.{left_in_core};

use crate::records;
use admission_core::Core;
use outside_io::{Failed, Sink};
use printer::Printer;

/// Puts how many parts are left in a core, and the plan that empties it, up to the first line that the sink doesn't take. It takes no
/// memory.
pub fn print_left<K: Sink>(out: &mut K, core: Core) -> Result<(), Failed>
    ensures whole { OnOk result (TookAll (sink_told K.taken K.was_put K.faults out.old out.new) (left_in_core core)) }
    ensures part { OnErr result (TookSome (sink_told K.taken K.was_put K.faults out.old out.new) (left_in_core core)) }
    ensures cause { HasCause (K.faults out.old) (K.faults out.new) result }
{
    let mut printer = Printer::new(out);
    records::print_left(&mut printer, core);
    if printer.has_failed() {
        return Err(Failed);
    }
    Ok(())
}
