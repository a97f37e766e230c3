//! One session, on a cell that it shares with others.
ghost use Rattle.std.specs.Prelude.{◌≡◌, ◌*◌, ◌≤◌, length, All};
ghost use Rattle.cell_base.specs.declared.limits.TheConstants.{MAX_ASKS, MAX_STEPS};
ghost use Rattle.cell_base.specs.Fits.{RequestFits};
ghost use Rattle.cell_sessions.specs.Sessions.{HasRun};
ghost use Rattle.cell_sessions.specs.Progressing.{Starts, place_of};

use crate::progress::Progress;
use cell_base::{List, Request};
use cell_lock::{Pass, SharedCell};
use durable_cell::Recall;
use outside_io::{Disk, Pace};
use std::sync::Wait;

/// The session asks its present step until it has ended, or is answered a fault. Before each ask it keeps its pace. It takes no
/// memory.
pub(crate) fn run_session<R: Wait, D: Disk, G: Recall, P: Pace>(
    rt: &R,
    cell: &SharedCell<D, G>,
    pass: &mut Pass<D, G>,
    script: &List<Request>,
    patience: u32,
    start: Progress,
    pace: &P,
)
    requires lock { pass.old.lock ≡ cell.now }
    requires script { All (RequestFits cell.now.opening.cell) script.now }
    requires steps { length script.now ≤ MAX_STEPS }
    requires asks { length script.now * patience ≤ MAX_ASKS }
    requires starts { Starts script.now start }
    requires patient { 1 ≤ patience }
    ensures { HasRun script.now patience (place_of start) pass.old pass.new }
{
    let mut at = start;
    'asks: while !at.ended {
        pace.turn(rt, pass.number(), at.asked);
        let Ok(reply) = cell.ask(rt, pass, script.get(u64::from(at.next))) else {
            return;
        };
        at = at.after(reply, script, patience);
    }
}
