//! Lines that are put to a peer while a disk rests, and then handed on.
ghost use Rattle.std.specs.Prelude.{◌≡◌, ◌<◌, ◌⊎◌, ◌∷◌, [], length, OnOk, OnErr};
ghost use Rattle.outside_io.specs.Causes.{HasCause};
ghost use Rattle.outside_io.specs.Puts.{TookAll, TookSome};
ghost use Rattle.peers.specs.Meanings.{peer_took};
ghost use Rattle.lent_peers.specs.Beside.{IsBeside};
ghost use Rattle.cell_walks.specs.Outcomes.{IsDelivered, early, printed};
ghost use Rattle.cell_walks.specs.Statuses.{early_line};
ghost use Rattle.cell_walks.specs.declared.status.Status.TheVariants.{NoCommand};
ghost use Rattle.record_printer.specs.Blocks.{left_in_core};

use admission_core::Core;
use cell_texts::{print_lines, print_usage};
use cell_walks::{EarlyEnd, Status, finish_early};
use lent_peers::Lent;
use outside_io::{Disk, Failed};
use peers::Peer;
use record_printer::print_left;
use record_text::Line;

/// Puts each of these lines, up to the first that the peer doesn't take, and has the peer hand them on.
pub fn print_beside<D: Disk, T: Peer<D>>(
    peer: &mut T,
    disk: &D,
    lines: &[Line],
) -> Result<(), Failed>
    ensures whole { OnOk result (TookAll (peer_took T.Peer peer.old peer.new) lines.now) }
    ensures part { OnErr result (TookSome (peer_took T.Peer peer.old peer.new) lines.now) }
    ensures cause { HasCause (T.faults peer.old) (T.faults peer.new) result }
    ensures beside { IsBeside D.Disk T.Peer disk.now peer.old peer.new lines.now }
    ensures handed { OnOk result ((T.handed_on peer.old ≡ T.taken peer.old) ⊎ (0 < length lines.now)
        → T.handed_on peer.new ≡ T.taken peer.new) }
{
    if lines.is_empty() {
        return Ok(());
    }
    if let Err(failed) = print_lines(&mut Lent::new(peer, disk), lines) {
        return Err(failed);
    }
    peer.flush(disk)
}

/// Puts how many parts are left in a core, and the plan that empties it, and has the peer hand them on.
pub fn print_left_beside<D: Disk, T: Peer<D>>(
    peer: &mut T,
    disk: &D,
    core: Core,
) -> Result<(), Failed>
    ensures whole { OnOk result (TookAll (peer_took T.Peer peer.old peer.new) (left_in_core core)) }
    ensures part { OnErr result (TookSome (peer_took T.Peer peer.old peer.new) (left_in_core core)) }
    ensures cause { HasCause (T.faults peer.old) (T.faults peer.new) result }
    ensures beside { IsBeside D.Disk T.Peer disk.now peer.old peer.new (left_in_core core) }
{
    if let Err(failed) = print_left(&mut Lent::new(peer, disk), core) {
        return Err(failed);
    }
    peer.flush(disk)
}

/// Puts the line of an early end, has the peer hand it on, and answers its status, or the sink's fault.
pub fn finish_beside<D: Disk, T: Peer<D>>(peer: &mut T, disk: &D, end: EarlyEnd) -> Status
    ensures delivered { IsDelivered (peer_took T.Peer peer.old peer.new) (early end) result }
    ensures beside { IsBeside D.Disk T.Peer disk.now peer.old peer.new (early_line end ∷ []) }
{
    let status = finish_early(&mut Lent::new(peer, disk), end);
    match peer.flush(disk) {
        Ok(()) => status,
        Err(_) => Status::SinkFault,
    }
}

/// Puts the commands with their words, has the peer hand them on, and answers the status of words that are no command.
pub fn print_usage_beside<D: Disk, T: Peer<D>>(peer: &mut T, disk: &D, usage: &[u8]) -> Status
    ensures { IsDelivered (peer_took T.Peer peer.old peer.new) (printed NoCommand (usage.now ∷ [])) result }
{
    let status = print_usage(&mut Lent::new(peer, disk), usage);
    match peer.flush(disk) {
        Ok(()) => status,
        Err(_) => Status::SinkFault,
    }
}
