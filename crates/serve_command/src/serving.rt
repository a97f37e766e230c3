//! The conversation: round after round, until the input ends.
ghost use Rattle.std.specs.Prelude.{◌≡◌, List, ℕ, Ok, OnOk};
ghost use Rattle.cell_base.specs.declared.shifts.Grant.{Grant};
ghost use Rattle.peers.specs.Meanings.{peer_gave, peer_took};
ghost use Rattle.lent_peers.specs.Beside.{IsBeside};
ghost use Rattle.cell_walks.specs.Clauses.{IsDelivered, printed};
ghost use Rattle.cell_walks.specs.declared.status.Status.TheVariants.{Done};
ghost use Rattle.serve_command.specs.Conversing.{Converses, IsServedAfter, end_lines, fresh_lines};
ghost use Rattle.serve_command.specs.Lives.{LivesFrom};
ghost use Rattle.serve_command.specs.Rounds.{StandsAfter, HasNoGroup};
ghost use Rattle.serve_command.specs.Talks.{opened};

use crate::beside::{finish_beside, print_beside, print_left_beside};
use crate::server::Server;
use cell_texts::CommandEnd;
use cell_walks::{EarlyEnd, Status};
use input_lines::InputLines;
use live_cell::{LiveParts, live_law};
use outside_io::Disk;
use peers::Peer;
use record_text::head_line;
use std::slice;
use std::sync::Wait;

/// Answers the lines of a peer after what a live cell has, and puts the plan once they have ended.
pub fn serve_live<R: Wait, D: Disk, T: Peer<D>>(
    rt: &R,
    mut server: Server<D>,
    mut lines: InputLines,
    peer: &mut T,
) -> CommandEnd<D>
    requires ready { HasNoGroup server }
    requires first { server.asked ≡ 0 }
    requires fresh { lines ≡ fresh_lines }
    ensures serves { (cell_text : List ℕ) (opening : List Grant) → StandsAfter D.reads_as D.may_leave cell_text (opened opening) server
        → IsServedAfter D.reads_as D.may_leave D.moment D.left_since D.faults
        (peer_gave T.Peer peer.old peer.new) (peer_took T.Peer peer.old peer.new)
        server.live.cell cell_text opening server.live.disk result.disk result.status }
    ensures lives { LivesFrom D.Disk T.Peer server peer.old result.disk peer.new }
{
    match converse(rt, &mut server, &mut lines, peer) {
        Ok(()) => {
            live_law(&server.live);
            put_last(server, peer)
        }
        Err(status) => CommandEnd {
            status,
            disk: server.live.into_disk(),
        },
    }
}

// Puts what comes last, once the input has ended: who waits still, how many parts are left, and the plan that drains them.
fn put_last<D: Disk, T: Peer<D>>(mut server: Server<D>, peer: &mut T) -> CommandEnd<D>
    requires ready { HasNoGroup server }
    ensures delivered { IsDelivered (peer_took T.Peer peer.old peer.new) (printed Done (end_lines server)) result.status }
    ensures beside { IsBeside D.Disk T.Peer server.live.disk peer.old peer.new (end_lines server) }
    ensures disk { result.disk ≡ server.live.disk }
{
    server.keep_still();
    if let Err(_) = print_beside(peer, server.live.disk(), server.replies.as_slice()) {
        return CommandEnd {
            status: Status::SinkFault,
            disk: server.live.into_disk(),
        };
    }
    let LiveParts { core, disk } = server.live.finish();
    match print_left_beside(peer, &disk, core) {
        Ok(()) => CommandEnd {
            status: Status::Done,
            disk,
        },
        Err(_) => CommandEnd {
            status: Status::SinkFault,
            disk,
        },
    }
}

// Puts the head, and answers the lines of a peer until they end. Or gives the status with which the conversation stops before.
fn converse<R: Wait, D: Disk, T: Peer<D>>(
    rt: &R,
    server: &mut Server<D>,
    lines: &mut InputLines,
    peer: &mut T,
) -> Result<(), Status>
    requires ready { HasNoGroup server.old }
    requires first { server.old.asked ≡ 0 }
    requires fresh { lines.old ≡ fresh_lines }
    ensures converses { (cell_text : List ℕ) (opening : List Grant) → StandsAfter D.reads_as D.may_leave cell_text (opened opening) server.old
        → Converses D.reads_as D.may_leave D.moment D.left_since D.faults
        (peer_gave T.Peer peer.old peer.new) (peer_took T.Peer peer.old peer.new)
        server.old.live.cell cell_text opening server.old.live.disk server.new result }
    ensures ready { OnOk result (HasNoGroup server.new) }
    ensures lives { LivesFrom D.Disk T.Peer server.old peer.old server.new.live.disk peer.new }
{
    live_law(&server.live);
    let head = head_line(0, server.live.len());
    if let Err(_) = print_beside(peer, server.live.disk(), slice::from_ref(&head)) {
        return Err(Status::SinkFault);
    }
    for _round in rt.forever() {
        server.round(lines, peer)?;
        if lines.is_spent() {
            match lines.fill(peer, server.live.disk()) {
                Ok(0) => return Ok(()),
                Ok(_) => {}
                Err(_) => {
                    return Err(finish_beside(peer, server.live.disk(), EarlyEnd::NotRead));
                }
            }
        }
    }
    unreachable!()
}
