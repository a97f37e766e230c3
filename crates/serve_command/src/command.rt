//! `serve CELL JOURNAL`: the lines of the input, each answered after the grants of the journal and of the lines before it.
ghost use Rattle.std.specs.Prelude.{◌≡◌, ◌≤◌, ◌∷◌, [], length, IfOk};
ghost use Rattle.peers.specs.Meanings.{peer_gave, peer_took};
ghost use Rattle.lent_peers.specs.Beside.{IsBeside};
ghost use Rattle.cell_walks.specs.Clauses.{Ends, IsDelivered, disk_told, early, files_told};
ghost use Rattle.cell_walks.specs.Observed.{ShowsFile, observed_with};
ghost use Rattle.cell_walks.specs.Statuses.{early_line};
ghost use Rattle.cell_texts.specs.Clauses.{CellFits, MAX_CELL_BYTES, known};
ghost use Rattle.serve_command.specs.Serve.{serve};
ghost use Rattle.serve_command.specs.Conversing.{AreFresh, IsServedOnJournal};
ghost use Rattle.serve_command.specs.LivesThrough.{LivesOnJournal, LivesThrough, WhereTold};

use crate::beside::finish_beside;
use crate::counts::SessionCounts;
use crate::first_grant::FirstOfGroup;
use crate::replies::{MAX_REPLIES, MAX_WAITERS, Replies};
use crate::server::Server;
use crate::serving::serve_live;
use cell_base::NoMemory;
use cell_texts::{CellFile, CommandEnd, read_cell};
use cell_walks::EarlyEnd;
use durable_cell::MAX_BEFORE_DRAIN;
use input_lines::InputLines;
use journal_texts::at_open_fault;
use live_cell::{LiveCell, OpenedLive};
use outside_io::{Disk, Files};
use peers::Peer;
use shift_recovery::OpenError;
use std::alloc::Global;
use std::sync::Wait;
use step_text::NameIndex;
use wait_queue::WaitQueue;

/// The most grants of a journal that is served.
pub const MAX_SERVED: u64 = MAX_BEFORE_DRAIN;

// The memory of a conversation, beside that of the live cell.
struct Buffers {
    counts: SessionCounts,
    queue: WaitQueue,
    replies: Replies,
    lines: InputLines,
}

/// Runs `serve CELL JOURNAL`. All memory is taken before the first line is put.
pub fn run_serve<R: Wait, F: Files, D: Disk, T: Peer<D>>(
    rt: &R,
    alloc: Global,
    files: &mut F,
    peer: &mut T,
    cell: &str,
    disk: D,
) -> CommandEnd<D>
    ensures ends { let files = files_told F.holds F.is_sound F.faults files.old files.new in
        let disk = disk_told D.reads_as D.may_leave D.moment D.left_since D.faults disk result.disk in
        Ends (observed_with files (peer_gave T.Peer peer.old peer.new) disk) (peer_took T.Peer peer.old peer.new) (serve cell.now) result.status }
    // At each moment since entry: what was given and put, and what a crash may leave.
    ensures moments { let files = files_told F.holds F.is_sound F.faults files.old files.new in
        WhereTold D.Disk T.Peer disk peer.old (λ given before file.
        LivesThrough D.Disk T.Peer (ShowsFile files cell.now) given before file disk peer.old result.disk peer.new) }
{
    match read_cell(alloc, files, cell) {
        Ok(held) => match reserve(alloc) {
            Ok(buffers) => serve_journal(rt, alloc, held, buffers, peer, disk),
            Err(_) => end_early(peer, EarlyEnd::WantOfMemory, disk),
        },
        Err(end) => end_early(peer, end, disk),
    }
}

// Puts the line of an early end, and hands the disk back.
fn end_early<D: Disk, T: Peer<D>>(peer: &mut T, end: EarlyEnd, disk: D) -> CommandEnd<D>
    ensures disk { result.disk ≡ disk }
    ensures delivered { IsDelivered (peer_took T.Peer peer.old peer.new) (early end) result.status }
    ensures beside { IsBeside D.Disk T.Peer disk peer.old peer.new (early_line end ∷ []) }
{
    CommandEnd {
        status: finish_beside(peer, &disk, end),
        disk,
    }
}

// No session has a grant or waits, nothing is to be answered, and nothing was read.
fn reserve(alloc: Global) -> Result<Buffers, NoMemory>
    ensures { IfOk result AreFresh }
{
    Ok(Buffers {
        counts: SessionCounts::new(alloc)?,
        queue: WaitQueue::with_room(alloc, MAX_WAITERS)?,
        replies: Replies::with_room(alloc)?,
        lines: InputLines::new(alloc)?,
    })
}

// The conversation of a cell that was read.
fn serve_journal<R: Wait, D: Disk, T: Peer<D>>(
    rt: &R,
    alloc: Global,
    held: CellFile,
    buffers: Buffers,
    peer: &mut T,
    disk: D,
) -> CommandEnd<D>
    requires fits { CellFits held.cell }
    requires short { length held.text.items ≤ MAX_CELL_BYTES }
    requires buffers { AreFresh buffers }
    ensures served { let disk = disk_told D.reads_as D.may_leave D.moment D.left_since D.faults disk result.disk in
        IsServedOnJournal disk (peer_gave T.Peer peer.old peer.new) (peer_took T.Peer peer.old peer.new) (known held) result.status }
    ensures moments { WhereTold D.Disk T.Peer disk peer.old (λ given before file.
        LivesOnJournal D.Disk T.Peer (known held) given before file disk peer.old result.disk peer.new) }
{
    let CellFile { cell, text } = held;
    let Buffers {
        counts,
        queue,
        replies,
        lines,
    } = buffers;
    let names = NameIndex::of(&cell);
    match LiveCell::open(alloc, cell, &text, disk, MAX_SERVED, MAX_REPLIES, counts) {
        Ok(OpenedLive { live, kept: counts }) => {
            let server = Server {
                live,
                counts,
                queue,
                asked: 0,
                replies,
                first: FirstOfGroup::none(),
                names,
            };
            serve_live(rt, server, lines, peer)
        }
        Err(OpenError { disk, why }) => end_early(peer, at_open_fault(why), disk),
    }
}
