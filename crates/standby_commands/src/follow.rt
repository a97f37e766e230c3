//! `follow CELL FRAMES JOURNAL`: frames that a standby takes in turn, the grant of each next one written to its journal.
ghost use Rattle.std.specs.Prelude.{◌≡◌, ◌≤◌, [], length, IfOk};
ghost use Rattle.cell_walks.specs.Clauses.{Ends, IsTaken, disk_seen, files_seen, observed, sink_seen};
ghost use Rattle.cell_texts.specs.Clauses.{CellFits, MAX_CELL_BYTES, known};
ghost use Rattle.printer.specs.Printing.{Prints};
ghost use Rattle.standby_commands.specs.Clauses.{AreDue, HasFollowedOn, IsFollowedOnJournal, IsFresh, StopFits, end_outcome, follow_outcome, frames_in};
ghost use Rattle.standby_commands.specs.Follow.{follow};

use crate::following::{Stop, take_frames};
use crate::frames::{FRAME_BYTES, read_frames};
use crate::printing::print_acks;
use crate::refusals::follow_refused;
use admission_core::Core;
use admission_core::laws::core_law;
use cell_base::{NoMemory, Shelf};
use cell_driver::{Command, drive};
use cell_texts::{Answered, CellFile, CommandEnd, Made};
use cell_walks::{EarlyEnd, Status};
use durable_cell::{Durable, Finished, MAX_ROOM, durable_law};
use journal_texts::{give_back, open_journal};
use outside_io::{Disk, Files, Sink};
use printer::Printer;
use record_text::left_line;
use standby_link::{Follower, TakeFault};
use std::alloc::Global;

/// Runs `follow CELL FRAMES JOURNAL`.
pub fn run_follow<F: Files, K: Sink, D: Disk>(
    alloc: Global,
    files: &mut F,
    out: &mut K,
    cell: &str,
    frames: &str,
    disk: D,
) -> CommandEnd<D>
    ensures { Ends (observed (files_seen F.Files files.old files.new) (disk_seen D.Disk disk result.disk))
        (sink_seen K.Sink out.old out.new) (follow cell.now frames.now) result.status }
{
    drive(&Follow { frames }, alloc, files, out, cell, disk)
}

/// The command `follow`, with the name of the frames. All frames are taken before the first answer is printed.
#[derive(Drop)]
pub struct Follow<'a> {
    pub frames: &'a str,
}

/// The answers to frames that were taken, the core after their grants, and where it stopped before the last frame.
#[derive(Drop)]
pub struct Followed {
    pub(crate) core: Core,
    pub(crate) acks: Shelf<u64>,
    pub(crate) stop: Option<Stop>,
}

impl<'a> Command for Follow<'a> {
    ghost use Rattle.standby_commands.specs.Follow.{follow_frames};

    type Answer = Followed;

    ghost onward = { λ follow. follow_frames follow.frames.now };

    ghost outcome = { λ followed. follow_outcome followed [] [] };

    ghost is_whole = { StopFits };

    ghost has_no_journal = { λ _. ⊥ };

    fn answer<F: Files, D: Disk>(
        &self,
        alloc: Global,
        held: CellFile,
        files: &mut F,
        disk: D,
    ) -> Answered<Followed, D> {
        match read_frames(alloc, files, self.frames) {
            Ok(bytes) => follow_journal(alloc, held, &bytes, disk),
            Err(end) => Made::ended(end, disk),
        }
    }

    fn print<K: Sink>(followed: Followed, out: &mut Printer<K>) -> Status
        requires { StopFits followed }
        ensures printed { Prints K.Sink out.old out.new (follow_outcome followed [] []).pieces }
        ensures status { result ≡ (follow_outcome followed [] []).status }
        ensures taken { IsTaken result }
    {
        print_acks(out, followed.acks.as_slice());
        print_end(out, &followed)
    }
}

// What came of frames that were read, or the early end in its place.
fn follow_journal<D: Disk>(
    alloc: Global,
    held: CellFile,
    bytes: &[u8],
    disk: D,
) -> Answered<Followed, D>
    requires fits { CellFits held.cell }
    requires short { length held.text.items ≤ MAX_CELL_BYTES }
    requires few { length (frames_in bytes.now) ≤ MAX_ROOM }
    ensures followed { IsFollowedOnJournal (disk_seen D.Disk disk result.disk) (known held)
        (frames_in bytes.now) result.made }
    ensures fits { IfOk result.made StopFits }
{
    let count = bytes.len() as u64 / FRAME_BYTES;
    let Ok(acks) = Shelf::with_room(alloc, count) else {
        return Made::ended(EarlyEnd::WantOfMemory, disk);
    };
    match open_journal(alloc, held, disk, MAX_ROOM, count) {
        Ok(durable) => follow_opened(alloc, durable, bytes, acks),
        Err(unopened) => Made::ended(unopened.made, unopened.disk),
    }
}

// The same of a journal that was opened; or the disk, where there is no memory for its grants.
fn follow_opened<D: Disk>(
    alloc: Global,
    durable: Durable<D>,
    bytes: &[u8],
    mut acks: Shelf<u64>,
) -> Answered<Followed, D>
    requires fresh { IsFresh durable }
    requires limit { length (frames_in bytes.now) ≤ durable.limit }
    requires acks { acks.items ≡ [] }
    requires room { length (frames_in bytes.now) ≤ acks.spare }
    ensures followed { HasFollowedOn (disk_seen D.Disk durable.entry result.disk)
        durable.cell durable.text durable.opening (frames_in bytes.now) result.made }
    ensures due { AreDue durable.cell durable.opening }
    ensures fits { IfOk result.made StopFits }
{
    durable_law(&durable);
    match Follower::open(alloc, durable, bytes.len() as u64 / FRAME_BYTES) {
        Ok(mut follower) => {
            let stop = take_frames(&mut follower, bytes, &mut acks);
            let Finished {
                disk,
                core,
                history: _,
                after: _,
            } = follower.into_durable().finish();
            core_law(&core);
            Made {
                made: Ok(Followed { core, acks, stop }),
                disk,
            }
        }
        Err((durable, NoMemory)) => give_back(durable, EarlyEnd::WantOfMemory),
    }
}

// Prints how many parts are left; or why the next frame is refused; or nothing, where its writing failed. It answers the status.
fn print_end<K: Sink>(out: &mut Printer<K>, followed: &Followed) -> Status
    requires { StopFits followed.now }
    ensures printed { Prints K.Sink out.old out.new (end_outcome followed.now).pieces }
    ensures status { result ≡ (end_outcome followed.now).status }
    ensures taken { IsTaken result }
{
    let Some(stop) = followed.stop else {
        out.line(&left_line(followed.core.parts_left()));
        return Status::Done;
    };
    if let TakeFault::Device = stop.why {
        return Status::DeviceFault;
    }
    out.line(&follow_refused(followed.core.cell(), stop.index, &stop.why));
    Status::CommandRefused
}
