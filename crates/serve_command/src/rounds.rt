//! One round of a conversation: the lines at hand are answered as a group.
ghost use Rattle.std.specs.Prelude.{◌≡◌, List, ℕ, Ok, IfSome, OnOk, take, true, false, length, ◌<◌, ◌≤◌, ◌+◌, ◌++◌, ◌∷◌, []};
ghost use Rattle.input_lines.specs.Reading.{AreLinesSoFar};
ghost use Rattle.peers.specs.Meanings.{peer_took};
ghost use Rattle.lent_peers.specs.Beside.{IsBeside};
ghost use Rattle.cell_walks.specs.Clauses.{IsDelivered, printed};
ghost use Rattle.cell_walks.specs.declared.status.Status.TheVariants.{DeviceFault, JournalRefused};
ghost use Rattle.serve_command.specs.Lives.{LivesOn};
ghost use Rattle.serve_command.specs.Rounds.{StandsAfter, HasNoGroup, IsGroupOfLines, KeepsWaiters, MAX_REPLIES, Rounds, StandsAt, Stays, TakesSome, full_line};
ghost use Rattle.serve_command.specs.Talks.{Talk};

use crate::asks::read_ask;
use crate::beside::{finish_beside, print_beside};
use crate::command::MAX_SERVED;
use crate::replies::{GROUP_LINES, MAX_REPLIES};
use crate::server::Server;
use cell_walks::Status;
use input_lines::InputLines;
use journal_texts::at_journal_fault;
use live_cell::live_law;
use outside_io::Disk;
use peers::Peer;
use shift_recovery::JournalFault;
use std::slice;
use step_text::IndexedCell;

impl<D: Disk> Server<D> {
    /// Answers the lines that are at hand, up to a group of them: the answers are kept, and the grants are pending. Says whether the
    /// journal was full at a line after these, which is taken too. A line is taken only while there is room for whatever its answer may be:
    /// lines that ask for no list fill a group, and a long list ends one.
    pub fn take_group(&mut self, lines: &mut InputLines) -> bool
        requires ready { HasNoGroup self.old }
        ensures taken { (talk : Talk) (text : List ℕ) (given : List (List ℕ)) → StandsAt talk self.old
            → AreLinesSoFar text given lines.old
            → IsGroupOfLines self.old.live.cell talk self.old.asked text given self.new lines.new result }
        ensures takes { TakesSome lines.old lines.new }
        ensures stays { Stays self.old self.new }
        ensures waiters { KeepsWaiters self.new }
    {
        live_law(&self.live);
        for _i in 0..GROUP_LINES {
            if !self.has_room() {
                return false;
            }
            if !lines.next_line() {
                return false;
            }
            let indexed = IndexedCell::over(self.live.core().cell(), &self.names);
            let line = lines.line();
            let ask = read_ask(&indexed, line);
            if let Err(_) = self.answer(&ask, line) {
                return true;
            }
        }
        false
    }

    // Whether there is room for one answer more, whatever it is: its first line, a line at the end of each wait, and one for each part.
    fn has_room(&self) -> bool
        ensures room { result ≡ true → length self.now.replies + length self.now.queue.waiters + length self.now.live.parts < MAX_REPLIES }
        ensures none { result ≡ false → MAX_REPLIES ≤ length self.now.replies + length self.now.queue.waiters + length self.now.live.parts }
    {
        let ends = self.queue.waiting().len() as u64;
        let listed = u64::from(self.live.core().parts_left());
        (self.replies.len() as u64)
            .saturating_add(ends)
            .saturating_add(listed)
            < MAX_REPLIES
    }

    /// Answers a group of the lines at hand: decides them, makes their grants stable, and puts the answers. Or gives the status with which
    /// the conversation stops.
    pub fn round<T: Peer<D>>(&mut self, lines: &mut InputLines, peer: &mut T) -> Result<(), Status>
        requires ready { HasNoGroup self.old }
        ensures round { (cell_text : List ℕ) (talk : Talk) (text : List ℕ) (given : List (List ℕ))
            → StandsAfter D.reads_as D.may_leave cell_text talk self.old → AreLinesSoFar text given lines.old
            → Rounds D.reads_as D.may_leave D.moment D.left_since D.faults self.old.live.cell
            (peer_took T.Peer peer.old peer.new)
            cell_text talk text given self.old self.new lines.new result }
        ensures takes { OnOk result (TakesSome lines.old lines.new) }
        ensures ready { OnOk result (HasNoGroup self.new) }
        ensures no_peer_fault { OnOk result (T.faults peer.new ≡ T.faults peer.old) }
        ensures no_disk_fault { OnOk result (D.faults self.new.live.disk ≡ D.faults self.old.live.disk) }
        ensures lives { LivesOn D.Disk T.Peer self.old lines.old peer.old self.new.live.disk peer.new }
        ensures unread { T.given peer.new ≡ T.given peer.old }
        ensures no_read { T.read_faults peer.new ≡ T.read_faults peer.old }
        ensures handed { OnOk result (T.handed_on peer.old ≡ T.taken peer.old → T.handed_on peer.new ≡ T.taken peer.new) }
    {
        let full = self.take_group(lines);
        live_law(&self.live);
        if let Err(_) = self.live.commit() {
            return Err(self.put_halted(peer));
        }
        if let Err(_) = print_beside(peer, self.live.disk(), self.replies.as_slice()) {
            return Err(Status::SinkFault);
        }
        self.replies.clear();
        self.first.clear();
        if full {
            return Err(put_full(peer, self.live.disk()));
        }
        Ok(())
    }

    // Puts the answers before the first grant of the group, and that it halted.
    fn put_halted<T: Peer<D>>(&self, peer: &mut T) -> Status
        ensures delivered { IfSome self.now.first (λ first. first.at ≤ length self.now.replies
            → IsDelivered (peer_took T.Peer peer.old peer.new)
            (printed DeviceFault (take first.at self.now.replies ++ first.line ∷ [])) result) }
        ensures beside { IfSome self.now.first (λ first. first.at ≤ length self.now.replies
            → IsBeside D.Disk T.Peer self.now.live.disk peer.old peer.new (take first.at self.now.replies ++ first.line ∷ [])) }
        ensures unread { T.given peer.new ≡ T.given peer.old }
        ensures no_read { T.read_faults peer.new ≡ T.read_faults peer.old }
    {
        let Some((at, line)) = self.first.get() else {
            return Status::DeviceFault;
        };
        let disk = self.live.disk();
        let replies = self.replies.as_slice();
        if let Err(_) = print_beside(peer, disk, &replies[..at.min(replies.len())]) {
            return Status::SinkFault;
        }
        match print_beside(peer, disk, slice::from_ref(line)) {
            Ok(()) => Status::DeviceFault,
            Err(_) => Status::SinkFault,
        }
    }
}

// Puts the line of a journal that is full.
fn put_full<D: Disk, T: Peer<D>>(peer: &mut T, disk: &D) -> Status
    ensures delivered { IsDelivered (peer_took T.Peer peer.old peer.new) (printed JournalRefused (full_line ∷ [])) result }
    ensures beside { IsBeside D.Disk T.Peer disk.now peer.old peer.new (full_line ∷ []) }
{
    finish_beside(
        peer,
        disk,
        at_journal_fault(JournalFault::Long {
            len: MAX_SERVED + 1,
        }),
    )
}
