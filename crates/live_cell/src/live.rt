//! The live cell: its core is ahead of its journal by a group of grants, which a commit makes stable together, and which are told only
//! then.
ghost use Rattle.std.specs.Prelude.{◌≡◌, ◌+◌, ◌<◌, ◌≤◌, ℕ, List as Sequence, [], ◌++◌, length};
ghost use Rattle.std.specs.Prelude.{Some, true, false, OnOk, OnErr, IfOk, IfErr, IfSome, ⊤};
ghost use Rattle.durable_cell.specs.Clauses.{CellFits, Grant, IsAdmitted, RequestFits, StandsFor, reply_to};
ghost use Rattle.move_journal.specs.Disks.{Shows};
ghost use Rattle.journal_format.specs.Journals.{IsBeforeOrAfterAll};
ghost use Rattle.live_cell.specs.LiveState.{asked, committed};

use crate::{JournalFull, LiveParts, OpenedLive};
use admission_core::Core;
use admission_core::laws::core_law;
use cell_base::{Cell, Grant, Reply, Request};
use durable_cell::{MAX_ROOM, Resumed, resume};
use move_journal::{Group, Journal, MAX_CELL_TEXT, MAX_GROUP};
use outside_io::{Disk, Failed};
use shift_recovery::{GrantVisitor, OpenError, OpenFault};
use std::alloc::Global;
use std::marker::Model;

/// A core with the journal of its grants, and a group of grants that are decided and not yet stable. Contracts see it as a
/// `LiveState`. All memory is taken at the opening.
pub struct LiveCell<D: Disk> {
    core: Core,
    journal: Journal<D>,
    group: Group,
    most: u64,
    room: u64,
}

// Written out, so that letting a live cell go is one step in each proof and not a walk through all that it holds.
impl<D: Disk + Drop> Drop for LiveCell<D> {
    fn drop(self) {
        let LiveCell {
            core: _,
            journal: _,
            group: _,
            most: _,
            room: _,
        } = self;
    }
}

impl<D: Disk> Model for LiveCell<D> {
    ghost use Rattle.live_cell.specs.LiveState.{LiveState, seen, HasRoom};

    ghost Value = { LiveState D };

    ghost view = { λ s. seen s.core s.journal s.group s.room };

    ghost invariant = { λ s. HasRoom s.journal.len s.group s.most s.room };
}

impl<D: Disk> LiveCell<D> {
    ghost use Rattle.outside_io.specs.Causes.{Rose};
    ghost use Rattle.outside_io.specs.Disk.{Turns, LeavesOnly};
    ghost use Rattle.durable_cell.specs.Clauses.{AreDue, Granted};
    ghost use Rattle.durable_cell.specs.Openings.{IsHandedBack};
    ghost use Rattle.shift_recovery.specs.Opening.{HasOpenCause, disk_of};
    ghost use Rattle.live_cell.specs.Openings.{IsOpenedAs, IsFound, disk_live};

    /// The cell after the grants that stand on a disk with this cell text, if there are at most `room` of them, each of which is
    /// handed on as it is read; so many the journal may have in all. At most `most` grants may be pending. A disk that holds no
    /// journal gets one of no grants, as the last step.
    pub fn open<K: GrantVisitor + Drop>(
        alloc: Global,
        cell: Cell,
        cell_text: &[u8],
        disk: D,
        room: u64,
        most: u64,
        kept: K,
    ) -> Result<OpenedLive<D, K>, OpenError<D>>
        requires fits { CellFits cell }
        requires text { length cell_text.now ≤ MAX_CELL_TEXT }
        requires room { room ≤ MAX_ROOM }
        requires group { most ≤ MAX_GROUP }
        requires none { (first : ℕ) → K.visited kept first [] kept }
        ensures opened { IsOpenedAs D.reads_as D.may_leave D.moment D.left_since cell cell_text.now room most K.visited disk kept result }
        ensures cause { HasOpenCause (D.faults disk) (D.faults (disk_of disk_live result)) result }
        ensures leaves { IfErr result (λ error.
            IsHandedBack D.reads_as D.may_leave D.moment D.left_since disk cell_text.now error.disk error.why) }

        // What a live or durable cell may leave is opened.
        ensures stands { (file : Sequence ℕ) (grants : Sequence Grant) → D.reads_as disk ≡ Some file
            → StandsFor file cell_text.now grants → AreDue cell grants → length grants ≤ room
            → IsFound D.reads_as D.may_leave D.moment D.left_since cell cell_text.now room most K.visited disk kept grants result }
    {
        let Resumed { core, stored, kept } = resume(alloc, cell, cell_text, disk, room, kept)?;
        let Ok(group) = Group::with_room(alloc, most) else {
            return Err(OpenError {
                disk: stored.into_disk(),
                why: OpenFault::Memory,
            });
        };
        match stored.into_journal(cell_text) {
            Ok(journal) => Ok(OpenedLive {
                live: LiveCell {
                    core,
                    journal,
                    group,
                    most,
                    room,
                },
                kept,
            }),
            Err(disk) => Err(OpenError {
                disk,
                why: OpenFault::Device,
            }),
        }
    }

    /// The reply that a request would get after all that were decided. Nothing changes.
    pub fn decide(&self, request: &Request) -> Reply
        requires { RequestFits self.now.cell request.now }
        ensures { result ≡ reply_to self.now.cell self.now.parts request.now }
    {
        self.core.decide(request)
    }

    /// Decides a request of a session after all that were decided before it. A grant has shift 0, and is pending until the next
    /// commit.
    pub fn ask(&mut self, session: u16, request: &Request) -> Result<Reply, JournalFull>
        requires fits { RequestFits self.old.cell request.now }
        requires spare { 0 < self.old.spare }
        requires runs { self.old.is_halted ≡ false }
        ensures reply { IfOk result (λ reply. reply ≡ reply_to self.old.cell self.old.parts request.now) }
        ensures state { OnOk result (self.new ≡ asked self.old session request.now) }
        ensures had_room { IfOk result (λ reply. reply ≡ Granted → self.old.len + length self.old.pending < self.old.room) }

        ensures full { OnErr result (self.old.len + length self.old.pending ≡ self.old.room) }
        ensures granted { OnErr result (reply_to self.old.cell self.old.parts request.now ≡ Granted) }
        ensures same { OnErr result (self.new ≡ self.old) }
    {
        if self.journal.len() + self.group.len() >= self.room {
            return match self.core.decide(request) {
                Reply::Granted => Err(JournalFull),
                Reply::Refused(why) => Ok(Reply::Refused(why)),
            };
        }
        let reply = self.core.ask(request);
        if let Reply::Granted = reply {
            self.group.push(&Grant {
                shift: 0,
                session,
                request: *request,
            });
        }
        Ok(reply)
    }

    /// Makes the pending grants stable, by as many calls of the device as one takes, and by none where there is none. At `Ok` each
    /// crash from then on leaves a journal that has them all.
    pub fn commit(&mut self) -> Result<(), Failed>
        requires runs { self.old.is_halted ≡ false }
        ensures ok { OnOk result (self.new ≡ committed self.old self.new.disk) }
        ensures no_fault { OnOk result (D.faults self.new.disk ≡ D.faults self.old.disk) }
        ensures untouched { self.old.pending ≡ [] → self.new ≡ self.old }

        ensures halts { OnErr result (self.new ≡ record self.old { disk = self.new.disk; is_halted = true }) }
        ensures device { OnErr result (Rose (D.faults self.old.disk) (D.faults self.new.disk)) }

        // What the disk holds at the return, and at each moment since the entry, where it told its bytes.
        ensures tells { Turns (D.reads_as self.old.disk) (D.reads_as self.new.disk) (λ _ _. ⊤) }
        ensures stored { (text : Sequence ℕ) (grants : Sequence Grant)
            → Shows D.reads_as D.may_leave self.old.disk (λ old. StandsFor old text grants)
            → OnOk result (Shows D.reads_as D.may_leave self.new.disk (λ new. StandsFor new text (grants ++ self.old.pending))) }
        ensures kept { (text : Sequence ℕ) (grants : Sequence Grant)
            → Shows D.reads_as D.may_leave self.old.disk (λ old. StandsFor old text grants)
            → Shows D.reads_as D.may_leave self.new.disk (IsBeforeOrAfterAll text grants self.old.pending) }
        ensures any_moment { (text : Sequence ℕ) (grants : Sequence Grant)
            → Shows D.reads_as D.may_leave self.old.disk (λ old. StandsFor old text grants)
            → IfSome (D.reads_as self.old.disk) (λ _.
            LeavesOnly D.moment D.left_since self.old.disk self.new.disk (IsBeforeOrAfterAll text grants self.old.pending)) }
    {
        if self.group.is_empty() {
            return Ok(());
        }
        match self.journal.append_all(&self.group) {
            Ok(()) => {
                self.group.clear();
                Ok(())
            }
            Err(_) => Err(Failed),
        }
    }

    /// How many more grants may be pending.
    pub fn spare(&self) -> u64
        ensures { result ≡ self.now.spare }
    {
        self.most - self.group.len()
    }

    /// How many grants more the journal may have, beside those that are pending.
    pub fn room_left(&self) -> u64
        ensures { result + self.now.len + length self.now.pending ≡ self.now.room }
    {
        self.room - self.journal.len() - self.group.len()
    }

    /// The number of grants on the disk.
    pub fn len(&self) -> u64
        ensures { result ≡ self.now.len }
    {
        self.journal.len()
    }

    /// The disk.
    pub fn disk(&self) -> &D
        ensures { result.now ≡ self.now.disk }
    {
        self.journal.disk()
    }

    /// The core, after all that was decided.
    pub fn core(&self) -> &Core
        ensures core { result.now ≡ record { cell = self.now.cell; parts = self.now.parts } }
        ensures fits { CellFits self.now.cell }
        ensures admitted { IsAdmitted self.now.cell self.now.parts }
        ensures room { self.now.len + length self.now.pending ≤ self.now.room }
    {
        core_law(&self.core);
        &self.core
    }

    /// Takes the live cell apart.
    pub fn finish(self) -> LiveParts<D>
        ensures core { result.core ≡ record { cell = self.cell; parts = self.parts } }
        ensures disk { result.disk ≡ self.disk }
    {
        let LiveCell {
            core,
            journal,
            group: _,
            most: _,
            room: _,
        } = self;
        LiveParts {
            core,
            disk: journal.into_disk(),
        }
    }

    /// The disk, taken out of the live cell.
    pub fn into_disk(self) -> D
        ensures { result ≡ self.disk }
    {
        self.finish().disk
    }
}
