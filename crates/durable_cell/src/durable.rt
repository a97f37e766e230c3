//! The durable cell: its journal is written before its core is changed, and its core is changed before a grant is answered.
ghost use Rattle.std.specs.Prelude.{◌≡◌, ◌≤◌, ℕ, List as Sequence, [], Some, length, IfOk, IfSome};
ghost use Rattle.durable_cell.specs.Clauses.{AreDue, CellFits, Grant, Granted, IsAdmitted, IsLegal, IsReserved, RequestFits, StandsFor};
ghost use Rattle.durable_cell.specs.Clauses.{first_parts, opened_as, parts, reply_to};
ghost use Rattle.durable_cell.specs.Acknowledged.{HasSince, MovesSafely};
ghost use Rattle.durable_cell.specs.Asked.{Answers, GoesOn, HasAskCause, WritesGrants, entry};
ghost use Rattle.durable_cell.specs.Kept.{KeepsHistory, KeepsDisk};
ghost use Rattle.durable_cell.specs.Openings.{IsNew, IsAnswer, IsFound, HasCause, HasTaken, Leaves, durable_heard, heard_of, opened_of};

use crate::marks::mark_of;
use crate::opening::unopened;
use crate::recalled::{Recall, Recalled};
use crate::recalling::Recalling;
use crate::{AskFault, Finished, Heard, MAX_ROOM, Opening, Resumed, resume};
use admission_core::Core;
use admission_core::laws::core_law;
use atomic_table::Badge;
use cell_base::{Cell, Entry, Grant, List, NoMemory, Reply, Request, Shelf, Told};
use move_journal::{Journal, MAX_CELL_TEXT};
use outside_io::Disk;
use policy_laws::refusal_law;
use shift_recovery::{Discard, GrantVisitor, OpenError, OpenFault};
use std::alloc::Global;
use std::marker::Model;

/// A core with the journal of its grants, and a list of those of its opening unless it says otherwise. Contracts see it as a
/// `DurableState`. All memory is taken at the opening.
pub struct Durable<D: Disk, G: Recall = List<Grant>> {
    /// The disk as it was handed to `open`, and as it was found there, for contracts alone.
    entry: Badge<D>,
    found: Badge<D>,
    core: Core,
    text: List<u8>,
    journal: Journal<D>,
    opening: G,
    history: Shelf<Entry>,
    added: Shelf<Grant>,
    unsure: Option<Grant>,
    limit: u64,
}

// Written out, so that letting a durable cell go is one step in each proof and not a walk through all that it holds.
impl<D: Disk + Drop, G: Recall> Drop for Durable<D, G> {
    fn drop(self) {
        let Durable {
            entry: _,
            found: _,
            core: _,
            text: _,
            journal: _,
            opening: _,
            history: _,
            added: _,
            unsure: _,
            limit: _,
        } = self;
    }
}

impl<D: Disk, G: Recall> Model for Durable<D, G> {
    ghost use Rattle.durable_cell.specs.DurableState.{DurableState, seen};
    ghost use Rattle.durable_cell.specs.Kept.{Keeps};

    ghost Value = { DurableState D };

    ghost view = { λ s. seen s.entry s.found s.core s.text s.journal (G.grants s.opening) s.history.items s.added.items s.unsure s.limit };

    ghost invariant = { λ s. Keeps D.reads_as D.may_leave D.moment D.left_since D.faults
        (seen s.entry s.found s.core s.text s.journal (G.grants s.opening) s.history.items s.added.items s.unsure s.limit)
        s.entry s.found s.core s.journal s.history.spare s.added.spare };
}

// The memory of a durable cell.
#[derive(Drop)]
struct Shelves<D> {
    found: Badge<D>,
    text: List<u8>,
    history: Shelf<Entry>,
    added: Shelf<Grant>,
}

// A mark of the disk, a copy of the text, and room for so many entries and their grants.
fn reserve<D: Disk>(
    alloc: Global,
    disk: &D,
    cell_text: &[u8],
    limit: u64,
) -> Result<Shelves<D>, NoMemory>
    ensures { IfOk result (IsReserved disk.now cell_text.now limit) }
{
    Ok(Shelves {
        found: mark_of(alloc, disk)?,
        text: List::copy_of(alloc, cell_text)?,
        history: Shelf::with_room(alloc, limit)?,
        added: Shelf::with_room(alloc, limit)?,
    })
}

impl<D: Disk> Durable<D> {
    /// The cell after the grants that stand on a disk with this cell text, if there are at most `room` of them. At most `limit`
    /// requests may be decided. A disk that holds no journal gets one of no grants, as the last step.
    pub fn open(
        alloc: Global,
        cell: Cell,
        cell_text: &[u8],
        disk: D,
        room: u64,
        limit: u64,
    ) -> Opening<D>
        requires fits { CellFits cell }
        requires text { length cell_text.now ≤ MAX_CELL_TEXT }
        requires room { room ≤ MAX_ROOM }
        requires limit { limit ≤ MAX_ROOM }
        ensures new { IsNew cell cell_text.now disk limit (opened_of result) }
        ensures exact { IsAnswer (D.reads_as disk) (λ file. opened_as cell file cell_text.now room) (opened_of result) }
        ensures cause { HasCause D.faults disk (opened_of result) }
        ensures leaves { Leaves D.reads_as D.may_leave D.moment D.left_since D.faults disk cell_text.now (opened_of result) }

        // What a durable cell may leave is opened.
        ensures stands { (file : Sequence ℕ) (grants : Sequence Grant) → D.reads_as disk ≡ Some file
            → StandsFor file cell_text.now grants → AreDue cell grants → length grants ≤ room → IsFound grants (opened_of result) }
    {
        match open_over(
            alloc,
            cell,
            cell_text,
            disk,
            room,
            limit,
            List::new(alloc),
            Discard,
        ) {
            Ok(Heard { durable, kept: _ }) => Opening::Open(durable),
            Err(error) => unopened(error),
        }
    }

    /// The grants for which the disk stood at the opening.
    pub fn opening(&self) -> &[Grant]
        ensures { result.now ≡ self.now.opening }
    {
        self.opening.as_slice()
    }
}

impl<D: Disk> Durable<D, Recalled> {
    /// Opens a disk as `open` does, without a list of the grants: each is handed on as it is read.
    pub fn open_with<K: GrantVisitor + Drop>(
        alloc: Global,
        cell: Cell,
        cell_text: &[u8],
        disk: D,
        room: u64,
        limit: u64,
        kept: K,
    ) -> Opening<D, Heard<D, Recalled, K>>
        requires fits { CellFits cell }
        requires text { length cell_text.now ≤ MAX_CELL_TEXT }
        requires room { room ≤ MAX_ROOM }
        requires limit { limit ≤ MAX_ROOM }
        requires none { (first : ℕ) → K.visited kept first [] kept }
        ensures new { IsNew cell cell_text.now disk limit (heard_of result) }
        ensures exact { IsAnswer (D.reads_as disk) (λ file. opened_as cell file cell_text.now room) (heard_of result) }
        ensures taken { HasTaken K.visited kept (opened_of result) }
        ensures cause { HasCause D.faults disk (heard_of result) }
        ensures leaves { Leaves D.reads_as D.may_leave D.moment D.left_since D.faults disk cell_text.now (heard_of result) }

        // What a durable cell may leave is opened.
        ensures stands { (file : Sequence ℕ) (grants : Sequence Grant) → D.reads_as disk ≡ Some file
            → StandsFor file cell_text.now grants → AreDue cell grants → length grants ≤ room → IsFound grants (heard_of result) }
    {
        match open_over(
            alloc,
            cell,
            cell_text,
            disk,
            room,
            limit,
            Recalled::none(),
            kept,
        ) {
            Ok(heard) => Opening::Open(heard),
            Err(error) => unopened(error),
        }
    }
}

// The cell after the grants of a disk, each of which is kept in one way and handed on in another.
fn open_over<D: Disk, G: Recall, K: GrantVisitor + Drop>(
    alloc: Global,
    cell: Cell,
    cell_text: &[u8],
    disk: D,
    room: u64,
    limit: u64,
    grants: G,
    kept: K,
) -> Result<Heard<D, G, K>, OpenError<D>>
    requires fits { CellFits cell }
    requires text { length cell_text.now ≤ MAX_CELL_TEXT }
    requires room { room ≤ MAX_ROOM }
    requires limit { limit ≤ MAX_ROOM }
    requires no_grants { G.grants grants ≡ [] }
    requires none { (first : ℕ) → K.visited kept first [] kept }
    ensures new { IsNew cell cell_text.now disk limit (durable_heard result) }
    ensures exact { IsAnswer (D.reads_as disk) (λ file. opened_as cell file cell_text.now room) (durable_heard result) }
    ensures taken { HasTaken K.visited kept result }
    ensures cause { HasCause D.faults disk (durable_heard result) }
    ensures leaves { Leaves D.reads_as D.may_leave D.moment D.left_since D.faults disk cell_text.now (durable_heard result) }

    // What a durable cell may leave is opened.
    ensures stands { (file : Sequence ℕ) (grants : Sequence Grant) → D.reads_as disk ≡ Some file
        → StandsFor file cell_text.now grants → AreDue cell grants → length grants ≤ room → IsFound grants (durable_heard result) }
{
    let Ok(entry) = mark_of(alloc, &disk) else {
        return Err(OpenError {
            disk,
            why: OpenFault::Memory,
        });
    };
    let Resumed { core, stored, kept } = resume(
        alloc,
        cell,
        cell_text,
        disk,
        room,
        Recalling { grants, kept },
    )?;
    let Ok(shelves) = reserve(alloc, stored.disk(), cell_text, limit) else {
        return Err(OpenError {
            disk: stored.into_disk(),
            why: OpenFault::Memory,
        });
    };
    let Recalling { grants, kept } = kept;
    match stored.into_journal(cell_text) {
        Ok(journal) => {
            let durable = Durable {
                entry,
                found: shelves.found,
                core,
                text: shelves.text,
                journal,
                opening: grants,
                history: shelves.history,
                added: shelves.added,
                unsure: None,
                limit,
            };
            Ok(Heard { durable, kept })
        }
        Err(disk) => Err(OpenError {
            disk,
            why: OpenFault::Device,
        }),
    }
}

impl<D: Disk, G: Recall> Durable<D, G> {
    /// Decides a request of a session in a shift. A grant is stable on the disk before it is applied and answered.
    pub fn ask(&mut self, shift: u32, session: u16, request: &Request) -> Result<Reply, AskFault>
        requires { RequestFits self.old.cell request.now }
        ensures answer { Answers self.old shift session request.now result self.new }
        ensures legal { IsLegal self.new.cell (first_parts self.new) self.new.history }
        ensures within { length self.new.history ≤ self.new.limit }

        ensures written { WritesGrants self.old.disk self.new.disk result }
        ensures cause { HasAskCause D.faults self.old.disk self.new.disk result }
        ensures disk { MovesSafely D.reads_as D.may_leave D.moment D.left_since self.old self.new }
    {
        let len = self.history.len();
        if self.unsure.is_some() {
            return Err(AskFault::Halted { at: len - 1 });
        }
        if len >= self.limit {
            return Err(AskFault::Full { len });
        }
        match self.core.decide(request) {
            Reply::Granted => self.grant(Grant {
                shift,
                session,
                request: *request,
            }),
            Reply::Refused(why) => {
                refusal_law(self.core.cell());
                let reply = Reply::Refused(why);
                self.history
                    .push(entry(session, request, Told::Answered(reply)));
                Ok(reply)
            }
        }
    }

    // Writes a grant, and then applies it. Where the writing fails it stays out of the core, and the history ends.
    fn grant(&mut self, grant: Grant) -> Result<Reply, AskFault>
        requires fits { RequestFits self.old.cell grant.request }
        requires goes_on { GoesOn self.old }
        requires granted { reply_to self.old.cell (parts self.old) grant.request ≡ Granted }
        ensures answer { Answers self.old grant.shift grant.session grant.request result self.new }
        ensures legal { IsLegal self.new.cell (first_parts self.new) self.new.history }
        ensures within { length self.new.history ≤ self.new.limit }
        ensures cause { HasAskCause D.faults self.old.disk self.new.disk result }
        ensures disk { MovesSafely D.reads_as D.may_leave D.moment D.left_since self.old self.new }
    {
        match self.journal.append(&grant) {
            Ok(()) => {
                let told = Told::Answered(Reply::Granted);
                self.core.apply(&grant.request);
                self.added.push(grant);
                self.history
                    .push(entry(grant.session, &grant.request, told));
                Ok(Reply::Granted)
            }
            Err(_) => {
                let at = self.history.len();
                self.unsure = Some(grant);
                self.history
                    .push(entry(grant.session, &grant.request, Told::Halted));
                Err(AskFault::Device { at })
            }
        }
    }

    /// The number of the grants for which the disk stood at the opening.
    pub fn held(&self) -> u64
        ensures { result ≡ length self.now.opening }
    {
        self.journal.len() - self.added.len()
    }

    /// The decided requests since the opening, in their order.
    pub fn history(&self) -> &[Entry]
        ensures history { result.now ≡ self.now.history }
        ensures kept { KeepsHistory self.now }
        ensures keeps_disk { KeepsDisk D.reads_as D.may_leave D.moment D.left_since D.faults self.now }
    {
        self.history.as_slice()
    }

    /// The number of decided requests since the opening.
    pub fn len(&self) -> u64
        ensures { result ≡ length self.now.history }
    {
        self.history.len()
    }

    /// The core, after the history.
    pub fn core(&self) -> &Core
        ensures core { result.now ≡ record { cell = self.now.cell; parts = parts self.now } }
        ensures admitted { IsAdmitted self.now.cell (parts self.now) }
        ensures kept { KeepsHistory self.now }
        ensures acknowledged { HasSince D.reads_as D.moment D.left_since self.now (D.moment self.now.disk) (length self.now.added) }
    {
        core_law(&self.core);
        &self.core
    }

    /// Takes the durable cell apart. The disk stands for the grants of the opening and those since.
    pub fn finish(self) -> Finished<D>
        ensures core { result.core ≡ record { cell = self.cell; parts = parts self } }
        ensures history { result.history ≡ self.history }
        ensures after { result.after ≡ length self.opening }
        ensures disk { result.disk ≡ self.disk }
        ensures kept { KeepsHistory self }
        ensures keeps_disk { KeepsDisk D.reads_as D.may_leave D.moment D.left_since D.faults self }
    {
        let after = self.held();
        let Durable {
            entry: _,
            found: _,
            core,
            text: _,
            journal,
            opening: _,
            history,
            added: _,
            unsure: _,
            limit: _,
        } = self;
        Finished {
            disk: journal.into_disk(),
            core,
            history: history.into_list(),
            after,
        }
    }
}

// A decided request.
fn entry(session: u16, request: &Request, told: Told) -> Entry
    ensures { result ≡ entry session request.now told }
{
    Entry {
        session,
        request: *request,
        told,
    }
}
