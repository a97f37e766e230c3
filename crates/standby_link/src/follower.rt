//! The standby's side of the link: the grant of the next frame is appended, and stable before it is answered; of every other frame it is
//! told whether it can be of the same controller.
ghost use Rattle.std.specs.Prelude.{◌≡◌, ◌≤◌, [], None, IfOk, IfErr};
ghost use Rattle.cell_base.specs.Histories.{replay};
ghost use Rattle.durable_cell.specs.Acknowledged.{MovesSafely};
ghost use Rattle.durable_cell.specs.DurableState.{parts};
ghost use Rattle.standby_link.specs.Followers.{kept, Appends, Compares, HasNotHalted, HasTakeCause, Takes};
ghost use Rattle.standby_link.specs.Deliveries.{Delivers, LeavesDelivered, StandsForKept};

use crate::{Frame, TakeFault};
use cell_base::{Grant, NoMemory, Reply, Shelf, request_fits};
use durable_cell::{Durable, durable_law};
use outside_io::Disk;
use std::alloc::Global;
use std::marker::Model;

/// A durable cell that takes its grants from frames. Contracts see it as a `FollowerState`. All memory is taken at the opening.
#[derive(Drop)]
pub struct Follower<D: Disk> {
    durable: Durable<D>,
    grants: Shelf<Grant>,
    room: u64,
    halted: Option<u64>,
}

impl<D: Disk> Model for Follower<D> {
    ghost use Rattle.standby_link.specs.Followers.{FollowerState, KeepsFollower};

    ghost Value = { FollowerState D };

    ghost view = { λ s. record { durable = s.durable; room = s.room } };

    ghost invariant = { λ s. KeepsFollower s.durable s.grants s.room s.halted };
}

// The grants of an opening, with room for so many more.
fn shelve(alloc: Global, opening: &[Grant], room: u64) -> Result<Shelf<Grant>, NoMemory>
    ensures items { IfOk result (λ shelf. shelf.items ≡ opening.now) }
    ensures room { IfOk result (λ shelf. room ≤ shelf.spare) }
{
    let Some(all) = room.checked_add(opening.len() as u64) else {
        return Err(NoMemory);
    };
    let mut shelf = Shelf::with_room(alloc, all)?;
    for grant in opening {
        shelf.push(*grant);
    }
    Ok(shelf)
}

// Where nothing is asked the disk stays as it is.
fn stays<D: Disk>(durable: &Durable<D>)
    ensures { MovesSafely D.reads_as D.may_leave D.moment D.left_since durable.now durable.now }
{
    durable_law(durable);
}

impl<D: Disk> Follower<D> {
    /// A standby that has the grants of a durable cell in which nothing was decided, and takes at most `room` more.
    pub fn open(
        alloc: Global,
        durable: Durable<D>,
        room: u64,
    ) -> Result<Follower<D>, (Durable<D>, NoMemory)>
        requires fresh { durable.history ≡ [] }
        requires room { room ≤ durable.limit }
        ensures open { IfOk result (λ follower. follower ≡ record { durable = durable; room = room }) }
        ensures none_added { IfOk result (λ follower. kept follower ≡ durable.opening) }
        ensures back { IfErr result (λ back. back.0 ≡ durable) }
    {
        durable_law(&durable);
        match shelve(alloc, durable.opening(), room) {
            Ok(grants) => Ok(Follower {
                durable,
                grants,
                room,
                halted: None,
            }),
            Err(NoMemory) => Err((durable, NoMemory)),
        }
    }

    /// The grants of the opening, and those that were appended since.
    pub fn grants(&self) -> &[Grant]
        ensures { result.now ≡ kept self.now }
    {
        self.grants.as_slice()
    }

    /// Takes a frame, and answers how many grants the standby then has. The grant of the next frame is appended: it is stable on the
    /// disk before it is answered. A grant that the standby has already, and one after the next, change nothing.
    pub fn take(&mut self, bytes: &[u8; 24]) -> Result<u64, TakeFault>
        ensures answer { Takes self.old bytes.now result self.new }
        ensures delivery { Delivers self.old bytes.now result self.new }
        ensures cause { HasTakeCause D.faults self.old.durable.disk self.new.durable.disk result }

        // Each image at each moment of the call stands for the grants before it, or for these and the new one; and after an Ok each has it.
        ensures crashes { LeavesDelivered D.reads_as D.moment D.left_since self.old bytes.now self.new }
        ensures stable { IfOk result (λ ack. StandsForKept D.reads_as D.may_leave self.new) }
        ensures disk { MovesSafely D.reads_as D.may_leave D.moment D.left_since self.old.durable self.new.durable }
    {
        self.answer(bytes)
    }

    // Takes a frame, by what is answered; what holds at each moment of the call follows of it.
    fn answer(&mut self, bytes: &[u8; 24]) -> Result<u64, TakeFault>
        ensures answer { Takes self.old bytes.now result self.new }
        ensures cause { HasTakeCause D.faults self.old.durable.disk self.new.durable.disk result }
        ensures disk { MovesSafely D.reads_as D.may_leave D.moment D.left_since self.old.durable self.new.durable }
        ensures sure { HasNotHalted self.old → self.old.durable.unsure ≡ None }
    {
        stays(&self.durable);
        if let Some(at) = self.halted {
            return Err(TakeFault::Halted { at });
        }
        let Some(frame) = Frame::from_bytes(bytes) else {
            return Err(TakeFault::NotAFrame);
        };
        if frame.index != self.grants.len() {
            return match self.compare(&frame) {
                Ok(()) => Ok(self.grants.len()),
                Err(why) => Err(why),
            };
        }
        match self.append(&frame.grant) {
            Ok(()) => Ok(self.grants.len()),
            Err(why) => Err(why),
        }
    }

    // A grant that the standby has already must be the frame's; of one after the next it knows nothing.
    fn compare(&self, frame: &Frame) -> Result<(), TakeFault>
        ensures { Compares (kept self.now) frame.now result }
    {
        match self.grants.as_slice().get(frame.index as usize) {
            Some(kept) if *kept != frame.grant => Err(TakeFault::Conflict {
                at: frame.index,
                kept: *kept,
            }),
            _ => Ok(()),
        }
    }

    // Appends the next grant.
    fn append(&mut self, grant: &Grant) -> Result<(), TakeFault>
        requires { HasNotHalted self.old }
        ensures answer { Appends self.old grant.now result self.new }
        ensures cause { HasTakeCause D.faults self.old.durable.disk self.new.durable.disk result }
        ensures disk { MovesSafely D.reads_as D.may_leave D.moment D.left_since self.old.durable self.new.durable }
    {
        stays(&self.durable);
        let core = self.durable.core();
        if !request_fits(core.cell(), &grant.request) {
            return Err(TakeFault::NoFit);
        }
        match core.decide(&grant.request) {
            Reply::Granted => {}
            Reply::Refused(why) => return Err(TakeFault::NotGranted(why)),
        }
        let at = self.durable.len();
        if at >= self.room {
            let len = self.grants.len();
            return Err(TakeFault::Full { len });
        }
        match self.durable.ask(grant.shift, grant.session, &grant.request) {
            Ok(_) => {
                self.grants.push(*grant);
                Ok(())
            }
            Err(_) => {
                self.halted = Some(at);
                Err(TakeFault::Device)
            }
        }
    }

    /// The durable cell, with all that was appended. Its state is the one after the grants.
    pub fn into_durable(self) -> Durable<D>
        ensures durable { result ≡ self.durable }
        ensures state { parts self.durable ≡ replay self.durable.cell (kept self) }
    {
        let Follower {
            durable,
            grants: _,
            room: _,
            halted: _,
        } = self;
        durable
    }
}
