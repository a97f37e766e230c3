//! The parts of a cell, counted anew at each request.
ghost use Rattle.std.specs.Prelude.{◌≡◌, ◌≤◌, ◌<◌, [], length, IfOk};
ghost use Rattle.std.specs.Vec.{vec_capacity};
ghost use Rattle.cell_base.specs.Neighborhoods.{count};
ghost use Rattle.cell_base.specs.Outcomes.{reply_to, state_after};
ghost use Rattle.cell_base.specs.Fits.{CellFits, RequestFits, units_of};

use crate::parts::place_asked;
use crate::stage_masks::StageMasks;
use crate::{changes, counts, replies};
use cell_base::{Cell, NoMemory, Part, Reply, Request, ResId};
use std::alloc::Global;
use std::marker::Model;

/// A cell and the parts that stand in it, in the order of their arrival at their present stages; and parts that are kept
/// aside. Contracts see it as a `RecountState`.
#[derive(Drop)]
pub struct Recount<'a> {
    table: StageMasks<'a>,
    parts: Vec<Part>,
    kept: Vec<Part>,
}

impl<'a> Model for Recount<'a> {
    ghost use Rattle.plain_recount.specs.RecountState.{RecountState, IsSound};
    ghost use Rattle.std.specs.Vec.{vec_capacity};

    ghost Value = { RecountState };

    ghost view = { λ s. record { cell = s.table; parts = s.parts.items; kept = s.kept.items } };

    ghost invariant = { λ s. IsSound s.table s.parts.items (vec_capacity s.parts)
        × IsSound s.table s.kept.items (vec_capacity s.kept) };
}

impl<'a> Recount<'a> {
    /// The empty state of a cell. No later call takes memory.
    pub fn new(alloc: Global, cell: &'a Cell) -> Result<Recount<'a>, NoMemory>
        requires { CellFits cell.now }
        ensures { IfOk result (λ recount. recount ≡ record { cell = cell.now; parts = []; kept = [] }) }
    {
        let room = units(cell);
        let table = StageMasks::new(alloc, cell)?;
        let parts = Vec::with_capacity(alloc, room)?;
        let kept = Vec::with_capacity(alloc, room)?;
        Ok(Recount { table, parts, kept })
    }

    /// The reply to a request in the present state.
    pub fn decide(&self, request: &Request) -> Reply
        requires { RequestFits self.now.cell request.now }
        ensures { result ≡ reply_to self.now.cell self.now.parts request.now }
    {
        let parts = self.parts.as_slice();
        let found = place_asked(self.table.cell(), parts, request);
        replies::reply_to(&self.table, parts, found, request)
    }

    /// The reply to a request, and its change if it is granted.
    #[inline(always)]
    pub fn ask(&mut self, request: &Request) -> Reply
        requires { RequestFits self.old.cell request.now }
        ensures reply { result ≡ reply_to self.old.cell self.old.parts request.now }
        ensures state { self.new ≡ record self.old { parts = state_after self.old.cell self.old.parts request.now } }
    {
        let parts = self.parts.as_slice();
        let found = place_asked(self.table.cell(), parts, request);
        let reply = replies::reply_to(&self.table, parts, found, request);
        if let Reply::Granted = reply {
            changes::apply(&self.table, &mut self.parts, found, request);
        }
        reply
    }

    /// The number of parts in the cell.
    pub fn parts_left(&self) -> u32
        ensures { result ≡ length self.now.parts }
    {
        self.parts.len() as u32
    }

    /// The parts, in the order of their arrival at their present stages.
    pub fn parts(&self) -> &[Part]
        ensures { result.now ≡ self.now.parts }
    {
        self.parts.as_slice()
    }

    /// How many parts the neighborhood of a resource holds.
    pub fn count(&self, r: ResId) -> u64
        requires { r.0 < length self.now.cell.resources }
        ensures { result ≡ count self.now.cell self.now.parts r.0 }
    {
        counts::count(&self.table, self.parts.as_slice(), r)
    }

    /// Keeps the present parts aside, in place of those that were.
    pub fn keep(&mut self)
        ensures { self.new ≡ record self.old { kept = self.old.parts } }
    {
        copy(self.parts.as_slice(), &mut self.kept);
    }

    /// Goes back to the parts that are kept, and keeps the present ones.
    pub fn go_back(&mut self)
        ensures { self.new ≡ record self.old { parts = self.old.kept; kept = self.old.parts } }
    {
        std::mem::swap(&mut self.parts, &mut self.kept);
    }
}

/// The units of all resources together: no admitted state has more parts.
fn units(cell: &Cell) -> usize
    requires { CellFits cell.now }
    ensures { result ≡ units_of cell.now.resources }
{
    cell.resources
        .as_slice()
        .iter()
        .map(|resource| resource.capacity as usize)
        .sum()
}

/// Makes one list of parts the same as another one, in its room.
fn copy(from: &[Part], to: &mut Vec<Part>)
    requires { length from.now ≤ vec_capacity to.old }
    ensures parts { to.new.items ≡ from.now }
    ensures room { vec_capacity to.new ≡ vec_capacity to.old }
{
    to.clear();
    for part in from {
        to.push_reserved(*part);
    }
}
