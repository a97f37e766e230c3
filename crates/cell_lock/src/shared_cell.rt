//! The lock: a durable cell in a table that threads share, and the passes that are made of it once, and given back with it.
ghost use Rattle.std.specs.Prelude.{◌≡◌, ◌↔◌, ℕ, ◌≤◌, None, [], length, IfOk, IfErr, All};
ghost use mathlib.Core.List.{IsPrefix};
ghost use Rattle.cell_lock.specs.Clauses.{HasSince, IsLegal, KeepsDisk, RequestFits, after, entries_of, grants, plan_step, unsure_grant};
ghost use Rattle.cell_lock.specs.Openings.{Outside, WhereTold, first_parts, opening_of};
ghost use Rattle.cell_lock.specs.Passes.{AreAll, Asked, HasAnswer, IsClockOf, KeepsName, answers_of, new_passes};

use crate::board::LockTable;
use crate::pass::Pass;
use crate::plays::NewSeat;
use crate::setting::{deal, gather, lay};
use crate::steps::{ask_held, give_turn, plan_held, take_turn};
use cell_base::{Grant, List, NoMemory, Reply, Request, Shelf};
use durable_cell::{AskFault, Durable, Recall, durable_law};
use outside_io::Disk;
use std::alloc::Global;
use std::marker::Model;
use std::sync::Wait;

/// A durable cell under a lock. Contracts see it as what names it and what it was opened with.
#[derive(Drop)]
pub struct SharedCell<D: Disk, G: Recall = List<Grant>> {
    table: LockTable<D, G>,
    shift: u32,
}

impl<D: Disk, G: Recall> Model for SharedCell<D, G> {
    ghost use Rattle.std.specs.Prelude.{◌≡◌};
    ghost use Rattle.cell_lock.specs.Openings.{opening_of};
    ghost use Rattle.cell_lock.specs.Passes.{LockId};
    ghost use Rattle.cell_lock.specs.Steps.{IsWide};

    ghost Value = { LockId D };

    ghost view = { λ c. record {
      table = c.table.shared.table_id;
      opening = opening_of c.table.shared.key.durable.value c.table.shared.key.shift c.table.shared.key.passes;
    } };

    ghost invariant = { λ c. IsWide c.table.shared.table_id × (c.table.shared.key.shift ≡ c.shift) };
}

impl<D: Disk, G: Recall> SharedCell<D, G> {
    /// A lock over a durable cell in which nothing was decided yet, and its passes, numbered from 1. The durable cell comes back
    /// where there is no memory.
    pub fn open(
        alloc: Global,
        durable: Durable<D, G>,
        shift: u32,
        passes: u16,
    ) -> Result<(SharedCell<D, G>, List<Pass<D, G>>), (Durable<D, G>, NoMemory)>
        requires new { durable.history ≡ [] }
        ensures lock { IfOk result (λ opened. opened.0.opening ≡ opening_of durable shift passes) }
        ensures passes { IfOk result (λ opened. opened.1 ≡ new_passes D.moment opened.0 1 passes) }
        ensures back { IfErr result (λ back. back.0 ≡ durable) }
    {
        let Ok(mut dealt) = Shelf::with_room(alloc, u64::from(passes)) else {
            return Err((durable, NoMemory));
        };
        let (table, mut seat) = lay(alloc, durable, shift, passes)?;
        deal(&table.shared, &mut seat, &mut dealt, passes);
        Ok((SharedCell { table, shift }, dealt.into_list()))
    }

    /// Gives the durable cell back, once all passes are done. It takes no memory.
    pub fn close(self, passes: List<Pass<D, G>>) -> Durable<D, G>
        requires all { AreAll self passes }
        ensures opening { opening_of result self.opening.shift self.opening.passes ≡ self.opening }
        ensures legal { IsLegal self.opening.cell (first_parts self.opening) result.history }
        ensures within { length result.history ≤ self.opening.limit }
        ensures added { result.added ≡ grants self.opening.shift result.history }
        ensures unsure { result.unsure ≡ unsure_grant self.opening.shift result.history }

        ensures seen { All (λ pass. IsPrefix pass.seen result.history) passes }
        ensures mine { All (λ pass. entries_of pass.number result.history ≡ pass.mine) passes }
        ensures others { (number : ℕ) → Outside self.opening number → entries_of number result.history ≡ [] }

        // What a pass has seen granted, with each of its answers, is on each image since then.
        ensures acknowledged { All (λ pass. All (λ answer. HasSince D.reads_as D.moment D.left_since result answer.1
            (length (grants self.opening.shift answer.0))) (answers_of pass)) passes }
        ensures disk { KeepsDisk D.reads_as D.may_leave D.moment D.left_since D.faults result }
    {
        let SharedCell { table, shift: _ } = self;
        let (_, host) = table.shared.load_new_seat::<NewSeat>(0);
        let host = gather(&table.shared, host, passes);
        let mut closed = table.close_with(host);
        let durable = closed.take(0);
        durable_law(&durable);
        closed.free();
        durable
    }

    /// Waits for the turn, and asks. It takes no memory.
    pub fn ask<R: Wait>(
        &self,
        rt: &R,
        pass: &mut Pass<D, G>,
        request: &Request,
    ) -> Result<Reply, AskFault>
        requires lock { pass.old.lock ≡ self.now }
        requires request { RequestFits self.now.opening.cell request.now }
        ensures same { KeepsName pass.old pass.new }
        ensures seen { IsPrefix pass.old.seen pass.new.seen }
        ensures earlier { HasAnswer pass.old pass.new }
        ensures moment { WhereTold D.reads_as self.now.opening (pass.old.moment ≤ pass.new.moment) }
        ensures clock { IsClockOf D.reads_as D.may_leave D.moment D.left_since D.faults self.now.opening pass.new }
        ensures legal { IsLegal self.now.opening.cell (first_parts self.now.opening) pass.new.seen }
        ensures within { length pass.new.seen ≤ self.now.opening.limit }
        ensures own { entries_of pass.new.number pass.new.seen ≡ pass.new.mine }
        ensures answer { Asked pass.old request.now result pass.new }
    {
        let top = &self.table.shared;
        take_turn(rt, top, &mut pass.seat);
        let answer = ask_held(top, &mut pass.seat, self.shift, pass.number, request);
        give_turn(top, &mut pass.seat);
        answer
    }

    /// Waits for the turn, and looks at the plan's step from the state after the history that is then seen: None exactly where
    /// no part is left. It takes no memory.
    pub fn peek_plan_step<R: Wait>(&self, rt: &R, pass: &mut Pass<D, G>) -> Option<Request>
        requires lock { pass.old.lock ≡ self.now }
        ensures same { KeepsName pass.old pass.new × (pass.new.mine ≡ pass.old.mine) }
        ensures seen { IsPrefix pass.old.seen pass.new.seen }
        ensures earlier { HasAnswer pass.old pass.new }
        ensures moment { WhereTold D.reads_as self.now.opening (pass.old.moment ≤ pass.new.moment) }
        ensures clock { IsClockOf D.reads_as D.may_leave D.moment D.left_since D.faults self.now.opening pass.new }
        ensures legal { IsLegal self.now.opening.cell (first_parts self.now.opening) pass.new.seen }
        ensures within { length pass.new.seen ≤ self.now.opening.limit }
        ensures own { entries_of pass.new.number pass.new.seen ≡ pass.new.mine }
        ensures step { result ≡ plan_step self.now.opening.cell
            (after self.now.opening.cell (first_parts self.now.opening) pass.new.seen) }
        ensures none { (result ≡ None) ↔ (after self.now.opening.cell (first_parts self.now.opening) pass.new.seen ≡ []) }
    {
        let top = &self.table.shared;
        take_turn(rt, top, &mut pass.seat);
        let step = plan_held(top, &mut pass.seat);
        give_turn(top, &mut pass.seat);
        step
    }
}
