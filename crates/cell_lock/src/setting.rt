//! How a table is laid and its passes are dealt, and how they come together again.
ghost use Rattle.std.specs.Prelude.{◌≡◌, ◌+◌, ◌-◌, ◌<◌, ◌≤◌, false, [], ◌∷◌, length, IfOk, IfErr};
ghost use Rattle.cell_lock.specs.Openings.{opening_of};
ghost use Rattle.cell_lock.specs.Views.{initial_view, passing, gathered, IsInitial};
ghost use Rattle.cell_lock.specs.Passes.{new_pass, new_passes, ArePassesNumbered};
ghost use Rattle.cell_lock.specs.Steps.{IsWide, lock_of, gathering};

use crate::board::{Key, LockTable, Place, SharedTable};
use crate::pass::Pass;
use crate::plays::{Deal, Gather};
use atomic_table::{Refused, Table};
use cell_base::{List, NoMemory, Shelf};
use durable_cell::{Durable, Recall, durable_law};
use outside_io::Disk;
use std::alloc::{AllocFailed, Global};
use std::snapshot::Snapshot;

// The durable cell alone in a list.
fn alone<D: Disk, G: Recall>(
    alloc: Global,
    durable: Durable<D, G>,
) -> Result<Vec<Durable<D, G>>, (Durable<D, G>, NoMemory)>
    ensures ok { IfOk result (λ slots. slots.items ≡ durable ∷ []) }
    ensures err { IfErr result (λ back. back.0 ≡ durable) }
{
    let mut slots = Vec::new(alloc);
    match slots.push(durable) {
        Ok(()) => Ok(slots),
        Err(failed) => {
            slots.destroy_empty();
            let AllocFailed { value } = failed;
            Err((value, NoMemory))
        }
    }
}

/// A table with the durable cell at home, and the seat that has all numbers to give.
pub(crate) fn lay<D: Disk, G: Recall>(
    alloc: Global,
    durable: Durable<D, G>,
    shift: u32,
    passes: u16,
) -> Result<(LockTable<D, G>, Place<D, G>), (Durable<D, G>, NoMemory)>
    requires { durable.history ≡ [] }
    ensures wide { IfOk result (λ laid. IsWide laid.0.shared.table_id) }
    ensures key { IfOk result (λ laid.
        opening_of laid.0.shared.key.durable.value laid.0.shared.key.shift laid.0.shared.key.passes
        ≡ opening_of durable shift passes) }
    ensures shift { IfOk result (λ laid. laid.0.shared.key.shift ≡ shift) }
    ensures table { IfOk result (λ laid. laid.1.table_id ≡ laid.0.shared.table_id) }
    ensures seat { IfOk result (λ laid. laid.1.me ≡ (initial_view (opening_of durable shift passes) 1 passes, [])) }
    ensures back { IfErr result (λ back. back.0 ≡ durable) }
{
    durable_law(&durable);
    let key = Key {
        durable: Snapshot::of(&durable),
        shift,
        passes,
    };
    let slots = alone(alloc, durable)?;
    match Table::new(alloc, &[0, 0], slots, &key) {
        Ok(laid) => Ok(laid),
        Err(Refused { mut slots }) => {
            let durable = slots.pop().unwrap();
            slots.destroy_empty();
            Err((durable, NoMemory))
        }
    }
}

// One pass more, with the least number that is left.
fn deal_one<D: Disk, G: Recall>(
    top: &SharedTable<D, G>,
    seat: &mut Place<D, G>,
    number: u16,
) -> Pass<D, G>
    requires table { (seat.old.table_id ≡ top.now.table_id) × IsWide top.now.table_id }
    requires left { IsInitial seat.old.me × (seat.old.me.0.first ≡ number) × (0 < seat.old.me.0.count) }
    ensures table { seat.new.table_id ≡ seat.old.table_id }
    ensures left { seat.new.me
        ≡ (initial_view seat.old.me.0.opening (seat.old.me.0.first + 1) (seat.old.me.0.count - 1), []) }
    ensures pass { result ≡ new_pass D.moment (lock_of seat.old) number }
{
    let seat = top.split_seat::<Deal>(seat);
    Pass { seat, number }
}

/// Deals the passes from 1 on.
pub(crate) fn deal<D: Disk, G: Recall>(
    top: &SharedTable<D, G>,
    seat: &mut Place<D, G>,
    dealt: &mut Shelf<Pass<D, G>>,
    passes: u16,
)
    requires table { (seat.old.table_id ≡ top.now.table_id) × IsWide top.now.table_id }
    requires left { IsInitial seat.old.me × (seat.old.me.0.first ≡ 1) × (seat.old.me.0.count ≡ passes) }
    requires room { (dealt.old.items ≡ []) × (passes ≤ dealt.old.spare) }
    ensures { dealt.new.items ≡ new_passes D.moment (lock_of seat.old) 1 passes }
{
    for k in 0..passes {
        let pass = deal_one(top, seat, k + 1);
        dealt.push(pass);
    }
}

// The pass's seat, which takes in the one with the numbers after it.
fn gather_one<D: Disk, G: Recall>(
    top: &SharedTable<D, G>,
    pass: Pass<D, G>,
    host: Place<D, G>,
) -> Place<D, G>
    requires table { (host.table_id ≡ top.now.table_id) × IsWide top.now.table_id }
    requires host { (host.me.0.has_turn ≡ false) × (host.me.1 ≡ []) }
    requires pass { (pass.lock.table ≡ host.table_id) × (pass.number + 1 ≡ host.me.0.first) }
    ensures table { result.table_id ≡ host.table_id }
    ensures view { result.me
        ≡ (gathered (passing pass.lock.opening pass.number pass.seen pass.moment pass.earlier pass.mine) host.me.0, []) }
{
    let Pass {
        mut seat,
        number: _,
    } = pass;
    top.join_seat::<Gather>(&mut seat, host);
    seat
}

/// Takes in all passes, the last one first.
pub(crate) fn gather<D: Disk, G: Recall>(
    top: &SharedTable<D, G>,
    mut host: Place<D, G>,
    mut passes: List<Pass<D, G>>,
) -> Place<D, G>
    requires table { (host.table_id ≡ top.now.table_id) × IsWide top.now.table_id }
    requires host { host.me ≡ (gathering host.me.0.opening (length passes + 1) [], []) }
    requires passes { ArePassesNumbered (lock_of host) 1 passes }
    ensures table { result.table_id ≡ host.table_id }
    ensures view { result.me ≡ (gathering host.me.0.opening 1 passes, []) }
{
    while let Some(pass) = passes.pop() {
        host = gather_one(top, pass, host);
    }
    host
}
