//! The steps on the table, at the seat of a pass.
ghost use Rattle.std.specs.Prelude.{◌≡◌, ◌↔◌, None, ◌∷◌, [], length};
ghost use Rattle.cell_lock.specs.Clauses.{Answers, HasSince, KeepsDisk, MovesSafely, RequestFits, after, entries_of, grants, plan_step};
ghost use Rattle.cell_lock.specs.Openings.{Fits, first_parts};
ghost use Rattle.cell_lock.specs.Views.{IsResting, IsActing, IsHolding, IsSafe, MayFind, held_of, seen_of, moment_of, earlier_of, mine_of};
ghost use Rattle.cell_lock.specs.Steps.{IsWide, IsSame, GrewBy, adds_entry};

use crate::board::{Place, SharedTable};
use crate::plays::{Give, Grow, Take};
use cell_base::{Reply, Request};
use crossbeam_utils::Backoff;
use durable_cell::{AskFault, Recall, durable_law};
use outside_io::Disk;
use std::sync::Wait;

/// Waits for the turn. It tries for a while, pausing longer each time, and then sleeps until a turn was given up. No turn is
/// given up unseen: a sleep is over at once where the word isn't 1 any more, and each turn that is given up ends one sleep.
pub(crate) fn take_turn<D: Disk, G: Recall, R: Wait>(
    rt: &R,
    top: &SharedTable<D, G>,
    seat: &mut Place<D, G>,
)
    requires table { (seat.old.table_id ≡ top.now.table_id) × IsWide top.now.table_id }
    requires rests { IsResting seat.old.me }
    ensures same { IsSame seat.old seat.new }
    ensures holds { IsHolding seat.new.me (held_of top.now.key.durable.value seat.new.me) }
    ensures safe { IsSafe (HasSince D.reads_as D.moment D.left_since) seat.new.me (held_of top.now.key.durable.value seat.new.me) }
    ensures follows { MayFind seat.old.me.0 (held_of top.now.key.durable.value seat.new.me) }
    ensures answers { seat.new.me.0.answers ≡ seat.old.me.0.answers }
    ensures stands { HasSince D.reads_as D.moment D.left_since (held_of top.now.key.durable.value seat.new.me) (moment_of seat.old.me.0)
        (length (grants seat.old.me.0.opening.shift (seen_of seat.old.me.0))) }
{
    let backoff = Backoff::new();
    for _ in rt.forever() {
        if top.compare_exchange::<Take>(seat, 0, 0, 1) == 0 {
            return;
        }
        if backoff.is_completed() {
            top.park(rt, 0, 1);
        } else {
            backoff.snooze();
        }
    }
    unreachable!()
}

// The answer, and the length of the history after it.
fn decide<D: Disk, G: Recall>(
    top: &SharedTable<D, G>,
    seat: &mut Place<D, G>,
    shift: u32,
    session: u16,
    request: &Request,
) -> (Result<Reply, AskFault>, u64)
    requires table { seat.old.table_id ≡ top.now.table_id }
    requires holds { IsHolding seat.old.me (held_of top.now.key.durable.value seat.old.me) }
    requires shift { seat.old.me.0.opening.shift ≡ shift }
    requires request { RequestFits seat.old.me.0.opening.cell request.now }
    ensures same { IsSame seat.old seat.new }
    ensures seat { seat.new.me ≡ (seat.old.me.0, (0, held_of top.now.key.durable.value seat.new.me) ∷ []) }
    ensures answer { Answers (held_of top.now.key.durable.value seat.old.me) shift session request.now result.0
        (held_of top.now.key.durable.value seat.new.me) }
    ensures fits { Fits seat.old.me.0.opening (held_of top.now.key.durable.value seat.new.me) }
    ensures disk { MovesSafely D.reads_as D.may_leave D.moment D.left_since (held_of top.now.key.durable.value seat.old.me)
        (held_of top.now.key.durable.value seat.new.me) }
    ensures length { result.1 ≡ length (held_of top.now.key.durable.value seat.new.me).history }
    ensures keeps { KeepsDisk D.reads_as D.may_leave D.moment D.left_since D.faults (held_of top.now.key.durable.value seat.new.me) }
{
    let durable = seat.slot_mut(top, 0);
    let answer = durable.ask(shift, session, request);
    durable_law(durable);
    (answer, durable.len())
}

// The history is longer by one entry of the pass's own.
fn grow<D: Disk, G: Recall>(top: &SharedTable<D, G>, seat: &mut Place<D, G>, len: u64)
    requires table { (seat.old.table_id ≡ top.now.table_id) × IsWide top.now.table_id }
    requires acts { IsActing seat.old.me (held_of top.now.key.durable.value seat.old.me) }
    requires grew { GrewBy seat.old.me.0 (held_of top.now.key.durable.value seat.old.me).history }
    requires len { len ≡ length (held_of top.now.key.durable.value seat.old.me).history }
    ensures same { IsSame seat.old seat.new }
    ensures holds { IsHolding seat.new.me (held_of top.now.key.durable.value seat.new.me) }
    ensures held { held_of top.now.key.durable.value seat.new.me ≡ held_of top.now.key.durable.value seat.old.me }
    ensures taken { seat.new.me.0.taken ≡ seat.old.me.0.taken }
    ensures answers { seat.new.me.0.answers ≡ seat.old.me.0.answers }
{
    top.store::<Grow>(seat, 1, len);
}

// Whether an answer adds an entry to the history.
fn adds_entry(answer: &Result<Reply, AskFault>) -> bool
    ensures { result ≡ adds_entry answer.now }
{
    matches!(answer, Ok(_) | Err(AskFault::Device { .. }))
}

/// Asks, and tells the table of the entry.
#[tactic(auto, using(crate::proofs::Answering::grew, crate::proofs::Answering::unchanged))]
pub(crate) fn ask_held<D: Disk, G: Recall>(
    top: &SharedTable<D, G>,
    seat: &mut Place<D, G>,
    shift: u32,
    session: u16,
    request: &Request,
) -> Result<Reply, AskFault>
    requires table { (seat.old.table_id ≡ top.now.table_id) × IsWide top.now.table_id }
    requires holds { IsHolding seat.old.me (held_of top.now.key.durable.value seat.old.me) }
    requires number { (seat.old.me.0.first ≡ session) × (seat.old.me.0.opening.shift ≡ shift) }
    requires request { RequestFits seat.old.me.0.opening.cell request.now }
    ensures same { IsSame seat.old seat.new }
    ensures holds { IsHolding seat.new.me (held_of top.now.key.durable.value seat.new.me) }
    ensures taken { seat.new.me.0.taken ≡ seat.old.me.0.taken }
    ensures answers { seat.new.me.0.answers ≡ seat.old.me.0.answers }
    ensures disk { MovesSafely D.reads_as D.may_leave D.moment D.left_since (held_of top.now.key.durable.value seat.old.me)
        (held_of top.now.key.durable.value seat.new.me) }
    ensures answer { Answers (held_of top.now.key.durable.value seat.old.me) shift session request.now result
        (held_of top.now.key.durable.value seat.new.me) }
    ensures keeps { KeepsDisk D.reads_as D.may_leave D.moment D.left_since D.faults (held_of top.now.key.durable.value seat.new.me) }
{
    let (answer, len) = decide(top, seat, shift, session, request);
    if adds_entry(&answer) {
        grow(top, seat, len);
    }
    answer
}

/// The plan's step from the state of the durable cell in hand.
pub(crate) fn plan_held<D: Disk, G: Recall>(
    top: &SharedTable<D, G>,
    seat: &mut Place<D, G>,
) -> Option<Request>
    requires table { seat.old.table_id ≡ top.now.table_id }
    requires holds { IsHolding seat.old.me (held_of top.now.key.durable.value seat.old.me) }
    ensures same { seat.new.table_id ≡ seat.old.table_id }
    ensures seat { seat.new.me ≡ seat.old.me }
    ensures acknowledged { let held = held_of top.now.key.durable.value seat.old.me in
        HasSince D.reads_as D.moment D.left_since held (D.moment held.disk) (length held.added) }
    ensures step { result ≡ plan_step seat.old.me.0.opening.cell
        (after seat.old.me.0.opening.cell (first_parts seat.old.me.0.opening)
        (held_of top.now.key.durable.value seat.old.me).history) }
    ensures none { (result ≡ None) ↔ (after seat.old.me.0.opening.cell (first_parts seat.old.me.0.opening)
        (held_of top.now.key.durable.value seat.old.me).history ≡ []) }
    ensures keeps { KeepsDisk D.reads_as D.may_leave D.moment D.left_since D.faults (held_of top.now.key.durable.value seat.old.me) }
{
    let durable = seat.slot_mut(top, 0);
    durable_law(durable);
    durable.core().plan_step()
}

/// Puts the durable cell back, gives up the turn, and wakes one that sleeps.
pub(crate) fn give_turn<D: Disk, G: Recall>(top: &SharedTable<D, G>, seat: &mut Place<D, G>)
    requires table { (seat.old.table_id ≡ top.now.table_id) × IsWide top.now.table_id }
    requires holds { IsHolding seat.old.me (held_of top.now.key.durable.value seat.old.me) }
    requires safe { IsSafe (HasSince D.reads_as D.moment D.left_since) seat.old.me (held_of top.now.key.durable.value seat.old.me) }
    requires acknowledged { let held = held_of top.now.key.durable.value seat.old.me in
        HasSince D.reads_as D.moment D.left_since held (D.moment held.disk) (length held.added) }
    ensures same { IsSame seat.old seat.new }
    ensures rests { IsResting seat.new.me }
    ensures seen { seen_of seat.new.me.0 ≡ (held_of top.now.key.durable.value seat.old.me).history }
    ensures earlier { earlier_of seat.new.me.0 ≡ seat.old.me.0.answers }
    ensures moment { moment_of seat.new.me.0 ≡ D.moment (held_of top.now.key.durable.value seat.old.me).disk }
    ensures mine { mine_of seat.new.me.0
        ≡ entries_of seat.old.me.0.first (held_of top.now.key.durable.value seat.old.me).history }
{
    top.store::<Give>(seat, 0, 0);
    top.wake_one(0);
}
