//! The table under the lock. Word 0 is the turn, 1 while a pass has it. Word 1 is the length of the history, and slot 0 holds
//! the durable cell.
use atomic_table::{Seat, Shared, Table, TableRule};
use cell_base::{Cell, Entry, Grant};
use durable_cell::{Durable, Recall};
use outside_io::Disk;
use std::alloc::Global;
use std::collections::LinkedList;
use std::snapshot::Snapshot;

/// What a lock was opened with: the cell and its text, the disk as it was handed to the durable cell and as it was found, the
/// grants for which it stood, how many entries the history may have, the number of the shift and that of the passes. No value
/// of it is made.
pub struct Opening<D> {
    pub cell: Cell,
    pub text: LinkedList<u8>,
    pub entry: Option<D>,
    pub found: Option<D>,
    pub grants: LinkedList<Grant>,
    pub limit: u64,
    pub shift: u32,
    pub passes: u16,
}

/// What a seat knows: the numbers from `first`, `count` many, with the entries of each; of its answers, the last one first, the
/// history that it saw and the disk's clock of then; and with the turn the history that it sees now, and the durable cell as it
/// was taken. No value of it is made.
pub(crate) struct View<D: Disk> {
    pub(crate) opening: Opening<D>,
    pub(crate) first: u64,
    pub(crate) count: u64,
    pub(crate) answers: LinkedList<(LinkedList<Entry>, u64)>,
    pub(crate) own_entries: LinkedList<LinkedList<Entry>>,
    pub(crate) log: LinkedList<Entry>,
    pub(crate) taken: Option<Durable<D>>,
    pub(crate) has_turn: bool,
}

/// What the table is told once.
#[derive(Drop)]
pub(crate) struct Key<D: Disk, G: Recall> {
    pub(crate) durable: Snapshot<Durable<D, G>>,
    pub(crate) shift: u32,
    pub(crate) passes: u16,
}

/// The rule of the table.
pub(crate) struct LockRule;

impl<D: Disk, G: Recall> TableRule<Durable<D, G>, View<D>, Key<D, G>> for LockRule {
    ghost use Rattle.cell_lock.specs.Law.{Kept};
    ghost use Rattle.durable_cell.specs.Acknowledged.{HasSince};
    ghost use Rattle.cell_lock.specs.Openings.{opening_of};
    ghost use Rattle.cell_lock.specs.Views.{initial_view};

    ghost holds = { λ key. Kept (HasSince D.reads_as D.moment D.left_since) D.moment
        (opening_of key.durable.value key.shift key.passes) };

    ghost first = { λ key. initial_view (opening_of key.durable.value key.shift key.passes) 1 key.passes };
}

/// The table itself: its one slot holds the durable cell, and words 0 and 1 are the turn and the length of the history.
pub(crate) type LockTable<D, G> = Table<Durable<D, G>, View<D>, Key<D, G>, LockRule, Global>;

/// What all seats of a table share.
pub(crate) type SharedTable<D, G> = Shared<Durable<D, G>, View<D>, Key<D, G>, LockRule>;

/// A seat at a table, by which a pass knows its view.
pub(crate) type Place<D, G> = Seat<Durable<D, G>, View<D>>;
