//! A journal of grants, to which one more is added at a time.
ghost use Rattle.std.specs.Prelude.{◌≡◌, ℕ, ◌+◌, ◌*◌, ◌^◌, ◌<◌, ◌≤◌, List, [], ◌∷◌, ◌++◌, length, drop};
ghost use Rattle.std.specs.Prelude.{true, false, Some, Ok, Err, OnOk, ⊤};
ghost use Rattle.cell_base.specs.declared.shifts.Grant.{Grant};
ghost use Rattle.entry_codec.specs.Records.{HasRecord, record_of};
ghost use Rattle.outside_io.specs.Causes.{Rose};
ghost use Rattle.outside_io.specs.Disk.{Turns, LeavesOnly};
ghost use Rattle.move_journal.specs.Disks.{Rests, Shows};
ghost use Rattle.journal_format.specs.Journals.{StandsFor, IsBeforeOrAfter, IsBeforeOrAfterAll, gate_of, group_bytes};
ghost use Rattle.move_journal.specs.Kept.{IsOpen};
ghost use Rattle.move_journal.specs.Written.{after_append};

use crate::Group;
use crate::entry_write::{with_gates, write_entries};
use cell_base::Grant;
use entry_codec::{ENTRY_SIZE, encode};
use outside_io::Disk;
use std::marker::Model;

/// Why a grant was not added.
#[derive(Clone, Copy, Debug, PartialEq, Eq)]
pub enum AppendFault {
    /// An earlier append of this journal failed, when it had `after` grants.
    Halted { after: u64 },
    /// The device failed. The grant may have been added or not, and each later append answers `Halted`.
    Device,
}

/// A journal on its disk, which contracts see with its number of grants and whether an append failed.
#[derive(Drop)]
pub struct Journal<D: Disk> {
    disk: D,
    gate: u64,
    len: u64,
    is_halted: bool,
}

impl<D: Disk> Model for Journal<D> {
    ghost use Rattle.move_journal.specs.Kept.{JournalState, IsKept};

    ghost Value = { JournalState D };

    ghost view = { λ journal. record { disk = journal.disk; len = journal.len; is_halted = journal.is_halted } };

    ghost invariant = { λ journal.
        IsKept D.reads_as D.may_leave journal.disk journal.gate journal.len journal.is_halted };
}

impl<D: Disk> Journal<D> {
    /// The journal of so many grants on a disk, whose closed gate stands at this offset.
    pub fn found(disk: D, gate: u64, len: u64) -> Journal<D>
        requires rests { Rests D.reads_as D.may_leave disk (IsOpen gate len) }
        requires in_range { gate ≤ 2 ^ 33 + ENTRY_SIZE * len }
        ensures { result ≡ record { disk = disk; len = len; is_halted = false } }
    {
        Journal {
            disk,
            gate,
            len,
            is_halted: false,
        }
    }

    /// Adds a grant. At `Ok` each crash from then on leaves a journal that has it.
    pub fn append(&mut self, grant: &Grant) -> Result<(), AppendFault>
        requires room { self.old.len < 4294967295 }
        requires has_record { HasRecord grant.now }
        ensures grown { OnOk result (self.new.len ≡ self.old.len + 1) }
        ensures runs { OnOk result (self.new.is_halted ≡ false) }
        ensures no_fault { OnOk result (D.faults self.new.disk ≡ D.faults self.old.disk) }

        ensures halted { self.old.is_halted ≡ true → result ≡ Err (AppendFault.Halted self.old.len) }
        ensures halted_only { (after : ℕ) → result ≡ Err (AppendFault.Halted after) → self.old.is_halted ≡ true }
        ensures same { self.old.is_halted ≡ true → self.new ≡ self.old }

        ensures device { result ≡ Err AppendFault.Device → Rose (D.faults self.old.disk) (D.faults self.new.disk) }
        ensures halts { result ≡ Err AppendFault.Device → self.new.is_halted ≡ true }
        ensures same_len { result ≡ Err AppendFault.Device → self.new.len ≡ self.old.len }

        // What the disk holds at the return, and at each moment since the entry, where it told its bytes.
        ensures tells { Turns (D.reads_as self.old.disk) (D.reads_as self.new.disk) (λ _ _. ⊤) }
        ensures stored { (file text : List ℕ) (grants : List Grant)
            → D.reads_as self.old.disk ≡ Some file → StandsFor file text grants
            → OnOk result (Shows D.reads_as D.may_leave self.new.disk (λ new. StandsFor new text (grants ++ grant.now ∷ []))) }
        ensures bytes { (file text : List ℕ) (grants : List Grant)
            → D.reads_as self.old.disk ≡ Some file → StandsFor file text grants
            → OnOk result (D.reads_as self.new.disk ≡ Some (after_append file (gate_of text grants) (record_of grant.now ++ 0 ∷ []))) }
        ensures kept { (file text : List ℕ) (grants : List Grant)
            → D.reads_as self.old.disk ≡ Some file → StandsFor file text grants → self.old.is_halted ≡ false
            → Shows D.reads_as D.may_leave self.new.disk (IsBeforeOrAfter text grants grant.now) }
        ensures any_moment { (file text : List ℕ) (grants : List Grant)
            → D.reads_as self.old.disk ≡ Some file → StandsFor file text grants → self.old.is_halted ≡ false
            → LeavesOnly D.moment D.left_since self.old.disk self.new.disk (IsBeforeOrAfter text grants grant.now) }
    {
        if self.is_halted {
            return Err(AppendFault::Halted { after: self.len });
        }
        match write_entries(&mut self.disk, self.gate, &with_gates(&encode(grant))) {
            Ok(()) => {
                self.gate += ENTRY_SIZE;
                self.len += 1;
                Ok(())
            }
            Err(_) => {
                self.is_halted = true;
                Err(AppendFault::Device)
            }
        }
    }

    /// Adds all grants of a group, in their order, by as many device calls as one grant takes. At `Ok` each crash from then on
    /// leaves a journal that has them all; and at each moment before it, a journal that has none of them or all.
    pub fn append_all(&mut self, group: &Group) -> Result<(), AppendFault>
        requires some { 0 < length group.now.grants }
        requires room { self.old.len + length group.now.grants ≤ 4294967295 }
        ensures grown { OnOk result (self.new.len ≡ self.old.len + length group.now.grants) }
        ensures runs { OnOk result (self.new.is_halted ≡ false) }
        ensures no_fault { OnOk result (D.faults self.new.disk ≡ D.faults self.old.disk) }

        ensures halted { self.old.is_halted ≡ true → result ≡ Err (AppendFault.Halted self.old.len) }
        ensures halted_only { (after : ℕ) → result ≡ Err (AppendFault.Halted after) → self.old.is_halted ≡ true }
        ensures same { self.old.is_halted ≡ true → self.new ≡ self.old }

        ensures device { result ≡ Err AppendFault.Device → Rose (D.faults self.old.disk) (D.faults self.new.disk) }
        ensures halts { result ≡ Err AppendFault.Device → self.new.is_halted ≡ true }
        ensures same_len { result ≡ Err AppendFault.Device → self.new.len ≡ self.old.len }

        // What the disk holds at the return, and at each moment since the entry, where it told its bytes.
        ensures tells { Turns (D.reads_as self.old.disk) (D.reads_as self.new.disk) (λ _ _. ⊤) }
        ensures stored { (file text : List ℕ) (grants : List Grant)
            → D.reads_as self.old.disk ≡ Some file → StandsFor file text grants
            → OnOk result (Shows D.reads_as D.may_leave self.new.disk (λ new. StandsFor new text (grants ++ group.now.grants))) }
        ensures bytes { (file text : List ℕ) (grants : List Grant)
            → D.reads_as self.old.disk ≡ Some file → StandsFor file text grants
            → OnOk result (D.reads_as self.new.disk
            ≡ Some (after_append file (gate_of text grants) (drop 1 (group_bytes group.now.grants)))) }
        ensures kept { (file text : List ℕ) (grants : List Grant)
            → D.reads_as self.old.disk ≡ Some file → StandsFor file text grants → self.old.is_halted ≡ false
            → Shows D.reads_as D.may_leave self.new.disk (IsBeforeOrAfterAll text grants group.now.grants) }
        ensures any_moment { (file text : List ℕ) (grants : List Grant)
            → D.reads_as self.old.disk ≡ Some file → StandsFor file text grants → self.old.is_halted ≡ false
            → LeavesOnly D.moment D.left_since self.old.disk self.new.disk (IsBeforeOrAfterAll text grants group.now.grants) }
    {
        if self.is_halted {
            return Err(AppendFault::Halted { after: self.len });
        }
        let count = group.len();
        match write_entries(&mut self.disk, self.gate, group.bytes()) {
            Ok(()) => {
                self.gate += ENTRY_SIZE * count;
                self.len += count;
                Ok(())
            }
            Err(_) => {
                self.is_halted = true;
                Err(AppendFault::Device)
            }
        }
    }

    /// The number of grants.
    pub fn len(&self) -> u64
        ensures { result ≡ self.now.len }
    {
        self.len
    }

    /// The disk on which the journal stands.
    pub fn disk(&self) -> &D
        ensures { result.now ≡ self.now.disk }
    {
        &self.disk
    }

    /// The disk, taken out of the journal.
    pub fn into_disk(self) -> D
        ensures { result ≡ self.disk }
    {
        self.disk
    }
}
