//! Records after their gates. `p` is the offset of the closed gate that ends the journal:
//!
//! | Offset | Content |
//! |---|---|
//! | p | the gate: 1 is open, any other value is closed |
//! | p + 1 to p + 16 | the record of a grant |
//! | p + 17 | the next gate |
//!
//! The first closed gate ends the journal, and what stands after it means nothing. So whatever a crash leaves of the write
//! of records, the gate before them, which is stable and closed, keeps each of them from counting: the gates between them are
//! written open. The closed gate after them is part of the same write: after a gate that is opened later, what was there
//! before would count. When all of it is stable, a write of one byte opens the first gate: a crash leaves it open or not, and
//! with it all of the new records or none.
ghost use Rattle.std.specs.Prelude.{◌≡◌, ◌+◌, ◌^◌, ◌<◌, ◌≤◌, Some, [], ◌∷◌, ◌++◌, length, drop, OnOk, ⊤};
ghost use Rattle.std.specs.Option.{ForSome};
ghost use Rattle.outside_io.specs.Causes.{HasCause};
ghost use Rattle.outside_io.specs.Disk.{overwritten, Turns, Only, LeavesOnly};
ghost use Rattle.move_journal.specs.Disks.{Rests};
ghost use Rattle.journal_format.specs.Journals.{IsJournal, HoldsRecords, Staged, WithOrWithout, gate_of};
ghost use Rattle.move_journal.specs.Written.{after_append};

use crate::stable_write::write_through;
use entry_codec::ENTRY_SIZE;
use outside_io::{Disk, Failed};

/// Makes records stable after the closed gate, and then opens the gate.
pub(crate) fn write_entries<D: Disk>(disk: &mut D, gate: u64, bytes: &[u8]) -> Result<(), Failed>
    requires in_range { gate < 2 ^ 63 }
    requires some { 1 ≤ length bytes.now }
    requires within { ForSome (D.reads_as disk.old) (λ file. gate + 1 ≤ length file) }
    ensures tells { Turns (D.reads_as disk.old) (D.reads_as disk.new) (λ _ _. ⊤) }
    ensures bytes { OnOk result (Turns (D.reads_as disk.old) (D.reads_as disk.new)
        (λ old new. new ≡ after_append old gate (drop 1 bytes.now))) }
    ensures stored { (file text : _) (grants more : _)
        → D.reads_as disk.old ≡ Some file → Only file (D.may_leave disk.old)
        → HoldsRecords file text grants gate more bytes.now
        → OnOk result (Rests D.reads_as D.may_leave disk.new (λ new. IsJournal new text (grants ++ more))) }
    ensures left { (file text : _) (grants more : _)
        → D.reads_as disk.old ≡ Some file → Only file (D.may_leave disk.old)
        → HoldsRecords file text grants gate more bytes.now
        → (c : _) → D.may_leave disk.new c → WithOrWithout text grants more c }
    ensures any_moment { (file text : _) (grants more : _)
        → D.reads_as disk.old ≡ Some file → Only file (D.may_leave disk.old)
        → HoldsRecords file text grants gate more bytes.now
        → LeavesOnly D.moment D.left_since disk.old disk.new (WithOrWithout text grants more) }
    ensures cause { HasCause (D.faults disk.old) (D.faults disk.new) result }
{
    write_records(disk, gate, bytes)?;
    open_gate(disk, gate)
}

// Makes what stands after the first gate stable. That gate stays closed.
fn write_records<D: Disk>(disk: &mut D, gate: u64, bytes: &[u8]) -> Result<(), Failed>
    requires in_range { gate < 2 ^ 63 }
    requires some { 1 ≤ length bytes.now }
    requires within { ForSome (D.reads_as disk.old) (λ file. gate + 1 ≤ length file) }
    ensures tells { Turns (D.reads_as disk.old) (D.reads_as disk.new) (λ _ _. ⊤) }
    ensures longer { OnOk result (ForSome (D.reads_as disk.new) (λ new. gate ≤ length new)) }
    ensures written { OnOk result (Turns (D.reads_as disk.old) (D.reads_as disk.new)
        (λ old new. new ≡ overwritten old (gate + 1) (drop 1 bytes.now))) }
    ensures staged { (file text : _) (grants more : _)
        → D.reads_as disk.old ≡ Some file → Only file (D.may_leave disk.old)
        → HoldsRecords file text grants gate more bytes.now
        → OnOk result (Rests D.reads_as D.may_leave disk.new (Staged text grants more)) }
    ensures left { (file text : _) (grants more : _)
        → D.reads_as disk.old ≡ Some file → Only file (D.may_leave disk.old)
        → HoldsRecords file text grants gate more bytes.now
        → (c : _) → D.may_leave disk.new c → IsJournal c text grants }
    ensures any_moment { (file text : _) (grants more : _)
        → D.reads_as disk.old ≡ Some file → Only file (D.may_leave disk.old)
        → HoldsRecords file text grants gate more bytes.now
        → LeavesOnly D.moment D.left_since disk.old disk.new (λ c. IsJournal c text grants) }
    ensures cause { HasCause (D.faults disk.old) (D.faults disk.new) result }
{
    write_through(disk, gate + 1, &bytes[1..])
}

/// The record after an open gate, and a closed gate after it.
pub(crate) fn with_gates(bytes: &[u8; 16]) -> [u8; 18]
    ensures { result ≡ 1 ∷ bytes.now ++ 0 ∷ [] }
{
    let mut piece = [0; 18];
    piece[0] = 1;
    piece[1..ENTRY_SIZE as usize].copy_from_slice(bytes);
    piece
}

/// The record after an open gate.
pub(crate) fn with_gate(bytes: &[u8; 16]) -> [u8; 17]
    ensures { result ≡ 1 ∷ bytes.now }
{
    let mut piece = [1; 17];
    piece[1..].copy_from_slice(bytes);
    piece
}

// Opens the gate before records that are stable.
fn open_gate<D: Disk>(disk: &mut D, gate: u64) -> Result<(), Failed>
    requires { ForSome (D.reads_as disk.old) (λ file. gate ≤ length file) }
    ensures tells { Turns (D.reads_as disk.old) (D.reads_as disk.new) (λ _ _. ⊤) }
    ensures written { OnOk result (Turns (D.reads_as disk.old) (D.reads_as disk.new)
        (λ old new. new ≡ overwritten old gate (1 ∷ []))) }
    ensures opened { (file text : _) (grants more : _)
        → D.reads_as disk.old ≡ Some file → Only file (D.may_leave disk.old)
        → Staged text grants more file → gate ≡ gate_of text grants
        → OnOk result (Rests D.reads_as D.may_leave disk.new (λ new. IsJournal new text (grants ++ more))) }
    ensures left { (file text : _) (grants more : _)
        → D.reads_as disk.old ≡ Some file → Only file (D.may_leave disk.old)
        → Staged text grants more file → gate ≡ gate_of text grants
        → (c : _) → D.may_leave disk.new c → WithOrWithout text grants more c }
    ensures any_moment { (file text : _) (grants more : _)
        → D.reads_as disk.old ≡ Some file → Only file (D.may_leave disk.old)
        → Staged text grants more file → gate ≡ gate_of text grants
        → LeavesOnly D.moment D.left_since disk.old disk.new (WithOrWithout text grants more) }
    ensures cause { HasCause (D.faults disk.old) (D.faults disk.new) result }
{
    write_through(disk, gate, &[1])
}
