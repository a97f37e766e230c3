//! A journal that is opened to be added to.
ghost use Rattle.std.specs.Prelude.{◌≡◌, ◌≤◌, ℕ, [], length, Ok, IfOk, IfErr, IfSome};
ghost use Rattle.durable_cell.specs.Openings.{fresh};
ghost use Rattle.journal_format.specs.Replayed.{opened_as};
ghost use Rattle.durable_cell.specs.declared.replays.TheConstants.{MAX_ROOM};
ghost use Rattle.cell_walks.specs.Clauses.{IsNotOpened, disk_told};
ghost use Rattle.cell_texts.specs.Clauses.{CellFits, MAX_CELL_BYTES, known};
ghost use Rattle.journal_texts.specs.Clauses.{to_add};
ghost use Rattle.journal_texts.specs.Openings.{opened_or_end};

use crate::refusals::at_journal_fault;
use cell_texts::{CellFile, Made};
use cell_walks::EarlyEnd;
use durable_cell::{Durable, Heard, Opening, Recalled};
use outside_io::Disk;
use shift_recovery::GrantVisitor;
use std::alloc::Global;

/// The durable cell after the grants of a journal that has at most `room` of them, with a list of these, or the early end in its place. At
/// most `limit` requests may be decided.
pub fn open_journal<D: Disk>(
    alloc: Global,
    held: CellFile,
    disk: D,
    room: u64,
    limit: u64,
) -> Result<Durable<D>, Made<EarlyEnd, D>>
    requires fits { CellFits held.cell }
    requires short { length held.text.items ≤ MAX_CELL_BYTES }
    requires room { room ≤ MAX_ROOM }
    requires limit { limit ≤ MAX_ROOM }
    ensures new { IfOk result (λ durable.
        durable ≡ fresh held.cell held.text.items disk durable.found durable.disk durable.opening limit) }
    ensures opening { IfOk result (λ durable.
        IfSome (D.reads_as disk) (λ file. opened_as held.cell file held.text.items room ≡ Ok durable.opening)) }
    ensures ended { IfErr result (λ ended.
        IsNotOpened (disk_told D.reads_as D.may_leave D.moment D.left_since D.faults disk ended.disk) (to_add (known held) room)
        ended.made) }
{
    let CellFile { cell, text } = held;
    opened_or_end(Durable::open(alloc, cell, &text, disk, room, limit))
}

/// The same without a list of the grants: each is handed on as it is read.
pub fn open_journal_with<D: Disk, K: GrantVisitor + Drop>(
    alloc: Global,
    held: CellFile,
    disk: D,
    room: u64,
    limit: u64,
    kept: K,
) -> Result<Heard<D, Recalled, K>, Made<EarlyEnd, D>>
    requires fits { CellFits held.cell }
    requires short { length held.text.items ≤ MAX_CELL_BYTES }
    requires room { room ≤ MAX_ROOM }
    requires limit { limit ≤ MAX_ROOM }
    requires none { (first : ℕ) → K.visited kept first [] kept }
    ensures new { IfOk result (λ heard. let durable = heard.durable in
        durable ≡ fresh held.cell held.text.items disk durable.found durable.disk durable.opening limit) }
    ensures opening { IfOk result (λ heard.
        IfSome (D.reads_as disk) (λ file. opened_as held.cell file held.text.items room ≡ Ok heard.durable.opening)) }
    ensures taken { IfOk result (λ heard. (first : ℕ) × K.visited kept first heard.durable.opening heard.kept) }
    ensures ended { IfErr result (λ ended.
        IsNotOpened (disk_told D.reads_as D.may_leave D.moment D.left_since D.faults disk ended.disk) (to_add (known held) room)
        ended.made) }
{
    let CellFile { cell, text } = held;
    opened_or_end(Durable::open_with(alloc, cell, &text, disk, room, limit, kept))
}

// What was opened, or the end of the command.
fn opened_or_end<D: Disk, O>(opening: Opening<D, O>) -> Result<O, Made<EarlyEnd, D>>
    ensures { result ≡ opened_or_end opening }
{
    match opening {
        Opening::Open(opened) => Ok(opened),
        Opening::Refused { disk, why } => Err(Made {
            made: at_journal_fault(why),
            disk,
        }),
        Opening::Device { disk } => Err(Made {
            made: EarlyEnd::DeviceFailed,
            disk,
        }),
        Opening::Memory { disk } => Err(Made {
            made: EarlyEnd::WantOfMemory,
            disk,
        }),
    }
}
