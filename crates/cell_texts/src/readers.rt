//! The files of a command, read and tested.
ghost use Rattle.std.specs.Prelude.{◌≡◌, ◌≤◌, ◌⊎◌, length, IfOk, IfErr, OnOk};
ghost use Rattle.outside_io.specs.Files.{IsReadOf};
ghost use Rattle.cell_walks.specs.Clauses.{File, IsEndedAt, IsUnread, ShowsFile, files_told};
ghost use Rattle.cell_walks.specs.declared.early_end.EarlyEnd.TheVariants.{WantOfMemory};
ghost use Rattle.cell_texts.specs.Clauses.{CellFits, MAX_CELL_BYTES, ShiftFits, cell_file, cell_reads, known, shift_file, shift_of};

use crate::refusals::{at_cell_fault, at_shift_fault};
use cell_base::{Cell, Shift};
use cell_file::MAX_CELL_BYTES;
use cell_walks::{EarlyEnd, Status};
use outside_io::{FileFail, Files};
use shift_file::MAX_SHIFT_BYTES;
use std::alloc::Global;

/// How a command ended, and the disk that was handed in.
#[derive(Drop)]
pub struct CommandEnd<D> {
    pub status: Status,
    pub disk: D,
}

/// A cell, and the text that it was read from: the bytes of its file.
#[derive(Drop)]
pub struct CellFile {
    pub cell: Cell,
    pub text: Vec<u8>,
}

/// Reads a file, cut after one byte more than the limit.
pub fn read_named<F: Files>(
    alloc: Global,
    files: &mut F,
    name: &str,
    limit: u32,
) -> Result<Vec<u8>, EarlyEnd>
    ensures read { IfOk result (λ bytes. IsReadOf (F.holds files.old) name.now limit bytes.items) }
    ensures kept { OnOk result (F.faults files.new ≡ F.faults files.old) }
    ensures same { F.holds files.new ≡ F.holds files.old }
    ensures stays_sound { F.is_sound files.old → F.is_sound files.new }
    ensures unread { IfErr result (λ end. (end ≡ WantOfMemory)
        ⊎ IsUnread (files_told F.holds F.is_sound F.faults files.old files.new) (File name.now) end) }
{
    let mut bytes = Vec::new(alloc);
    match files.read_file(alloc, name, u64::from(limit), &mut bytes) {
        Ok(()) => Ok(bytes),
        Err(FileFail::Failed) => Err(EarlyEnd::NotRead),
        Err(FileFail::Memory) => Err(EarlyEnd::WantOfMemory),
    }
}

/// The cell of a file with its text, or the end in its place.
pub fn read_cell<F: Files>(alloc: Global, files: &mut F, name: &str) -> Result<CellFile, EarlyEnd>
    ensures read { IfOk result (λ held.
        ShowsFile (files_told F.holds F.is_sound F.faults files.old files.new) name.now (λ bytes. cell_reads bytes (Ok (known held)))) }
    ensures fits { IfOk result (λ held. CellFits held.cell) }
    ensures short { IfOk result (λ held. length held.text.items ≤ MAX_CELL_BYTES) }
    ensures kept { OnOk result (F.faults files.new ≡ F.faults files.old) }
    ensures same { F.holds files.new ≡ F.holds files.old }
    ensures stays_sound { F.is_sound files.old → F.is_sound files.new }
    ensures ended { IfErr result (IsEndedAt (files_told F.holds F.is_sound F.faults files.old files.new) (cell_file name.now)) }
{
    let text = match read_named(alloc, files, name, MAX_CELL_BYTES) {
        Ok(text) => text,
        Err(end) => return Err(end),
    };
    match cell_file::read_cell(alloc, &text) {
        Ok(cell) => Ok(CellFile { cell, text }),
        Err(fault) => Err(at_cell_fault(fault)),
    }
}

/// The shift of a file for this cell, or the end in its place.
pub fn read_shift<F: Files>(
    alloc: Global,
    files: &mut F,
    cell: &Cell,
    name: &str,
) -> Result<Shift, EarlyEnd>
    requires { CellFits cell.now }
    ensures read { IfOk result (λ shift. ShowsFile (files_told F.holds F.is_sound F.faults files.old files.new) name.now
        (λ bytes. shift_of cell.now bytes ≡ Ok shift)) }
    ensures fits { IfOk result (ShiftFits cell.now) }
    ensures ended { IfErr result (IsEndedAt (files_told F.holds F.is_sound F.faults files.old files.new) (shift_file cell.now name.now)) }
{
    let bytes = match read_named(alloc, files, name, MAX_SHIFT_BYTES) {
        Ok(bytes) => bytes,
        Err(end) => return Err(end),
    };
    match shift_file::read_shift(alloc, cell, &bytes) {
        Ok(shift) => Ok(shift),
        Err(fault) => Err(at_shift_fault(fault)),
    }
}
