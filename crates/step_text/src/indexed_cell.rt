//! A cell in which a name is found at once, where `type_of` and `resource_of` compare name after name.
ghost use Rattle.std.specs.Prelude.{◌≡◌, ◌<◌, length, position, IfSome};
ghost use Rattle.std.specs.Str.{bytes_eq};
ghost use Rattle.cell_base.specs.Fits.{CellFits};
ghost use Rattle.cell_base.specs.Named.{resource_name, resource_names, type_name, type_names};

use crate::NameIndex;
use crate::name_index::FIRST_ALWAYS;
use crate::names::{are_same, resource_of, type_of};
use cell_base::Cell;
use std::marker::Model;

/// A cell beside an index of its names. No two types and no two resources have one name, so a guess that has the name is right, and any
/// other costs time alone. Contracts see it as the cell.
#[derive(Drop)]
pub struct IndexedCell<'a> {
    cell: &'a Cell,
    names: &'a NameIndex,
}

impl<'a> Model for IndexedCell<'a> {
    ghost use Rattle.cell_base.specs.declared.cells.Cell.{Cell};
    ghost use Rattle.cell_base.specs.Fits.{CellFits};

    ghost Value = { Cell };

    ghost view = { λ s. s.cell.now };

    ghost invariant = { λ s. CellFits s.cell.now };
}

impl<'a> IndexedCell<'a> {
    /// This cell, by an index that was made of it. Both are lent, so this takes no time, and may be made anew for each text.
    #[inline(always)]
    pub fn over(cell: &'a Cell, names: &'a NameIndex) -> IndexedCell<'a>
        requires { CellFits cell.now }
        ensures { result ≡ cell.now }
    {
        IndexedCell { cell, names }
    }

    /// The same with no index, for one step: that of a large cell takes longer than a look through its names.
    pub(crate) fn for_one(cell: &'a Cell) -> IndexedCell<'a>
        requires { CellFits cell.now }
        ensures { result ≡ cell.now }
    {
        IndexedCell::over(cell, &FIRST_ALWAYS)
    }

    /// The cell.
    pub fn as_cell(&self) -> &Cell
        ensures value { result.now ≡ self.now }
        ensures fits { CellFits self.now }
    {
        self.cell
    }

    /// The number of the type of a name, where the cell has one.
    pub fn type_of(&self, name: &[u8]) -> Option<u16>
        ensures number { result ≡ position (bytes_eq name.now) (type_names self.now.types) }
        ensures within { IfSome result (λ number. number < length self.now.types) }
        ensures fits { CellFits self.now }
    {
        match self.guessed_type(name) {
            Some(number) => Some(number),
            None => type_of(self.cell, name),
        }
    }

    /// The number of the resource of a name, where the cell has one.
    pub fn resource_of(&self, name: &[u8]) -> Option<u16>
        ensures number { result ≡ position (bytes_eq name.now) (resource_names self.now.resources) }
        ensures within { IfSome result (λ number. number < length self.now.resources) }
        ensures fits { CellFits self.now }
    {
        match self.guessed_resource(name) {
            Some(number) => Some(number),
            None => resource_of(self.cell, name),
        }
    }

    // The number of the type of a name, where the guess is right.
    fn guessed_type(&self, name: &[u8]) -> Option<u16>
        ensures name { IfSome result (λ number. type_name self.now number ≡ name.now) }
        ensures within { IfSome result (λ number. number < length self.now.types) }
    {
        let guess = self.names.guessed_type(name);
        match self.cell.types.as_slice().get(usize::from(guess)) {
            Some(job_type) if are_same(name, job_type.name.bytes()) => Some(u16::from(guess)),
            _ => None,
        }
    }

    // The number of the resource of a name, where the guess is right.
    fn guessed_resource(&self, name: &[u8]) -> Option<u16>
        ensures name { IfSome result (λ number. resource_name self.now number ≡ name.now) }
        ensures within { IfSome result (λ number. number < length self.now.resources) }
    {
        let guess = self.names.guessed_resource(name);
        match self.cell.resources.as_slice().get(usize::from(guess)) {
            Some(resource) if are_same(name, resource.name.bytes()) => Some(u16::from(guess)),
            _ => None,
        }
    }
}
