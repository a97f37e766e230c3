//! Guesses which type, and which resource, a name is.
ghost use Rattle.cell_base.specs.Fits.{CellFits};

use cell_base::Cell;

/// An index of the names of a cell: for each key of a name it has a guess which type, and which resource, that is. It promises nothing, and
/// a guess is compared with the name before it is taken: one that is wrong costs time alone. It takes no memory beside its own bytes.
#[derive(Drop)]
pub struct NameIndex {
    types: [u8; 256],
    resources: [u8; 256],
}

/// The index in which each name is the first.
pub(crate) static FIRST_ALWAYS: NameIndex = NameIndex {
    types: [0; 256],
    resources: [0; 256],
};

impl NameIndex {
    /// The index of this cell.
    pub fn of(cell: &Cell) -> NameIndex
        requires { CellFits cell.now }
    {
        let mut types = [0; 256];
        for (k, job_type) in cell.types.as_slice().iter().enumerate() {
            types[usize::from(key_of(job_type.name.bytes()))] = k as u8;
        }
        let mut resources = [0; 256];
        for (k, resource) in cell.resources.as_slice().iter().enumerate() {
            resources[usize::from(key_of(resource.name.bytes()))] = k as u8;
        }
        NameIndex { types, resources }
    }

    /// The type that a name may be.
    pub(crate) fn guessed_type(&self, name: &[u8]) -> u8 {
        self.types[usize::from(key_of(name))]
    }

    /// The resource that a name may be.
    pub(crate) fn guessed_resource(&self, name: &[u8]) -> u8 {
        self.resources[usize::from(key_of(name))]
    }
}

// Where the guess of a name stands: names mostly differ in their first byte and in their last two.
fn key_of(name: &[u8]) -> u8 {
    match name {
        [first, .., second, last] => first
            .wrapping_mul(32)
            .wrapping_add(second.wrapping_mul(16))
            .wrapping_add(*last),
        [first, last] => first.wrapping_mul(16).wrapping_add(*last),
        [only] => *only,
        [] => 0,
    }
}
