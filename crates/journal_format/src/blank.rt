//! Files that hold no journal.

/// The name that stands after a file's gate.
pub const NAME: &[u8; 8] = b"RUNCELL1";

/// Why a file is blank.
#[derive(Clone, Copy, Debug, PartialEq, Eq)]
pub enum BlankForm {
    /// It has at most one byte.
    Short,
    /// Its gate is 0.
    Shut,
    /// Its gate is neither 0 nor 1, and the name stands after it.
    Named,
}
