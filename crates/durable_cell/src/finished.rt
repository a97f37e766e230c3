//! A durable cell that is taken apart: what stands on its disk, and what its core and its history say of that.
use admission_core::Core;
use cell_base::{Entry, List};

/// The parts of a durable cell. `after` is the number of the grants of its opening.
#[derive(Drop)]
pub struct Finished<D> {
    pub disk: D,
    pub core: Core,
    pub history: List<Entry>,
    pub after: u64,
}
