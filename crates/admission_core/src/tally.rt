//! The parts of a cell with the numbers that run along with them.
use neighborhood_counts::Counts;
use part_table::Parts;

/// The parts, how many of them each neighborhood holds, and how many steps they need together.
#[derive(Drop)]
pub struct Tally {
    pub counts: Counts,
    pub parts: Parts,
    pub work: u64,
}
