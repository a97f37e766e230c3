//! What the opening of a live cell gives.
use crate::LiveCell;
use outside_io::Disk;

/// A live cell, and the visitor to which the grants of its opening were handed on.
#[derive(Drop)]
pub struct OpenedLive<D: Disk, K> {
    pub live: LiveCell<D>,
    pub kept: K,
}
