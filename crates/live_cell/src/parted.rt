//! A live cell that is taken apart.
use admission_core::Core;

/// The core, after all that was decided, and the disk.
#[derive(Drop)]
pub struct LiveParts<D> {
    pub core: Core,
    pub disk: D,
}
