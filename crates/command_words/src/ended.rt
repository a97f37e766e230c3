//! How a call with the words of a command line ended.

/// The exit status, and the disk that was handed in.
#[derive(Drop)]
pub struct Ended<D> {
    pub status: u8,
    pub disk: D,
}
