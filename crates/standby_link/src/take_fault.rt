//! Why a frame is not taken.
use cell_base::{Grant, Refusal};

/// Why a frame is not taken, in the order of the tests. But for `Device` nothing has changed then.
#[derive(Clone, Copy, Debug, PartialEq, Eq)]
pub enum TakeFault {
    /// The history of the durable cell holds a halt, as its entry `at`.
    Halted { at: u64 },
    /// The bytes are no frame.
    NotAFrame,
    /// The standby has another grant at that index.
    Conflict { at: u64, kept: Grant },
    /// The frame is the next one, and its request does not fit the cell.
    NoFit,
    /// The frame is the next one, and its request is refused.
    NotGranted(Refusal),
    /// The frame is the next one, and as many grants were appended as there was room for. `len` is the number of all grants.
    Full { len: u64 },
    /// The frame is the next one, and the writing of its grant failed.
    Device,
}
