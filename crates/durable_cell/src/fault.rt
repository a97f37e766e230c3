//! Why a request is not decided: no answer of the policy, but what the disk or the room for the history doesn't allow.

/// Why a request is not decided, in the order of the tests.
#[derive(Clone, Copy, Debug, PartialEq, Eq)]
pub enum AskFault {
    /// The history holds a halt, as its entry `at`. Nothing changes.
    Halted { at: u64 },
    /// The history has as many entries as its limit allows. Nothing changes.
    Full { len: u64 },
    /// The request would have been granted, and its writing failed. It is the entry `at` of the history, as the halt.
    Device { at: u64 },
}
