//! Why a request is not decided: the journal has no room for its grant. A request that the policy refuses is told so all the same.

/// The request would be granted, and the grants on the disk and the pending ones use up the journal's room. Nothing changes.
#[derive(Clone, Copy, Debug, PartialEq, Eq)]
pub struct JournalFull;
