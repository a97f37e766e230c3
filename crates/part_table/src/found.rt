//! A part that was looked up, and where it stood then.
use cell_base::Part;

/// Where a part stood as it was looked up. A call that takes it finds the part there without a look-up by its job. It is no promise:
/// where the part stands elsewhere by now, the call looks it up, and does the same.
#[derive(Clone, Copy, Debug, PartialEq, Eq)]
pub struct PositionHint(pub(crate) u32);

/// A part with the hint to it.
#[derive(Clone, Copy, Debug, PartialEq, Eq)]
pub struct Found {
    pub part: Part,
    pub hint: PositionHint,
}
