//! What a check of a record finds.

/// Why a line fails.
#[derive(Clone, Copy, Debug, PartialEq, Eq)]
pub enum Why {
    /// The head does not name the number of grants before it.
    After,
    /// The entry is not what the policy answers.
    Reply,
    /// Another number of parts is left.
    Left,
    /// The step is not granted in its turn.
    Step,
    /// The steps of the plan are granted, and parts remain.
    Parts,
}

/// Whether each line is right, or the first one that fails.
#[derive(Clone, Copy, Debug, PartialEq, Eq)]
pub enum Verdict {
    Yes,
    No { line: u32, why: Why },
}
