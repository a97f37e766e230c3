//! The word by which a line says why a request is refused: it is written and read by this table.
ghost use Rattle.std.specs.Prelude.{◌≡◌, ◌+◌, ◌≤◌, ◌∷◌, ◌++◌, length};
ghost use Rattle.line_text.specs.declared.line.TheConstants.{LINE_BYTES};
ghost use Rattle.record_text.specs.RefusalWords.{refusal_word, plain_refusal};

use cell_base::Refusal;
use line_text::Line;

/// The job stands in the cell already.
const JOB_LOADED: &[u8] = b"job-loaded";

/// No part of the job stands in the cell.
const NO_SUCH_JOB: &[u8] = b"no-such-job";

/// The work at its place isn't done.
const NOT_PROCESSED: &[u8] = b"not-processed";

/// It stands at the last place of its route, so it can't move.
const AT_LAST: &[u8] = b"at-last";

/// It doesn't stand at the last place of its route, so it can't be unloaded.
const NOT_LAST: &[u8] = b"not-last";

/// No part waits for its work on the resource.
const IDLE: &[u8] = b"idle";

/// Its place has no branch of this number.
const NO_BRANCH: &[u8] = b"no-branch";

/// It stands before the resource, the count and the capacity.
pub const SATURATED: &[u8] = b"saturated";

/// The refusals after whose word nothing stands.
pub const PLAIN_REFUSALS: [Refusal; 7] = [
    Refusal::JobLoaded,
    Refusal::NoSuchJob,
    Refusal::NotProcessed,
    Refusal::AtLast,
    Refusal::NotLast,
    Refusal::Idle,
    Refusal::NoBranch,
];

/// The word of a refusal, as it stands in a line.
pub fn refusal_word(why: &Refusal) -> &'static [u8]
    ensures word { result.now ≡ refusal_word why.now }
    ensures len { length result.now ≤ 13 }
{
    match why {
        Refusal::JobLoaded => JOB_LOADED,
        Refusal::NoSuchJob => NO_SUCH_JOB,
        Refusal::NotProcessed => NOT_PROCESSED,
        Refusal::AtLast => AT_LAST,
        Refusal::NotLast => NOT_LAST,
        Refusal::Idle => IDLE,
        Refusal::NoBranch => NO_BRANCH,
        Refusal::Saturated { .. } => SATURATED,
    }
}

/// Appends a space and the word of a refusal. Each is copied as a constant: as what `refusal_word` gives, records of refusals took a
/// twentieth more instructions (1 December 2026).
#[inline(always)]
pub fn add_word(line: &mut Line, why: &Refusal)
    requires { length line.old + 14 ≤ LINE_BYTES }
    ensures word { line.new ≡ line.old ++ 32 ∷ refusal_word why.now }
    ensures len { length line.new ≡ length line.old + 1 + length (refusal_word why.now) }
{
    match why {
        Refusal::JobLoaded => line.word(JOB_LOADED),
        Refusal::NoSuchJob => line.word(NO_SUCH_JOB),
        Refusal::NotProcessed => line.word(NOT_PROCESSED),
        Refusal::AtLast => line.word(AT_LAST),
        Refusal::NotLast => line.word(NOT_LAST),
        Refusal::Idle => line.word(IDLE),
        Refusal::NoBranch => line.word(NO_BRANCH),
        Refusal::Saturated { .. } => line.word(SATURATED),
    }
}

/// The refusal of a word after which nothing stands.
#[tactic(auto, unfolding(crate::specs::RefusalWords::plain_refusal))]
pub fn plain_refusal(word: &[u8]) -> Option<Refusal>
    ensures { result ≡ plain_refusal word.now }
{
    PLAIN_REFUSALS
        .iter()
        .copied()
        .find(|why| word == refusal_word(why))
}
