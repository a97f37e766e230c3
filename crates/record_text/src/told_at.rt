//! What was told of a request, up to the end of the line.
ghost use Rattle.std.specs.Prelude.{◌≡◌};
ghost use Rattle.std.specs.Option.{option_copied};
ghost use Rattle.record_text.specs.Reading.{words_of_rest, saturated_at, why_at, told_at};

use crate::refusal_words::{SATURATED, plain_refusal};
use crate::words::{Rest, after_word, is_end, number_at, resource_at, word_at};
use cell_base::{Refusal, Reply, ResId, Told};
use step_text::IndexedCell;

const GRANTED: &[u8] = b"granted";

const REFUSED: &[u8] = b"refused";

const HALTED: &[u8] = b"halted";

const OF: &[u8] = b"of";

/// What was told.
#[tactic(auto, unfolding(crate::specs::Reading::told_at, crate::specs::Reading::told_of))]
#[inline(always)]
pub fn told_at(cell: &IndexedCell<'_>, rest: Rest<'_>) -> Option<Told>
    ensures { result ≡ told_at cell.now (words_of_rest (option_copied rest.entry)) }
{
    let (word, rest) = word_at(rest)?;
    if word == GRANTED {
        return if is_end(rest) {
            Some(Told::Answered(Reply::Granted))
        } else {
            None
        };
    }
    if word == REFUSED {
        let why = why_at(cell, rest)?;
        return Some(Told::Answered(Reply::Refused(why)));
    }
    if word == HALTED {
        return if is_end(rest) {
            Some(Told::Halted)
        } else {
            None
        };
    }
    None
}

#[tactic(auto, unfolding(crate::specs::Reading::why_at))]
fn why_at(cell: &IndexedCell<'_>, rest: Rest<'_>) -> Option<Refusal>
    ensures { result ≡ why_at cell.now (words_of_rest (option_copied rest.entry)) }
{
    let (word, rest) = word_at(rest)?;
    if word == SATURATED {
        return saturated_at(cell, rest);
    }
    let why = plain_refusal(word)?;
    if is_end(rest) { Some(why) } else { None }
}

#[tactic(auto, unfolding(crate::specs::Reading::saturated_at))]
fn saturated_at(cell: &IndexedCell<'_>, rest: Rest<'_>) -> Option<Refusal>
    ensures { result ≡ saturated_at cell.now (words_of_rest (option_copied rest.entry)) }
{
    let (at, rest) = resource_at(cell, rest)?;
    let (count, rest) = number_at(0, u32::MAX as u64, rest)?;
    let rest = after_word(OF, rest)?;
    let (capacity, rest) = number_at(0, u32::MAX as u64, rest)?;
    if !is_end(rest) {
        return None;
    }
    Some(Refusal::Saturated {
        at: ResId(at),
        count: count as u32,
        capacity: capacity as u32,
    })
}
