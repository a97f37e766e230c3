//! What the lines of a record say. Each reader reads what the definition of its name says.
ghost use Rattle.std.specs.Prelude.{◌≡◌};
ghost use Rattle.std.specs.Option.{option_and_then, option_map, option_copied, option_or};
ghost use Rattle.std.specs.Result.{result_ok};
ghost use Rattle.step_text.specs.Words.{words};
ghost use Rattle.step_text.specs.Steps.{step_of_three, step_of_two};
ghost use Rattle.record_text.specs.Reading.{asked_at, entry_at, head_at, left_at, placing_of, plan_at, step_at};
ghost use Rattle.record_text.specs.Reading.{three_at, told_after, two_at, word_at, words_of_rest};

use crate::placing_at::place_at;
use crate::told_at::told_at;
use crate::words::{Rest, after_word, is_end, number_at, word_at};
use cell_base::{Entry, Request, Told};
use step_text::{IndexedCell, step_of_three, step_of_two};

const SHIFT: &[u8] = b"shift";

const AFTER: &[u8] = b"after";

const LEFT: &[u8] = b"left";

const PLAN: &[u8] = b"plan";

/// The shift, and the number of grants before it, that a head line tells.
#[tactic(auto, unfolding(crate::specs::Reading::head_at))]
pub fn head_at(line: &[u8]) -> Option<(u32, u64)>
    ensures { result ≡ head_at (words line.now) }
{
    let rest = after_word(SHIFT, Some(line))?;
    let (shift, rest) = number_at(0, u32::MAX as u64, rest)?;
    let rest = after_word(AFTER, rest)?;
    let (after, rest) = number_at(0, u64::MAX, rest)?;
    if is_end(rest) {
        Some((shift as u32, after))
    } else {
        None
    }
}

/// The entry that a line is.
#[tactic(auto, unfolding(crate::specs::Reading::entry_at))]
pub fn entry_at(cell: &IndexedCell<'_>, line: &[u8]) -> Option<Entry>
    ensures { result ≡ entry_at cell.now (words line.now) }
{
    let (session, rest) = number_at(0, u16::MAX as u64, Some(line))?;
    let (request, told) = asked_at(cell, rest)?;
    Some(Entry {
        session: session as u16,
        request,
        told,
    })
}

/// A request and what was told of it. A name may be any word, so the end of the request is found by trying: the words of
/// one form are never those of another.
#[tactic(auto, unfolding(crate::specs::Reading::asked_at))]
fn asked_at(cell: &IndexedCell<'_>, rest: Rest<'_>) -> Option<(Request, Told)>
    ensures { result ≡ asked_at cell.now (words_of_rest (option_copied rest.entry)) }
{
    match step_told(cell, rest) {
        Some(asked) => Some(asked),
        None => told_after(cell, place_at(cell, rest)),
    }
}

// A step and what was told of it. Its first two words are cut once, whether it has two or three.
#[tactic(auto, unfolding(crate::specs::Reading::two_at, crate::specs::Reading::three_at, crate::specs::Reading::told_after))]
fn step_told(cell: &IndexedCell<'_>, rest: Rest<'_>) -> Option<(Request, Told)>
    ensures { result ≡ option_or (told_after cell.now (two_at cell.now (words_of_rest (option_copied rest.entry))))
        (told_after cell.now (three_at cell.now (words_of_rest (option_copied rest.entry)))) }
{
    let (verb, rest) = word_at(rest)?;
    let (word, rest) = word_at(rest)?;
    match two_told(cell, verb, word, rest) {
        Some(asked) => Some(asked),
        None => three_told(cell, verb, word, rest),
    }
}

// A step of two words, which are cut.
#[tactic(auto, unfolding(crate::specs::Reading::told_after))]
#[inline(always)]
fn two_told(
    cell: &IndexedCell<'_>,
    verb: &[u8],
    word: &[u8],
    rest: Rest<'_>,
) -> Option<(Request, Told)>
    ensures { result ≡ told_after cell.now (option_map (λ request. (request, words_of_rest (option_copied rest.entry)))
        (result_ok (step_of_two cell.now verb.now word.now))) }
{
    let request = step_of_two(cell, verb, word).ok()?;
    let told = told_at(cell, rest)?;
    Some((request, told))
}

// A step of three words, of which two are cut.
#[tactic(auto, unfolding(crate::specs::Reading::told_after))]
#[inline(always)]
fn three_told(
    cell: &IndexedCell<'_>,
    verb: &[u8],
    word: &[u8],
    rest: Rest<'_>,
) -> Option<(Request, Told)>
    ensures { result ≡ told_after cell.now (option_and_then (λ last.
        option_map (λ request. (request, last.1)) (result_ok (step_of_three cell.now verb.now word.now last.0)))
        (word_at (words_of_rest (option_copied rest.entry)))) }
{
    let (last, rest) = word_at(rest)?;
    let request = step_of_three(cell, verb, word, last).ok()?;
    let told = told_at(cell, rest)?;
    Some((request, told))
}

#[tactic(auto, unfolding(crate::specs::Reading::told_after))]
#[inline(always)]
fn told_after(cell: &IndexedCell<'_>, read: Option<(Request, Rest<'_>)>) -> Option<(Request, Told)>
    ensures { result ≡ told_after cell.now (option_map (λ x. (x.0, words_of_rest (option_copied x.1))) read.entry) }
{
    let (request, rest) = read?;
    let told = told_at(cell, rest)?;
    Some((request, told))
}

/// The number of parts that a left line tells.
#[tactic(auto, unfolding(crate::specs::Reading::left_at))]
pub fn left_at(line: &[u8]) -> Option<u32>
    ensures { result ≡ left_at (words line.now) }
{
    let rest = after_word(LEFT, Some(line))?;
    let (left, rest) = number_at(0, u32::MAX as u64, rest)?;
    if is_end(rest) {
        Some(left as u32)
    } else {
        None
    }
}

/// The number of steps that a plan line tells.
#[tactic(auto, unfolding(crate::specs::Reading::plan_at))]
pub fn plan_at(line: &[u8]) -> Option<u64>
    ensures { result ≡ plan_at (words line.now) }
{
    let rest = after_word(PLAN, Some(line))?;
    let (steps, rest) = number_at(0, u64::MAX, rest)?;
    if is_end(rest) { Some(steps) } else { None }
}

/// The step of a plan that a line is.
#[tactic(auto, unfolding(crate::specs::Reading::step_at, step_text::specs::Steps::step_of))]
pub fn step_at(cell: &IndexedCell<'_>, line: &[u8]) -> Option<Request>
    ensures { result ≡ step_at cell.now (words line.now) }
{
    cell.read(line).ok()
}

/// The request that a line without its newline places a part by. It fits the cell.
#[tactic(auto, unfolding(crate::specs::Reading::placing_of))]
pub fn placing_of(cell: &IndexedCell<'_>, line: &[u8]) -> Option<Request>
    ensures { result ≡ placing_of cell.now (words line.now) }
{
    let (request, rest) = place_at(cell, Some(line))?;
    if is_end(rest) { Some(request) } else { None }
}
