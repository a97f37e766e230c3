//! The words of a line, read from the left.
//!
//! Each reader takes what is left of the line, and gives what it has read with what is left after it.
ghost use Rattle.std.specs.Prelude.{◌≡◌, ◌<◌, ◌≤◌, length, IfSome};
ghost use Rattle.std.specs.Option.{option_map, option_copied};
ghost use Rattle.record_text.specs.Reading.{words_of_rest, word_at, is_end, after_word, number_at, type_at, resource_at, done_at};

use step_text::{IndexedCell, cut, number_of, resource_named, type_named};

const DONE: &[u8] = b"done";

const WAITING: &[u8] = b"waiting";

/// What is left of a line after a word: the text after the space that follows it, if there is one.
pub type Rest<'a> = Option<&'a [u8]>;

/// The first word.
pub fn word_at<'a>(rest: Rest<'a>) -> Option<(&'a [u8], Rest<'a>)>
    ensures { option_map (λ x. (x.0.now, words_of_rest (option_copied x.1))) result ≡ word_at (words_of_rest (option_copied rest.entry)) }
{
    match rest {
        Some(text) => Some(cut(text)),
        None => None,
    }
}

/// Whether nothing more stands there.
#[tactic(auto, using(crate::proofs::Splitting::some_left), unfolding(crate::specs::Reading::is_end))]
pub fn is_end(rest: Rest<'_>) -> bool
    ensures { result ≡ is_end (words_of_rest (option_copied rest.entry)) }
{
    match rest {
        Some(_) => false,
        None => true,
    }
}

/// What stands after this word.
#[tactic(auto, unfolding(crate::specs::Reading::after_word))]
pub fn after_word<'a>(key: &[u8], rest: Rest<'a>) -> Option<Rest<'a>>
    ensures { option_map (λ rest. words_of_rest (option_copied rest)) result
        ≡ after_word key.now (words_of_rest (option_copied rest.entry)) }
{
    let (word, rest) = word_at(rest)?;
    if word == key { Some(rest) } else { None }
}

/// A number from `low` to `high`.
#[tactic(auto, unfolding(crate::specs::Reading::number_at))]
pub fn number_at(low: u64, high: u64, rest: Rest<'_>) -> Option<(u64, Rest<'_>)>
    ensures number { option_map (λ x. (x.0, words_of_rest (option_copied x.1))) result
        ≡ number_at low high (words_of_rest (option_copied rest.entry)) }
    ensures within { IfSome result (λ x. x.0 ≤ high) }
{
    let (word, rest) = word_at(rest)?;
    match number_of(low, high, word) {
        Some(n) => Some((n, rest)),
        None => None,
    }
}

/// The number of a type of the cell, by its name.
#[tactic(auto, unfolding(crate::specs::Reading::type_at))]
pub fn type_at<'a>(cell: &IndexedCell<'_>, rest: Rest<'a>) -> Option<(u16, Rest<'a>)>
    ensures kind { option_map (λ x. (x.0, words_of_rest (option_copied x.1))) result
        ≡ type_at cell.now (words_of_rest (option_copied rest.entry)) }
    ensures within { IfSome result (λ x. x.0 < length cell.now.types) }
{
    let (word, rest) = word_at(rest)?;
    match type_named(cell, word) {
        Ok(kind) => Some((kind, rest)),
        Err(_) => None,
    }
}

/// The number of a resource of the cell, by its name.
#[tactic(auto, unfolding(crate::specs::Reading::resource_at))]
pub fn resource_at<'a>(cell: &IndexedCell<'_>, rest: Rest<'a>) -> Option<(u16, Rest<'a>)>
    ensures resource { option_map (λ x. (x.0, words_of_rest (option_copied x.1))) result
        ≡ resource_at cell.now (words_of_rest (option_copied rest.entry)) }
    ensures within { IfSome result (λ x. x.0 < length cell.now.resources) }
{
    let (word, rest) = word_at(rest)?;
    match resource_named(cell, word) {
        Ok(r) => Some((r, rest)),
        Err(_) => None,
    }
}

/// Whether a placed part is done.
#[tactic(auto, unfolding(crate::specs::Reading::done_at))]
pub fn done_at(rest: Rest<'_>) -> Option<(bool, Rest<'_>)>
    ensures { option_map (λ x. (x.0, words_of_rest (option_copied x.1))) result ≡ done_at (words_of_rest (option_copied rest.entry)) }
{
    let (word, rest) = word_at(rest)?;
    if word == DONE {
        return Some((true, rest));
    }
    if word == WAITING {
        return Some((false, rest));
    }
    None
}
