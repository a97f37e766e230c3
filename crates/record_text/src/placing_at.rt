//! The part that an entry, or a line of a start file, places.
ghost use Rattle.std.specs.Prelude.{◌≡◌};
ghost use Rattle.std.specs.Option.{option_map, option_copied};
ghost use Rattle.record_text.specs.Reading.{words_of_rest, place_fits, place_at};

use crate::words::{Rest, after_word, done_at, number_at, type_at};
use cell_base::{JobId, Request, TypeId, request_fits};
use step_text::IndexedCell;

const PLACE: &[u8] = b"place";

fn place_fits(cell: &IndexedCell<'_>, job: u32, kind: u16, place: u16, done: bool) -> bool
    ensures { result ≡ place_fits cell.now kind place done }
{
    let request = Request::Place {
        job: JobId(job),
        kind: TypeId(kind),
        place,
        done,
    };
    request_fits(cell.as_cell(), &request)
}

/// A place of a part at which one may stand.
#[tactic(auto, unfolding(crate::specs::Reading::place_at))]
pub fn place_at<'a>(cell: &IndexedCell<'_>, rest: Rest<'a>) -> Option<(Request, Rest<'a>)>
    ensures { option_map (λ x. (x.0, words_of_rest (option_copied x.1))) result
        ≡ place_at cell.now (words_of_rest (option_copied rest.entry)) }
{
    let rest = after_word(PLACE, rest)?;
    let (job, rest) = number_at(0, u32::MAX as u64, rest)?;
    let (kind, rest) = type_at(cell, rest)?;
    let (place, rest) = number_at(0, u16::MAX as u64, rest)?;
    let (done, rest) = done_at(rest)?;
    if !place_fits(cell, job as u32, kind, place as u16, done) {
        return None;
    }
    let request = Request::Place {
        job: JobId(job as u32),
        kind: TypeId(kind),
        place: place as u16,
        done,
    };
    Some((request, rest))
}
