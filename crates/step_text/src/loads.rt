//! The load that a text asks for, where its type is known at once.
ghost use Rattle.std.specs.Prelude.{◌≡◌, ◌<◌, ◌∷◌, codes, length, true, Ok, IfSome, slice_index, take};
ghost use Rattle.std.specs.Char.{is_ascii_digit};
ghost use Rattle.std.specs.List.{list_all};
ghost use Rattle.std.specs.Str.Parse.{digits_value};
ghost use Rattle.step_text.specs.Steps.{BeginsWithJob, IsStep, step_of};
ghost use Rattle.step_text.specs.Words.{words};

use crate::IndexedCell;
use crate::words::{digit_of, is_plain};
use cell_base::{JobId, Request, TypeId};

/// The most digits of a job.
const JOB_DIGITS: usize = 10;

/// The load that a text asks for. What stands behind the job is looked up as a name with no test of its bytes, since no name has a space
/// in it. Where it is none, the text may yet be a step, or a load of another form.
pub fn read_load(cell: &IndexedCell<'_>, text: &[u8]) -> Option<Request>
    ensures step { IfSome result (λ request. step_of cell.now text.now ≡ Ok request) }
    ensures fits { IfSome result (IsStep cell.now) }
{
    let (job, name) = cut_job(after_load(text)?)?;
    let number = cell.type_of(name)?;
    Some(Request::Load {
        job: JobId(job),
        kind: TypeId(number),
    })
}

// What stands after the verb of a load.
fn after_load(text: &[u8]) -> Option<&[u8]>
    ensures { IfSome result (λ rest. words text.now ≡ codes "load" ∷ words rest.now) }
{
    match text {
        [b'l', b'o', b'a', b'd', b' ', rest @ ..] => Some(rest),
        _ => None,
    }
}

// The job that a text begins with, and what stands after the space behind it: the word is cut and its digits are read in one pass.
fn cut_job(text: &[u8]) -> Option<(u32, &[u8])>
    ensures { IfSome result (λ found. BeginsWithJob text.now found.0 found.1.now) }
{
    let mut value: u64 = 0;
    for at in 0..text.len().min(JOB_DIGITS + 1) {
        if text[at] == b' ' {
            return job_before(text, at, value);
        }
        value = value * 10 + digit_of(text[at])?;
    }
    None
}

// The same where so many digits, of this value, stand before the first space.
fn job_before(text: &[u8], at: usize, value: u64) -> Option<(u32, &[u8])>
    requires inside { at < length text.now }
    requires space { slice_index text.now at ≡ 32 }
    requires digits { list_all is_ascii_digit (take at text.now) ≡ true }
    requires value { value ≡ digits_value 10 (take at text.now) }
    ensures { IfSome result (λ found. BeginsWithJob text.now found.0 found.1.now) }
{
    if !is_plain(&text[..at]) {
        return None;
    }
    match u32::try_from(value) {
        Ok(job) => Some((job, &text[at + 1..])),
        Err(_) => None,
    }
}
