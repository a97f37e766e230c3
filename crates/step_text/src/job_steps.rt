//! The step of a job alone that a text asks for: an unload, or a move by the first branch.
ghost use Rattle.std.specs.Prelude.{◌≡◌, ◌∷◌, codes, Ok, IfSome};
ghost use Rattle.cell_base.specs.declared.cells.Cell.{Cell};
ghost use Rattle.step_text.specs.Steps.{IsStep, step_of};
ghost use Rattle.step_text.specs.Words.{words};

use crate::reading::job_of;
use cell_base::{JobId, Request};

/// The unload or the move that a text asks for, by one look at its verb and one at its job: what stands behind the verb is read as a number
/// with no search for a space, since no number has one in it. Where it is none, the text may yet be a step.
pub fn read_job_step(text: &[u8]) -> Option<Request>
    ensures step { IfSome result (λ request. (cell : Cell) → step_of cell text.now ≡ Ok request) }
    ensures fits { IfSome result (λ request. (cell : Cell) → IsStep cell request) }
{
    match read_unload(text) {
        Some(request) => Some(request),
        None => read_move(text),
    }
}

fn read_unload(text: &[u8]) -> Option<Request>
    ensures step { IfSome result (λ request. (cell : Cell) → step_of cell text.now ≡ Ok request) }
    ensures fits { IfSome result (λ request. (cell : Cell) → IsStep cell request) }
{
    match job_of(after_unload(text)?) {
        Ok(job) => Some(Request::Unload { job: JobId(job) }),
        Err(_) => None,
    }
}

fn read_move(text: &[u8]) -> Option<Request>
    ensures step { IfSome result (λ request. (cell : Cell) → step_of cell text.now ≡ Ok request) }
    ensures fits { IfSome result (λ request. (cell : Cell) → IsStep cell request) }
{
    match job_of(after_move(text)?) {
        Ok(job) => Some(Request::Move {
            job: JobId(job),
            branch: 0,
        }),
        Err(_) => None,
    }
}

// What stands after the verb of an unload.
fn after_unload(text: &[u8]) -> Option<&[u8]>
    ensures { IfSome result (λ rest. words text.now ≡ codes "unload" ∷ words rest.now) }
{
    match text {
        [b'u', b'n', b'l', b'o', b'a', b'd', b' ', rest @ ..] => Some(rest),
        _ => None,
    }
}

// What stands after the verb of a move.
fn after_move(text: &[u8]) -> Option<&[u8]>
    ensures { IfSome result (λ rest. words text.now ≡ codes "move" ∷ words rest.now) }
{
    match text {
        [b'm', b'o', b'v', b'e', b' ', rest @ ..] => Some(rest),
        _ => None,
    }
}
