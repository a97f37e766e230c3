//! The shifts that run on the cell `CROSSING`.

use anyhow::{Result, bail};
use cell_base::{Grant, JobId, Request, ResId, TypeId};

/// A shift that loads a part alone.
pub const LOAD: &str = "version = 1
number = 1
patience = 1
[[session]]
steps = [\"load 7 A\"]
";

/// A shift that loads a part and works it once.
pub const TWO_STEPS: &str = "version = 1
number = 1
patience = 1
[[session]]
steps = [\"load 7 A\", \"process M1\"]
";

/// A shift of one session that takes a part through the cell.
pub const ONE_SESSION: &str = "version = 1
number = 1
patience = 1
[[session]]
steps = [\"load 7 A\", \"process M1\", \"move 7\", \"process M2\", \"unload 7\"]
";

/// A shift of two sessions that take parts through the cell in both directions, each in the way of the other.
pub const TWO_SESSIONS: &str = "version = 1
number = 1
patience = 20
[[session]]
steps = [\"load 7 A\", \"process M1\", \"move 7\", \"process M2\", \"unload 7\"]
[[session]]
steps = [\"load 8 Z\", \"process M2\", \"move 8\", \"process M1\", \"unload 8\"]
";

/// A shift of one session that takes two parts through the cell, one after the other, in ten steps.
pub const TWO_PARTS: &str = "version = 1
number = 1
patience = 1
[[session]]
steps = [\"load 7 A\", \"process M1\", \"move 7\", \"process M2\", \"unload 7\",
    \"load 8 Z\", \"process M2\", \"move 8\", \"process M1\", \"unload 8\"]
";

/// A shift of two machines that find no part.
pub const IDLE: &str = "version = 1
number = 1
patience = 2
[[session]]
steps = [\"process M1\"]
[[session]]
steps = [\"process M2\"]
";

// The steps of these shifts. The first five are those of the one session, in their order.
const STEPS: [(&str, Request); 8] = [
    (
        "load 7 A",
        Request::Load {
            job: JobId(7),
            kind: TypeId(0),
        },
    ),
    ("process M1", Request::Process { machine: ResId(0) }),
    (
        "move 7",
        Request::Move {
            job: JobId(7),
            branch: 0,
        },
    ),
    ("process M2", Request::Process { machine: ResId(1) }),
    ("unload 7", Request::Unload { job: JobId(7) }),
    (
        "load 8 Z",
        Request::Load {
            job: JobId(8),
            kind: TypeId(1),
        },
    ),
    (
        "move 8",
        Request::Move {
            job: JobId(8),
            branch: 0,
        },
    ),
    ("unload 8", Request::Unload { job: JobId(8) }),
];

/// The request that a text asks for.
pub fn request_of(text: &str) -> Result<Request> {
    for (step, request) in STEPS {
        if step == text {
            return Ok(request);
        }
    }
    bail!("no step of these shifts: {text}")
}

/// Whether these are a prefix of the one session's grants.
pub fn are_first(grants: &[Grant]) -> bool {
    grants.len() <= 5
        && grants.iter().zip(&STEPS).all(|(grant, (_, request))| {
            grant.shift == 1 && grant.session == 1 && grant.request == *request
        })
}
