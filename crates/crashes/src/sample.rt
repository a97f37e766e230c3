//! The grants of which the journals are made, on the cell `CROSSING`.

use cell_base::{Grant, JobId, Request, ResId, TypeId};

/// The text of the cell.
pub use test_fixtures::CROSSING as CELL;

/// How many grants a journal may have where a table doesn't say otherwise.
pub const ROOM: u64 = 1_000;

// A part goes through the cell.
const GRANTS: [Grant; 5] = [
    Grant {
        shift: 1,
        session: 1,
        request: Request::Load {
            job: JobId(7),
            kind: TypeId(0),
        },
    },
    Grant {
        shift: 1,
        session: 1,
        request: Request::Process { machine: ResId(0) },
    },
    Grant {
        shift: 1,
        session: 1,
        request: Request::Move {
            job: JobId(7),
            branch: 0,
        },
    },
    Grant {
        shift: 1,
        session: 2,
        request: Request::Process { machine: ResId(1) },
    },
    Grant {
        shift: 1,
        session: 1,
        request: Request::Unload { job: JobId(7) },
    },
];

// Their records, byte by byte as the format has them.
const RECORDS: [[u8; 16]; 5] = [
    [1, 0, 0, 1, 0, 0, 0, 1, 0, 0, 0, 7, 0, 0, 0, 0],
    [2, 0, 0, 1, 0, 0, 0, 1, 0, 0, 0, 0, 0, 0, 0, 0],
    [3, 0, 0, 1, 0, 0, 0, 1, 0, 0, 0, 7, 0, 0, 0, 0],
    [2, 0, 0, 2, 0, 0, 0, 1, 0, 0, 0, 0, 0, 0, 0, 1],
    [4, 0, 0, 1, 0, 0, 0, 1, 0, 0, 0, 7, 0, 0, 0, 0],
];

/// The grant at an index: a part goes through the cell in each shift, from the first shift on.
pub fn grant_at(index: u64) -> Grant {
    let grant = GRANTS[(index % 5) as usize];
    Grant {
        shift: shift_at(index),
        ..grant
    }
}

/// The record of that grant.
pub fn record_at(index: u64) -> [u8; 16] {
    let mut record = RECORDS[(index % 5) as usize];
    record[4..8].copy_from_slice(&shift_at(index).to_be_bytes());
    record
}

fn shift_at(index: u64) -> u32 {
    (index / 5 % 1_000_000) as u32 + 1
}
