//! The record of a grant. It has sixteen bytes, with numbers in big-endian order:
//!
//! | Bytes | Field |
//! |---|---|
//! | 0 | kind: 1 load, 2 process, 3 move, 4 unload, 5 place |
//! | 1 | 1 for a place of a part that is done; else zero |
//! | 2 to 3 | session |
//! | 4 to 7 | shift |
//! | 8 to 11 | job; zero for process |
//! | 12 to 15 | for load the type, for process the resource, for move the branch (0 to 7), for unload zero |
//! | 12 to 13 | for place the type |
//! | 14 to 15 | for place the place |
//!
//! No other bytes are a record. A journal writes each record after a gate, which is one byte.
ghost use Rattle.std.specs.Prelude.{◌≡◌, ℕ, ◌++◌, Some};
ghost use Rattle.std.specs.Int.{to_be_bytes, w16, w32};
ghost use Rattle.cell_base.specs.declared.shifts.Grant.{Grant};
ghost use Rattle.entry_codec.specs.Records.{record_by, record_of, HasRecord, IsInRange, RequestIsInRange};
ghost use Rattle.entry_codec.specs.Decoding.{grant_of};
ghost use Rattle.entry_codec.specs.Numbers.{record_with};

use cell_base::{Grant, Request};

/// The bytes of a gate and the record after it: the step from one gate of a journal to the next.
pub const ENTRY_SIZE: u64 = 17;

/// The record of a grant.
pub fn encode(grant: &Grant) -> [u8; 16]
    requires { HasRecord grant.now }
    ensures record { result ≡ record_of grant.now }
    ensures read_back { grant_of result ≡ Some grant.now }
{
    record_for(*grant)
}

fn record_for(grant: Grant) -> [u8; 16]
    ensures record { result ≡ record_of grant }
    ensures in_range { IsInRange grant }
{
    record(&numbers_of(grant.request), &grant)
}

// What a record has beside its session and its shift. The bytes are made of it in one place, so that each number is stored whole.
#[derive(Clone, Copy)]
struct Numbers {
    kind: u8,
    flag: u8,
    job: u32,
    argument: u32,
}

fn numbers_of(request: Request) -> Numbers
    ensures numbers { (session shift : ℕ) → record_with result session shift ≡ record_by session shift request }
    ensures in_range { RequestIsInRange request }
{
    let (kind, flag, job, argument) = match request {
        Request::Load { job, kind } => (1, 0, job.0, u32::from(kind.0)),
        Request::Process { machine } => (2, 0, 0, u32::from(machine.0)),
        Request::Move { job, branch } => (3, 0, job.0, u32::from(branch)),
        Request::Unload { job } => (4, 0, job.0, 0),
        Request::Place {
            job,
            kind,
            place,
            done,
        } => (5, u8::from(done), job.0, pair(kind.0, place)),
    };
    Numbers {
        kind,
        flag,
        job,
        argument,
    }
}

fn record(numbers: &Numbers, grant: &Grant) -> [u8; 16]
    ensures { result ≡ record_with numbers.now grant.now.session grant.now.shift }
{
    let Numbers {
        kind,
        flag,
        job,
        argument,
    } = *numbers;
    let mut record = [0; 16];
    record[0] = kind;
    record[1] = flag;
    record[2..4].copy_from_slice(&grant.session.to_be_bytes());
    record[4..8].copy_from_slice(&grant.shift.to_be_bytes());
    record[8..12].copy_from_slice(&job.to_be_bytes());
    record[12..].copy_from_slice(&argument.to_be_bytes());
    record
}

// The argument that is two numbers.
fn pair(high: u16, low: u16) -> u32
    ensures { to_be_bytes w32 result ≡ to_be_bytes w16 high ++ to_be_bytes w16 low }
{
    u32::from(high) * 65_536 + u32::from(low)
}
