//! A record read as a grant. The table of a record's bytes stands at the head of `encoder`.
//!
//! The numbers are read at their offsets, and the bytes between them are tested to be those of a record: so nothing but
//! its one record is read as a grant.
ghost use Rattle.std.specs.Prelude.{◌≡◌, ◌≢◌, ◌≤◌, ◌&&◌, nat_eq, slice_index, Some, IfSome, IfNone};
ghost use Rattle.cell_base.specs.declared.shifts.Grant.{Grant};
ghost use Rattle.entry_codec.specs.Records.{record_of, HasRecord, IsInRange};
ghost use Rattle.entry_codec.specs.Decoding as spec;
ghost use Rattle.entry_codec.specs.Decoding.{grant_of, grant_with, is_record_of};

use cell_base::{Grant, JobId, MAX_BRANCHES, Request, ResId, TypeId};

/// The grant whose record the bytes are; none where they are no record.
#[inline(always)]
#[tactic(auto, unfolding(crate::specs::Decoding::grant_of))]
pub fn decode(bytes: &[u8; 16]) -> Option<Grant>
    ensures grant { result ≡ grant_of bytes.now }
    ensures has_record { IfSome result HasRecord }
    ensures record { IfSome result (λ grant. bytes.now ≡ record_of grant) }
    ensures no_record { IfNone result ((grant : Grant) → IsInRange grant → HasRecord grant
        → bytes.now ≢ record_of grant) }
{
    let request = request_in(bytes)?;
    if is_record(bytes, &request) {
        Some(Grant {
            shift: number_4(bytes, 4),
            session: number_2(bytes, 2),
            request,
        })
    } else {
        None
    }
}

// The request whose numbers stand in the bytes.
#[inline(always)]
fn request_in(bytes: &[u8; 16]) -> Option<Request>
    ensures { result ≡ spec.request_in bytes.now }
{
    let job = JobId(number_4(bytes, 8));
    let low = number_2(bytes, 14);
    match bytes[0] {
        1 => Some(Request::Load {
            job,
            kind: TypeId(low),
        }),
        2 => Some(Request::Process {
            machine: ResId(low),
        }),
        3 => Some(Request::Move { job, branch: low }),
        4 => Some(Request::Unload { job }),
        5 => Some(Request::Place {
            job,
            kind: TypeId(number_2(bytes, 12)),
            place: low,
            done: bytes[1] == 1,
        }),
        _ => None,
    }
}

// Whether the bytes are the record of a grant of the request that stands in them: its branch is one, and the bytes in which no
// number stands are those of its kind.
#[inline(always)]
fn is_record(bytes: &[u8; 16], request: &Request) -> bool
    requires { spec.request_in bytes.now ≡ Some request.now }
    ensures { result ≡ is_record_of (grant_with bytes.now request.now) bytes.now }
{
    match *request {
        Request::Load { .. } => is_plain(bytes),
        Request::Process { .. } => is_plain(bytes) && number_4(bytes, 8) == 0,
        Request::Move { branch, .. } => u64::from(branch) < MAX_BRANCHES && is_plain(bytes),
        Request::Unload { .. } => is_plain(bytes) && number_2(bytes, 14) == 0,
        Request::Place { .. } => bytes[1] <= 1,
    }
}

// Whether there is neither a flag nor more than one number after the job.
#[inline(always)]
fn is_plain(bytes: &[u8; 16]) -> bool
    ensures { result ≡ (nat_eq (slice_index bytes.now 1) 0 && nat_eq (spec.number_2 bytes.now 12) 0) }
{
    bytes[1] == 0 && number_2(bytes, 12) == 0
}

#[inline(always)]
fn number_2(bytes: &[u8; 16], at: usize) -> u16
    requires { at ≤ 14 }
    ensures { result ≡ spec.number_2 bytes.now at }
{
    u16::from_be_bytes([bytes[at], bytes[at + 1]])
}

#[inline(always)]
fn number_4(bytes: &[u8; 16], at: usize) -> u32
    requires { at ≤ 12 }
    ensures { result ≡ spec.number_4 bytes.now at }
{
    u32::from_be_bytes([bytes[at], bytes[at + 1], bytes[at + 2], bytes[at + 3]])
}
