//! A file of frames, one after the other.
ghost use Rattle.std.specs.Prelude.{◌≡◌, ◌≤◌, length, take, drop, Ok, IfOk, IfErr};
ghost use Rattle.cell_walks.specs.Clauses.{IsEndedAt, ShowsFile, files_told};
ghost use Rattle.standby_commands.specs.FrameFiles.{frames_file, frames_in, frames_reads, have_room};

use crate::refusals::frames_refused;
use cell_texts::read_named;
use cell_walks::EarlyEnd;
use durable_cell::MAX_ROOM;
use outside_io::Files;
use standby_link::index_in;
use std::alloc::Global;

/// The bytes of a frame.
pub const FRAME_BYTES: u64 = 24;

/// The most bytes of a file of frames: as many frames as a journal may have grants.
pub const MAX_FRAMES_BYTES: u64 = 50_331_648;

/// The bytes of a file of frames, or the end in their place: too many bytes, some that are no whole frame, or a grant for which a journal has
/// no room are refused.
pub fn read_frames<F: Files>(alloc: Global, files: &mut F, name: &str) -> Result<Vec<u8>, EarlyEnd>
    ensures read { IfOk result (λ bytes. ShowsFile (files_told F.holds F.is_sound F.faults files.old files.new) name.now
        (λ held. frames_reads held (Ok (frames_in bytes.items)))) }
    ensures short { IfOk result (λ bytes. length bytes.items ≤ MAX_FRAMES_BYTES) }
    ensures ended { IfErr result (IsEndedAt (files_told F.holds F.is_sound F.faults files.old files.new) (frames_file name.now)) }
{
    let bytes = match read_named(alloc, files, name, MAX_FRAMES_BYTES as u32) {
        Ok(bytes) => bytes,
        Err(end) => return Err(end),
    };
    let len = bytes.len() as u64;
    if len > MAX_FRAMES_BYTES || len % FRAME_BYTES != 0 {
        return Err(frames_refused());
    }
    if !have_room(&bytes) {
        return Err(frames_refused());
    }
    Ok(bytes)
}

// Whether none of the frames is of the first grant for which a journal has no room: without it a journal grows no further.
fn have_room(bytes: &[u8]) -> bool
    ensures { result ≡ have_room (frames_in bytes.now) }
{
    let mut rest = bytes;
    while rest.len() >= FRAME_BYTES as usize {
        let (frame, more) = first_frame(rest);
        if index_in(&frame) == MAX_ROOM {
            return false;
        }
        rest = more;
    }
    true
}

/// The first frame of some bytes, and those after it.
pub fn first_frame(bytes: &[u8]) -> ([u8; FRAME_BYTES as usize], &[u8])
    requires { FRAME_BYTES ≤ length bytes.now }
    ensures frame { result.0 ≡ take FRAME_BYTES bytes.now }
    ensures rest { result.1.now ≡ drop FRAME_BYTES bytes.now }
{
    let (first, rest) = bytes.split_at(FRAME_BYTES as usize);
    let mut frame = [0; FRAME_BYTES as usize];
    frame.copy_from_slice(first);
    (frame, rest)
}
