//! Frames that a follower takes in turn.
ghost use Rattle.std.specs.Prelude.{◌≡◌, ◌≤◌, [], length};
ghost use Rattle.standby_commands.specs.Following.{IsFreshFollower, HasTaken};
ghost use Rattle.standby_commands.specs.FrameFiles.{frames_in};

use crate::frames::{FRAME_BYTES, first_frame};
use cell_base::Shelf;
use outside_io::Disk;
use standby_link::{Follower, TakeFault, index_in};

/// The first frame that was not taken: the index that its bytes carry, and why.
#[derive(Clone, Copy, Debug, PartialEq, Eq)]
pub struct Stop {
    pub index: u64,
    pub why: TakeFault,
}

/// Takes frames, one after the other, up to the first that is refused or whose writing fails. Each answer is put on the shelf.
pub fn take_frames<D: Disk>(
    follower: &mut Follower<D>,
    bytes: &[u8],
    acks: &mut Shelf<u64>,
) -> Option<Stop>
    requires ready { IsFreshFollower follower.old (length (frames_in bytes.now)) }
    requires acks { acks.old.items ≡ [] }
    requires room { length (frames_in bytes.now) ≤ acks.old.spare }
    ensures { HasTaken follower.old (frames_in bytes.now) follower.new acks.new.items result }
{
    let mut rest = bytes;
    while rest.len() >= FRAME_BYTES as usize {
        let (frame, more) = first_frame(rest);
        match follower.take(&frame) {
            Ok(ack) => acks.push(ack),
            Err(why) => {
                let index = index_in(&frame);
                return Some(Stop { index, why });
            }
        }
        rest = more;
    }
    None
}
