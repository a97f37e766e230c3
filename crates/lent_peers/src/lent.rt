//! A peer beside its disk.
ghost use Rattle.std.specs.Prelude.{◌≡◌};

use outside_io::{Disk, Failed, Sink};
use peers::Peer;

/// A peer, and the disk that each put borrows. While it stands the disk rests.
#[derive(Drop)]
pub struct Lent<'a, D, T> {
    pub(crate) peer: &'a mut T,
    pub(crate) disk: &'a D,
}

impl<'a, D: Disk, T: Peer<D>> Lent<'a, D, T> {
    /// A peer beside a disk.
    pub fn new(peer: &'a mut T, disk: &'a D) -> Lent<'a, D, T>
        ensures same_peer { result.peer.ghost_name ≡ peer.entry.ghost_name }
        ensures peer { result.peer.now ≡ peer.old }
        ensures disk { result.disk.now ≡ disk.now }
    {
        Lent { peer, disk }
    }
}

impl<'a, D: Disk, T: Peer<D>> Sink for Lent<'a, D, T> {
    ghost use Rattle.lent_peers.specs.LentPuts.{IsLentPut};

    ghost taken = { λ lent. T.taken lent.peer.now };

    ghost was_put = { IsLentPut D.Disk T.Peer };

    ghost faults = { λ lent. T.faults lent.peer.now };

    fn put(&mut self, piece: &[u8]) -> Result<(), Failed> {
        self.peer.put(self.disk, piece)
    }
}
