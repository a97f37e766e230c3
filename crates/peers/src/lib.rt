//! The program at the other end of a conversation, on the clock of a disk.
//!
//! A disk tells what a crash at each moment may leave, and a peer which bytes it gave and took by then. Each call of a peer borrows the
//! disk, so that both count by one clock, and a contract can say of each moment: these bytes were given, these were put, and a crash then
//! may leave this file.
//!
//! ```text
//! peer.put(&disk, b"7 load 3 A granted\n")?;
//! peer.flush(&disk)?;
//! let count = peer.next_piece(&disk, &mut bytes)?;
//! ```
#![tactic(auto)]

mod mem_peer;
mod peer;
mod silent;

pub use mem_peer::MemPeer;
pub use peer::Peer;
pub use silent::Silent;
