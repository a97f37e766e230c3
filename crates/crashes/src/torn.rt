//! What a crash may leave of a write that isn't stable: the first bytes of its range hold one thing, and the others another.

use crate::silent_disk::PendingWrite;
use anyhow::Result;
use std::alloc::Global;

// What the bytes of a range hold: what was there, what was written, or a value of its own.
#[derive(Clone, Copy, Debug, PartialEq, Eq)]
enum Fill {
    Old,
    New,
    Value(u8),
}

const FILLS: [Fill; 5] = [
    Fill::Old,
    Fill::New,
    Fill::Value(0),
    Fill::Value(1),
    Fill::Value(255),
];

/// A way in which a crash tears a write.
#[derive(Clone, Copy, Debug, PartialEq, Eq)]
pub struct Torn {
    first: usize,
    front: Fill,
    back: Fill,
}

/// How many ways there are with a write of so many bytes.
pub fn ways(size: usize) -> usize {
    size.saturating_add(1).saturating_mul(25)
}

impl Torn {
    /// The way of a number.
    pub fn numbered(number: usize) -> Torn {
        Torn {
            first: number / 25,
            front: FILLS[number / 5 % 5],
            back: FILLS[number % 5],
        }
    }

    /// The file that is left where these bytes were stable. Old bytes past the old end are no bytes.
    pub fn image(self, alloc: Global, stable: &[u8], write: &PendingWrite) -> Result<Vec<u8>> {
        let size = match self.back {
            Fill::Old => self.first,
            _ => write.bytes.len(),
        };
        let len = stable.len().max(write.at.saturating_add(size));
        let mut image = Vec::with_capacity(alloc, len)?;
        for offset in 0..len {
            image.push(self.byte(offset, stable, write))?;
        }
        Ok(image)
    }

    fn byte(self, offset: usize, stable: &[u8], write: &PendingWrite) -> u8 {
        let old = stable.get(offset).copied().unwrap_or(0);
        let Some(within) = offset.checked_sub(write.at) else {
            return old;
        };
        let Some(new) = write.bytes.get(within).copied() else {
            return old;
        };
        match if within < self.first {
            self.front
        } else {
            self.back
        } {
            Fill::Old => old,
            Fill::New => new,
            Fill::Value(value) => value,
        }
    }
}
