//! Files, built byte by byte as the format of a journal has them.

use crate::sample::{CELL, record_at};
use anyhow::Result;
use std::alloc::Global;

/// What a file begins with.
#[derive(Clone, Copy, Debug, PartialEq, Eq)]
pub enum Start {
    /// These bytes.
    Bytes(&'static [u8]),
    /// A journal of the first so many grants, in which the gate after them has this value: 1 is open.
    Journal { grants: u64, gate: u8 },
}

impl Start {
    /// The bytes, with so many of one value after them.
    pub fn followed_by(self, alloc: Global, count: usize, fill: u8) -> Result<Vec<u8>> {
        let mut bytes = match self {
            Start::Bytes(bytes) => bytes.to_vec(alloc)?,
            Start::Journal { grants, gate } => journal(alloc, grants, gate)?,
        };
        for _ in 0..count {
            bytes.push(fill)?;
        }
        Ok(bytes)
    }
}

/// A journal of the first so many grants, with this gate after them.
pub fn journal(alloc: Global, grants: u64, gate: u8) -> Result<Vec<u8>> {
    let mut bytes = b"\x01RUNCELL1\x00\x00\x00\xbe".to_vec(alloc)?;
    bytes.extend_from_slice(CELL)?;
    for index in 0..grants {
        bytes.push(1)?;
        bytes.extend_from_slice(&record_at(index))?;
    }
    bytes.push(gate)?;
    Ok(bytes)
}
