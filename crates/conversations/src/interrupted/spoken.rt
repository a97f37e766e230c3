//! How the lines of a conversation come.

use crate::interrupted::conversing::Asked;
use anyhow::Result;
use std::alloc::Global;
use std::sync::Wait;

/// A conversation after one in which these lines were granted, in pieces of so many bytes, with how many of its lines are granted after each
/// group, from none on. The last one is served in the group of the line before it.
#[derive(Clone, Copy)]
pub struct Spoken {
    pub before: &'static str,
    pub piece: usize,
    pub groups: &'static [u64],
}

/// Lines that come byte by byte, so that each is a group, on a blank disk.
pub const SINGLE_LINES: Spoken = Spoken {
    before: "",
    piece: 1,
    groups: &[0, 1, 2, 3, 4, 6],
};

/// Lines that come at once, on a journal with grants.
pub const ONE_GROUP: Spoken = Spoken {
    before: "3 load 9 A\n3 process M1\n3 move 9\n3 process M2\n3 unload 9\n",
    piece: 4096,
    groups: &[0, 6],
};

impl Spoken {
    /// The journal of the conversation before; no bytes where nothing was granted.
    pub fn opening<R: Wait>(&self, rt: &R, alloc: Global) -> Result<Vec<u8>> {
        if self.before.is_empty() {
            return Ok(Vec::new(alloc));
        }
        let told = self.asked(self.before).ask(rt, alloc, b"", None)?;
        Ok(told.disk.bytes().to_vec(alloc)?)
    }

    /// How many lines were granted in the conversation before.
    pub fn granted_before(&self) -> u64 {
        self.before.lines().count() as u64
    }

    /// How many lines are granted after the group in which more than so many are.
    pub fn after(&self, told: u64) -> u64 {
        for &count in self.groups {
            if told < count {
                return count;
            }
        }
        told
    }

    /// These lines, asked in such pieces.
    pub fn asked<'a>(&self, lines: &'a str) -> Asked<'a> {
        Asked {
            lines,
            piece: self.piece,
        }
    }
}
