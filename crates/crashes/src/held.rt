//! The files from which lives begin.

use crate::file::Start;
use anyhow::{Context, Result};
use cell_base::List;
use outside_io::{DiskCall, MemDisk};
use std::alloc::Global;

/// A file, and what it holds.
#[derive(Clone, Copy)]
pub struct Held {
    pub name: &'static str,
    start: Start,
    // So many bytes of one value stand after it.
    more: usize,
    fill: u8,
    /// The number of grants of its journal; none where there is no journal.
    pub grants: Option<u64>,
}

/// Files without a journal in each of their forms, and short journals.
pub const HELD: [Held; 9] = [
    Held {
        name: "no bytes",
        start: Start::Bytes(b""),
        more: 0,
        fill: 0,
        grants: None,
    },
    Held {
        name: "one byte",
        start: Start::Bytes(b"\x01"),
        more: 0,
        fill: 0,
        grants: None,
    },
    Held {
        name: "nine bytes of zero",
        start: Start::Bytes(b"\x00"),
        more: 8,
        fill: 0,
        grants: None,
    },
    Held {
        name: "a closed gate, the name and open gates",
        start: Start::Bytes(b"\x00RUNCELL1"),
        more: 300,
        fill: 1,
        grants: None,
    },
    Held {
        name: "a gate that is 9 and the name",
        start: Start::Bytes(b"\x09RUNCELL1"),
        more: 0,
        fill: 0,
        grants: None,
    },
    Held {
        name: "a gate that is 9, the name and open gates",
        start: Start::Bytes(b"\x09RUNCELL1"),
        more: 300,
        fill: 1,
        grants: None,
    },
    Held {
        name: "a journal of no grants",
        start: Start::Journal { grants: 0, gate: 0 },
        more: 0,
        fill: 0,
        grants: Some(0),
    },
    Held {
        name: "two grants, and open gates after them",
        start: Start::Journal { grants: 2, gate: 0 },
        more: 100,
        fill: 1,
        grants: Some(2),
    },
    Held {
        name: "three grants after which a gate is 9",
        start: Start::Journal { grants: 3, gate: 9 },
        more: 20,
        fill: 255,
        grants: Some(3),
    },
];

/// A journal that is read in three pieces.
pub const LONG: Held = Held {
    name: "470 grants",
    start: Start::Journal {
        grants: 470,
        gate: 0,
    },
    more: 0,
    fill: 0,
    grants: Some(470),
};

impl Held {
    /// A disk with this file. The listed calls are to fail.
    pub fn on_disk(self, alloc: Global, fails: List<DiskCall>) -> Result<MemDisk> {
        let bytes = self.start.followed_by(alloc, self.more, self.fill)?;
        MemDisk::new(alloc, &bytes, fails).ok().context("no memory")
    }
}
