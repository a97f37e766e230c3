//! What a standby is fed, and what its journal is to be then.

use crate::interrupted::call::{CallEnd, blank_disk, crash, feed, follow, run};
use crate::interrupted::draws::Draws;
use crate::interrupted::sample::TWO_PARTS;
use crate::interrupted::stored::grants_on;
use anyhow::{Context, Result, bail};
use cell_base::Grant;
use lists::List;
use outside_io::{FreePace, MemDisk};
use std::alloc::Global;
use std::sync::Wait;
use std::thread::Threads;

// The bytes of a frame.
const FRAME: usize = 24;

/// The grants of a first controller, their frames, and the bytes of its journal, which those of a standby's are to be.
#[derive(Drop)]
pub struct Fed {
    grants: List<Grant>,
    frames: Vec<u8>,
    journal: Vec<u8>,
}

impl Fed {
    /// What a shift of ten grants feeds.
    pub fn new<R: Threads + Wait + Sync>(rt: &R, alloc: Global) -> Result<Fed> {
        let blank = blank_disk(alloc)?;
        let CallEnd { disk, .. } = run(rt, alloc, TWO_PARTS, blank, &FreePace)?;
        Ok(Fed {
            grants: grants_on(alloc, crash(alloc, &disk, 0)?)?,
            journal: disk.bytes().to_vec(alloc)?,
            frames: feed(rt, alloc, disk)?,
        })
    }

    /// The frames in their order.
    pub fn frames(&self) -> &[u8] {
        self.frames.as_slice()
    }

    /// Hands all frames to the standby on a disk. Its journal has the same bytes then as that of the first controller.
    pub fn give_all<R: Threads + Wait + Sync>(
        &self,
        rt: &R,
        alloc: Global,
        disk: MemDisk,
    ) -> Result<()> {
        let told = follow(rt, alloc, self.frames(), disk)?;
        if told.status != 0 || told.disk.bytes() != self.journal.as_slice() {
            let (status, text) = (told.status, told.text.as_str());
            bail!("another journal than that of the first controller after\n{text}= {status}");
        }
        Ok(())
    }

    /// Some frames as they come: each up to three times or not at all, and up to three places after its own.
    pub fn drawn(&self, alloc: Global, draws: &mut Draws) -> Result<Vec<u8>> {
        let mut places = self.places(alloc, draws)?;
        places.sort_by_key(|(place, _)| *place)?;
        joined(alloc, places.as_slice())
    }

    // The frames that come, each with its place.
    fn places(&self, alloc: Global, draws: &mut Draws) -> Result<Vec<(u64, &[u8])>> {
        let mut places = Vec::new(alloc);
        for (at, frame) in self.frames.chunks(FRAME).enumerate() {
            for _ in 0..draws.below(4) {
                let place = (at as u64).wrapping_add(draws.below(4));
                places.push((place, frame))?;
            }
        }
        Ok(places)
    }

    /// The journal that a crash leaves of the disk after a call has a prefix of the grants: those that an answer told of, and before any
    /// answer so many, and where the writing of one failed at most that one more. Answers how many.
    pub fn check_left(&self, alloc: Global, told: &CallEnd, before: u64, pick: u64) -> Result<u64> {
        let text = told.text.as_str();
        let known = known_in(text)?.unwrap_or(before);
        let most = match told.status {
            0 => known,
            7 => known.saturating_add(1),
            other => bail!("{text}= {other}"),
        };
        let left = grants_on(alloc, crash(alloc, &told.disk, pick)?)?;
        let is_prefix = self.grants.as_slice().starts_with(left.as_slice());
        if !is_prefix || left.len() < known || left.len() > most {
            bail!("{left:?} after\n{text}", left = left.as_slice());
        }
        Ok(left.len())
    }
}

// The bytes of these frames.
fn joined(alloc: Global, places: &[(u64, &[u8])]) -> Result<Vec<u8>> {
    let mut came = Vec::new(alloc);
    for (_, frame) in places {
        came.extend_from_slice(frame)?;
    }
    Ok(came)
}

// How many grants the last answer tells of.
fn known_in(text: &str) -> Result<Option<u64>> {
    let mut known = None;
    for line in text.lines() {
        if let Some(ack) = line.strip_prefix("ack ") {
            known = Some(ack.parse().context("no number")?);
        }
    }
    Ok(known)
}
