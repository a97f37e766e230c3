//! The life of a disk up to a call of it that fails: recovery, the making of a journal where there is none, and five appends.

use crate::answer::{Answer, answer_of, answer_on, same};
use crate::sample::{CELL, ROOM, record_at};
use crate::silent_disk::SilentDisk;
use anyhow::{Context, Result, bail};
use entry_codec::decode;
use move_journal::{AppendFault, Blank, Journal};
use outside_io::Disk;
use shift_recovery::{Opened, recover};
use std::alloc::Global;

/// How many grants are added.
const MORE: u64 = 5;

/// What was going on when a call of the disk failed.
#[derive(Clone, Copy, Debug, PartialEq, Eq)]
pub enum During {
    Recovery,
    Creation,
    Append,
    /// No call failed.
    Nothing,
}

/// The disk after its life, and what it is known to hold: no journal, or one of so many grants.
#[derive(Drop)]
pub struct Life {
    pub disk: SilentDisk,
    pub held: Option<u64>,
    pub failed: During,
}

/// The life of a disk that holds no journal, or one of so many grants.
pub fn live(alloc: Global, disk: SilentDisk, held: Option<u64>) -> Result<Life> {
    let opened = recover(alloc, disk, CELL, ROOM);
    let answer = answer_of(&opened);
    if answer != holding(held) && answer != Answer::Device {
        bail!("{answer:?} of a disk that holds {held:?}");
    }
    go_through(opened, held)
}

// The life after recovery.
fn go_through(opened: Opened<SilentDisk>, held: Option<u64>) -> Result<Life> {
    match opened {
        Opened::Fresh(blank) => make(blank),
        Opened::Found { journal, .. } => grow(journal),
        Opened::Device { disk } => Ok(Life {
            disk,
            held,
            failed: During::Recovery,
        }),
        _ => bail!("a refusal"),
    }
}

// What recovery answers of a disk that holds this.
fn holding(held: Option<u64>) -> Answer {
    match held {
        None => Answer::Blank,
        Some(grants) => Answer::Grants(grants),
    }
}

fn make(blank: Blank<SilentDisk>) -> Result<Life> {
    let made = match blank.clear() {
        Ok(cleared) => cleared.create(CELL),
        Err(disk) => Err(disk),
    };
    match made {
        Ok(journal) => grow(journal),
        Err(disk) => Ok(Life {
            disk,
            held: None,
            failed: During::Creation,
        }),
    }
}

// Appends the next grants. After a failure each further append answers that it is halted, with the number of grants.
fn grow(journal: Journal<SilentDisk>) -> Result<Life> {
    let mut journal = journal;
    let mut failed = During::Nothing;
    for _ in 0..MORE {
        if append_next(&mut journal)? == Err(AppendFault::Device) {
            check_halted(&mut journal)?;
            failed = During::Append;
            break;
        }
    }
    let held = Some(journal.len());
    Ok(Life {
        disk: journal.into_disk(),
        held,
        failed,
    })
}

fn check_halted(journal: &mut Journal<SilentDisk>) -> Result<()> {
    let after = journal.len();
    for _ in 0..2 {
        let answer = append_next(journal)?;
        if answer != Err(AppendFault::Halted { after }) {
            bail!("{answer:?} in place of a halt after {after} grants");
        }
    }
    Ok(())
}

// Appends the grant that comes next.
fn append_next<D: Disk>(journal: &mut Journal<D>) -> Result<std::result::Result<(), AppendFault>> {
    let len = journal.len();
    let grant = decode(&record_at(len)).context("no record")?;
    if len >= ROOM {
        bail!("a journal of {len} grants");
    }
    Ok(journal.append(&grant))
}

/// Recovers a disk after such a life, adds a grant, and recovers it again.
pub fn go_on<D: Disk + Drop>(
    alloc: Global,
    disk: D,
    held: Option<u64>,
    failed: During,
) -> Result<()> {
    let opened = recover(alloc, disk, CELL, ROOM);
    let answer = answer_of(&opened);
    if !may_be_answered(answer, held, failed) {
        bail!("{answer:?} of a disk that held {held:?}");
    }
    let mut journal = journal_of(opened)?;
    let grants = journal.len();
    if let Err(fault) = append_next(&mut journal)? {
        bail!("{fault:?} after {grants} grants");
    }
    let again = answer_on(alloc, journal.into_disk(), CELL, ROOM);
    same(again, Answer::Grants(grants.saturating_add(1)))
}

// What is held, and where a creation or an append failed also what it was to make of that.
fn may_be_answered(answer: Answer, held: Option<u64>, failed: During) -> bool {
    let further = match failed {
        During::Creation => Some(0),
        During::Append => held.map(|grants| grants.saturating_add(1)),
        _ => held,
    };
    answer == holding(held) || answer == holding(further)
}

// The journal that stands on a disk, or is made there.
fn journal_of<D: Disk + Drop>(opened: Opened<D>) -> Result<Journal<D>> {
    let blank = match opened {
        Opened::Found { journal, .. } => return Ok(journal),
        Opened::Fresh(blank) => blank,
        _ => bail!("no journal"),
    };
    let Ok(cleared) = blank.clear() else {
        bail!("not cleared");
    };
    match cleared.create(CELL) {
        Ok(journal) => Ok(journal),
        Err(_) => bail!("not created"),
    }
}
