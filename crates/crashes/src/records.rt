//! The table of records, both ways.

use crate::sample::{grant_at, record_at};
use anyhow::{Result, bail};
use entry_codec::{decode, encode};

/// Reads and writes the records of two shifts, and answers how many.
pub fn check_records() -> Result<u64> {
    let records = 10;
    for index in 0..records {
        let (grant, record) = (grant_at(index), record_at(index));
        match decode(&record) {
            Some(found) if found == grant && encode(&found) == record => {}
            other => bail!("{record:?} is read as {other:?}, not {grant:?}"),
        }
    }
    Ok(records)
}
