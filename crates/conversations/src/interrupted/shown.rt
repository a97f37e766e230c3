//! What a printed record shows of its grants.

use crate::interrupted::sample::request_of;
use anyhow::{Context, Result, bail};
use cell_base::Grant;
use std::alloc::Global;

/// The grants of a record in their order, and the one whose writing halted.
#[derive(Drop)]
pub struct Shown {
    pub granted: Vec<Grant>,
    pub halted: Option<Grant>,
}

impl Shown {
    /// Whether a journal with these grants has each that was answered, and no other but the one that halted.
    pub fn may_leave(&self, grants: &[Grant]) -> bool {
        match grants.strip_prefix(self.granted.as_slice()) {
            Some([]) => true,
            Some([last]) => self.halted == Some(*last),
            _ => false,
        }
    }
}

/// Reads the entries of a block of shift 1. A device that failed before the first of them shows no grants.
pub fn shown_in(alloc: Global, text: &str) -> Result<Shown> {
    let mut shown = Shown {
        granted: Vec::new(alloc),
        halted: None,
    };
    for line in text.lines() {
        if shown.halted.is_some() {
            bail!("a line after a halt: {line}");
        }
        if let Some(asked) = line.strip_suffix(" granted") {
            shown.granted.push(grant_of(asked)?)?;
        }
        if let Some(asked) = line.strip_suffix(" halted") {
            shown.halted = Some(grant_of(asked)?);
        }
    }
    Ok(shown)
}

// The grant of a session and a step.
fn grant_of(asked: &str) -> Result<Grant> {
    let (session, step) = asked.split_once(' ').context("no session")?;
    Ok(Grant {
        shift: 1,
        session: session.parse().context("no session")?,
        request: request_of(step)?,
    })
}
