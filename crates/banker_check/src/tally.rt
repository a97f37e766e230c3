//! The parts of a cell with the numbers that run along with them.
ghost use Rattle.std.specs.Prelude.{◌≡◌, All};
ghost use Rattle.std.specs.List.{list_any};
ghost use Rattle.std.specs.Vec.{vec_capacity};
ghost use Rattle.cell_base.specs.Stages.{IsStage, stage_of};
ghost use Rattle.cell_base.specs.Policy.{is_loaded};
ghost use Rattle.cell_base.specs.Outcomes.{part_of, is_waiting_on, finish_first};

use crate::held::RESOURCES;
use crate::parts::{any_waiting_on, finish_first_on, is_loaded, part_of};
use cell_base::{Cell, JobId, Part, ResId};

/// The parts in the order of their arrival at their present stages, and how many of them each neighborhood holds.
#[derive(Drop)]
pub struct Tally {
    pub parts: Vec<Part>,
    pub counts: [u32; RESOURCES],
}

impl Tally {
    /// Whether a part of the job is there.
    pub fn is_loaded(&self, job: JobId) -> bool
        ensures { result ≡ is_loaded self.now.parts.items job }
    {
        is_loaded(&self.parts, job)
    }

    /// The part of the job.
    pub fn part_of(&self, job: JobId) -> Option<Part>
        ensures { result ≡ part_of self.now.parts.items job }
    {
        part_of(&self.parts, job)
    }

    /// Whether some part waits on the machine.
    pub fn any_waiting_on(&self, cell: &Cell, machine: ResId) -> bool
        requires { All (λ part. IsStage cell.now (stage_of part)) self.now.parts.items }
        ensures { result ≡ list_any (is_waiting_on cell.now machine.0) self.now.parts.items }
    {
        any_waiting_on(cell, &self.parts, machine)
    }

    /// The work on the first part that waits on the machine.
    pub fn finish_first_on(&mut self, cell: &Cell, machine: ResId)
        requires { All (λ part. IsStage cell.now (stage_of part)) self.old.parts.items }
        ensures parts { self.new.parts.items ≡ finish_first (is_waiting_on cell.now machine.0) self.old.parts.items }
        ensures counts { self.new.counts ≡ self.old.counts }
        ensures room { vec_capacity self.new.parts ≡ vec_capacity self.old.parts }
    {
        finish_first_on(cell, self.parts.as_mut_slice(), machine);
    }
}
