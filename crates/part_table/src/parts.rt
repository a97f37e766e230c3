//! The table of parts: an order of arrival for all, and where a cell was told, one more for each of its resources.
ghost use Rattle.std.specs.Prelude.{◌≡◌, ℕ, ◌+◌, ◌<◌, ◌≤◌, ◌==◌, true, false, [], ◌∷◌, ◌++◌, length, Some, None};
ghost use Rattle.std.specs.Prelude.{slice_get, find, IfOk, IfSome, IsSome};
ghost use Rattle.std.specs.Option.{option_map, ForSome};
ghost use Rattle.cell_base.specs.declared.requests.Part.{Part};
ghost use Rattle.cell_base.specs.Policy.{is_of_job, is_loaded, HaveDistinctJobs};
ghost use Rattle.cell_base.specs.Outcomes.{part_of, without, is_waiting_on, finish_first};
ghost use Rattle.cell_base.specs.Plans.{resource_of_part};
ghost use Rattle.cell_base.specs.declared.limits.TheConstants.{MAX_RESOURCES};
ghost use Rattle.part_table.specs.Parts.{gone_on};

use crate::arrivals::Arrivals;
use crate::found::Found;
use crate::lanes::Lanes;
use cell_base::{JobId, List, MAX_RESOURCES, NoMemory, Part, ResId};
use route_table::StageTable;
use std::alloc::Global;
use std::marker::Model;

/// Parts of different jobs in the order of arrival at their present stages. Where they are told of a cell they find the first ones of
/// each of its resources at once.
pub struct Parts {
    lanes: Lanes,
    arrivals: Arrivals,
}

// Written out, so that letting a table go is one step in each proof and not a walk through its log.
impl Drop for Parts {
    fn drop(self) {
        let Parts {
            lanes: _,
            arrivals: _,
        } = self;
    }
}

impl Model for Parts {
    ghost use Rattle.std.specs.Prelude.{◌≡◌};
    ghost use Rattle.std.specs.Option.{ForSome};
    ghost use Rattle.cell_base.specs.declared.limits.TheConstants.{MAX_RESOURCES};
    ghost use Rattle.part_table.specs.Standings.{parts_of, AreOn};
    ghost use Rattle.part_table.specs.Parts.{Table};

    ghost Value = { Table };

    ghost view = { λ s. record { told = s.lanes; parts = parts_of s.arrivals.items; spare = s.arrivals.spare } };

    ghost invariant = { λ s. ForSome s.lanes (λ cell. AreOn cell s.arrivals.items) × (s.arrivals.resources ≡ MAX_RESOURCES) };
}

impl Parts {
    /// No parts, and room for at least `n`. They are told of no cell.
    pub fn with_room(alloc: Global, n: u32) -> Result<Parts, NoMemory>
        ensures untold { IfOk result (λ table. table.told ≡ None) }
        ensures empty { IfOk result (λ table. table.parts ≡ []) }
        ensures spare { IfOk result (λ table. n ≤ table.spare) }
    {
        let arrivals = Arrivals::with_room(alloc, MAX_RESOURCES as u16, n)?;
        Ok(Parts {
            lanes: Lanes::none(alloc),
            arrivals,
        })
    }

    /// The table is told of a cell before its first part comes. It finds the first parts of each resource at once from then on.
    pub fn told_of(mut self, alloc: Global, table: &StageTable) -> Result<Parts, NoMemory>
        requires empty { self.parts ≡ [] }
        ensures { IfOk result (λ told. told ≡ record self { told = Some table.now }) }
    {
        self.lanes = Lanes::of(alloc, table)?;
        Ok(self)
    }

    /// The part of a job.
    pub fn get(&self, job: JobId) -> Option<Part>
        ensures part { result ≡ part_of self.now.parts job }
        ensures distinct { HaveDistinctJobs self.now.parts }
    {
        match self.find(job) {
            Some(found) => Some(found.part),
            None => None,
        }
    }

    /// The part of a job, with a hint to it.
    #[inline(always)]
    pub fn find(&self, job: JobId) -> Option<Found>
        ensures part { option_map (λ found. found.part) result ≡ part_of self.now.parts job }
        ensures distinct { HaveDistinctJobs self.now.parts }
    {
        self.arrivals.find(job)
    }

    /// The part at an index.
    pub fn nth(&self, i: u32) -> Part
        requires { i < length self.now.parts }
        ensures { slice_get self.now.parts i ≡ Some result }
    {
        self.arrivals.nth(i)
    }

    /// The part that comes next after the one of a job, found in a step or two.
    pub fn after(&self, job: JobId) -> Option<Part>
        ensures { (i : ℕ) (part : Part) → slice_get self.now.parts i ≡ Some part → part.job ≡ job → result ≡ slice_get self.now.parts (i + 1) }
    {
        self.arrivals.after(job)
    }

    /// All parts, by one walk. It takes memory for the list.
    pub fn listed(&self, alloc: Global) -> Result<List<Part>, NoMemory>
        ensures { IfOk result (λ parts. parts ≡ self.now.parts) }
    {
        self.arrivals.listed(alloc)
    }

    /// The number of parts.
    pub fn len(&self) -> u64
        ensures { result ≡ length self.now.parts }
    {
        self.arrivals.len()
    }

    /// How many more parts may arrive.
    pub fn spare(&self) -> u64
        ensures { result ≡ self.now.spare }
    {
        self.arrivals.spare()
    }

    /// The job of the first part on a resource that is not done. A table that was told of no cell walks all its parts.
    pub fn first_waiting(&self, table: &StageTable, on: ResId) -> Option<JobId>
        requires told { IfSome self.now.told (λ cell. cell ≡ table.now) }
        ensures { result ≡ option_map (λ part. part.job) (find (is_waiting_on table.now on.0) self.now.parts) }
    {
        if self.lanes.are_told() && u64::from(on.0) < MAX_RESOURCES {
            self.arrivals.first_waiting(on)
        } else {
            self.arrivals.first_waiting_by(table, on)
        }
    }

    /// The first part on a resource of the cell of which the table was told, with a hint to it.
    pub fn find_on(&self, on: ResId) -> Option<Found>
        requires told { IsSome self.now.told }
        requires resource { on.0 < MAX_RESOURCES }
        ensures { ForSome self.now.told (λ cell. option_map (λ found. found.part) result
            ≡ find (λ part. resource_of_part cell part == on.0) self.now.parts) }
    {
        self.arrivals.first_on(on)
    }

    /// A new part, after all others.
    pub fn arrive(&mut self, part: Part)
        requires absent { is_loaded self.old.parts part.job ≡ false }
        requires room { 0 < self.old.spare }
        ensures parts { self.new.parts ≡ self.old.parts ++ part ∷ [] }
        ensures spare { self.new.spare + 1 ≡ self.old.spare }
        ensures told { self.new.told ≡ self.old.told }
    {
        let on = self.lanes.on(part.kind, part.place);
        self.arrivals.arrive(part, on);
    }

    /// The part of a job goes on to a place, and stands after all others.
    pub fn advance(&mut self, job: JobId, place: u16, done: bool)
        requires { is_loaded self.old.parts job ≡ true }
        ensures parts { self.new.parts ≡ gone_on self.old.parts job place done }
        ensures spare { self.new.spare ≡ self.old.spare }
        ensures told { self.new.told ≡ self.old.told }
    {
        if let Some(found) = self.find(job) {
            self.advance_found(found, place, done);
        }
    }

    /// A part that was found goes on to another place, and comes last, without a look-up of its job.
    pub fn advance_found(&mut self, found: Found, place: u16, done: bool)
        requires { part_of self.old.parts found.part.job ≡ Some found.part }
        ensures parts { self.new.parts ≡ gone_on self.old.parts found.part.job place done }
        ensures spare { self.new.spare ≡ self.old.spare }
        ensures told { self.new.told ≡ self.old.told }
    {
        let on = self.lanes.on(found.part.kind, place);
        self.arrivals
            .advance(found.part.job, found.hint, place, done, on);
    }

    /// The work on the part of a job is done. It keeps its place in the order.
    pub fn finish(&mut self, job: JobId)
        requires { is_loaded self.old.parts job ≡ true }
        ensures { self.new ≡ record self.old { parts = finish_first (is_of_job job) self.old.parts } }
    {
        self.arrivals.finish(job);
    }

    /// The work on the first part that is not done on a resource of the cell of which the table was told, if there is one. The part keeps
    /// its place in the order. Gives its job.
    pub fn finish_first(&mut self, on: ResId) -> Option<JobId>
        requires told { IsSome self.old.told }
        requires resource { on.0 < MAX_RESOURCES }
        ensures job { ForSome self.old.told (λ cell.
            result ≡ option_map (λ part. part.job) (find (is_waiting_on cell on.0) self.old.parts)) }
        ensures table { ForSome self.old.told (λ cell.
            self.new ≡ record self.old { parts = finish_first (is_waiting_on cell on.0) self.old.parts }) }
    {
        self.arrivals.finish_first(on)
    }

    /// The part of a job leaves.
    pub fn depart(&mut self, job: JobId)
        requires { is_loaded self.old.parts job ≡ true }
        ensures parts { self.new.parts ≡ without self.old.parts job }
        ensures spare { self.new.spare ≡ self.old.spare + 1 }
        ensures told { self.new.told ≡ self.old.told }
    {
        if let Some(found) = self.find(job) {
            self.depart_found(found);
        }
    }

    /// A part that was found leaves the cell, without a look-up of its job.
    pub fn depart_found(&mut self, found: Found)
        requires { part_of self.old.parts found.part.job ≡ Some found.part }
        ensures parts { self.new.parts ≡ without self.old.parts found.part.job }
        ensures spare { self.new.spare ≡ self.old.spare + 1 }
        ensures told { self.new.told ≡ self.old.told }
    {
        self.arrivals.depart(found.part.job, found.hint);
    }
}
