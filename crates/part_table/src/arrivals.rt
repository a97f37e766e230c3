//! The parts in the order of their arrival, each with the resource that was told of it.
ghost use Rattle.std.specs.Prelude.{◌≡◌, ℕ, ◌+◌, ◌<◌, ◌≤◌, true, false, [], ◌∷◌, ◌++◌, length, Some, slice_get, MatchOption, IfOk};
ghost use Rattle.std.specs.List.{find};
ghost use Rattle.std.specs.Option.{option_map};
ghost use Rattle.cell_base.specs.declared.requests.Part.{Part};
ghost use Rattle.cell_base.specs.Policy.{is_loaded, HaveDistinctJobs};
ghost use Rattle.cell_base.specs.Outcomes.{is_waiting_on, part_of};
ghost use Rattle.cell_base.specs.declared.limits.TheConstants.{MAX_RESOURCES};
ghost use Rattle.part_table.specs.Standings.{parts_of, is_on, is_waiting, without_job, advanced, finished};
ghost use Rattle.part_table.specs.Logs.{staying};

use crate::found::{Found, PositionHint};
use crate::log::Log;
use crate::standing::Standing;
use cell_base::{JobId, List, NoMemory, Part, ResId};
use route_table::StageTable;
use std::alloc::Global;
use std::marker::Model;

/// Parts of different jobs with their resources, in the order of arrival at their present stages.
#[derive(Drop)]
pub struct Arrivals {
    log: Log,
    count: u32,
    room: u32,
}

impl Model for Arrivals {
    ghost use Rattle.std.specs.Prelude.{◌-◌};
    ghost use Rattle.part_table.specs.Standings.{Arrived};
    ghost use Rattle.part_table.specs.Logs.{staying, IsTable};

    ghost Value = { Arrived };

    ghost view = { λ s. record { items = staying s.log.entries; spare = s.room - s.count; resources = s.log.resources } };

    ghost invariant = { λ s. IsTable s.log s.count s.room };
}

/// How many entries a log holds for each part. So a part's entries are moved together once in many changes.
const ENTRIES_A_PART: u32 = 4;

/// How many slots there are for each part that may stand at a time. So a part that stays has a new slot once in as many arrivals.
const SLOTS_A_PART: u32 = 2;

/// How many entries a log holds beside those, so that it isn't compacted all the time where few parts stand.
const ENTRIES_BESIDE: u64 = 64;

/// How many parts there may be: no log has more entries than 32 bits number.
const MOST_PARTS: u32 = u32::MAX / ENTRIES_A_PART - 1;

/// Whether a log of so many parts is to be compacted. It is where the log is full; and where most of its entries are gone, which no
/// contract asks for, so that it takes no more memory than its parts want, however many there may be.
fn is_worn(log: &Log, parts: u32) -> bool
    ensures { result ≡ false → length log.now.entries < log.now.room }
{
    let wanted = u64::from(parts) * u64::from(ENTRIES_A_PART) + ENTRIES_BESIDE;
    log.is_full() || u64::from(log.len()) >= wanted
}

/// Room for one more entry.
fn make_room(log: &mut Log, parts: u32)
    requires distinct { HaveDistinctJobs (parts_of (staying log.old.entries)) }
    requires fits { length (staying log.old.entries) < log.old.room }
    ensures items { staying log.new.entries ≡ staying log.old.entries }
    ensures free { length log.new.entries < log.new.room }
    ensures room { log.new.room ≡ log.old.room }
    ensures resources { log.new.resources ≡ log.old.resources }
    ensures slots { log.new.slots ≡ log.old.slots }
{
    if is_worn(log, parts) {
        log.compact();
    }
}

/// A slot for one more job.
fn make_slot(log: &mut Log)
    requires distinct { HaveDistinctJobs (parts_of (staying log.old.entries)) }
    requires fits { length (staying log.old.entries) < log.old.room }
    requires slots { length (staying log.old.entries) < log.old.slots }
    requires free { length log.old.entries < log.old.room }
    ensures items { staying log.new.entries ≡ staying log.old.entries }
    ensures free { length log.new.entries < log.new.room }
    ensures slot { log.new.given < log.new.slots }
    ensures room { log.new.room ≡ log.old.room }
    ensures resources { log.new.resources ≡ log.old.resources }
    ensures slots { log.new.slots ≡ log.old.slots }
{
    if log.has_no_slot() {
        log.compact();
        log.reassign_slots();
    }
}

impl Arrivals {
    /// Nothing yet, and room for at least `n` parts. More than `MOST_PARTS` want too much memory.
    pub fn with_room(alloc: Global, resources: u16, n: u32) -> Result<Arrivals, NoMemory>
        requires { resources ≤ MAX_RESOURCES }
        ensures empty { IfOk result (λ arrivals. arrivals.items ≡ []) }
        ensures spare { IfOk result (λ arrivals. n ≤ arrivals.spare) }
        ensures resources { IfOk result (λ arrivals. arrivals.resources ≡ resources) }
    {
        if n > MOST_PARTS {
            return Err(NoMemory);
        }
        let log = Log::with_room(
            alloc,
            resources,
            n * ENTRIES_A_PART + 1,
            n * SLOTS_A_PART + 1,
        )?;
        Ok(Arrivals {
            log,
            count: 0,
            room: n,
        })
    }

    /// The part of a job.
    #[inline(always)]
    pub fn find(&self, job: JobId) -> Option<Found>
        ensures part { option_map (λ found. found.part) result ≡ part_of (parts_of self.now.items) job }
        ensures distinct { HaveDistinctJobs (parts_of self.now.items) }
    {
        match self.log.place_of(job) {
            Some(at) => Some(Found {
                part: self.log.get(at).item.part,
                hint: PositionHint(at),
            }),
            None => None,
        }
    }

    /// The part at an index.
    pub fn nth(&self, i: u32) -> Part
        requires { i < length self.now.items }
        ensures { slice_get (parts_of self.now.items) i ≡ Some result }
    {
        match self.log.nth(i) {
            Some(item) => item.part,
            None => unreachable!(),
        }
    }

    /// The part that comes next after the one of a job.
    pub fn after(&self, job: JobId) -> Option<Part>
        ensures { (i : ℕ) (part : Part) → slice_get (parts_of self.now.items) i ≡ Some part → part.job ≡ job
            → result ≡ slice_get (parts_of self.now.items) (i + 1) }
    {
        let at = self.log.place_of(job)?;
        match self.log.after(at) {
            Some(item) => Some(item.part),
            None => None,
        }
    }

    /// All parts.
    pub fn listed(&self, alloc: Global) -> Result<List<Part>, NoMemory>
        ensures { IfOk result (λ parts. parts ≡ parts_of self.now.items) }
    {
        self.log.listed(alloc)
    }

    /// The number of parts.
    pub fn len(&self) -> u64
        ensures { result ≡ length self.now.items }
    {
        u64::from(self.count)
    }

    /// How many more parts may arrive.
    pub fn spare(&self) -> u64
        ensures { result ≡ self.now.spare }
    {
        u64::from(self.room - self.count)
    }

    /// The first part on a resource that is not done.
    pub fn first_waiting(&self, on: ResId) -> Option<JobId>
        requires { on.0 < self.now.resources }
        ensures { result ≡ option_map (λ item. item.part.job) (find (is_waiting on) self.now.items) }
    {
        match self.log.first_waiting(on) {
            Some(at) => Some(self.log.get(at).item.part.job),
            None => None,
        }
    }

    /// The job of the first part that waits on a resource, by a table of stages, which is asked for each part.
    pub fn first_waiting_by(&self, table: &StageTable, on: ResId) -> Option<JobId>
        ensures { result ≡ option_map (λ part. part.job) (find (is_waiting_on table.now on.0) (parts_of self.now.items)) }
    {
        self.log.first_waiting_by(table, on)
    }

    /// The first part on a resource.
    pub fn first_on(&self, on: ResId) -> Option<Found>
        requires { on.0 < self.now.resources }
        ensures { option_map (λ found. found.part) result ≡ option_map (λ item. item.part) (find (is_on on) self.now.items) }
    {
        match self.log.first_on(on) {
            Some(at) => Some(Found {
                part: self.log.get(at).item.part,
                hint: PositionHint(at),
            }),
            None => None,
        }
    }

    /// A new part, after all others.
    pub fn arrive(&mut self, part: Part, on: ResId)
        requires absent { is_loaded (parts_of self.old.items) part.job ≡ false }
        requires on { on.0 < self.old.resources }
        requires room { 0 < self.old.spare }
        ensures items { self.new.items ≡ self.old.items ++ (record { part = part; on = on }) ∷ [] }
        ensures spare { self.new.spare + 1 ≡ self.old.spare }
        ensures resources { self.new.resources ≡ self.old.resources }
    {
        make_room(&mut self.log, self.count);
        make_slot(&mut self.log);
        self.log.push(Standing { part, on });
        self.count += 1;
    }

    /// The part of a job goes on to a place, and stands after all others.
    pub fn advance(&mut self, job: JobId, hint: PositionHint, place: u16, done: bool, on: ResId)
        requires present { is_loaded (parts_of self.old.items) job ≡ true }
        requires on { on.0 < self.old.resources }
        ensures items { self.new.items ≡ advanced self.old.items job place done on }
        ensures spare { self.new.spare ≡ self.old.spare }
        ensures resources { self.new.resources ≡ self.old.resources }
    {
        make_room(&mut self.log, self.count);
        if let Some(at) = self.log.place_near(job, hint.0) {
            self.log.advance(job, at, place, done, on);
        }
    }

    /// The work on the part of a job is done. It keeps its place in the order.
    pub fn finish(&mut self, job: JobId)
        requires { is_loaded (parts_of self.old.items) job ≡ true }
        ensures distinct { HaveDistinctJobs (parts_of self.old.items) }
        ensures items { self.new.items ≡ finished self.old.items job }
        ensures spare { self.new.spare ≡ self.old.spare }
        ensures resources { self.new.resources ≡ self.old.resources }
    {
        if let Some(at) = self.log.place_of(job) {
            self.log.finish(at);
        }
    }

    /// The work on the first part on a resource that is not done, if there is one. The part keeps its place in the order. Gives its job.
    pub fn finish_first(&mut self, on: ResId) -> Option<JobId>
        requires { on.0 < self.old.resources }
        ensures distinct { HaveDistinctJobs (parts_of self.old.items) }
        ensures job { result ≡ option_map (λ item. item.part.job) (find (is_waiting on) self.old.items) }
        ensures items { MatchOption result (self.new.items ≡ self.old.items) (λ job. self.new.items ≡ finished self.old.items job) }
        ensures spare { self.new.spare ≡ self.old.spare }
        ensures resources { self.new.resources ≡ self.old.resources }
    {
        match self.log.first_waiting(on) {
            Some(at) => {
                let job = self.log.get(at).item.part.job;
                self.log.finish(at);
                Some(job)
            }
            None => None,
        }
    }

    /// The part of a job leaves.
    pub fn depart(&mut self, job: JobId, hint: PositionHint)
        requires { is_loaded (parts_of self.old.items) job ≡ true }
        ensures items { self.new.items ≡ without_job self.old.items job }
        ensures spare { self.new.spare ≡ self.old.spare + 1 }
        ensures resources { self.new.resources ≡ self.old.resources }
    {
        if let Some(at) = self.log.place_near(job, hint.0) {
            self.log.take_out(at);
            self.count -= 1;
        }
    }
}
