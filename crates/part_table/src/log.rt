//! A log of parts as they came, which is found by job and by resource.
ghost use Rattle.std.specs.Prelude.{◌≡◌, ◌≢◌, ◌+◌, ◌<◌, ◌≤◌, ◌∷◌, ◌++◌, [], true, false, length, Some};
ghost use Rattle.std.specs.Prelude.{slice_get, slice_set, MatchOption, IfOk, nat_le, drop, map, filter, find, All, None};
ghost use Rattle.std.specs.Option.{option_map};
ghost use Rattle.cell_base.specs.Outcomes.{is_waiting_on};
ghost use Rattle.part_table.specs.declared.standing.Entry.{Entry};
ghost use Rattle.part_table.specs.declared.chain.TheConstants.{NOWHERE};
ghost use Rattle.part_table.specs.Logs.{gone_entry, done_entry, staying, entry_job, IsAbsent, IsPlaceOf};
ghost use Rattle.part_table.specs.Logs.{IsPlaceOfFirst, ArePlaces, HaveSlots};
ghost use Rattle.part_table.specs.Standings.{parts_of, is_on, is_waiting, advanced};
ghost use Rattle.cell_base.specs.Policy.{is_loaded, HaveDistinctJobs};

use crate::chain::Chain;
use crate::slots::Slots;
use crate::standing::{Entry, Standing};
use cell_base::{JobId, List, NoMemory, Part, ResId};
use route_table::StageTable;
use std::alloc::Global;
use std::marker::Model;

/// The entries in the order in which they came, with the first ones of each resource, and the place of each job.
#[derive(Drop)]
pub struct Log {
    chain: Chain,
    slots: Slots,
}

impl Model for Log {
    ghost use Rattle.std.specs.Prelude.{length};
    ghost use Rattle.part_table.specs.Logs.{Logged, ArePlaces};

    ghost Value = { Logged };

    ghost view = { λ s. record {
      entries = s.chain.entries;
      room = s.chain.room;
      resources = s.chain.resources;
      given = length s.slots.places;
      slots = s.slots.room;
    } };

    ghost invariant = { λ s. ArePlaces s.chain.entries s.slots };
}

/// The entries, whose parts have slots, are found again by their jobs.
fn place_again(chain: &Chain, slots: &mut Slots)
    requires stay { All (λ entry. entry.stays ≡ true) chain.now.entries }
    requires distinct { HaveDistinctJobs (map (λ entry. entry.item.part) chain.now.entries) }
    requires slotted { HaveSlots chain.now.entries slots.old }
    ensures placed { ArePlaces chain.now.entries slots.new }
    ensures given { length slots.new.places ≡ length slots.old.places }
    ensures slots { slots.new.room ≡ slots.old.room }
{
    for at in 0..chain.len() {
        let entry = chain.get(at);
        slots.move_job(entry.item.part.job, entry.slot, at);
    }
}

/// The parts of the entries have new slots.
fn reassign_slots(chain: &mut Chain, slots: &mut Slots)
    requires stay { All (λ entry. entry.stays ≡ true) chain.old.entries }
    requires distinct { HaveDistinctJobs (map (λ entry. entry.item.part) chain.old.entries) }
    requires none { slots.old.places ≡ [] }
    requires room { length chain.old.entries ≤ slots.old.room }
    ensures items { map (λ entry. entry.item) chain.new.entries ≡ map (λ entry. entry.item) chain.old.entries }
    ensures stay { All (λ entry. entry.stays ≡ true) chain.new.entries }
    ensures placed { ArePlaces chain.new.entries slots.new }
    ensures capacity { chain.new.room ≡ chain.old.room }
    ensures resources { chain.new.resources ≡ chain.old.resources }
    ensures given { length slots.new.places ≡ length chain.old.entries }
    ensures room { slots.new.room ≡ slots.old.room }
{
    for at in 0..chain.len() {
        let entry = chain.get(at);
        let slot = slots.come(entry.item.part.job, at);
        chain.set_slot(at, slot);
    }
}

impl Log {
    /// An empty log with room for `n` entries and for some slots.
    pub fn with_room(alloc: Global, resources: u16, n: u32, slots: u32) -> Result<Log, NoMemory>
        requires room { n < NOWHERE }
        requires slots { slots < NOWHERE }
        ensures entries { IfOk result (λ log. log.entries ≡ []) }
        ensures room { IfOk result (λ log. log.room ≡ n) }
        ensures slots { IfOk result (λ log. log.slots ≡ slots) }
        ensures resources { IfOk result (λ log. log.resources ≡ resources) }
    {
        Ok(Log {
            chain: Chain::with_room(alloc, resources, n)?,
            slots: Slots::with_room(alloc, slots)?,
        })
    }

    /// One entry more. It takes no memory.
    pub fn push(&mut self, item: Standing)
        requires room { length self.old.entries < self.old.room }
        requires slot { self.old.given < self.old.slots }
        requires on { item.on.0 < self.old.resources }
        requires absent { IsAbsent self.old.entries item.part.job }
        ensures items { staying self.new.entries ≡ staying self.old.entries ++ item ∷ [] }
        ensures room { self.new.room ≡ self.old.room }
        ensures resources { self.new.resources ≡ self.old.resources }
        ensures slots { self.new.slots ≡ self.old.slots }
    {
        let slot = self.slots.come(item.part.job, self.chain.len());
        self.chain.push(item, slot);
    }

    /// The place of the entry of a job, where one stays.
    #[inline(always)]
    pub fn place_of(&self, job: JobId) -> Option<u32>
        ensures { MatchOption result (IsAbsent self.now.entries job) (IsPlaceOf self.now.entries job) }
    {
        let at = self.slots.place_of(job)?;
        if self.is_at(job, at) { Some(at) } else { None }
    }

    /// The place of the entry of a job, where one stays. Where that is the place that is told, it is found without a look-up of the job.
    #[inline(always)]
    pub fn place_near(&self, job: JobId, near: u32) -> Option<u32>
        ensures { MatchOption result (IsAbsent self.now.entries job) (IsPlaceOf self.now.entries job) }
    {
        if self.is_at(job, near) {
            Some(near)
        } else {
            self.place_of(job)
        }
    }

    /// Whether an entry of the job stays at a place.
    #[inline(always)]
    fn is_at(&self, job: JobId, at: u32) -> bool
        ensures here { result ≡ true → IsPlaceOf self.now.entries job at }
        ensures away { result ≡ false → (entry : Entry) → slice_get self.now.entries at ≡ Some entry → entry.stays ≡ true
            → entry_job entry ≢ job.0 }
    {
        if at < self.chain.len() {
            let entry = self.chain.get(at);
            entry.stays && entry.item.part.job.0 == job.0
        } else {
            false
        }
    }

    /// The entry at a place.
    #[inline(always)]
    pub fn get(&self, at: u32) -> Entry
        requires { at < length self.now.entries }
        ensures { slice_get self.now.entries at ≡ Some result }
    {
        self.chain.get(at)
    }

    /// The part of an entry does not stand there any more.
    pub fn take_out(&mut self, at: u32)
        requires { at < length self.old.entries }
        ensures entries { (entry : Entry) → slice_get self.old.entries at ≡ Some entry
            → self.new.entries ≡ slice_set self.old.entries at (gone_entry entry) }
        ensures room { self.new.room ≡ self.old.room }
        ensures resources { self.new.resources ≡ self.old.resources }
        ensures slots { self.new.slots ≡ self.old.slots }
    {
        let _ = self.chain.take_out(at);
    }

    /// The part of an entry is done.
    pub fn finish(&mut self, at: u32)
        requires { at < length self.old.entries }
        ensures entries { (entry : Entry) → slice_get self.old.entries at ≡ Some entry
            → self.new.entries ≡ slice_set self.old.entries at (done_entry entry) }
        ensures room { self.new.room ≡ self.old.room }
        ensures resources { self.new.resources ≡ self.old.resources }
        ensures slots { self.new.slots ≡ self.old.slots }
    {
        self.chain.finish(at);
    }

    /// The part of a job goes on: it is not at its entry any more, but at one after all others. It takes no memory.
    pub fn advance(&mut self, job: JobId, at: u32, place: u16, done: bool, on: ResId)
        requires room { length self.old.entries < self.old.room }
        requires at { IsPlaceOf self.old.entries job at }
        requires on { on.0 < self.old.resources }
        ensures items { staying self.new.entries ≡ advanced (staying self.old.entries) job place done on }
        ensures room { self.new.room ≡ self.old.room }
        ensures resources { self.new.resources ≡ self.old.resources }
        ensures slots { self.new.slots ≡ self.old.slots }
    {
        let entry = self.chain.take_out(at);
        self.slots.move_job(job, entry.slot, self.chain.len());
        let part = Part {
            place,
            done,
            ..entry.item.part
        };
        let item = Standing { part, on };
        self.chain.push(item, entry.slot);
    }

    /// The number of entries, also of those that are gone.
    pub fn len(&self) -> u32
        ensures { result ≡ length self.now.entries }
    {
        self.chain.len()
    }

    /// Whether no entry more fits.
    pub fn is_full(&self) -> bool
        ensures { result ≡ nat_le self.now.room (length self.now.entries) }
    {
        self.chain.is_full()
    }

    /// The place of the first part on a resource.
    pub fn first_on(&self, on: ResId) -> Option<u32>
        requires { on.0 < self.now.resources }
        ensures { MatchOption result (find (is_on on) (staying self.now.entries) ≡ None)
            (IsPlaceOfFirst (is_on on) self.now.entries) }
    {
        self.chain.first_on(on)
    }

    /// The place of the first part on a resource that is not done.
    pub fn first_waiting(&self, on: ResId) -> Option<u32>
        requires { on.0 < self.now.resources }
        ensures { MatchOption result (find (is_waiting on) (staying self.now.entries) ≡ None)
            (IsPlaceOfFirst (is_waiting on) self.now.entries) }
    {
        self.chain.first_waiting(on)
    }

    /// The part at an index, among those that stay.
    pub fn nth(&self, i: u32) -> Option<Standing>
        ensures { result ≡ slice_get (staying self.now.entries) i }
    {
        self.chain.nth(i)
    }

    /// The first part behind a place, among those that stay.
    pub fn after(&self, at: u32) -> Option<Standing>
        requires { at < length self.now.entries }
        ensures { result ≡ slice_get (staying (drop (at + 1) self.now.entries)) 0 }
    {
        self.chain.after(at)
    }

    /// The job of the first part on a resource that is not done, by a table, which is asked for each part.
    pub fn first_waiting_by(&self, table: &StageTable, on: ResId) -> Option<JobId>
        ensures { result ≡ option_map (λ part. part.job) (find (is_waiting_on table.now on.0) (parts_of (staying self.now.entries))) }
    {
        self.chain.first_waiting_by(table, on)
    }

    /// The parts that stay, in their order, by one walk.
    pub fn listed(&self, alloc: Global) -> Result<List<Part>, NoMemory>
        ensures { IfOk result (λ parts. parts ≡ parts_of (staying self.now.entries)) }
    {
        self.chain.listed(alloc)
    }

    /// Whether no slot is left for one job more.
    pub fn has_no_slot(&self) -> bool
        ensures { result ≡ nat_le self.now.slots self.now.given }
    {
        self.slots.is_full()
    }

    /// Only the entries that stay, in their order. It takes no memory.
    pub fn compact(&mut self)
        requires { HaveDistinctJobs (parts_of (staying self.old.entries)) }
        ensures entries { self.new.entries ≡ filter (λ entry. entry.stays) self.old.entries }
        ensures room { self.new.room ≡ self.old.room }
        ensures resources { self.new.resources ≡ self.old.resources }
        ensures given { self.new.given ≡ self.old.given }
        ensures slots { self.new.slots ≡ self.old.slots }
    {
        self.chain.compact();
        place_again(&self.chain, &mut self.slots);
    }

    /// The entries, which all stay, take the first slots. It takes no memory.
    pub fn reassign_slots(&mut self)
        requires stay { All (λ entry. entry.stays ≡ true) self.old.entries }
        requires distinct { HaveDistinctJobs (parts_of (staying self.old.entries)) }
        requires few { length self.old.entries ≤ self.old.slots }
        ensures items { staying self.new.entries ≡ staying self.old.entries }
        ensures length { length self.new.entries ≡ length self.old.entries }
        ensures room { self.new.room ≡ self.old.room }
        ensures resources { self.new.resources ≡ self.old.resources }
        ensures given { self.new.given ≡ length self.old.entries }
        ensures slots { self.new.slots ≡ self.old.slots }
    {
        self.slots.clear();
        reassign_slots(&mut self.chain, &mut self.slots);
    }
}
