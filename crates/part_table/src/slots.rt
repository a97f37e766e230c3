//! Where the parts of jobs stand in a log: each job has a slot, and each slot leads to the place of its part.
//!
//! A job is looked up by its hash, which leads to its slot. A part that goes on keeps its slot, so that no hash is needed for it.
ghost use Rattle.std.specs.Prelude.{◌≡◌, ℕ, ◌+◌, ◌<◌, ◌≤◌, ◌&&◌, if◌then◌else◌, [], length, Some, IfOk, nat_eq, nat_le, is_some};
ghost use Rattle.std.specs.HashMap.{get, hash_map_len, spare};
ghost use Rattle.part_table.specs.declared.chain.TheConstants.{NOWHERE};
ghost use Rattle.part_table.specs.Slots.{place_at, slot_of};

use cell_base::{JobId, NoMemory};
use std::alloc::Global;
use std::collections::HashMap;
use std::marker::Model;

/// For each job its slot, and for each slot the place to which its part came last. Slots are given in their order, from 0.
#[derive(Drop)]
pub struct Slots {
    /// By job, its slot.
    slots: HashMap<u32, u32>,
    /// By slot, the place of its part.
    places: Vec<u32>,
}

impl Model for Slots {
    ghost use Rattle.std.specs.Prelude.{◌+◌, ◌≤◌, vec_capacity};
    ghost use Rattle.std.specs.HashMap.{hash_map_len, spare};
    ghost use Rattle.part_table.specs.Slots.{SlotTable, AreSlots};

    ghost Value = { SlotTable };

    ghost view = { λ s. record { slots = s.slots.entries; places = s.places.items; room = vec_capacity s.places } };

    ghost invariant = { λ s. AreSlots (record { slots = s.slots.entries; places = s.places.items; room = vec_capacity s.places })
        × (vec_capacity s.places ≤ hash_map_len s.slots + spare s.slots) };
}

/// The job has a slot from now on. It takes no memory where one more job fits.
fn give_slot(slots: &mut HashMap<u32, u32>, job: JobId, slot: u32)
    requires { 0 < spare slots.old }
    ensures slots { (q : ℕ) → get nat_eq slots.new q ≡ (if nat_eq job.0 q then Some slot else get nat_eq slots.old q) }
    ensures one_more { hash_map_len slots.new ≤ hash_map_len slots.old + 1 }
    ensures room { hash_map_len slots.old + spare slots.old ≤ hash_map_len slots.new + spare slots.new }
{
    if !replace(slots, job, slot) {
        let _ = slots.insert(job.0, slot);
    }
}

/// A job that has a slot has another from now on. Tells whether it had one.
fn replace(slots: &mut HashMap<u32, u32>, job: JobId, slot: u32) -> bool
    ensures known { result ≡ is_some (get nat_eq slots.old job.0) }
    ensures slots { (q : ℕ) → get nat_eq slots.new q
        ≡ (if result && nat_eq job.0 q then Some slot else get nat_eq slots.old q) }
    ensures len { hash_map_len slots.new ≡ hash_map_len slots.old }
    ensures room { hash_map_len slots.old + spare slots.old ≤ hash_map_len slots.new + spare slots.new }
{
    match slots.get_mut(&job.0) {
        Some(known) => {
            *known = slot;
            true
        }
        None => false,
    }
}

impl Slots {
    /// No jobs, and room for `n` slots.
    pub fn with_room(alloc: Global, n: u32) -> Result<Slots, NoMemory>
        requires { n < NOWHERE }
        ensures none { IfOk result (λ slots. slots.places ≡ []) }
        ensures room { IfOk result (λ slots. slots.room ≡ n) }
    {
        Ok(Slots {
            slots: HashMap::with_capacity(alloc, n as usize)?,
            places: Vec::with_capacity(alloc, n as usize)?,
        })
    }

    /// The place to which the part of a job came last.
    #[inline(always)]
    pub fn place_of(&self, job: JobId) -> Option<u32>
        ensures { result ≡ place_at self.now job.0 }
    {
        match self.slots.get(&job.0) {
            Some(slot) => Some(self.places[*slot as usize]),
            None => None,
        }
    }

    /// Whether no slot more is there.
    pub fn is_full(&self) -> bool
        ensures { result ≡ nat_le self.now.room (length self.now.places) }
    {
        self.places.capacity() <= self.places.len()
    }

    /// A part comes to a place, and its job has a new slot, which it gives. It takes no memory.
    pub fn come(&mut self, job: JobId, at: u32) -> u32
        requires { length self.old.places < self.old.room }
        ensures slot { (q : ℕ) → slot_of self.new q ≡ (if nat_eq job.0 q then Some result else slot_of self.old q) }
        ensures place { (q : ℕ) → place_at self.new q ≡ (if nat_eq job.0 q then Some at else place_at self.old q) }
        ensures given { length self.new.places ≡ length self.old.places + 1 }
        ensures room { self.new.room ≡ self.old.room }
    {
        let slot = self.places.len() as u32;
        give_slot(&mut self.slots, job, slot);
        self.places.push_reserved(at);
        slot
    }

    /// The part of a job, which has the slot, goes on to a place.
    pub fn move_job(&mut self, job: JobId, slot: u32, at: u32)
        requires { slot_of self.old job.0 ≡ Some slot }
        ensures slots { self.new.slots ≡ self.old.slots }
        ensures place { (q : ℕ) → place_at self.new q ≡ (if nat_eq job.0 q then Some at else place_at self.old q) }
        ensures given { length self.new.places ≡ length self.old.places }
        ensures room { self.new.room ≡ self.old.room }
    {
        self.places[slot as usize] = at;
    }

    /// No jobs any more.
    pub fn clear(&mut self)
        ensures none { self.new.places ≡ [] }
        ensures room { self.new.room ≡ self.old.room }
    {
        self.slots.clear();
        self.places.clear();
    }
}
