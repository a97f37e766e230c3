//! Entries in the order in which they came, and for each resource the first ones of it.
//!
//! The entries that were told a resource are linked in their order, also those that are gone, so that the next one that stays is found
//! by one step for each of them that is gone. One chain serves both: the next that stays, and the next that stays and is not done.
ghost use Rattle.std.specs.Prelude.{◌≡◌, ◌≢◌, ℕ, ◌+◌, ◌<◌, ◌≤◌, ◌∷◌, ◌++◌, [], true, not, ◌&&◌, if◌then◌else◌, nat_le, min};
ghost use Rattle.std.specs.Prelude.{drop, map, filter, find, length, All, Some, None, slice_get, slice_set, slice_index, MatchOption, IfOk, vec_capacity};
ghost use Rattle.std.specs.Option.{option_map};
ghost use Rattle.cell_base.specs.Outcomes.{is_waiting_on};
ghost use Rattle.part_table.specs.Chains.{OFF, link_entries, nexts_of, told_key, key_of, standing_key, waiting_key};
ghost use Rattle.part_table.specs.Chains.{IsFirst, IsOnWay, WasFirst, AreLinked, AreNone, IsChained, linked};
ghost use Rattle.part_table.specs.Logs.{gone_entry, done_entry, with_slot, staying};
ghost use Rattle.part_table.specs.Standings.{parts_of};
ghost use Rattle.part_table.specs.declared.standing.Entry.{Entry};

use crate::lanes::resource_of;
use crate::link::{Link, Packed};
use crate::standing::{Entry, Standing};
use cell_base::{JobId, List, NoMemory, Part, ResId};
use route_table::StageTable;
use std::alloc::Global;
use std::marker::Model;

/// Past every place.
pub const NOWHERE: u32 = u32::MAX;

/// Of the entries that were told a resource, the places of the first that stays, of the first that stays and is not done, and of the
/// last that came.
#[derive(Clone, Copy, Debug, PartialEq, Eq)]
pub struct Ends {
    first: u32,
    waiting: u32,
    last: u32,
}

impl Ends {
    /// Of no entries.
    const NONE: Ends = Ends {
        first: NOWHERE,
        waiting: NOWHERE,
        last: NOWHERE,
    };

    /// With one entry more, after all others.
    fn with(self, at: u32, done: bool) -> Ends
        ensures first { result.first ≡ min self.first at }
        ensures waiting { result.waiting ≡ (if done then self.waiting else min self.waiting at) }
        ensures last { result.last ≡ at }
    {
        Ends {
            first: self.first.min(at),
            waiting: if done {
                self.waiting
            } else {
                self.waiting.min(at)
            },
            last: at,
        }
    }
}

/// The entries in the order in which they came, and the ends of each resource.
#[derive(Drop)]
pub struct Chain {
    links: Vec<Packed>,
    /// By resource.
    ends: Vec<Ends>,
}

impl Model for Chain {
    ghost use Rattle.std.specs.Prelude.{length, vec_capacity};
    ghost use Rattle.part_table.specs.Chains.{Chained, IsChain, link_entries};

    ghost Value = { Chained };

    ghost view = { λ s. record {
      entries = link_entries s.links.items;
      room = vec_capacity s.links;
      resources = length s.ends.items;
    } };

    ghost invariant = { λ s. IsChain s.links.items s.ends.items (vec_capacity s.links) };
}

/// The ends of resources of which none has an entry.
fn no_ends(alloc: Global, resources: u16) -> Result<Vec<Ends>, NoMemory>
    ensures none { IfOk result (λ ends. AreNone ends.items) }
    ensures resources { IfOk result (λ ends. length ends.items ≡ resources) }
{
    Ok(vec![in alloc; Ends::NONE; resources as usize]?)
}

/// No resource has an entry any more.
fn forget(ends: &mut Vec<Ends>)
    ensures none { AreNone ends.new.items }
    ensures resources { length ends.new.items ≡ length ends.old.items }
{
    ends.as_mut_slice().fill(Ends::NONE);
}

/// The last place before a place leads to it, where there is one.
#[inline(always)]
fn lead(links: &mut Vec<Packed>, last: u32, at: u32)
    requires { at < length links.old.items }
    ensures entries { link_entries links.new.items ≡ link_entries links.old.items }
    ensures next { nexts_of links.new.items ≡ linked (nexts_of links.old.items) last at }
    ensures room { vec_capacity links.new ≡ vec_capacity links.old }
{
    if last < at {
        links[last as usize].lead_to(at);
    }
}

/// The entry at a place, which stays, has the item and leads nowhere, comes after those before it, which are linked.
fn join(links: &mut Vec<Packed>, ends: &mut Vec<Ends>, at: u32, item: Standing)
    requires few { length links.old.items ≤ NOWHERE }
    requires chained { IsChained (link_entries links.old.items) (nexts_of links.old.items) ends.old.items at }
    requires inside { at < length links.old.items }
    requires nowhere { slice_index (nexts_of links.old.items) at ≡ NOWHERE }
    requires entry { (entry : Entry) → slice_get (link_entries links.old.items) at ≡ Some entry
        → (entry.item ≡ item) × (entry.stays ≡ true) }
    requires told { item.on.0 < length ends.old.items }
    ensures entries { link_entries links.new.items ≡ link_entries links.old.items }
    ensures chained { IsChained (link_entries links.new.items) (nexts_of links.new.items) ends.new.items (at + 1) }
    ensures room { vec_capacity links.new ≡ vec_capacity links.old }
    ensures resources { length ends.new.items ≡ length ends.old.items }
{
    let lane = item.on.0 as usize;
    let end = ends[lane];
    lead(links, end.last, at);
    ends[lane] = end.with(at, item.part.done);
}

/// All entries, which stay, are linked anew.
fn join_all(links: &mut Vec<Packed>, ends: &mut Vec<Ends>)
    requires few { length links.old.items ≤ NOWHERE }
    requires none { AreNone ends.old.items }
    requires resources { length ends.old.items ≤ OFF }
    requires stay { All (λ entry. entry.stays ≡ true) (link_entries links.old.items) }
    requires told { All (λ entry. told_key entry < length ends.old.items) (link_entries links.old.items) }
    ensures entries { link_entries links.new.items ≡ link_entries links.old.items }
    ensures chained { IsChained (link_entries links.new.items) (nexts_of links.new.items) ends.new.items (length links.new.items) }
    ensures room { vec_capacity links.new ≡ vec_capacity links.old }
    ensures resources { length ends.new.items ≡ length ends.old.items }
{
    for at in 0..links.len() {
        let link = &mut links[at];
        link.lead_to(NOWHERE);
        let item = link.entry().item;
        join(links, ends, at as u32, item);
    }
}

/// Whether the entry of a link stays, and where `waiting`, is not done.
#[inline(always)]
fn is_sought(link: &Packed, waiting: bool) -> bool
    ensures { result ≡ (link.now.entry.stays && not (waiting && link.now.entry.item.part.done)) }
{
    let entry = link.entry();
    entry.stays && !(waiting && entry.item.part.done)
}

/// The first entry from a place on that stays, and where `waiting`, is not done.
fn seek(links: &[Packed], from: u32, waiting: bool) -> u32
    requires few { length links.now ≤ NOWHERE }
    requires linked { AreLinked (link_entries links.now) (nexts_of links.now) (length links.now) }
    ensures { (r : ℕ) → r < OFF
        → IsOnWay (map (key_of waiting) (link_entries links.now)) (map told_key (link_entries links.now)) (length links.now) r from
        → IsFirst (map (key_of waiting) (link_entries links.now)) (length links.now) r result }
{
    let mut at = from;
    while (at as usize) < links.len() {
        let link = &links[at as usize];
        if is_sought(link, waiting) {
            return at;
        }
        at = link.next();
    }
    NOWHERE
}

/// The first place of a resource, which was `first`, after the one at a place lost it.
fn first_after(links: &[Packed], first: u32, at: u32, waiting: bool) -> u32
    requires few { length links.now ≤ NOWHERE }
    requires linked { AreLinked (link_entries links.now) (nexts_of links.now) (length links.now) }
    requires inside { at < length links.now }
    ensures { (r : ℕ) → r < OFF → slice_index (map told_key (link_entries links.now)) at ≡ r
        → WasFirst (map (key_of waiting) (link_entries links.now)) (length links.now) r at first
        → IsFirst (map (key_of waiting) (link_entries links.now)) (length links.now) r result }
{
    if first == at {
        seek(links, links[at as usize].next(), waiting)
    } else {
        first
    }
}

/// The part at an index, among the entries that stay.
fn nth(links: &[Packed], i: u32) -> Option<Standing>
    ensures { result ≡ slice_get (staying (link_entries links.now)) i }
{
    let mut left = i;
    for link in links {
        let entry = link.entry();
        if entry.stays {
            if left == 0 {
                return Some(entry.item);
            }
            left -= 1;
        }
    }
    None
}

/// The parts of the entries that stay.
fn listed(alloc: Global, links: &[Packed]) -> Result<List<Part>, NoMemory>
    ensures { IfOk result (λ parts. parts ≡ parts_of (staying (link_entries links.now))) }
{
    let mut parts = List::new(alloc);
    for link in links {
        let entry = link.entry();
        if entry.stays {
            parts.try_push(entry.item.part)?;
        }
    }
    Ok(parts)
}

/// The job of the first part on a resource that is not done, by a table, which is asked for each part.
fn first_waiting_by(links: &[Packed], table: &StageTable, on: ResId) -> Option<JobId>
    ensures { result ≡ option_map (λ part. part.job)
        (find (is_waiting_on table.now on.0) (parts_of (staying (link_entries links.now)))) }
{
    for link in links {
        let entry = link.entry();
        let part = entry.item.part;
        if entry.stays && !part.done && resource_of(table, part.kind, part.place) == on {
            return Some(part.job);
        }
    }
    None
}

impl Chain {
    /// No entries yet, and room for `n` of them.
    pub fn with_room(alloc: Global, resources: u16, n: u32) -> Result<Chain, NoMemory>
        requires { n < NOWHERE }
        ensures entries { IfOk result (λ chain. chain.entries ≡ []) }
        ensures resources { IfOk result (λ chain. chain.resources ≡ resources) }
        ensures room { IfOk result (λ chain. chain.room ≡ n) }
    {
        Ok(Chain {
            links: Vec::with_capacity(alloc, n as usize)?,
            ends: no_ends(alloc, resources)?,
        })
    }

    /// The number of entries, also of those that are gone.
    pub fn len(&self) -> u32
        ensures { result ≡ length self.now.entries }
    {
        self.links.len() as u32
    }

    /// Whether no entry more fits.
    pub fn is_full(&self) -> bool
        ensures { result ≡ nat_le self.now.room (length self.now.entries) }
    {
        self.links.capacity() <= self.links.len()
    }

    /// The entry at a place.
    #[inline(always)]
    pub fn get(&self, at: u32) -> Entry
        requires { at < length self.now.entries }
        ensures { slice_get self.now.entries at ≡ Some result }
    {
        self.links[at as usize].entry()
    }

    /// The place of the first entry of a resource that stays.
    pub fn first_on(&self, on: ResId) -> Option<u32>
        requires { on.0 < self.now.resources }
        ensures below { on.0 < OFF }
        ensures first { MatchOption result
            ((k : ℕ) → k < length self.now.entries → slice_index (map standing_key self.now.entries) k ≢ on.0)
            (λ at. (at < length self.now.entries) × IsFirst (map standing_key self.now.entries) (length self.now.entries) on.0 at) }
    {
        let at = self.ends[on.0 as usize].first;
        if (at as usize) < self.links.len() {
            Some(at)
        } else {
            None
        }
    }

    /// The place of the first entry of a resource that stays and is not done.
    pub fn first_waiting(&self, on: ResId) -> Option<u32>
        requires { on.0 < self.now.resources }
        ensures below { on.0 < OFF }
        ensures first { MatchOption result
            ((k : ℕ) → k < length self.now.entries → slice_index (map waiting_key self.now.entries) k ≢ on.0)
            (λ at. (at < length self.now.entries) × IsFirst (map waiting_key self.now.entries) (length self.now.entries) on.0 at) }
    {
        let at = self.ends[on.0 as usize].waiting;
        if (at as usize) < self.links.len() {
            Some(at)
        } else {
            None
        }
    }

    /// The part at an index, among those that stay.
    pub fn nth(&self, i: u32) -> Option<Standing>
        ensures { result ≡ slice_get (staying self.now.entries) i }
    {
        nth(&self.links, i)
    }

    /// The first part behind a place, among those that stay.
    pub fn after(&self, at: u32) -> Option<Standing>
        requires { at < length self.now.entries }
        ensures { result ≡ slice_get (staying (drop (at + 1) self.now.entries)) 0 }
    {
        nth(&self.links[at as usize + 1..], 0)
    }

    /// The job of the first part on a resource that is not done, by a table, which is asked for each part.
    pub fn first_waiting_by(&self, table: &StageTable, on: ResId) -> Option<JobId>
        ensures { result ≡ option_map (λ part. part.job) (find (is_waiting_on table.now on.0) (parts_of (staying self.now.entries))) }
    {
        first_waiting_by(&self.links, table, on)
    }

    /// The parts that stay, in their order, by one walk.
    pub fn listed(&self, alloc: Global) -> Result<List<Part>, NoMemory>
        ensures { IfOk result (λ parts. parts ≡ parts_of (staying self.now.entries)) }
    {
        listed(alloc, &self.links)
    }

    /// One entry more. It takes no memory.
    pub fn push(&mut self, item: Standing, slot: u32)
        requires room { length self.old.entries < self.old.room }
        requires on { item.on.0 < self.old.resources }
        ensures entries { self.new.entries ≡ self.old.entries ++ (record { item = item; stays = true; slot = slot }) ∷ [] }
        ensures room { self.new.room ≡ self.old.room }
        ensures resources { self.new.resources ≡ self.old.resources }
    {
        let at = self.links.len() as u32;
        let entry = Entry {
            item,
            stays: true,
            slot,
        };
        self.links.push_reserved(Packed::of(Link {
            entry,
            next: NOWHERE,
        }));
        join(&mut self.links, &mut self.ends, at, item);
    }

    /// The part of an entry does not stand there any more. Gives the entry as it was.
    pub fn take_out(&mut self, at: u32) -> Entry
        requires { at < length self.old.entries }
        ensures entry { slice_get self.old.entries at ≡ Some result }
        ensures entries { self.new.entries ≡ slice_set self.old.entries at (gone_entry result) }
        ensures room { self.new.room ≡ self.old.room }
        ensures resources { self.new.resources ≡ self.old.resources }
    {
        let link = &mut self.links[at as usize];
        let entry = link.entry();
        link.take_out();
        let lane = entry.item.on.0 as usize;
        let end = self.ends[lane];
        self.ends[lane] = Ends {
            first: first_after(&self.links, end.first, at, false),
            waiting: first_after(&self.links, end.waiting, at, true),
            ..end
        };
        entry
    }

    /// The part of an entry is done.
    pub fn finish(&mut self, at: u32)
        requires { at < length self.old.entries }
        ensures entries { (entry : Entry) → slice_get self.old.entries at ≡ Some entry
            → self.new.entries ≡ slice_set self.old.entries at (done_entry entry) }
        ensures room { self.new.room ≡ self.old.room }
        ensures resources { self.new.resources ≡ self.old.resources }
    {
        let link = &mut self.links[at as usize];
        let lane = link.entry().item.on.0 as usize;
        link.finish();
        let end = self.ends[lane];
        self.ends[lane] = Ends {
            waiting: first_after(&self.links, end.waiting, at, true),
            ..end
        };
    }

    /// The job of an entry has another slot.
    pub fn set_slot(&mut self, at: u32, slot: u32)
        requires { at < length self.old.entries }
        ensures entries { (entry : Entry) → slice_get self.old.entries at ≡ Some entry
            → self.new.entries ≡ slice_set self.old.entries at (with_slot entry slot) }
        ensures room { self.new.room ≡ self.old.room }
        ensures resources { self.new.resources ≡ self.old.resources }
    {
        self.links[at as usize].set_slot(slot);
    }

    /// Only the entries that stay, in their order. It takes no memory.
    pub fn compact(&mut self)
        ensures entries { self.new.entries ≡ filter (λ entry. entry.stays) self.old.entries }
        ensures room { self.new.room ≡ self.old.room }
        ensures resources { self.new.resources ≡ self.old.resources }
    {
        self.links.retain(|link| link.entry().stays);
        forget(&mut self.ends);
        join_all(&mut self.links, &mut self.ends);
    }
}
