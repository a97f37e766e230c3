//! Running counts of neighborhoods, with a mask of those that are full.
ghost use Rattle.std.specs.Prelude.{◌≡◌, ℕ, ◌+◌, ◌-◌, ◌<◌, ◌≤◌, None, nat_le, length, slice_index, slice_set, IfOk};
ghost use Rattle.std.specs.Option.{option_map};
ghost use Rattle.std.specs.Int.{bit_at};
ghost use Rattle.cell_base.specs.Masks.{has_bit, bits_only_of};
ghost use Rattle.neighborhood_counts.specs.Counts.{IsFullMask, IsMaskOf, AreHeld, first_full};

use cell_base::{List, NoMemory, ResId};
use std::alloc::Global;
use std::marker::Model;

/// For each resource the number of parts that its neighborhood holds, which is at most its capacity.
#[derive(Drop)]
pub struct Counts {
    counts: Vec<u32>,
    capacities: Vec<u32>,
    /// The resources whose count is their capacity.
    full: u64,
}

impl Model for Counts {
    ghost use Rattle.neighborhood_counts.specs.Counts.{Counted, IsCounted, IsFullMask};

    ghost Value = { Counted };

    ghost view = { λ s. record { counts = s.counts.items; capacities = s.capacities.items } };

    ghost invariant = { λ s. IsCounted (record { counts = s.counts.items; capacities = s.capacities.items })
        × IsFullMask (record { counts = s.counts.items; capacities = s.capacities.items }) s.full };
}

/// The resources without a unit.
fn without_units(capacities: &[u32]) -> u64
    requires { length capacities.now ≤ 64 }
    ensures { (r : ℕ) → r < length capacities.now → has_bit result r ≡ nat_le (slice_index capacities.now r) 0 }
{
    let mut full = 0;
    for (r, capacity) in capacities.iter().enumerate() {
        if *capacity == 0 {
            full |= 1 << r;
        }
    }
    full
}

impl Counts {
    /// Counts of zero.
    pub fn new(alloc: Global, capacities: &List<u32>) -> Result<Counts, NoMemory>
        requires { length capacities.now ≤ 64 }
        ensures zero { IfOk result (λ held. (r : ℕ) → slice_index held.counts r ≡ 0) }
        ensures length { IfOk result (λ held. length held.counts ≡ length capacities.now) }
        ensures capacities { IfOk result (λ held. held.capacities ≡ capacities.now) }
    {
        let capacities = capacities.as_slice();
        Ok(Counts {
            counts: vec![in alloc; 0; capacities.len()]?,
            capacities: Vec::from_slice(alloc, capacities)?,
            full: without_units(capacities),
        })
    }

    /// The lowest resource of a mask that takes no more.
    pub fn first_full(&self, enter: u64) -> Option<ResId>
        requires { IsMaskOf self.now enter }
        ensures { result ≡ option_map (λ r. record { 0 = r }) (first_full self.now enter) }
    {
        let full = enter & self.full;
        if full == 0 {
            None
        } else {
            Some(ResId(full.trailing_zeros() as u16))
        }
    }

    /// The resources that take no more, as a mask.
    pub fn full(&self) -> u64
        ensures { IsFullMask self.now result }
    {
        self.full
    }

    /// The number of parts that the neighborhood of a resource holds.
    pub fn count(&self, r: ResId) -> u32
        requires { r.0 < length self.now.counts }
        ensures count { result ≡ slice_index self.now.counts r.0 }
        ensures within { result ≤ slice_index self.now.capacities r.0 }
    {
        self.counts[r.0 as usize]
    }

    /// One part more.
    fn raise(&mut self, r: usize)
        requires within { r < length self.old.counts }
        requires room { slice_index self.old.counts r < slice_index self.old.capacities r }
        ensures counts { self.new.counts ≡ slice_set self.old.counts r (slice_index self.old.counts r + 1) }
        ensures capacities { self.new.capacities ≡ self.old.capacities }
    {
        let capacity = self.capacities[r];
        let count = self.counts[r] + 1;
        self.counts[r] = count;
        if count == capacity {
            self.full |= 1 << r;
        }
    }

    /// One part less.
    fn lower(&mut self, r: usize)
        requires within { r < length self.old.counts }
        requires held { 0 < slice_index self.old.counts r }
        ensures counts { self.new.counts ≡ slice_set self.old.counts r (slice_index self.old.counts r - 1) }
        ensures capacities { self.new.capacities ≡ self.old.capacities }
    {
        self.counts[r] -= 1;
        self.full &= !(1 << r);
    }

    /// One part more in the neighborhood of each resource of the mask.
    pub fn enter(&mut self, mask: u64)
        requires mask { IsMaskOf self.old mask }
        requires room { first_full self.old mask ≡ None }
        ensures counts { (r : ℕ) → slice_index self.new.counts r ≡ slice_index self.old.counts r + bit_at mask r }
        ensures length { length self.new.counts ≡ length self.old.counts }
        ensures capacities { self.new.capacities ≡ self.old.capacities }
    {
        let mut left = mask;
        while left != 0 {
            let r = left.trailing_zeros();
            self.raise(r as usize);
            left &= !(1 << r);
        }
    }

    /// One part less in the neighborhood of each resource of the mask.
    pub fn leave(&mut self, mask: u64)
        requires mask { IsMaskOf self.old mask }
        requires held { AreHeld self.old mask }
        ensures counts { (r : ℕ) → slice_index self.new.counts r + bit_at mask r ≡ slice_index self.old.counts r }
        ensures length { length self.new.counts ≡ length self.old.counts }
        ensures capacities { self.new.capacities ≡ self.old.capacities }
    {
        let mut left = mask;
        while left != 0 {
            let r = left.trailing_zeros();
            self.lower(r as usize);
            left &= !(1 << r);
        }
    }

    /// A part goes from the neighborhoods of one mask to those of another. The ones that have both keep their counts.
    pub fn shift(&mut self, from: u64, to: u64)
        requires from_mask { IsMaskOf self.old from }
        requires to_mask { IsMaskOf self.old to }
        requires room { first_full self.old (bits_only_of to from) ≡ None }
        requires held { AreHeld self.old (bits_only_of from to) }
        ensures counts { (r : ℕ) → slice_index self.new.counts r + bit_at from r ≡ slice_index self.old.counts r + bit_at to r }
        ensures length { length self.new.counts ≡ length self.old.counts }
        ensures capacities { self.new.capacities ≡ self.old.capacities }
    {
        self.leave(from & !to);
        self.enter(to & !from);
    }
}
