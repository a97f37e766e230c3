//! The resources by their ranks in the plan, with a mask of those on which parts may stand.
//!
//! A resource is marked as a part comes to it, and is marked no longer once the last part has left it. So the lowest bit of the
//! mask is the rank from which the plan takes its next part, and no resource without a part is looked at.
ghost use Rattle.std.specs.Prelude.{◌≡◌, ℕ, ◌<◌, ◌≤◌, ◌==◌, ◌&&◌, ◌||◌, not, [], length, Some, slice_get, slice_index_or, IfOk};
ghost use Rattle.cell_base.specs.Masks.{has_bit};
ghost use Rattle.cell_base.specs.Fits.{CellFits};
ghost use Rattle.admission_core.specs.Clauses.{ResId};
ghost use Rattle.admission_core.specs.Occupied.{AreBitsOf, IsMarked, IsOfRanks};

use crate::ranks::ranks;
use cell_base::{Cell, NoMemory, ResId};
use std::alloc::Global;
use std::marker::Model;

/// The ranks, and which of their resources may be occupied.
#[derive(Drop)]
pub struct Occupied {
    ranks: Vec<ResId>,
    /// By resource, the bit of its rank.
    bits: Vec<u64>,
    /// The bits of the resources that may be occupied.
    mask: u64,
}

impl Model for Occupied {
    ghost use Rattle.std.specs.Prelude.{length};
    ghost use Rattle.admission_core.specs.Occupied.{Marked, HasBits};

    ghost Value = { Marked };

    ghost view = { λ s. record { ranks = s.ranks.items; mask = s.mask; resources = length s.bits.items } };

    ghost invariant = { λ s. HasBits s.ranks.items s.bits.items s.mask };
}

/// The bits of the ranks of a resource.
fn bits_of(ranks: &[ResId], r: ResId) -> u64
    requires { length ranks.now ≤ 64 }
    ensures { AreBitsOf ranks.now r.0 result }
{
    let mut bits = 0;
    for (k, q) in ranks.iter().enumerate() {
        if q.0 == r.0 {
            bits |= 1 << k;
        }
    }
    bits
}

impl Occupied {
    /// The ranks of a cell's resources, all of them free.
    pub fn new(alloc: Global, cell: &Cell) -> Result<Occupied, NoMemory>
        requires { CellFits cell.now }
        ensures { IfOk result (IsMarked cell.now []) }
    {
        let ranks = ranks(alloc, cell)?;
        let mut bits = Vec::new(alloc);
        for r in 0..cell.resources.len() as u16 {
            bits.push(bits_of(&ranks, ResId(r)))?;
        }
        Ok(Occupied {
            ranks,
            bits,
            mask: 0,
        })
    }

    /// The ranks of the resources that may be occupied.
    pub fn mask(&self) -> u64
        ensures value { result ≡ self.now.mask }
        ensures of_ranks { IsOfRanks self.now.ranks result }
    {
        self.mask
    }

    /// The resource of a rank.
    pub fn at(&self, rank: u32) -> ResId
        requires { rank < length self.now.ranks }
        ensures { slice_get self.now.ranks rank ≡ Some result }
    {
        self.ranks[rank as usize]
    }

    /// A part has come to a resource.
    pub fn mark(&mut self, on: ResId)
        requires { on.0 < self.old.resources }
        ensures marks { (k : ℕ) (d : ResId) → k < length self.old.ranks
            → has_bit self.new.mask k ≡ (has_bit self.old.mask k || ((slice_index_or self.old.ranks k d).0 == on.0)) }
        ensures ranks { self.new.ranks ≡ self.old.ranks }
        ensures resources { self.new.resources ≡ self.old.resources }
    {
        self.mask |= self.bits[on.0 as usize];
    }

    /// The last part has left a resource.
    pub fn unmark(&mut self, on: ResId)
        requires { on.0 < self.old.resources }
        ensures marks { (k : ℕ) (d : ResId) → k < length self.old.ranks
            → has_bit self.new.mask k ≡ (has_bit self.old.mask k && not ((slice_index_or self.old.ranks k d).0 == on.0)) }
        ensures ranks { self.new.ranks ≡ self.old.ranks }
        ensures resources { self.new.resources ≡ self.old.resources }
    {
        self.mask &= !self.bits[on.0 as usize];
    }
}
