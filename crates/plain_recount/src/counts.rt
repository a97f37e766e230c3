//! Counts of the parts in a neighborhood, each by a look at every part.
ghost use Rattle.std.specs.Prelude.{◌≡◌, ℕ, ◌≤◌, ◌<◌, ◌++◌, ◌∷◌, [], length, All, option_map, IfSome, nat_le, true};
ghost use Rattle.cell_base.specs.Stages.{IsStage, capacity_of, stage_of};
ghost use Rattle.cell_base.specs.Neighborhoods.{count};
ghost use Rattle.cell_base.specs.Masks.{has_bit};
ghost use Rattle.cell_base.specs.Policy.{IsAdmitted, first_over};
ghost use Rattle.cell_base.specs.Outcomes.{part_of, without};
ghost use Rattle.plain_recount.specs.Entering.{enters};

use crate::stage_masks::StageMasks;
use cell_base::{Part, ResId};

/// How many parts the neighborhood of a resource holds.
pub fn count(table: &StageMasks<'_>, parts: &[Part], r: ResId) -> u64
    requires resource { r.0 < length table.now.resources }
    requires standing { All (λ part. IsStage table.now (stage_of part)) parts.now }
    ensures value { result ≡ count table.now parts.now r.0 }
    ensures few { result ≤ length parts.now }
{
    parts.iter().filter(|part| table.leads(**part, r)).count() as u64
}

/// Whether a neighborhood holds as many parts as its resource has units.
fn is_full(table: &StageMasks<'_>, parts: &[Part], r: ResId) -> bool
    requires resource { r.0 < length table.now.resources }
    requires standing { All (λ part. IsStage table.now (stage_of part)) parts.now }
    ensures { result ≡ nat_le (capacity_of table.now r.0) (count table.now parts.now r.0) }
{
    u64::from(table.cell().capacity_of(r)) <= count(table, parts, r)
}

/// The neighborhoods in which a part would be counted anew, as a mask: it comes in the place of the present part of its job, if there
/// is one.
fn entered(table: &StageMasks<'_>, present: Option<Part>, part: Part) -> u64
    requires present { IfSome present (λ part. IsStage table.now (stage_of part)) }
    requires stage { IsStage table.now (stage_of part) }
    ensures bits { (r : ℕ) → has_bit result r ≡ enters table.now present part r }
    ensures within { (r : ℕ) → has_bit result r ≡ true → r < length table.now.resources }
{
    let counted = match present {
        Some(present) => table.mask(present),
        None => 0,
    };
    table.mask(part) & !counted
}

/// The least resource whose neighborhood would hold too many if the part came in the place of the present one of its job. One that the
/// part doesn't enter holds no more than it does now, so only the others are counted.
#[inline(always)]
pub fn first_over(
    table: &StageMasks<'_>,
    parts: &[Part],
    present: Option<Part>,
    part: Part,
) -> Option<ResId>
    requires admitted { IsAdmitted table.now parts.now }
    requires present { present ≡ part_of parts.now part.job }
    requires stage { IsStage table.now (stage_of part) }
    ensures value { option_map (λ r. r.0) result ≡ first_over table.now (without parts.now part.job ++ part ∷ []) }
    ensures within { IfSome result (λ r. r.0 < length table.now.resources) }
{
    let mut entered = entered(table, present, part);
    while entered != 0 {
        let lowest = entered.trailing_zeros();
        let r = ResId(lowest as u16);
        if is_full(table, parts, r) {
            return Some(r);
        }
        entered &= !(1 << lowest);
    }
    None
}
