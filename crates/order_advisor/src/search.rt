//! The search over sets of resources: dynamic programming over the subsets of what is put in order, in the manner of M. Held and
//! R. M. Karp, "A Dynamic Programming Approach to Sequencing Problems" (1962).
ghost use Rattle.std.specs.Prelude.{◌≡◌, ℕ, ◌+◌, ◌-◌, ◌*◌, ◌^◌, ◌<◌, ◌≤◌, true, length, slice_index, IfOk};
ghost use Rattle.cell_base.specs.Masks.{has_bit};
ghost use Rattle.cell_base.specs.Stages.{stages};
ghost use Rattle.cell_base.specs.Fits.{CellFits};
ghost use Rattle.order_advisor.specs.Sets.{members_of, power_of_16, cost, last_cost, most_cost, KnowsInside, KnowsLeast};

use crate::inside::{count, has_bit, sweep};
use crate::weighing::{Weighing, weight_of};
use cell_base::{NoMemory, ResId};
use route_table::StageTable;
use std::alloc::Global;

/// For each set of resources the least cost of putting its resources first.
pub fn least_costs(
    alloc: Global,
    table: &StageTable,
    resources: u16,
    weighing: Weighing,
) -> Result<Vec<u128>, NoMemory>
    requires fits { CellFits table.now }
    requires resources { resources ≡ length table.now.resources }
    requires few { resources ≤ 16 }
    ensures length { IfOk result (λ costs. length costs.items ≡ 2 ^ resources) }
    ensures least { IfOk result (λ costs. KnowsLeast weighing table.now resources (2 ^ resources) costs.items) }
{
    let sets = 1usize << resources;
    let mut costs = vec![in alloc; 0u128; sets]?;
    let mut masks = vec![in alloc; 0u64; table.stages() as usize]?;
    for set in 1..sets {
        sweep(table, set as u64, &mut masks);
        costs[set] = least_cost(table, resources, weighing, &costs, &masks, set as u64);
    }
    Ok(costs)
}

/// The least cost of a set, once the sets below have theirs.
fn least_cost(
    table: &StageTable,
    resources: u16,
    weighing: Weighing,
    costs: &[u128],
    masks: &[u64],
    set: u64,
) -> u128
    requires fits { CellFits table.now }
    requires resources { resources ≡ length table.now.resources }
    requires few { resources ≤ 16 }
    requires some { 0 < set }
    requires set { set < 2 ^ resources }
    requires length { length costs.now ≡ 2 ^ resources }
    requires masks_length { length masks.now ≡ length (stages table.now) }
    requires masks { KnowsInside table.now set 0 masks.now }
    requires below { KnowsLeast weighing table.now resources set costs.now }
    ensures least { (r : ℕ) → r < resources → has_bit set r ≡ true
        → result ≤ slice_index costs.now (set - 2 ^ r) + last_cost weighing table.now resources set r }
    ensures some_last { (r : ℕ) × (r < resources) × (has_bit set r ≡ true)
        × (result ≡ slice_index costs.now (set - 2 ^ r) + last_cost weighing table.now resources set r) }
    ensures small { result ≤ set * most_cost resources }
{
    let mut least = u128::MAX;
    for r in 0..resources {
        if has_bit(set, r) {
            let with_last = cost_with_last(table, resources, weighing, costs, masks, set, ResId(r));
            least = least.min(with_last);
        }
    }
    least
}

/// The cost of a set with a resource of it as the last.
fn cost_with_last(
    table: &StageTable,
    resources: u16,
    weighing: Weighing,
    costs: &[u128],
    masks: &[u64],
    set: u64,
    r: ResId,
) -> u128
    requires fits { CellFits table.now }
    requires resources { resources ≡ length table.now.resources }
    requires few { resources ≤ 16 }
    requires set { set < 2 ^ resources }
    requires length { length costs.now ≡ 2 ^ resources }
    requires masks_length { length masks.now ≡ length (stages table.now) }
    requires masks { KnowsInside table.now set 0 masks.now }
    requires below { KnowsLeast weighing table.now resources set costs.now }
    requires resource { r.0 < resources }
    requires member { has_bit set r.0 ≡ true }
    ensures value { result ≡ slice_index costs.now (set - 2 ^ r.0) + last_cost weighing table.now resources set r.0 }
    ensures small { result ≤ set * most_cost resources }
{
    let before = set - (1 << r.0);
    let weight = weight_of(weighing, table, r, count(masks, r));
    costs[before as usize] + cost(resources, r, weight, members_of(resources, before))
}

/// What a resource costs: a number whose last digits to base 16 are the places of the resources, before them the weight.
fn cost(resources: u16, r: ResId, weight: u64, place: u16) -> u128
    requires few { resources ≤ 16 }
    requires resource { r.0 < resources }
    requires weight { weight ≤ 4096000 }
    requires place { place ≤ 16 }
    ensures value { result ≡ cost resources r.0 weight place }
    ensures small { result ≤ most_cost resources }
{
    u128::from(weight) * power_of_16(resources)
        + u128::from(place) * power_of_16(resources - 1 - r.0)
}

/// 16 to the power of a number of digits.
pub fn power_of_16(digits: u16) -> u128
    requires { digits ≤ 16 }
    ensures value { result ≡ power_of_16 digits }
    ensures small { result ≤ 2 ^ 64 }
{
    1 << (4 * digits)
}

/// How many of the first resources a set has.
fn members_of(resources: u16, set: u64) -> u16
    requires { resources ≤ 16 }
    ensures value { result ≡ members_of resources set }
    ensures few { result ≤ resources }
{
    let mut members = 0;
    for r in 0..resources {
        if has_bit(set, r) {
            members += 1;
        }
    }
    members
}
