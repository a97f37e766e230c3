//! The advice, read off the least cost of all resources.
ghost use Rattle.std.specs.Prelude.{◌≡◌, ◌≤◌, length, map, IfOk, IfErr, OnOk};
ghost use Rattle.std.specs.List.{range_with_len};
ghost use Rattle.cell_base.specs.Fits.{CellFits};
ghost use Rattle.order_advisor.specs.Advices.{IsBest, IsFault};
ghost use Rattle.order_advisor.specs.Orders.{own_weight};
ghost use Rattle.order_advisor.specs.Sets.{order_in};
ghost use Rattle.order_advisor.specs.declared.weighing.Weighing.TheVariants.{Alike, ByCapacity};

use crate::search::{least_costs, power_of_16};
use crate::weighing::{Weighing, weight_of};
use cell_base::{Cell, List, NoMemory, ResId};
use route_table::StageTable;
use std::alloc::Global;
use upstream_sets::Upstream;

/// The most resources of a cell that `advise` takes.
pub const ADVISED: u16 = 7;

/// The most resources of a cell that `arrange` takes: the places of the resources are digits to base 16.
pub const ARRANGED: u16 = 16;

/// The best orders, one for each resource, their weight, and the weight of the orders that the cell has itself.
#[derive(Drop)]
pub struct Advice {
    pub orders: List<u32>,
    pub weight: u64,
    pub given: u64,
}

/// Why there is no advice.
#[derive(Clone, Copy, Debug, PartialEq, Eq, Drop)]
pub enum AdviceFault {
    /// The cell has more resources than the limit: so many.
    TooManyResources { count: u32 },
    Memory,
}

impl From<NoMemory> for AdviceFault {
    ghost use Rattle.order_advisor.specs.declared.advice.AdviceFault.{AdviceFault};
    ghost use Rattle.order_advisor.specs.declared.advice.AdviceFault.TheVariants.{Memory};
    ghost use Rattle.std.specs.Prelude.{◌≡◌};

    ghost from_gives = { λ e f. f ≡ Memory };

    fn from(_: NoMemory) -> Self {
        AdviceFault::Memory
    }
}

/// The orders of the least weight for a cell of at most `ADVISED` resources, where each membership weighs 1.
pub fn advise(alloc: Global, cell: &Cell) -> Result<Advice, AdviceFault>
    requires { CellFits cell.now }
    ensures few { OnOk result (length cell.now.resources ≤ ADVISED) }
    ensures best { IfOk result (IsBest Alike cell.now) }
    ensures fault { IfErr result (IsFault cell.now ADVISED) }
{
    best_within(alloc, cell, Weighing::Alike, ADVISED)
}

/// The orders of the least weight for a cell of at most `ARRANGED` resources, where each membership is weighed by the capacity of its
/// resource. It takes a table of two to the number of resources.
pub fn arrange(alloc: Global, cell: &Cell) -> Result<Advice, AdviceFault>
    requires { CellFits cell.now }
    ensures few { OnOk result (length cell.now.resources ≤ ARRANGED) }
    ensures best { IfOk result (IsBest ByCapacity cell.now) }
    ensures fault { IfErr result (IsFault cell.now ARRANGED) }
{
    best_within(alloc, cell, Weighing::ByCapacity, ARRANGED)
}

/// The orders of the least weight by a weighing, for a limit, which is at most `ARRANGED`.
pub fn best_within(
    alloc: Global,
    cell: &Cell,
    weighing: Weighing,
    limit: u16,
) -> Result<Advice, AdviceFault>
    requires fits { CellFits cell.now }
    requires limit { limit ≤ ARRANGED }
    ensures few { OnOk result (length cell.now.resources ≤ limit) }
    ensures best { IfOk result (IsBest weighing cell.now) }
    ensures fault { IfErr result (IsFault cell.now limit) }
{
    let resources = cell.resources.len() as u16;
    if resources > limit {
        return Err(AdviceFault::TooManyResources {
            count: u32::from(resources),
        });
    }
    Ok(best(alloc, cell, resources, weighing)?)
}

/// The best orders.
fn best(alloc: Global, cell: &Cell, resources: u16, weighing: Weighing) -> Result<Advice, NoMemory>
    requires fits { CellFits cell.now }
    requires resources { resources ≡ length cell.now.resources }
    requires limit { resources ≤ ARRANGED }
    ensures { IfOk result (IsBest weighing cell.now) }
{
    let table = StageTable::new(alloc, cell)?;
    best_of(alloc, &table, resources, weighing)
}

/// The orders of the least weight by a weighing, over the stages of the cell.
fn best_of(
    alloc: Global,
    table: &StageTable,
    resources: u16,
    weighing: Weighing,
) -> Result<Advice, NoMemory>
    requires fits { CellFits table.now }
    requires resources { resources ≡ length table.now.resources }
    requires limit { resources ≤ ARRANGED }
    ensures { IfOk result (IsBest weighing table.now) }
{
    let costs = least_costs(alloc, table, resources, weighing)?;
    let least = costs[(1 << resources) - 1];
    Ok(Advice {
        orders: orders(alloc, resources, least)?,
        weight: (least / power_of_16(resources)) as u64,
        given: given(alloc, table, resources, weighing)?,
    })
}

/// The orders whose places are the last digits of a cost.
fn orders(alloc: Global, resources: u16, cost: u128) -> Result<List<u32>, NoMemory>
    requires { resources ≤ ARRANGED }
    ensures { IfOk result (λ list. list ≡ map (order_in resources cost) (range_with_len 0 resources)) }
{
    let mut list = List::new(alloc);
    for r in 0..resources {
        list.try_push((cost / power_of_16(resources - 1 - r) % 16) as u32 + 1)?;
    }
    Ok(list)
}

/// The weight of the orders that the cell has.
fn given(
    alloc: Global,
    table: &StageTable,
    resources: u16,
    weighing: Weighing,
) -> Result<u64, NoMemory>
    requires fits { CellFits table.now }
    requires resources { resources ≡ length table.now.resources }
    ensures { IfOk result (λ weight. weight ≡ own_weight weighing table.now) }
{
    let upstream = Upstream::new(alloc, table)?;
    let mut weight = 0;
    for r in 0..resources {
        weight += weight_of(
            weighing,
            table,
            ResId(r),
            upstream.members(alloc, ResId(r))?.len(),
        );
    }
    Ok(weight)
}
