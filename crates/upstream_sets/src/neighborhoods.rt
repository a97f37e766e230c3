//! The neighborhoods of all resources, found in one pass over the masks.
//!
//! Each stage is put into the list of each resource to which it leads, so there are as many steps as stages and members, where a look
//! at each mask for each resource takes their product.
ghost use Rattle.std.specs.Prelude.{◌≡◌, ◌<◌, ◌++◌, [], ◌∷◌, length, IfOk, OnOk};
ghost use Rattle.cell_base.specs.declared.limits.TheConstants.{MAX_RESOURCES};
ghost use Rattle.upstream_sets.specs.Members.{HaveBits, IsAdded};

use cell_base::{List, MAX_RESOURCES, NoMemory};
use route_table::StageNo;
use std::alloc::Global;

/// For each resource that a cell may have the numbers of the masks with its bit.
pub fn neighborhoods(alloc: Global, masks: &[u64]) -> Result<Vec<List<StageNo>>, NoMemory>
    requires { length masks.now < 65536 }
    ensures { IfOk result (λ lists. HaveBits (length masks.now) masks.now lists.items) }
{
    let mut lists = empty_lists(alloc)?;
    for stage in 0..masks.len() {
        add_stage(&mut lists, masks[stage], StageNo(stage as u16))?;
    }
    Ok(lists)
}

/// A list without stages for each resource that a cell may have.
fn empty_lists(alloc: Global) -> Result<Vec<List<StageNo>>, NoMemory>
    ensures { IfOk result (λ lists. HaveBits 0 [] lists.items) }
{
    let mut lists = Vec::new(alloc);
    for _ in 0..MAX_RESOURCES {
        lists.push(List::new(alloc))?;
    }
    Ok(lists)
}

/// Puts a stage into the list of each resource of its mask.
fn add_stage(lists: &mut Vec<List<StageNo>>, mask: u64, stage: StageNo) -> Result<(), NoMemory>
    requires { length lists.old.items ≡ MAX_RESOURCES }
    ensures { OnOk result (IsAdded mask stage lists.old.items lists.new.items) }
{
    let mut left = mask;
    while left != 0 {
        let r = left.trailing_zeros();
        lists[r as usize].try_push(stage)?;
        left &= !(1 << r);
    }
    Ok(())
}
