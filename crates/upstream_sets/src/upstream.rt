//! The masks of all stages, and the neighborhoods that they tell of.
ghost use Rattle.std.specs.Prelude.{◌≡◌, ◌<◌, length, slice_index, IfOk};
ghost use Rattle.cell_base.specs.declared.limits.TheConstants.{MAX_RESOURCES};
ghost use Rattle.cell_base.specs.Masks.{has_bit};
ghost use Rattle.cell_base.specs.Neighborhoods.{masks_of};
ghost use Rattle.upstream_sets.specs.Masks.{TellsLeads};
ghost use Rattle.upstream_sets.specs.Members.{AreMembersOf, AreNeighborhoodsOf, with_bit};

use crate::neighborhoods::neighborhoods;
use crate::sweep::sweep;
use cell_base::{List, NoMemory, ResId};
use route_table::{StageNo, StageTable};
use std::alloc::Global;
use std::marker::Model;

/// For each stage the mask of the resources to which it leads. Contracts see it as the list of the masks.
#[derive(Drop)]
pub struct Upstream {
    masks: Vec<u64>,
}

impl Model for Upstream {
    ghost use Rattle.std.specs.Prelude.{ℕ, ◌<◌, List, length};

    ghost Value = { List ℕ };

    ghost view = { λ s. s.masks.items };

    ghost invariant = { λ s. length s.masks.items < 65536 };
}

impl Upstream {
    /// The masks of the stages of a table.
    pub fn new(alloc: Global, table: &StageTable) -> Result<Upstream, NoMemory>
        ensures { IfOk result (λ masks. masks ≡ masks_of table.now) }
    {
        let masks = sweep(alloc, table)?;
        Ok(Upstream { masks })
    }

    /// The mask of a stage: bit `r` is set exactly where the stage leads to resource `r`.
    pub fn mask(&self, stage: StageNo) -> u64
        requires { stage.0 < length self.now }
        ensures mask { result ≡ slice_index self.now stage.0 }
        ensures leads { TellsLeads self.now stage.0 result }
    {
        self.masks[stage.0 as usize]
    }

    /// The neighborhood of a resource: the stages that lead to it, in their order.
    pub fn members(&self, alloc: Global, r: ResId) -> Result<List<StageNo>, NoMemory>
        requires { r.0 < MAX_RESOURCES }
        ensures { IfOk result (λ list. AreMembersOf self.now r.0 list) }
    {
        members(alloc, &self.masks, r)
    }

    /// The neighborhoods of all resources, each as `members` gives it.
    pub fn neighborhoods(&self, alloc: Global) -> Result<Vec<List<StageNo>>, NoMemory>
        ensures { IfOk result (λ lists. AreNeighborhoodsOf self.now lists.items) }
    {
        neighborhoods(alloc, &self.masks)
    }
}

/// The numbers of the masks that have a bit.
fn members(alloc: Global, masks: &[u64], r: ResId) -> Result<List<StageNo>, NoMemory>
    requires few { length masks.now < 65536 }
    requires resource { r.0 < MAX_RESOURCES }
    ensures { IfOk result (λ list. list ≡ with_bit masks.now r.0) }
{
    let mut list = List::new(alloc);
    for stage in 0..masks.len() {
        if has_bit(masks[stage], r) {
            list.try_push(StageNo(stage as u16))?;
        }
    }
    Ok(list)
}

/// Whether a mask has the bit of a resource.
fn has_bit(mask: u64, r: ResId) -> bool
    requires { r.0 < MAX_RESOURCES }
    ensures { result ≡ has_bit mask r.0 }
{
    mask >> r.0 & 1 == 1
}
