//! What the core looks up of each stage, in one row.
ghost use Rattle.std.specs.Prelude.{◌≡◌, ◌+◌, if◌then◌else◌, IfOk};
ghost use Rattle.cell_base.specs.Neighborhoods.{masks_of};
ghost use Rattle.cell_base.specs.Numbers.{IsNumber, stage_numbered};
ghost use Rattle.admission_core.specs.Rows.{AreRows, IsRowOf};

use cell_base::{NoMemory, ResId};
use route_table::{StageNo, StageTable};
use std::alloc::Global;
use upstream_sets::Upstream;

/// A stage: its neighborhoods, its resource, whether it works, the steps that a part needs which is done there, and the place to
/// which branch 0 leads.
#[derive(Clone, Copy, Drop)]
pub struct Row {
    pub mask: u64,
    pub left: u32,
    pub on: ResId,
    pub works: bool,
    pub first: Option<u16>,
}

impl Row {
    /// The steps that a part at the stage needs until it is out.
    pub fn work(self, done: bool) -> u64
        ensures { result ≡ (if done then self.left else self.left + 1) }
    {
        let left = u64::from(self.left);
        if done { left } else { left + 1 }
    }
}

/// The rows of all stages, by their numbers.
pub fn rows(alloc: Global, stages: &StageTable, upstream: &Upstream) -> Result<Vec<Row>, NoMemory>
    requires { upstream.now ≡ masks_of stages.now }
    ensures { IfOk result (λ rows. AreRows stages.now rows.items) }
{
    let mut rows = Vec::new(alloc);
    for stage in 0..stages.stages() {
        rows.push(row_of(stages, upstream, StageNo(stage)))?;
    }
    Ok(rows)
}

/// The row of a stage.
fn row_of(stages: &StageTable, upstream: &Upstream, stage: StageNo) -> Row
    requires made { upstream.now ≡ masks_of stages.now }
    requires stage { IsNumber stages.now stage.0 }
    ensures { IsRowOf stages.now (stage_numbered stages.now stage.0) result }
{
    let kind = stages.kind_of(stage);
    let place = stages.place_of(stage);
    Row {
        mask: upstream.mask(stage),
        left: stages.remaining(stage, true),
        on: stages.resource_of(stage),
        works: stages.works(stage),
        first: stages.cell().successor(kind, place, 0),
    }
}
