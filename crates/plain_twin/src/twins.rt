//! The core and the plain recount, asked the same.
ghost use Rattle.std.specs.Prelude.{◌≡◌, ◌<◌, length};
ghost use Rattle.cell_base.specs.Fits.{CellFits, RequestFits};

use crate::draws::Draws;
use crate::replies::Replies;
use admission_core::Core;
use anyhow::{Context, Result, bail};
use cell_base::{Cell, Reply, Request, ResId, request_fits};
use plain_recount::Recount;
use std::alloc::Global;

/// How many requests are drawn for each cell.
const DRAWN: u32 = 600;

/// Asks both the same requests on a cell, each in the empty cell first, up to the first difference.
pub fn compare(alloc: Global, cell: &Cell, replies: &mut Replies) -> Result<()>
    requires { CellFits cell.now }
{
    let copied = cell.copied(alloc).ok().context("no memory")?;
    let mut core = Core::open(alloc, copied).ok().context("no memory")?;
    let mut recount = Recount::new(alloc, cell).ok().context("no memory")?;
    let mut draws = Draws::new();
    for _ in 0..DRAWN {
        let request = draws.request();
        if request_fits(cell, &request) {
            replies.note(ask_both(&mut core, &mut recount, &request)?)?;
        }
    }
    Ok(())
}

// Asks both, and compares what they answer and what they then hold.
fn ask_both(core: &mut Core, recount: &mut Recount<'_>, request: &Request) -> Result<Reply>
    requires core { RequestFits core.old.cell request.now }
    requires recount { RequestFits recount.old.cell request.now }
    requires same { recount.old.cell ≡ core.old.cell }
    ensures core { core.new.cell ≡ core.old.cell }
    ensures recount { recount.new.cell ≡ recount.old.cell }
{
    let reply = core.ask(request);
    let plain = recount.ask(request);
    if reply != plain {
        bail!("{request:?}: {reply:?} by the core, {plain:?} by the recount");
    }
    compare_parts(core, recount).context(format_args!("after {request:?}"))?;
    compare_counts(core, recount).context(format_args!("after {request:?}"))?;
    Ok(reply)
}

// The parts of both, in their order.
fn compare_parts(core: &Core, recount: &Recount<'_>) -> Result<()> {
    let parts = recount.parts();
    if core.parts_left() as usize != parts.len() {
        bail!("other numbers of parts");
    }
    for (i, part) in parts.iter().enumerate() {
        if core.part(i as u32) != *part {
            bail!("other parts at {i}");
        }
    }
    Ok(())
}

// The counts of all neighborhoods.
fn compare_counts(core: &Core, recount: &Recount<'_>) -> Result<()>
    requires { recount.now.cell ≡ core.now.cell }
{
    for r in 0..core.cell().resources.len() {
        let at = ResId(r as u16);
        if u64::from(core.count(at)) != recount.count(at) {
            bail!("other counts of resource {r}");
        }
    }
    Ok(())
}
