//! A lock of one pass, under which the plan is looked at and a request is asked.
ghost use Rattle.std.specs.Prelude.{◌≡◌, [], IfOk};
ghost use Rattle.cell_base.specs.Fits.{RequestFits};
ghost use Rattle.cell_lock.specs.Passes.{KeepsName, new_passes};

use anyhow::{Context, Result, bail};
use cell_base::{Entry, Reply, Request, Told, request_fits};
use cell_file::read_cell;
use cell_lock::{Pass, SharedCell};
use durable_cell::{AskFault, Durable, Opening};
use lists::List;
use outside_io::Disk;
use std::alloc::Global;
use std::sync::Wait;
use test_fixtures::CROSSING;

/// Opens a lock of one pass on a disk, looks at the plan's step, asks this request, and closes the lock. The step is to be this one, and
/// the request is to be granted and to be the one entry of the history.
pub fn check_look<R: Wait, D: Disk + Drop>(
    rt: &R,
    alloc: Global,
    disk: D,
    step: Option<Request>,
    request: Request,
) -> Result<()> {
    let durable = open(alloc, disk)?;
    if !request_fits(durable.core().cell(), &request) {
        bail!("{request:?} doesn't fit the cell");
    }
    share(rt, alloc, durable, step, request)
}

// The durable cell on a disk, in which nothing was decided.
fn open<D: Disk + Drop>(alloc: Global, disk: D) -> Result<Durable<D>>
    ensures { IfOk result (λ durable. durable.history ≡ []) }
{
    let Ok(cell) = read_cell(alloc, CROSSING) else {
        bail!("no cell");
    };
    match Durable::open(alloc, cell, CROSSING, disk, 10, 10) {
        Opening::Open(durable) => Ok(durable),
        _ => bail!("not opened"),
    }
}

// Opens a lock with one pass.
fn share<R: Wait, D: Disk + Drop>(
    rt: &R,
    alloc: Global,
    durable: Durable<D>,
    step: Option<Request>,
    request: Request,
) -> Result<()>
    requires new { durable.history ≡ [] }
    requires fits { RequestFits durable.cell request }
{
    match SharedCell::open(alloc, durable, 1, 1) {
        Ok((cell, passes)) => use_lock(rt, alloc, cell, passes, step, request),
        Err(_) => bail!("no memory"),
    }
}

// Looks and asks with the pass, and closes the lock.
fn use_lock<R: Wait, D: Disk + Drop>(
    rt: &R,
    alloc: Global,
    cell: SharedCell<D>,
    mut passes: List<Pass<D>>,
    step: Option<Request>,
    request: Request,
) -> Result<()>
    requires passes { (passes ≡ new_passes D.moment cell 1 1) × (cell.opening.passes ≡ 1) }
    requires fits { RequestFits cell.opening.cell request }
{
    let mut pass = passes.pop().context("no pass")?;
    let (seen, reply) = look_and_ask(rt, &cell, &mut pass, &request);
    if seen != step || reply != Ok(Reply::Granted) {
        bail!("{seen:?} is planned, and {reply:?} is answered");
    }
    check_history(close(alloc, cell, pass)?.history(), request)
}

// The plan's step, and then the answer to a request.
fn look_and_ask<R: Wait, D: Disk>(
    rt: &R,
    cell: &SharedCell<D>,
    pass: &mut Pass<D>,
    request: &Request,
) -> (Option<Request>, Result<Reply, AskFault>)
    requires lock { pass.old.lock ≡ cell.now }
    requires fits { RequestFits cell.now.opening.cell request.now }
    ensures same { KeepsName pass.old pass.new }
{
    let step = cell.peek_plan_step(rt, pass);
    (step, cell.ask(rt, pass, request))
}

// The durable cell of a lock with one pass.
fn close<D: Disk + Drop>(alloc: Global, cell: SharedCell<D>, pass: Pass<D>) -> Result<Durable<D>>
    requires pass { (pass.lock ≡ cell) × (pass.number ≡ 1) }
    requires one { cell.opening.passes ≡ 1 }
{
    let mut passes = List::new(alloc);
    if passes.try_push(pass).is_err() {
        bail!("no memory");
    }
    Ok(cell.close(passes))
}

// The history has this grant and nothing else.
fn check_history(history: &[Entry], request: Request) -> Result<()> {
    let granted = Entry {
        session: 1,
        request,
        told: Told::Answered(Reply::Granted),
    };
    if history != [granted].as_slice() {
        bail!("{history:?} in place of {granted:?}");
    }
    Ok(())
}
