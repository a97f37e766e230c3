//! The shift: the sessions of the jobs, and those of the machines.
ghost use Rattle.std.specs.Prelude.{◌≡◌, ◌+◌, ◌*◌, ◌<◌, ◌≤◌, ◌++◌, length, replicate, count_by, IfOk, OnOk};
ghost use Rattle.std.specs.List.{All};
ghost use Rattle.cell_base.specs.Fits.{CellFits};
ghost use Rattle.cell_base.specs.Stages.{route_of};
ghost use Rattle.cell_make.specs.Shifts.{drawn_kinds, shift_of, job_script, job_scripts, machine_script, machine_scripts};
ghost use Rattle.cell_make.specs.Shifts.{is_work_on, work_of_jobs};

use crate::draws::Draws;
use cell_base::{Cell, JobId, List, NoMemory, Request, ResId, Shift, Step, TypeId};
use std::alloc::Global;

/// Draws the types of the jobs 1 to 48.
pub fn draw_kinds(alloc: Global, draws: &mut Draws) -> Result<List<TypeId>, NoMemory>
    ensures { IfOk result (λ list. list ≡ drawn_kinds draws.old.number 48) }
{
    let mut kinds = List::new(alloc);
    for _ in 0..48u64 {
        kinds.try_push(TypeId(draws.draw(8) as u16))?;
    }
    Ok(kinds)
}

/// The shift that brings jobs of these types through the cell.
pub fn shift_of(alloc: Global, cell: &Cell, kinds: &[TypeId]) -> Result<Shift, NoMemory>
    requires fits { CellFits cell.now }
    requires kinds { All (λ kind. kind.0 < length cell.now.types) kinds.now }
    requires few { length kinds.now ≤ 48 }
    ensures { IfOk result (λ shift. shift ≡ shift_of cell.now kinds.now) }
{
    let mut scripts = List::new(alloc);
    push_jobs(alloc, &mut scripts, cell, kinds)?;
    push_machines(alloc, &mut scripts, cell, kinds)?;
    Ok(Shift {
        number: 1,
        patience: 1000,
        scripts,
    })
}

/// Appends the scripts of the jobs.
fn push_jobs(
    alloc: Global,
    scripts: &mut List<List<Request>>,
    cell: &Cell,
    kinds: &[TypeId],
) -> Result<(), NoMemory>
    requires kinds { All (λ kind. kind.0 < length cell.now.types) kinds.now }
    requires few { length kinds.now ≤ 48 }
    ensures { OnOk result (scripts.new ≡ scripts.old ++ job_scripts cell.now kinds.now (length kinds.now)) }
{
    for (job, kind) in kinds.iter().enumerate() {
        scripts.try_push(job_script(alloc, cell, JobId(job as u32 + 1), *kind)?)?;
    }
    Ok(())
}

/// Appends the scripts of the machines.
fn push_machines(
    alloc: Global,
    scripts: &mut List<List<Request>>,
    cell: &Cell,
    kinds: &[TypeId],
) -> Result<(), NoMemory>
    requires fits { CellFits cell.now }
    requires kinds { All (λ kind. kind.0 < length cell.now.types) kinds.now }
    requires few { length kinds.now ≤ 48 }
    ensures { OnOk result (scripts.new ≡ scripts.old ++ machine_scripts cell.now kinds.now 16) }
{
    for machine in 0..16 {
        scripts.try_push(machine_script(alloc, cell, kinds, ResId(machine))?)?;
    }
    Ok(())
}

/// A job goes in, on by the first branch to the last place, and out.
fn job_script(
    alloc: Global,
    cell: &Cell,
    job: JobId,
    kind: TypeId,
) -> Result<List<Request>, NoMemory>
    requires { kind.0 < length cell.now.types }
    ensures { IfOk result (λ list. list ≡ job_script cell.now job kind) }
{
    let mut script = List::new(alloc);
    script.try_push(Request::Load { job, kind })?;
    let moves = cell.places(kind).saturating_sub(1);
    repeat(&mut script, Request::Move { job, branch: 0 }, moves)?;
    script.try_push(Request::Unload { job })?;
    Ok(script)
}

/// A machine works as often as the jobs have work for it.
fn machine_script(
    alloc: Global,
    cell: &Cell,
    kinds: &[TypeId],
    machine: ResId,
) -> Result<List<Request>, NoMemory>
    requires fits { CellFits cell.now }
    requires kinds { All (λ kind. kind.0 < length cell.now.types) kinds.now }
    requires few { length kinds.now ≤ 48 }
    ensures { IfOk result (λ list. list ≡ machine_script cell.now kinds.now machine.0) }
{
    let mut script = List::new(alloc);
    let turns = work_of_jobs(cell, kinds, machine);
    repeat(&mut script, Request::Process { machine }, turns)?;
    Ok(script)
}

/// Appends a request so many times.
fn repeat(script: &mut List<Request>, request: Request, times: u64) -> Result<(), NoMemory>
    ensures { OnOk result (script.new ≡ script.old ++ replicate times request) }
{
    for _ in 0..times {
        script.try_push(request)?;
    }
    Ok(())
}

/// How many places of the routes of jobs of these types work on a machine.
fn work_of_jobs(cell: &Cell, kinds: &[TypeId], machine: ResId) -> u64
    requires fits { CellFits cell.now }
    requires kinds { All (λ kind. kind.0 < length cell.now.types) kinds.now }
    requires few { length kinds.now ≤ 48 }
    ensures { result ≡ work_of_jobs cell.now kinds.now machine.0 }
{
    let mut work = 0;
    for kind in kinds {
        work += work_on(route_of(cell, *kind), machine);
    }
    work
}

/// The route of a type.
fn route_of(cell: &Cell, kind: TypeId) -> &[Step]
    requires { kind.0 < length cell.now.types }
    ensures { result.now ≡ route_of cell.now kind.0 }
{
    cell.types.get(u64::from(kind.0)).route.as_slice()
}

/// How many places of a route work on a machine.
fn work_on(route: &[Step], machine: ResId) -> u64
    ensures value { result ≡ count_by (is_work_on machine.0) route.now }
    ensures few { result ≤ length route.now }
{
    let is_work = |step: &&Step| step.works && step.on.0 == machine.0;
    route.iter().filter(is_work).count() as u64
}
