//! One part, carried to another cell.
ghost use Rattle.std.specs.Prelude.{◌≡◌, ◌<◌, ◌^◌, length, IfOk, IfErr};
ghost use Rattle.carry_commands.specs.CarryClauses.{CellFits, Granted, IsPlacing, IsStage, UncarriedFits, carried_part, is_alike, placed};
ghost use Rattle.carry_commands.specs.CarryClauses.{placed_as, reply_to, resource_at, resource_name, stage, stage_of, type_alike};

use crate::refusals::Uncarried;
use admission_core::Core;
use cell_base::{Cell, JobId, Part, Reply, Request, TypeId};
use refusal_reason::laws::refusal_is_present;
use step_text::type_of;

/// The request that places a part of one cell in a core of another, where the policy admits it.
pub fn carried_part(old: &Cell, core: &Core, part: &Part) -> Result<Request, Uncarried>
    requires fits { CellFits old.now }
    requires standing { IsStage old.now (stage_of part.now) }
    ensures is { result ≡ carried_part old.now core.now.cell core.now.parts part.now }
    ensures placing { IfOk result (IsPlacing core.now.cell) }
    ensures granted { IfOk result (λ request. reply_to core.now.cell core.now.parts request ≡ Granted) }
    ensures fault { IfErr result (UncarriedFits core.now.cell) }
{
    match placed_as(old, core.cell(), part) {
        Ok(request) => match core.decide(&request) {
            Reply::Granted => Ok(request),
            Reply::Refused(why) => {
                refusal_is_present(core, &request, &why);
                Err(Uncarried::NotAdmitted(why))
            }
        },
        Err(why) => Err(why),
    }
}

// The request that places a part at the same place of the type of the same name, on a resource of the same name.
fn placed_as(old: &Cell, new: &Cell, part: &Part) -> Result<Request, Uncarried>
    requires old { CellFits old.now }
    requires new { CellFits new.now }
    requires standing { IsStage old.now (stage_of part.now) }
    ensures is { result ≡ placed_as old.now new.now part.now (type_alike old.now new.now part.now.kind) }
    ensures placing { IfOk result (IsPlacing new.now) }
    ensures fault { IfErr result (UncarriedFits new.now) }
{
    let name = old.types.get(u64::from(part.kind.0)).name.bytes();
    match type_of(new, name) {
        Some(number) => {
            let kind = TypeId(number);
            if is_alike(old, new, part, kind) {
                Ok(placed(new, part, kind))
            } else {
                Err(Uncarried::NoPlace)
            }
        }
        None => Err(Uncarried::NoType),
    }
}

// Whether a type of the other cell has the place of a part, on a resource of the same name.
fn is_alike(old: &Cell, new: &Cell, part: &Part, kind: TypeId) -> bool
    requires old { CellFits old.now }
    requires new { CellFits new.now }
    requires standing { IsStage old.now (stage_of part.now) }
    requires kind { kind.0 < length new.now.types }
    ensures { result ≡ is_alike old.now new.now (stage_of part.now) (stage kind.0 part.now.place) }
{
    u64::from(part.place) < new.places(kind)
        && resource_name_at(old, part.kind, part.place) == resource_name_at(new, kind, part.place)
}

// The name of the resource of a stage.
fn resource_name_at(cell: &Cell, kind: TypeId, place: u16) -> &[u8]
    requires fits { CellFits cell.now }
    requires stage { IsStage cell.now (stage kind.0 place) }
    ensures { result.now ≡ resource_name cell.now (resource_at cell.now (stage kind.0 place)) }
{
    let resource = cell.resource_at(kind, place);
    cell.resources.get(u64::from(resource.0)).name.bytes()
}

// The request that places a part at a stage of a type: done where it was, or where the stage does not work.
fn placed(new: &Cell, part: &Part, kind: TypeId) -> Request
    requires { IsStage new.now (stage kind.0 part.now.place) }
    ensures is { result ≡ placed new.now part.now kind.0 }
    ensures placing { IsPlacing new.now result }
{
    Request::Place {
        job: JobId(job_number(part)),
        kind,
        place: part.place,
        done: part.done || !new.works_at(kind, part.place),
    }
}

// The number of the job of a part.
fn job_number(part: &Part) -> u32
    ensures is { result ≡ part.now.job.0 }
    ensures small { result < 2 ^ 32 }
{
    part.job.0
}
