//! The parts of a core, carried to another cell one after the other.
ghost use Rattle.std.specs.Prelude.{◌≡◌, [], IfOk, IfErr};
ghost use Rattle.carry_commands.specs.CarryClauses.{AreCarried, CellFits, EndsAtCarry, HasCarried};

use crate::placing::carried_part;
use crate::refusals::{CarryFault, at_carry_fault};
use admission_core::Core;
use admission_core::laws::core_law;
use cell_base::{Cell, List, NoMemory, Part, Request};
use cell_walks::EarlyEnd;
use std::alloc::Global;

/// The requests that place the parts of one cell in another, and that other cell with the parts placed.
#[derive(Drop)]
pub struct Carried {
    pub core: Core,
    pub requests: List<Request>,
}

/// Carries the parts of a core to another cell, or gives the end at the first that can't be placed there.
pub fn carry_parts(alloc: Global, old: &Core, new: Cell) -> Result<Carried, EarlyEnd>
    requires { CellFits new }
    ensures carried { IfOk result (HasCarried old.now new) }
    ensures ended { IfErr result (EndsAtCarry old.now.cell new old.now.parts) }
{
    let Ok(parts) = old.parts(alloc) else {
        return Err(EarlyEnd::WantOfMemory);
    };
    let Ok(mut core) = Core::open(alloc, new) else {
        return Err(EarlyEnd::WantOfMemory);
    };
    match place_parts(alloc, old, &mut core, parts.as_slice()) {
        Ok(requests) => Ok(Carried { core, requests }),
        Err(end) => Err(end),
    }
}

// Places each part in an empty core.
fn place_parts(
    alloc: Global,
    old: &Core,
    core: &mut Core,
    parts: &[Part],
) -> Result<List<Request>, EarlyEnd>
    requires parts { parts.now ≡ old.now.parts }
    requires empty { core.old.parts ≡ [] }
    ensures carried { IfOk result (AreCarried old.now core.old.cell) }
    ensures ended { IfErr result (EndsAtCarry old.now.cell core.old.cell old.now.parts) }
    ensures same { core.new.cell ≡ core.old.cell }
{
    core_law(old);
    let mut requests = List::new(alloc);
    for part in parts {
        match carried_part(old.cell(), core, part) {
            Ok(request) => {
                core.apply(&request);
                match requests.try_push(request) {
                    Ok(()) => {}
                    Err(NoMemory) => return Err(EarlyEnd::WantOfMemory),
                }
            }
            Err(why) => {
                let fault = CarryFault { job: part.job, why };
                return Err(at_carry_fault(core.cell(), &fault));
            }
        }
    }
    Ok(requests)
}
