//! Copies of cells.
ghost use Rattle.std.specs.Prelude.{◌≡◌, IfOk};

use crate::{Cell, JobType, List, NoMemory, Resource};
use std::alloc::Global;

impl Cell {
    /// A copy of the cell.
    pub fn copied(&self, alloc: Global) -> Result<Cell, NoMemory>
        ensures { IfOk result (λ cell. cell ≡ self.now) }
    {
        let resources = resources(alloc, self.resources.as_slice())?;
        let types = types(alloc, self.types.as_slice())?;
        Ok(Cell { resources, types })
    }
}

fn resources(alloc: Global, resources: &[Resource]) -> Result<List<Resource>, NoMemory>
    ensures { IfOk result (λ copies. copies ≡ resources.now) }
{
    let mut copies = List::new(alloc);
    for resource in resources {
        copies.try_push(Resource {
            name: resource.name.copied(),
            capacity: resource.capacity,
            order: resource.order,
        })?;
    }
    Ok(copies)
}

fn types(alloc: Global, types: &[JobType]) -> Result<List<JobType>, NoMemory>
    ensures { IfOk result (λ copies. copies ≡ types.now) }
{
    let mut copies = List::new(alloc);
    for job_type in types {
        copies.try_push(JobType {
            name: job_type.name.copied(),
            route: List::copy_of(alloc, job_type.route.as_slice())?,
            next: next(alloc, job_type.next.as_slice())?,
        })?;
    }
    Ok(copies)
}

fn next(alloc: Global, next: &[List<u16>]) -> Result<List<List<u16>>, NoMemory>
    ensures { IfOk result (λ copies. copies ≡ next.now) }
{
    let mut copies = List::new(alloc);
    for places in next {
        copies.try_push(List::copy_of(alloc, places.as_slice())?)?;
    }
    Ok(copies)
}
