//! The values that the parts of a cell are printed as.
ghost use Rattle.std.specs.Prelude.{◌≡◌, ◌<◌, ◌++◌, All, length, IfOk, OnOk, if◌then◌else◌};
ghost use Rattle.toml.specs.Data.{string};
ghost use Rattle.toml.specs.View.{view, table_view};
ghost use Rattle.cell_base.specs.Fits.{TypeFits};
ghost use Rattle.cell_base.specs.Named.{resource_names};
ghost use Rattle.cell_base.specs.Names.{IsName};
ghost use Rattle.cell_file.specs.Routes.{hold};
ghost use Rattle.cell_file.specs.Printing.{number_data, array_data, put_member, resource_data, step_data, job_type_data};

use cell_base::{JobType, List, Resource, Step};
use std::alloc::{AllocError, Global};
use toml::{Table, Value};

/// Adds a value to a table, in the place of the one that the key had.
#[tactic(auto, using(crate::proofs::Views::members_view_insert))]
pub fn put(alloc: Global, table: &mut Table, key: &str, value: Value) -> Result<(), AllocError>
    ensures { OnOk result (table_view table.new ≡ put_member key.now (view value) (table_view table.old)) }
{
    let key = String::from_str(alloc, key)?;
    table.insert(key, value)?;
    Ok(())
}

/// A number.
#[tactic(auto, using(crate::proofs::Views::view_integer))]
pub fn number_value(n: u32) -> Value
    ensures { view result ≡ number_data n }
{
    Value::Integer(i64::from(n))
}

/// The resources of a cell.
#[tactic(auto, using(crate::proofs::Views::view_array))]
pub fn resources_value(alloc: Global, resources: &[Resource]) -> Result<Value, AllocError>
    requires { All (λ r. IsName r.name) resources.now }
    ensures { IfOk result (λ v. view v ≡ array_data resource_data resources.now) }
{
    let mut values = Vec::new(alloc);
    for resource in resources {
        values.push(resource_value(alloc, resource)?)?;
    }
    Ok(Value::Array(values))
}

#[tactic(auto, using(crate::proofs::Views::view_table), unfolding(crate::specs::Printing::resource_members))]
fn resource_value(alloc: Global, resource: &Resource) -> Result<Value, AllocError>
    requires { IsName resource.now.name }
    ensures { IfOk result (λ v. view v ≡ resource_data resource.now) }
{
    let name = text_of(alloc, resource.name.bytes(), true)?;
    let mut table = Table::new(alloc);
    put(
        alloc,
        &mut table,
        "capacity",
        number_value(resource.capacity),
    )?;
    put(alloc, &mut table, "name", name)?;
    put(alloc, &mut table, "order", number_value(resource.order))?;
    Ok(Value::Table(table))
}

/// The types of a cell with these resources.
pub fn job_types_value(
    alloc: Global,
    version: u32,
    resources: &[Resource],
    types: &[JobType],
) -> Result<Value, AllocError>
    requires fit { All (TypeFits (length resources.now)) types.now }
    requires resources_named { All (λ r. IsName r.name) resources.now }
    requires types_named { All (λ t. IsName t.name) types.now }
    ensures { IfOk result (λ v. view v ≡ array_data (job_type_data version (resource_names resources.now)) types.now) }
{
    let mut values = Vec::new(alloc);
    for job_type in types {
        values.push(job_type_value(alloc, version, resources, job_type)?)?;
    }
    Ok(Value::Array(values))
}

#[tactic(auto, using(crate::proofs::Views::view_table), unfolding(crate::specs::Printing::job_type_members))]
fn job_type_value(
    alloc: Global,
    version: u32,
    resources: &[Resource],
    job_type: &JobType,
) -> Result<Value, AllocError>
    requires steps { All (λ step. step.on.0 < length resources.now) job_type.now.route }
    requires resources_named { All (λ r. IsName r.name) resources.now }
    requires named { IsName job_type.now.name }
    ensures { IfOk result (λ v. view v ≡ job_type_data version (resource_names resources.now) job_type.now) }
{
    let name = text_of(alloc, job_type.name.bytes(), true)?;
    let route = route_value(alloc, resources, job_type.route.as_slice())?;
    let mut table = Table::new(alloc);
    put(alloc, &mut table, "name", name)?;
    if version == 2 {
        let next = next_value(alloc, job_type.next.as_slice())?;
        put(alloc, &mut table, "next", next)?;
    }
    put(alloc, &mut table, "route", route)?;
    Ok(Value::Table(table))
}

fn route_value(alloc: Global, resources: &[Resource], route: &[Step]) -> Result<Value, AllocError>
    requires steps { All (λ step. step.on.0 < length resources.now) route.now }
    requires named { All (λ r. IsName r.name) resources.now }
    ensures { IfOk result (λ v. view v ≡ array_data (step_data (resource_names resources.now)) route.now) }
{
    let mut values = Vec::new(alloc);
    for step in route {
        values.push(step_value(alloc, resources, step)?)?;
    }
    Ok(Value::Array(values))
}

#[tactic(auto, using(crate::proofs::Views::name_at), unfolding(crate::specs::Printing::step_data))]
fn step_value(alloc: Global, resources: &[Resource], step: &Step) -> Result<Value, AllocError>
    requires step { step.now.on.0 < length resources.now }
    requires named { All (λ r. IsName r.name) resources.now }
    ensures { IfOk result (λ v. view v ≡ step_data (resource_names resources.now) step.now) }
{
    let resource = &resources[step.on.0 as usize];
    text_of(alloc, resource.name.bytes(), step.works)
}

// A name, with `:hold` after it where the stage does not work.
#[tactic(auto, using(crate::proofs::Views::view_string, crate::proofs::Views::utf8_if_name))]
fn text_of(alloc: Global, name: &[u8], works: bool) -> Result<Value, AllocError>
    requires { IsName name.now }
    ensures { IfOk result (λ v. view v ≡ string (if works then name.now else name.now ++ hold)) }
{
    let name = match std::str::from_utf8(name) {
        Ok(name) => name,
        Err(_) => unreachable!(),
    };
    let mut text = String::from_str(alloc, name)?;
    if !works {
        text.push_str(":hold")?;
    }
    Ok(Value::String(text))
}

fn next_value(alloc: Global, next: &[List<u16>]) -> Result<Value, AllocError>
    ensures { IfOk result (λ v. view v ≡ array_data (array_data number_data) next.now) }
{
    let mut values = Vec::new(alloc);
    for numbers in next {
        values.push(numbers_value(alloc, numbers.as_slice())?)?;
    }
    Ok(Value::Array(values))
}

fn numbers_value(alloc: Global, numbers: &[u16]) -> Result<Value, AllocError>
    ensures { IfOk result (λ v. view v ≡ array_data number_data numbers.now) }
{
    let mut values = Vec::new(alloc);
    for n in numbers {
        values.push(number_value(u32::from(*n)))?;
    }
    Ok(Value::Array(values))
}
