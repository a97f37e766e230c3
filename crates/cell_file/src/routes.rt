//! The route of a type, text after text; `:hold` ends the text of a place where no work is done.
ghost use Rattle.std.specs.Prelude.{◌≡◌, ◌≤◌, ◌<◌, length, not, position, All, IfOk, IfSome};
ghost use Rattle.std.specs.Str.{bytes_eq};
ghost use Rattle.toml.specs.View.{view, items_view};
ghost use Rattle.toml_walk.specs.Documents.{texts};
ghost use Rattle.cell_file.specs.Faults.{Gives};
ghost use Rattle.cell_file.specs.Routes.{is_hold, resource_part, step_of_text, step_read, route_read};

use crate::faults::CellFault;
use crate::places::in_job_type;
use cell_base::{Field, List, Name, Place, ResId, Step};
use indexmap::IndexSet;
use std::alloc::Global;
use toml::Value;
use toml_walk::string_of;

/// The end of the text of a step that does not work.
const HOLD: &[u8] = b":hold";

/// The route of type `i` that the strings of an array are, where `names` numbers the names of the resources.
pub fn route_read(
    alloc: Global,
    i: u32,
    names: &IndexSet<&[u8]>,
    items: &[Value],
) -> Result<List<Step>, CellFault>
    requires few { length names.now.keys ≤ 64 }
    requires few_items { length items.now ≤ 64 }
    ensures route { Gives result (route_read i (texts names.now.keys) (items_view items.now)) }
    ensures complete { IfOk result (λ route. length route ≡ length items.now) }
    ensures fit { IfOk result (λ route. All (λ step. step.on.0 < length names.now.keys) route) }
{
    let mut found = List::new(alloc);
    for (k, value) in items.iter().enumerate() {
        let step = step_read(in_job_type(i, Field::Route, k as u32), names, value)?;
        found.try_push(step)?;
    }
    Ok(found)
}

#[tactic(auto, unfolding(crate::specs::Routes::step_read))]
fn step_read(place: Place, names: &IndexSet<&[u8]>, value: &Value) -> Result<Step, CellFault>
    requires few { length names.now.keys ≤ 64 }
    ensures step { result ≡ step_read place (texts names.now.keys) (view value.now) }
    ensures fits { IfOk result (λ step. step.on.0 < length names.now.keys) }
{
    let text = string_of(place, value)?;
    step_of_text(place, names, text.as_bytes())
}

#[tactic(auto, unfolding(crate::specs::Routes::step_of_text))]
fn step_of_text(place: Place, names: &IndexSet<&[u8]>, text: &[u8]) -> Result<Step, CellFault>
    requires few { length names.now.keys ≤ 64 }
    ensures step { result ≡ step_of_text place (texts names.now.keys) text.now }
    ensures fits { IfOk result (λ step. step.on.0 < length names.now.keys) }
{
    let (resource, works) = split_hold(text);
    if Name::read(resource).is_none() {
        return Err(CellFault::BadName { place });
    }
    match number_of_name(names, resource) {
        Some(number) => Ok(Step {
            on: ResId(number),
            works,
        }),
        None => Err(CellFault::UnknownName { place }),
    }
}

// The name of a resource in a text, and whether the step works.
fn split_hold(text: &[u8]) -> (&[u8], bool)
    ensures resource { result.0.now ≡ resource_part text.now }
    ensures works { result.1 ≡ not (is_hold text.now) }
{
    match text.strip_suffix(HOLD) {
        Some(resource) => (resource, false),
        None => (text, true),
    }
}

#[tactic(auto, using(crate::proofs::Naming::position_texts))]
fn number_of_name(names: &IndexSet<&[u8]>, name: &[u8]) -> Option<u16>
    requires few { length names.now.keys ≤ 64 }
    ensures number { result ≡ position (bytes_eq name.now) (texts names.now.keys) }
    ensures within { IfSome result (λ number. number < length names.now.keys) }
{
    match names.get_index_of(name) {
        Some(number) => Some(number as u16),
        None => None,
    }
}
