//! The laws of a plant, each the contract of a function that does nothing.
ghost use Rattle.cell_base.specs.Fits.{CellFits};
ghost use Rattle.plant_laws.specs.Plants.{EndsAt, PlantFits, routes_end_at_the_exit, exit_has_the_units, no_cell_follows_on_itself};
ghost use Rattle.plant_laws.specs.SmallPlant.{small_plant, CrossingRow};
ghost use Rattle.plant_laws.specs.Standstills.{Stops, StopsWithout, routes_end_anywhere, exit_is_small, follows_on_itself, any_order, back_at_once, again_at_once};
ghost use Rattle.plant_laws.specs.PlantLaws.{GatherLaw, StateLaw, ClearLaw, EntryLaw, PlantLaw, LiveLaw};

use crate::Plant;
use cell_base::{Cell, ResId};

/// A cell that holds at most as many parts as its exit has units can bring all of them there by granted requests.
pub fn gather_law(cell: &Cell, exit: ResId)
    requires fits { CellFits cell.now }
    requires ends { EndsAt cell.now exit.0 }
    ensures { GatherLaw cell.now exit.0 }
{}

/// Each granted step leaves a state of the plant.
pub fn state_law(plant: &Plant)
    requires { PlantFits plant.now }
    ensures { StateLaw plant.now }
{}

/// What is over for a cell in which it stands is unloaded there at the first asking.
pub fn clear_law(plant: &Plant)
    requires { PlantFits plant.now }
    ensures { ClearLaw plant.now }
{}

/// The first of the queue can be loaded in its cell once the cell brought its parts to the exit, and there is room for that.
pub fn entry_law(plant: &Plant)
    requires { PlantFits plant.now }
    ensures { EntryLaw plant.now }
{}

/// From each state of the plant some list of granted steps empties it.
pub fn plant_law(plant: &Plant)
    requires { PlantFits plant.now }
    ensures { PlantLaw plant.now }
{}

/// A plant never stands still: whatever was asked of it since it was empty, some list of granted steps empties it.
pub fn live_law(plant: &Plant)
    requires { PlantFits plant.now }
    ensures { LiveLaw plant.now }
{}

/// The rules can be kept, and a worked row: in a small plant the part that was granted first waits for its cell as the first.
pub fn small_plant_row()
    ensures fits { PlantFits small_plant }
    ensures crossing { CrossingRow }
{}

/// Worked rows: without any one of the rules a small plant that keeps the others comes to stand still: no step that fits is granted there,
/// of whatever job, so no steps empty it. The last three are of the plant of `small_plant_row`, which keeps all rules of files.
pub fn standstill_rows()
    ensures routes_end_anywhere { StopsWithout routes_end_at_the_exit routes_end_anywhere }
    ensures exit_is_small { StopsWithout exit_has_the_units exit_is_small }
    ensures follows_on_itself { StopsWithout no_cell_follows_on_itself follows_on_itself }
    ensures any_order { Stops any_order }
    ensures passed_at_once { Stops back_at_once }
    ensures loaded_at_once { Stops again_at_once }
{}
