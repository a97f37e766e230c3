//! The laws of a plant of several cells, each under its own controller, under one more controller whose resources are the cells.
//!
//! A plant never stands still: from each state that its steps reach, some list of granted steps empties it. So it is where five rules are
//! kept, of which the first two are those of files, `PlantFits`, and the others stand in `step_outcome`:
//!
//! - every route of a cell ends at its exit, and no cell follows on itself;
//! - the plant gives a cell at most as many units as its exit has;
//! - the first of a cell's queue enters it first;
//! - a part is passed on only when it stands in no other cell;
//! - a job is loaded only when it stands in no cell.
//!
//! The queue, and what is left to hand over, is known from the parts of all controllers. A law is the contract of a function that does
//! nothing: `live_law(&plant)` says it of any steps since the plant was empty, granted or refused. `standstill_rows` says of each rule that it
//! can't be left out: a small plant that keeps the others comes to a state where nothing is granted, of whatever job.
#![tactic(auto)]

mod laws;
mod plants;

pub use laws::{
    clear_law, entry_law, gather_law, live_law, plant_law, small_plant_row, standstill_rows,
    state_law,
};
pub use plants::{Plant, PlantCell};
