//! The commands on orders: `advise` and `arrange` print the orders of a cell's resources whose neighborhoods weigh least.
//!
//! They are one command with two weights, each with its limit: `advise` takes a cell of at most `ADVISED` resources and weighs each
//! membership as 1, `arrange` one of at most `ARRANGED`, and weighs it as 1,000 divided by the capacity of the resource. The walk stands in
//! `specs/Orders`, and `cell_driver::drive` goes it. `laws` says that the memberships that are weighed are the stages that `show` prints of
//! the cell with the printed orders.
//!
//! ```text
//! let CommandEnd { status, disk } = run_orders(alloc, &mut files, &mut out, "cell.toml", Weighing::ByCapacity, disk);
//! ```
#![tactic(auto)]

pub mod laws;
mod lines;
mod orders;

pub use orders::run_orders;
