//! The masks of a cell's stages: for each stage one bit for each resource to which it leads.
//!
//! A stage is in the upstream neighborhood of a resource where some way on from it ends on the resource, and is until then
//! on resources of order at most its own. What a stage leads to is known from its successors, so one sweep from the last
//! stage to the first finds all masks, in as many steps as there are branches. A decision about a part is then a matter of
//! the bits of two masks.
//!
//! ```text
//! let table = StageTable::new(alloc, &cell)?;
//! let upstream = Upstream::new(alloc, &table)?;
//! let mask = upstream.mask(stage);                          // bit r: the stage is in the neighborhood of r
//! let members = upstream.members(alloc, ResId(1))?;         // the neighborhood of resource 1, in the order of stages
//! let all = upstream.neighborhoods(alloc)?;                 // those of all resources, found in one pass
//! ```
//!
//! `laws` has the two laws of the policy over masks: what a step to a resource of no lesser order, and what a step to one of
//! lesser order, means for them.
#![tactic(auto)]

pub mod laws;
mod neighborhoods;
mod sweep;
mod upstream;

pub use upstream::Upstream;
