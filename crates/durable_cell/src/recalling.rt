//! A visitor that keeps of the grants of an opening what a durable cell has of them, and hands each of them on.
ghost use Rattle.std.specs.Prelude.{◌≡◌, []};

use crate::recalled::Recall;
use cell_base::{Grant, NoMemory};
use shift_recovery::GrantVisitor;

/// Recalls what it hands on.
#[derive(Drop)]
pub(crate) struct Recalling<G, K> {
    pub(crate) grants: G,
    pub(crate) kept: K,
}

impl<G: Recall, K: GrantVisitor> GrantVisitor for Recalling<G, K> {
    ghost visited = { λ start first grants now. (G.grants start.grants ≡ [] → G.grants now.grants ≡ grants)
        × K.visited start.kept first grants now.kept };

    fn visit(&mut self, at: u64, grant: Grant) -> Result<(), NoMemory> {
        self.grants.recall(&grant)?;
        self.kept.visit(at, grant)
    }
}
