//! A pass: the right to ask, for one thread.
ghost use Rattle.std.specs.Prelude.{◌≡◌};

use crate::board::Place;
use cell_base::{Grant, List};
use durable_cell::Recall;
use outside_io::Disk;
use std::marker::Model;

/// The right to ask under a number. Contracts see it as its lock, its number, the history that it saw last and the disk's clock of
/// then, the same of its earlier answers, and its own entries.
#[derive(Drop)]
pub struct Pass<D: Disk, G: Recall = List<Grant>> {
    pub(crate) seat: Place<D, G>,
    pub(crate) number: u16,
}

impl<D: Disk, G: Recall> Model for Pass<D, G> {
    ghost use Rattle.std.specs.Prelude.{◌≡◌};
    ghost use Rattle.cell_lock.specs.Passes.{PassState};
    ghost use Rattle.cell_lock.specs.Steps.{lock_of};
    ghost use Rattle.cell_lock.specs.Views.{IsResting, seen_of, moment_of, earlier_of, mine_of};

    ghost Value = { PassState D };

    ghost view = { λ p. record {
      lock = lock_of p.seat;
      number = p.number;
      seen = seen_of p.seat.me.0;
      moment = moment_of p.seat.me.0;
      earlier = earlier_of p.seat.me.0;
      mine = mine_of p.seat.me.0;
    } };

    ghost invariant = { λ p. IsResting p.seat.me × (p.seat.me.0.first ≡ p.number) };
}

impl<D: Disk, G: Recall> Pass<D, G> {
    /// Its number, from 1.
    pub fn number(&self) -> u16
        ensures { result ≡ self.now.number }
    {
        self.number
    }
}
