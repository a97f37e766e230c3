//! How far a session has come in its script.
ghost use Rattle.std.specs.Prelude.{◌≡◌, ◌+◌, ◌<◌, ◌^◌, IsTrue, ◌↔◌};
ghost use Rattle.cell_base.specs.declared.requests.Told.TheVariants.{Answered};
ghost use Rattle.cell_base.specs.Scripts.{begin_at, progress_after, HasEnded};

use cell_base::{List, Reply, Request};
use std::marker::Model;

/// The number of a session's present step, from 0, and how often that step was refused. Contracts see it as the `Progress` of
/// the definitions.
#[derive(Clone, Copy)]
pub struct Progress {
    step: u64,
    refusals: u32,
}

impl Model for Progress {
    ghost use Rattle.cell_base.specs.Scripts.{Progress};

    ghost Value = { Progress };

    ghost view = { λ s. record { step = s.step; refusals = s.refusals } };

    ghost inverse = { λ at. record { step = at.step; refusals = at.refusals } };
}

impl Progress {
    /// At a step that was not refused yet.
    pub fn begin_at(step: u64) -> Progress
        ensures { result ≡ begin_at step }
    {
        Progress { step, refusals: 0 }
    }

    /// The number of the present step.
    pub fn step(self) -> u64
        ensures { result ≡ self.step }
    {
        self.step
    }

    /// Whether the session has ended: its steps are granted, or its patience is at an end.
    pub fn has_ended(self, script: &List<Request>, patience: u32) -> bool
        ensures { IsTrue result ↔ HasEnded script.now patience self }
    {
        self.step == script.len() || self.refusals == patience
    }

    /// Where the session stands when its present step is answered.
    pub fn after(self, reply: Reply) -> Progress
        requires step { self.step + 1 < 2 ^ 64 }
        requires refusals { self.refusals + 1 < 2 ^ 32 }
        ensures { result ≡ progress_after self (Answered reply) }
    {
        match reply {
            Reply::Granted => Progress {
                step: self.step + 1,
                refusals: 0,
            },
            Reply::Refused(_) => Progress {
                step: self.step,
                refusals: self.refusals + 1,
            },
        }
    }
}
