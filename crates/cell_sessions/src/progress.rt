//! How far a session has come in its script.
ghost use Rattle.std.specs.Prelude.{◌≡◌, ◌+◌, ◌<◌, ◌^◌};
ghost use Rattle.cell_base.specs.declared.requests.Told.TheVariants.{Answered};
ghost use Rattle.cell_base.specs.Scripts.{progress_after};
ghost use Rattle.cell_sessions.specs.Progressing.{TellsEnd, place_of};

use cell_base::{List, Reply, Request};

/// Where a session stands in its script.
#[derive(Clone, Copy, Debug, PartialEq, Eq)]
pub struct Progress {
    /// The number of its present step, from 0.
    pub next: u32,
    /// How often that step was refused.
    pub refused: u32,
    /// How often the session has asked.
    pub asked: u64,
    /// Its steps are granted, or its patience is at an end.
    pub ended: bool,
}

impl Progress {
    /// Where the session stands when its present step is answered.
    pub(crate) fn after(self, reply: Reply, script: &List<Request>, patience: u32) -> Progress
        requires step { self.next + 1 < 2 ^ 32 }
        requires refusals { self.refused + 1 < 2 ^ 32 }
        requires asks { self.asked + 1 < 2 ^ 64 }
        ensures place { place_of result ≡ progress_after (place_of self) (Answered reply) }
        ensures asked { result.asked ≡ self.asked + 1 }
        ensures ended { TellsEnd script.now patience result }
    {
        let (next, refused) = match reply {
            Reply::Granted => (self.next + 1, 0),
            Reply::Refused(_) => (self.next, self.refused + 1),
        };
        Progress {
            next,
            refused,
            asked: self.asked + 1,
            ended: u64::from(next) == script.len() || refused == patience,
        }
    }
}
