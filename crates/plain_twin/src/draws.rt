//! Requests that are drawn one after the other, the same in each run.
ghost use Rattle.std.specs.Prelude.{◌<◌};

use cell_base::{JobId, Request, ResId, TypeId};

/// The jobs, types, machines, branches and places that a drawn request may name, some of which a cell hasn't.
const JOBS: u64 = 9;

const TYPES: u64 = 5;

const MACHINES: u64 = 6;

const BRANCHES: u64 = 3;

const PLACES: u64 = 5;

/// The numbers of a linear congruence of 64 bits, of which the upper ones are taken.
#[derive(Drop)]
pub struct Draws {
    state: u64,
}

impl Draws {
    /// Draws from the beginning.
    pub fn new() -> Draws {
        Draws { state: 1 }
    }

    // A number below `n`.
    fn below(&mut self, n: u64) -> u64
        requires { 0 < n }
        ensures { result < n }
    {
        let state = self.state.wrapping_mul(6_364_136_223_846_793_005);
        self.state = state.wrapping_add(1_442_695_040_888_963_407);
        (self.state >> 33) % n
    }

    /// The next request.
    pub fn request(&mut self) -> Request {
        let job = JobId(self.below(JOBS) as u32);
        let kind = TypeId(self.below(TYPES) as u16);
        let machine = ResId(self.below(MACHINES) as u16);
        match self.below(16) {
            0..=4 => Request::Load { job, kind },
            5..=9 => Request::Process { machine },
            10..=13 => Request::Move {
                job,
                branch: self.below(BRANCHES) as u16,
            },
            14 => Request::Unload { job },
            _ => Request::Place {
                job,
                kind,
                place: self.below(PLACES) as u16,
                done: self.below(2) == 0,
            },
        }
    }
}
