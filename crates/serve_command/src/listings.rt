//! The questions that are answered by a list: its head, and a line for each part in it, in the order of arrival. They change nothing.
ghost use Rattle.std.specs.Prelude.{◌≡◌, ◌<◌, ◌≤◌, ◌+◌, ◌++◌, ◌∷◌, [], Some, length, map, slice_get};
ghost use Rattle.serve_command.specs.Clauses.{IsAskAnswered, IsStep, Jobs, KeepsWaiters, MAX_REPLIES, Parts, StandsAt, TakesOneLine, Talk};
ghost use Rattle.serve_command.specs.Clauses.{codes, counted, item_line};
ghost use Rattle.serve_command.specs.Walking.{IsBehind};

use crate::questions::{jobs_line, part_line, parts_line};
use crate::server::Server;
use admission_core::Core;
use cell_base::{JobId, Part, Refusal, Reply, Request, ResId};
use outside_io::Disk;
use refusal_reason::laws::refusal_is_present;
use refusal_reason::leads;

impl<D: Disk> Server<D> {
    /// Answers where all parts stand.
    #[inline(never)]
    pub fn list_parts(&mut self)
        requires waiters { KeepsWaiters self.old }
        requires short { length self.old.replies + length self.old.live.parts < MAX_REPLIES }
        ensures answered { (talk : Talk) → StandsAt talk self.old
            → IsAskAnswered self.old.live.cell talk self.old Parts self.new }
        ensures goes_on { TakesOneLine self.old self.new }
        ensures waiters { KeepsWaiters self.new }
    {
        let head = parts_line(self.live.core().parts_left());
        self.keep(head);
        self.add_parts();
    }

    // Keeps a line for each part.
    fn add_parts(&mut self)
        requires { length self.old.replies + length self.old.live.parts ≤ MAX_REPLIES }
        ensures { self.new ≡ record self.old {
          replies = self.old.replies ++ map (item_line self.old.live.cell (codes "part")) self.old.live.parts;
        } }
    {
        let mut before = None;
        for i in 0..self.live.core().parts_left() {
            let part = part_at(self.live.core(), i, before);
            before = Some(part.job);
            let line = part_line(self.live.core().cell(), b"part", part.job, part);
            self.replies.push(line);
        }
    }

    /// Answers which parts stand in the way of a step: those that are counted in the neighborhood for which it is refused.
    #[inline(never)]
    pub fn list_jobs(&mut self, request: &Request)
        requires fits { IsStep self.old.live.cell request.now }
        requires waiters { KeepsWaiters self.old }
        requires short { length self.old.replies + length self.old.live.parts < MAX_REPLIES }
        ensures answered { (talk : Talk) → StandsAt talk self.old
            → IsAskAnswered self.old.live.cell talk self.old (Jobs request.now) self.new }
        ensures goes_on { TakesOneLine self.old self.new }
        ensures waiters { KeepsWaiters self.new }
    {
        let core = self.live.core();
        match core.decide(request) {
            Reply::Refused(
                Refusal::Saturated {
                    at,
                    count,
                    capacity,
                },
            ) => {
                refusal_is_present(
                    core,
                    request,
                    &Refusal::Saturated {
                        at,
                        count,
                        capacity,
                    },
                );
                let head = jobs_line(core.cell(), request, count);
                self.keep(head);
                self.add_counted(at);
            }
            _ => {
                let head = jobs_line(core.cell(), request, 0);
                self.keep(head);
            }
        }
    }

    // Keeps a line for each part that is counted in the neighborhood of a resource.
    fn add_counted(&mut self, at: ResId)
        requires resource { at.0 < length self.old.live.cell.resources }
        requires short { length self.old.replies + length self.old.live.parts ≤ MAX_REPLIES }
        ensures { self.new ≡ record self.old {
          replies = self.old.replies
              ++ map (item_line self.old.live.cell (codes "job")) (counted self.old.live.cell self.old.live.parts at.0);
        } }
    {
        let mut before = None;
        for i in 0..self.live.core().parts_left() {
            let core = self.live.core();
            let part = part_at(core, i, before);
            before = Some(part.job);
            if leads(core, part, at) {
                let line = part_line(core.cell(), b"job", part.job, part);
                self.replies.push(line);
            }
        }
    }
}

// The part at an index, which is found by the job of the one before it.
fn part_at(core: &Core, i: u32, before: Option<JobId>) -> Part
    requires inside { i < length core.now.parts }
    requires behind { IsBehind core.now.parts i before }
    ensures { slice_get core.now.parts i ≡ Some result }
{
    match before {
        Some(job) => match core.part_after(job) {
            Some(part) => part,
            None => unreachable!(),
        },
        None => core.part(i),
    }
}
