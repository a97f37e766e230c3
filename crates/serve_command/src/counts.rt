//! How many grants each session has, and the last of them.
ghost use Rattle.std.specs.Prelude.{◌≡◌, length, replicate, None, IfOk};

use cell_base::{Grant, NoMemory, Request};
use shift_recovery::GrantVisitor;
use std::alloc::Global;
use std::marker::Model;

// One for each number of a session, and for 0.
const SESSIONS: usize = 65_536;

/// For each session the number of its grants in shift 0, and the request of the last of them.
#[derive(Drop)]
pub struct SessionCounts {
    counts: Vec<u32>,
    last: Vec<Option<Request>>,
    ghost each: { length counts.items ≡ 65536 },
    ghost each_last: { length last.items ≡ 65536 },
}

impl Model for SessionCounts {
    ghost use Rattle.serve_command.specs.Sessions.{SessionTable};

    ghost Value = { SessionTable };

    ghost view = { λ s. record { counts = s.counts.items; last = s.last.items } };
}

impl SessionCounts {
    ghost use Rattle.std.specs.Prelude.{◌++◌, ◌∷◌, ◌+◌, ◌<◌, [], List, Some, min, set, slice_get, slice_index};
    ghost use Rattle.cell_base.specs.declared.shifts.Grant.{Grant};
    ghost use Rattle.serve_command.specs.Serving.{HasCounts};

    /// No session has a grant.
    pub fn new(alloc: Global) -> Result<SessionCounts, NoMemory>
        ensures { IfOk result (λ counts. HasCounts [] counts) }
    {
        let counts = zeros(alloc, SESSIONS)?;
        let last = nothing(alloc, SESSIONS)?;
        Ok(SessionCounts { counts, last })
    }

    /// How many grants a session has.
    pub fn of(&self, session: u16) -> u32
        ensures { result ≡ slice_index self.now.counts session }
    {
        self.counts[usize::from(session)]
    }

    /// The request of the last grant of a session.
    pub fn last_of(&self, session: u16) -> Option<Request>
        ensures { slice_get self.now.last session ≡ Some result }
    {
        self.last[usize::from(session)]
    }

    /// Counts a grant; those of other shifts are no session's.
    pub fn add(&mut self, grant: &Grant)
        ensures { (grants : List Grant) → length grants < 4294967295 → HasCounts grants self.old
            → HasCounts (grants ++ grant.now ∷ []) self.new }
    {
        if grant.shift == 0 {
            self.add_one(grant.session, grant.request);
        }
    }

    // Counts one of a session.
    fn add_one(&mut self, session: u16, request: Request)
        ensures more { self.new.counts ≡ set self.old.counts session (min (slice_index self.old.counts session + 1) 4294967295) }
        ensures last { self.new.last ≡ set self.old.last session (Some request) }
        ensures long { length self.old.counts ≡ 65536 }
        ensures all { length self.old.last ≡ 65536 }
        ensures known { session < 65536 }
    {
        let at = usize::from(session);
        self.counts[at] = self.counts[at].saturating_add(1);
        self.last[at] = Some(request);
    }
}

/// Counts the grants of a journal as they are read.
impl GrantVisitor for SessionCounts {
    ghost use Rattle.std.specs.Prelude.{[], ◌<◌};
    ghost use Rattle.serve_command.specs.Serving.{HasCounts};

    ghost visited = { λ start first grants now. HasCounts [] start → length grants < 4294967295 → HasCounts grants now };

    fn visit(&mut self, _at: u64, grant: Grant) -> Result<(), NoMemory> {
        self.add(&grant);
        Ok(())
    }
}

// So many zeros.
fn zeros(alloc: Global, count: usize) -> Result<Vec<u32>, NoMemory>
    ensures { IfOk result (λ counts. counts.items ≡ replicate count 0) }
{
    let counts = vec![in alloc; 0u32; count]?;
    Ok(counts)
}

// The same of requests: none.
fn nothing(alloc: Global, count: usize) -> Result<Vec<Option<Request>>, NoMemory>
    ensures { IfOk result (λ last. last.items ≡ replicate count None) }
{
    let last = vec![in alloc; None; count]?;
    Ok(last)
}
