//! The grants of a journal, compared with the requests of a start as they are read.
ghost use Rattle.std.specs.Prelude.{◌≡◌, ◌↔◌, true, []};
ghost use Rattle.carry_commands.specs.BeginClauses.{HasCompared, step_grant};

use cell_base::{Grant, NoMemory, Request};
use shift_recovery::GrantVisitor;

/// Compares grants with the requests of a start. Up to the first other one it counts them.
#[derive(Drop)]
pub struct Compared<'a> {
    requests: &'a [Request],
    held: u64,
    /// The index of the first grant that is another than the start's, or one too many.
    pub other: Option<u64>,
}

impl<'a> Compared<'a> {
    /// No grants yet.
    pub fn new(requests: &'a [Request]) -> Compared<'a>
        ensures requests { result.requests.now ≡ requests.now }
        ensures none { HasCompared requests.now [] result.held result.other }
    {
        Compared {
            requests,
            held: 0,
            other: None,
        }
    }
}

impl<'a> GrantVisitor for Compared<'a> {
    ghost visited = { λ start _ grants now. (now.requests.now ≡ start.requests.now)
        × HasCompared now.requests.now grants now.held now.other };

    fn visit(&mut self, _at: u64, grant: Grant) -> Result<(), NoMemory> {
        if self.other.is_none() {
            match self.requests.get(self.held as usize) {
                Some(request) if is_grant_of(grant, *request) => self.held += 1,
                _ => self.other = Some(self.held),
            }
        }
        Ok(())
    }
}

// Whether it is the grant of a request to session 0 of shift 0.
fn is_grant_of(grant: Grant, request: Request) -> bool
    ensures { (result ≡ true) ↔ (grant ≡ step_grant request) }
{
    grant.shift == 0 && grant.session == 0 && grant.request == request
}
