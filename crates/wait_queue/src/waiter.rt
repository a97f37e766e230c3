//! A session that waits: with one request, and one refusal that it was told, or would be told now.
ghost use Rattle.std.specs.Prelude.{◌≡◌, map};
ghost use Rattle.cell_base.specs.Fits.{RequestFits};
ghost use Rattle.wait_queue.specs.Waiting.{renewed, waiter_of};
ghost use Rattle.wait_queue.specs.Watching.{AreFit};

use crate::in_turn::InTurn;
use admission_core::Core;
use cell_base::{Refusal, Reply, Request};

/// A session that waits with a request, and the refusal that it was told, which names a full neighborhood.
#[derive(Clone, Copy, Debug, PartialEq, Eq)]
pub struct Waiter {
    pub session: u16,
    pub request: Request,
    pub refusal: Refusal,
}

/// The waiter of a session.
pub fn waiter_of(waiters: &[Waiter], session: u16) -> Option<Waiter>
    ensures { result ≡ waiter_of waiters.now session }
{
    waiters
        .iter()
        .copied()
        .find(|waiter| waiter.session == session)
}

/// Each waiter keeps the refusal of its request.
pub fn renew_all(core: &Core, waiters: &mut InTurn<Waiter>)
    requires fit { AreFit core.now.cell waiters.old.items }
    ensures renewed { waiters.new.items ≡ map (renewed core.now.cell core.now.parts) waiters.old.items }
    ensures spare { waiters.new.spare ≡ waiters.old.spare }
{
    for i in 0..waiters.as_slice().len() {
        let waiter = waiters.as_slice()[i];
        waiters.set(i, renewed(core, &waiter));
    }
}

/// The waiter with the refusal of its request.
fn renewed(core: &Core, waiter: &Waiter) -> Waiter
    requires { RequestFits core.now.cell waiter.now.request }
    ensures { result ≡ renewed core.now.cell core.now.parts waiter.now }
{
    let refusal = match core.decide(&waiter.request) {
        Reply::Granted => waiter.refusal,
        Reply::Refused(why) => why,
    };
    Waiter {
        session: waiter.session,
        request: waiter.request,
        refusal,
    }
}
