//! A look at the waiters, at those alone whose watched resource has got room.
ghost use Rattle.std.specs.Prelude.{◌≡◌, ◌<◌, length};
ghost use Rattle.cell_base.specs.Fits.{RequestFits};
ghost use Rattle.cell_base.specs.Masks.{has_bit};
ghost use Rattle.wait_queue.specs.Watching.{AreCovered, AreFit, AreWatched, AreWatching, IsFound, IsFullMask, IsHeld, IsWatch};

use crate::Waiter;
use crate::in_turn::InTurn;
use admission_core::Core;
use admission_core::laws::core_law;
use cell_base::{Refusal, Reply, Request, ResId};

/// Whether a mask has the bit of a resource.
fn has(mask: u64, r: ResId) -> bool
    requires { r.0 < 64 }
    ensures { result ≡ has_bit mask r.0 }
{
    mask >> r.0 & 1 == 1
}

/// What a look at the waiters comes to.
pub enum Found {
    /// The waiter of this index is ready.
    Ready(usize),
    /// None is. These resources are watched.
    Nobody { watched: u64 },
}

/// Looks for the first waiter that is ready. Those before it, and where none is ready all of them, watch full resources from then on, and
/// the mask has the resources that are watched.
pub fn look(
    core: &Core,
    full: u64,
    waiters: &[Waiter],
    watches: &mut InTurn<Option<ResId>>,
    watched: &mut u64,
) -> Found
    requires full { IsFullMask core.now.cell core.now.parts full }
    requires fit { AreFit core.now.cell waiters.now }
    requires pairs { length watches.old.items ≡ length waiters.now }
    requires watching { AreWatching core.now.cell core.now.parts waiters.now watches.old.items }
    requires covered { AreCovered watched.old watches.old.items }
    ensures found { IsFound core.now.cell core.now.parts waiters.now watches.new.items result }
    ensures pairs { length watches.new.items ≡ length waiters.now }
    ensures watching { AreWatching core.now.cell core.now.parts waiters.now watches.new.items }
    ensures covered { AreCovered watched.new watches.new.items }
    ensures watched { AreWatched watches.old.items → AreWatched watches.new.items }
    ensures spare { watches.new.spare ≡ watches.old.spare }
{
    core_law(core);
    let mut exactly = 0;
    for i in 0..waiters.len() {
        match held_by(core, full, &waiters[i].request, watches.as_slice()[i]) {
            Some(at) => {
                watches.set(i, Some(at));
                *watched |= 1 << at.0;
                exactly |= 1 << at.0;
            }
            None => return Found::Ready(i),
        }
    }
    Found::Nobody { watched: exactly }
}

/// The full resource that holds a request back, None exactly where the request is ready: the watched one, if it is full still.
fn held_by(core: &Core, full: u64, request: &Request, watch: Option<ResId>) -> Option<ResId>
    requires full { IsFullMask core.now.cell core.now.parts full }
    requires fit { RequestFits core.now.cell request.now }
    requires watch { IsWatch core.now.cell core.now.parts request.now watch }
    ensures { IsHeld core.now.cell core.now.parts request.now result }
{
    core_law(core);
    match watch {
        Some(at) if has(full, at) => Some(at),
        _ => named(core, request),
    }
}

/// The resource that the refusal of a request names, None exactly where it is ready.
fn named(core: &Core, request: &Request) -> Option<ResId>
    requires fit { RequestFits core.now.cell request.now }
    ensures { IsHeld core.now.cell core.now.parts request.now result }
{
    core_law(core);
    match core.decide(request) {
        Reply::Refused(Refusal::Saturated { at, .. }) => Some(at),
        _ => None,
    }
}
