//! The scan of the waiters: after each one that is served it begins anew, since room that was made may be that of an earlier one.
ghost use Rattle.std.specs.Prelude.{◌≡◌, ◌+◌, ◌<◌, ◌≤◌, [], ◌∷◌, ◌++◌, length};
ghost use Rattle.cell_base.specs.Fits.{RequestFits};
ghost use Rattle.cell_base.specs.Outcomes.{reply_to, state_after};
ghost use Rattle.wait_queue.specs.Watching.{AreFit, AreWatching};
ghost use Rattle.wait_board.specs.Boards.{entry, end_of_wait, scan};
ghost use Rattle.wait_board.specs.BoardState.{on_board};

use crate::{BoardEntry, BoardTold, Waiter};
use admission_core::Core;
use cell_base::{Reply, Shelf};
use wait_queue::{WaitQueue, ask};

/// Decides the waiters that are ready, the first one first, until none is, and renews the refusals of the others. It takes no
/// memory, and ends because each step takes a waiter out.
pub fn scan(core: &mut Core, waiters: &mut WaitQueue, history: &mut Shelf<BoardEntry>)
    requires fit { AreFit core.old.cell waiters.old.waiters }
    requires watching { AreWatching core.old.cell core.old.parts waiters.old.waiters waiters.old.watches }
    requires room { length waiters.old.waiters ≤ history.old.spare }
    ensures cell { core.new.cell ≡ core.old.cell }
    ensures scanned { on_board core.new waiters.new.waiters history.new.items
        ≡ scan core.old.cell (on_board core.old waiters.old.waiters history.old.items) }
    ensures watching { AreWatching core.new.cell core.new.parts waiters.new.waiters waiters.new.watches }
    ensures spare { history.new.spare + length history.new.items ≡ history.old.spare + length history.old.items }
    ensures room { waiters.new.room ≡ waiters.old.room }
{
    while let Some(waiter) = waiters.take_ready(core) {
        decide(core, waiters, &waiter, history);
    }
    waiters.renew(core);
}

/// Decides the request of a waiter, which has left.
fn decide(
    core: &mut Core,
    waiters: &mut WaitQueue,
    waiter: &Waiter,
    history: &mut Shelf<BoardEntry>,
)
    requires fits { RequestFits core.old.cell waiter.now.request }
    requires watching { AreWatching core.old.cell core.old.parts waiters.old.waiters waiters.old.watches }
    requires room { 0 < history.old.spare }
    ensures core { core.new ≡ record core.old { parts = state_after core.old.cell core.old.parts waiter.now.request } }
    ensures waiters { waiters.new.waiters ≡ waiters.old.waiters }
    ensures watching { AreWatching core.new.cell core.new.parts waiters.new.waiters waiters.new.watches }
    ensures history { history.new.items ≡ history.old.items
        ++ entry waiter.now.session waiter.now.request (end_of_wait (reply_to core.old.cell core.old.parts waiter.now.request)) ∷ [] }
    ensures spare { history.new.spare + 1 ≡ history.old.spare }
    ensures room { waiters.new.room ≡ waiters.old.room }
{
    let told = match ask(core, waiters, &waiter.request) {
        Reply::Granted => BoardTold::Served,
        Reply::Refused(why) => BoardTold::Dropped(why),
    };
    history.push(BoardEntry {
        session: waiter.session,
        request: waiter.request,
        told,
    });
}
