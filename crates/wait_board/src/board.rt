//! The board: a core and a queue beside it, with a history of all that was told, which has room for an end of each waiting that began.
ghost use Rattle.std.specs.Prelude.{◌≡◌, ◌<◌, ◌≤◌, None, [], length, IfOk, IfErr};
ghost use Rattle.cell_base.specs.Fits.{RequestFits, IsWithin};
ghost use Rattle.wait_queue.specs.Waiting.{waiter_of};
ghost use Rattle.wait_board.specs.BoardState.{AnswersTry, IsBoardAsked, IsNewBoard, KeepsBoard};

use crate::asking::ask;
use crate::{BoardEntry, BoardFault, BoardReply, Waiter};
use admission_core::Core;
use cell_base::{List, NoMemory, Part, Request, Shelf};
use policy_laws::refusal_law;
use std::alloc::Global;
use std::marker::Model;
use wait_queue::WaitQueue;

/// A core and the sessions that wait for room in it. Contracts see it as a `BoardState`. All memory is taken at the opening.
#[derive(Drop)]
pub struct Board {
    core: Core,
    opening: List<Part>,
    waiters: WaitQueue,
    history: Shelf<BoardEntry>,
    sessions: u16,
}

impl Model for Board {
    ghost use Rattle.std.specs.Prelude.{◌≤◌};
    ghost use Rattle.wait_queue.specs.Watching.{AreWatching};
    ghost use Rattle.wait_board.specs.BoardState.{BoardState, on_board, KeepsBoard};

    ghost Value = { BoardState };

    ghost view = { λ s. record {
      cell = s.core.cell;
      opening = s.opening;
      on = on_board s.core s.waiters.waiters s.history.items;
      spare = s.history.spare;
      sessions = s.sessions;
    } };

    ghost invariant = { λ s. KeepsBoard (record {
      cell = s.core.cell;
      opening = s.opening;
      on = on_board s.core s.waiters.waiters s.history.items;
      spare = s.history.spare;
      sessions = s.sessions;
    })
        × (AreWatching s.core.cell s.core.parts s.waiters.waiters s.waiters.watches × (s.sessions ≤ s.waiters.room)) };
}

// The memory of a board.
struct Memory {
    opening: List<Part>,
    waiters: WaitQueue,
    history: Shelf<BoardEntry>,
}

// A copy of the parts, and room for the waiters and for so many entries.
fn reserve(alloc: Global, core: &Core, sessions: u16, room: u64) -> Result<Memory, NoMemory>
    ensures opening { IfOk result (λ memory. memory.opening ≡ core.now.parts) }
    ensures waiters { IfOk result (λ memory. memory.waiters ≡ record { waiters = []; watches = []; room = sessions }) }
    ensures history { IfOk result (λ memory. (memory.history.items ≡ []) × (room ≤ memory.history.spare)) }
{
    Ok(Memory {
        opening: core.parts(alloc)?,
        waiters: WaitQueue::with_room(alloc, sessions)?,
        history: Shelf::with_room(alloc, room)?,
    })
}

impl Board {
    /// A board of so many sessions over a core, with room for a history of so many entries. Where there is no memory the core
    /// comes back.
    pub fn open(
        alloc: Global,
        core: Core,
        sessions: u16,
        room: u64,
    ) -> Result<Board, (Core, NoMemory)>
        requires { IsWithin 1 64 sessions }
        ensures ok { IfOk result (IsNewBoard core sessions room) }
        ensures err { IfErr result (λ back. back.0 ≡ core) }
    {
        match reserve(alloc, &core, sessions, room) {
            Ok(memory) => {
                let Memory {
                    opening,
                    waiters,
                    history,
                } = memory;
                Ok(Board {
                    core,
                    opening,
                    waiters,
                    history,
                    sessions,
                })
            }
            Err(fault) => Err((core, fault)),
        }
    }

    /// Decides a request of a session that does not wait. A saturated one waits; after a grant those that wait are decided as
    /// far as there is room now. Each entry takes one of the room.
    pub fn ask(&mut self, session: u16, request: &Request) -> BoardReply
        requires request { RequestFits self.old.cell request.now }
        requires session { IsWithin 1 self.old.sessions session }
        requires free { waiter_of self.old.on.waiters session ≡ None }
        requires room { length self.old.on.waiters < self.old.spare }
        ensures asked { IsBoardAsked self.old session request.now result self.new }
        ensures kept { KeepsBoard self.new }
    {
        let cell = self.core.cell();
        refusal_law(cell);
        ask(
            &mut self.core,
            &mut self.waiters,
            &mut self.history,
            session,
            request,
        )
    }

    /// Decides a request, as `ask` does, where the session does not wait and there is room; else nothing changes.
    pub fn try_ask(&mut self, session: u16, request: &Request) -> Result<BoardReply, BoardFault>
        requires request { RequestFits self.old.cell request.now }
        requires session { IsWithin 1 self.old.sessions session }
        ensures answer { AnswersTry self.old session request.now result self.new }
        ensures kept { KeepsBoard self.new }
    {
        if let Some(waiter) = self.waiter_of(session) {
            return Err(BoardFault::AlreadyWaits(waiter));
        }
        if self.spare() <= self.waiting().len() as u64 {
            return Err(BoardFault::Full {
                len: self.history.len(),
            });
        }
        Ok(self.ask(session, request))
    }

    /// Those that wait, in the order in which they began to.
    pub fn waiting(&self) -> &[Waiter]
        ensures waiters { result.now ≡ self.now.on.waiters }
        ensures kept { KeepsBoard self.now }
    {
        self.waiters.waiting()
    }

    /// The waiter of a session, None exactly where it does not wait.
    pub fn waiter_of(&self, session: u16) -> Option<Waiter>
        ensures { result ≡ waiter_of self.now.on.waiters session }
    {
        self.waiters.waiter_of(session)
    }

    /// What was told since the opening, in its order.
    pub fn history(&self) -> &[BoardEntry]
        ensures history { result.now ≡ self.now.on.history }
        ensures kept { KeepsBoard self.now }
    {
        self.history.as_slice()
    }

    /// The core, after the history.
    pub fn core(&self) -> &Core
        ensures core { result.now ≡ record { cell = self.now.cell; parts = self.now.on.parts } }
        ensures kept { KeepsBoard self.now }
    {
        &self.core
    }

    /// The core, after the history; nobody waits any longer.
    pub fn into_core(self) -> Core
        ensures { result ≡ record { cell = self.cell; parts = self.on.parts } }
    {
        self.core
    }

    /// How many entries more the history takes.
    pub fn spare(&self) -> u64
        ensures { result ≡ self.now.spare }
    {
        self.history.spare()
    }

    /// The number of the sessions: they are 1 to it.
    pub fn sessions(&self) -> u16
        ensures { result ≡ self.now.sessions }
    {
        self.sessions
    }

    /// The parts at the opening.
    pub fn opening(&self) -> &[Part]
        ensures { result.now ≡ self.now.opening }
    {
        self.opening.as_slice()
    }
}
