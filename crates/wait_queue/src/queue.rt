//! The waiters, and what each of them watches.
ghost use Rattle.std.specs.Prelude.{◌≡◌, ◌<◌, ◌∷◌, ◌++◌, [], false, true, None, ◌||◌, if◌then◌else◌, length, get_or, map, IfOk};
ghost use Rattle.std.specs.Prelude.{List as Sequence, position};
ghost use Rattle.std.specs.List.{find, remove};
ghost use Rattle.cell_base.specs.declared.cells.Cell.{Cell};
ghost use Rattle.cell_base.specs.declared.requests.Part.{Part};
ghost use Rattle.wait_queue.specs.Waiting.{is_of_session, is_ready, renewed, waiter_of, without_first};
ghost use Rattle.wait_queue.specs.Queues.{KeepsWatching, WatchesAnother};
ghost use Rattle.wait_queue.specs.Watching.{AreFit, AreWatching, AreWithout};

use crate::Waiter;
use crate::in_turn::InTurn;
use crate::key_counts::{KeyCounts, is_of, job_number, job_of};
use crate::looking::{Found, look};
use crate::waiter::{renew_all, waiter_of};
use admission_core::Core;
use admission_core::laws::core_law;
use cell_base::{JobId, NoMemory, Request, ResId};
use std::alloc::Global;
use std::marker::Model;

/// Waiters in the order of their arrival. Contracts see who waits, what each watches (None: it is to be looked at), and the room.
#[derive(Drop)]
pub struct WaitQueue {
    waiters: InTurn<Waiter>,
    watches: InTurn<Option<ResId>>,
    /// How many waiters there are of each job, and of each session.
    jobs: KeyCounts,
    sessions: KeyCounts,
    /// The resources that are watched, and maybe more.
    watched: u64,
    /// A waiter is to be looked at, whatever is full.
    is_stale: bool,
    room: u16,
}

impl Model for WaitQueue {
    ghost use Rattle.wait_queue.specs.Queues.{QueueState, IsKept};

    ghost Value = { QueueState };

    ghost view = { λ s. record { waiters = s.waiters.items; watches = s.watches.items; room = s.room } };

    ghost invariant = { λ s. IsKept s.waiters.items s.watches.items s.jobs s.sessions s.watched s.is_stale s.room
        s.waiters.spare s.watches.spare };
}

impl WaitQueue {
    /// Nobody waits, and there is room for so many.
    pub fn with_room(alloc: Global, room: u16) -> Result<WaitQueue, NoMemory>
        ensures { IfOk result (λ queue. queue ≡ record { waiters = []; watches = []; room = room }) }
    {
        Ok(WaitQueue {
            waiters: InTurn::with_room(alloc, room)?,
            watches: InTurn::with_room(alloc, room)?,
            jobs: KeyCounts::new(alloc)?,
            sessions: KeyCounts::new(alloc)?,
            watched: 0,
            is_stale: false,
            room,
        })
    }

    /// A waiter comes last, whose request was refused for the neighborhood of this resource. It takes no memory.
    pub fn push(&mut self, waiter: Waiter, at: ResId)
        requires room { length self.old.waiters < self.old.room }
        requires at { at.0 < 64 }
        ensures waiters { self.new.waiters ≡ self.old.waiters ++ waiter ∷ [] }
        ensures watching { WatchesAnother waiter at self.old self.new }
        ensures room { self.new.room ≡ self.old.room }
    {
        self.jobs.add(job_number(&waiter.request));
        self.sessions.add(Some(waiter.session as u32));
        self.waiters.push(waiter);
        self.watches.push(Some(at));
        self.watched |= 1 << at.0;
    }

    /// A request was granted: the waiters whose requests are of its job are to be looked at.
    pub fn note(&mut self, request: &Request)
        ensures waiters { self.new.waiters ≡ self.old.waiters }
        ensures watching { KeepsWatching request.now self.old self.new }
        ensures room { self.new.room ≡ self.old.room }
    {
        // Mostly nobody waits, and then the table of jobs, whose places are more than a near cache holds, is not touched.
        if self.waiting().is_empty() {
            return;
        }
        if let Some(job) = job_of(request) {
            if self.jobs.has(job.0) {
                let any = forget(self.waiters.as_slice(), &mut self.watches, job);
                self.is_stale = either(self.is_stale, any);
            }
        }
    }

    /// Takes the first waiter out whose request is no longer refused for a full neighborhood, None exactly where there is none.
    pub fn take_ready(&mut self, core: &Core) -> Option<Waiter>
        requires fit { AreFit core.now.cell self.old.waiters }
        requires watching { AreWatching core.now.cell core.now.parts self.old.waiters self.old.watches }
        ensures found { result ≡ find (is_ready core.now.cell core.now.parts) self.old.waiters }
        ensures others { self.new.waiters ≡ without_first (is_ready core.now.cell core.now.parts) self.old.waiters }
        ensures watching { AreWatching core.now.cell core.now.parts self.new.waiters self.new.watches }
        ensures room { self.new.room ≡ self.old.room }
    {
        core_law(core);
        let full = core.full();
        if !self.is_stale && self.watched & !full == 0 {
            return None;
        }
        match look(
            core,
            full,
            self.waiters.as_slice(),
            &mut self.watches,
            &mut self.watched,
        ) {
            Found::Ready(at) => Some(self.take(at)),
            Found::Nobody { watched } => {
                self.watched = watched;
                self.is_stale = false;
                None
            }
        }
    }

    /// Takes the waiter of a session out, None exactly where it does not wait.
    pub fn cancel(&mut self, session: u16) -> Option<Waiter>
        ensures found { result ≡ waiter_of self.old.waiters session }
        ensures others { self.new.waiters ≡ without_first (is_of_session session) self.old.waiters }
        ensures watching { (cell : Cell) (parts : Sequence Part) → AreWatching cell parts self.old.waiters self.old.watches
            → AreWatching cell parts self.new.waiters self.new.watches }
        ensures room { self.new.room ≡ self.old.room }
    {
        if !self.sessions.has(session as u32) {
            return None;
        }
        match place_of(self.waiters.as_slice(), session) {
            Some(at) => Some(self.take(at)),
            None => None,
        }
    }

    /// Takes the waiter at an index out, with what it watches.
    fn take(&mut self, at: usize) -> Waiter
        requires { at < length self.old.waiters }
        ensures waiter { result ≡ get_or self.old.waiters at result }
        ensures waiters { self.new.waiters ≡ remove self.old.waiters at }
        ensures watching { (cell : Cell) (parts : Sequence Part) → AreWatching cell parts self.old.waiters self.old.watches
            → AreWatching cell parts self.new.waiters self.new.watches }
        ensures room { self.new.room ≡ self.old.room }
    {
        self.watches.take(at);
        let waiter = self.waiters.take(at);
        self.jobs.remove(job_number(&waiter.request));
        self.sessions.remove(Some(waiter.session as u32));
        waiter
    }

    /// Each waiter keeps the refusal that its request would be told now, which may name another full neighborhood than when it began
    /// to wait.
    pub fn renew(&mut self, core: &Core)
        requires fit { AreFit core.now.cell self.old.waiters }
        ensures renewed { self.new.waiters ≡ map (renewed core.now.cell core.now.parts) self.old.waiters }
        ensures watching { (cell : Cell) (parts : Sequence Part) → AreWatching cell parts self.old.waiters self.old.watches
            → AreWatching cell parts self.new.waiters self.new.watches }
        ensures room { self.new.room ≡ self.old.room }
    {
        renew_all(core, &mut self.waiters);
    }

    /// Those that wait, in the order in which they began to.
    pub fn waiting(&self) -> &[Waiter]
        ensures { result.now ≡ self.now.waiters }
    {
        self.waiters.as_slice()
    }

    /// The waiter of a session, None exactly where it does not wait.
    pub fn waiter_of(&self, session: u16) -> Option<Waiter>
        ensures { result ≡ waiter_of self.now.waiters session }
    {
        if self.waiting().is_empty() {
            return None;
        }
        if !self.sessions.has(session as u32) {
            return None;
        }
        waiter_of(self.waiters.as_slice(), session)
    }
}

// Where the waiter of a session stands.
fn place_of(waiters: &[Waiter], session: u16) -> Option<usize>
    ensures { result ≡ position (is_of_session session) waiters.now }
{
    waiters.iter().position(|waiter| waiter.session == session)
}

// The waiters whose requests are of this job watch nothing any more. Says whether there are any.
fn forget(waiters: &[Waiter], watches: &mut InTurn<Option<ResId>>, job: JobId) -> bool
    requires pairs { length watches.old.items ≡ length waiters.now }
    ensures without { AreWithout job waiters.now watches.old.items watches.new.items }
    ensures pairs { length watches.new.items ≡ length waiters.now }
    ensures none { result ≡ false → watches.new.items ≡ watches.old.items }
    ensures spare { watches.new.spare ≡ watches.old.spare }
{
    let mut any = false;
    for i in 0..waiters.len() {
        let is_own = is_of(job, &waiters[i].request);
        any = either(any, is_own);
        let watch = watches.as_slice()[i];
        watches.set(i, unless(is_own, watch));
    }
    any
}

// What is watched, or nothing.
fn unless(is_own: bool, watch: Option<ResId>) -> Option<ResId>
    ensures { result ≡ (if is_own then None else watch) }
{
    if is_own { None } else { watch }
}

fn either(one: bool, other: bool) -> bool
    ensures { result ≡ (one || other) }
{
    one || other
}
