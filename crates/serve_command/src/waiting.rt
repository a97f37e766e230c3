//! The sessions that wait: how their waits end.
ghost use Rattle.std.specs.Prelude.{◌≡◌, ◌<◌, ◌≤◌, ◌+◌, ◌++◌, ◌∷◌, [], false, length, IfSome};
ghost use Rattle.std.specs.Fmt.{decimal};
ghost use Rattle.record_text.specs.Lines.{line_of};
ghost use Rattle.serve_command.specs.Clauses.{Cancel, EndsWait, IsAskAnswered, KeepsWaiters, MAX_REPLIES, MAX_SERVED, RequestFits, Settles};
ghost use Rattle.serve_command.specs.Clauses.{StandsAt, TakesOneLine, Talk, codes, line_number, step_or_none, still_lines};

use crate::said_lines::{cancel_line, end_line, still_line};
use crate::server::Server;
use cell_base::{Grant, Reply, Request};
use live_cell::live_law;
use outside_io::Disk;
use wait_queue::Waiter;

impl<D: Disk> Server<D> {
    /// Ends the waits that are to end: the first one in order whose request is no longer refused for want of room, and so on. What is
    /// granted is pending with the grant that made room.
    pub fn settle(&mut self)
        requires runs { self.old.live.is_halted ≡ false }
        requires room { self.old.live.room ≡ MAX_SERVED }
        requires waiters { KeepsWaiters self.old }
        requires fits { self.old.live.len + length self.old.live.pending + length self.old.queue.waiters ≤ MAX_SERVED }
        requires spare { length self.old.queue.waiters ≤ self.old.live.spare }
        requires short { length self.old.replies + length self.old.queue.waiters ≤ MAX_REPLIES }
        ensures settled { Settles self.old self.new }
        ensures waiters { KeepsWaiters self.new }
    {
        while let Some(waiter) = self.queue.take_ready(self.live.core()) {
            self.end_wait(&waiter);
        }
    }

    // Ends a wait: its request is decided, and its session is told so.
    #[inline(never)]
    fn end_wait(&mut self, waiter: &Waiter)
        requires request { RequestFits self.old.live.cell waiter.now.request }
        requires runs { self.old.live.is_halted ≡ false }
        requires room { self.old.live.room ≡ MAX_SERVED }
        requires waiters { KeepsWaiters self.old }
        requires fits { self.old.live.len + length self.old.live.pending < MAX_SERVED }
        requires spare { 0 < self.old.live.spare }
        requires short { length self.old.replies < MAX_REPLIES }
        ensures ended { EndsWait self.old waiter.now self.new }
        ensures waiters { KeepsWaiters self.new }
    {
        live_law(&self.live);
        let Ok(reply) = self.live.ask(waiter.session, &waiter.request) else {
            return;
        };
        let line = end_line(self.live.core().cell(), waiter, &reply);
        self.replies.push(line);
        if let Reply::Granted = reply {
            self.queue.note(&waiter.request);
            self.counts.add(&Grant {
                shift: 0,
                session: waiter.session,
                request: waiter.request,
            });
        }
    }

    /// A session waits no longer, if it does.
    pub fn cancel(&mut self, session: u16)
        requires waiters { KeepsWaiters self.old }
        requires short { length self.old.replies < MAX_REPLIES }
        ensures answered { (talk : Talk) → StandsAt talk self.old
            → IsAskAnswered self.old.live.cell talk self.old (Cancel session) self.new }
        ensures goes_on { TakesOneLine self.old self.new }
        ensures waiters { KeepsWaiters self.new }
    {
        match self.queue.cancel(session) {
            Some(waiter) => self.tell_cancel(session, Some(waiter.request)),
            None => self.tell_cancel(session, None),
        }
    }

    // Keeps the answer to a session that waits no longer: its step, or that it had none.
    #[inline(never)]
    fn tell_cancel(&mut self, session: u16, request: Option<Request>)
        requires fits { IfSome request (RequestFits self.old.live.cell) }
        requires short { length self.old.replies < MAX_REPLIES }
        ensures waiters { KeepsWaiters self.old → KeepsWaiters self.new }
        ensures kept { self.new ≡ record self.old {
          replies = self.old.replies
              ++ line_of (decimal session ∷ codes "cancel" ∷ step_or_none self.old.live.cell request) ∷ [];
          asked = line_number (self.old.asked + 1);
        } }
    {
        let line = cancel_line(self.live.core().cell(), session, request);
        self.keep(line);
    }

    /// Keeps for each session that waits the line that it waits still.
    pub fn keep_still(&mut self)
        requires waiters { KeepsWaiters self.old }
        requires short { length self.old.replies + length self.old.queue.waiters ≤ MAX_REPLIES }
        ensures { self.new ≡ record self.old {
          replies = self.old.replies ++ still_lines self.old.live.cell self.old.live.parts self.old.queue.waiters;
        } }
    {
        for i in 0..self.queue.waiting().len() {
            let still = still_line(self.live.core(), &self.queue.waiting()[i]);
            self.replies.push(still);
        }
    }
}
