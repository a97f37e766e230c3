//! The requests of sessions: each is decided, begins a wait, or is turned away.
ghost use Rattle.std.specs.Prelude.{◌≡◌, ◌<◌, ◌≤◌, ◌+◌, ◌∷◌, ◌++◌, [], false, length, IfOk, OnOk, OnErr};
ghost use Rattle.live_cell.specs.LiveState.{asked};
ghost use Rattle.record_text.specs.Fitting.{RefusalFits, ToldFits};
ghost use Rattle.record_text.specs.Lines.{line_of};
ghost use Rattle.serve_command.specs.Clauses.{BeginsWait, CountsGrant, FindsFull, FullAt, Granted, HasAnswered, IsAsked, IsDecided};
ghost use Rattle.serve_command.specs.Clauses.{IsOpen, IsSaid, KeepsWaiters, MAX_REPLIES, MAX_SERVED, MAX_WAITERS, NotesGrant, Refused};
ghost use Rattle.serve_command.specs.Clauses.{RequestFits, StandsAt, Step, TakesOneLine, Talk, asked_for, asked_words, codes};
ghost use Rattle.serve_command.specs.Clauses.{halted_line, line_number, reply_to, reply_told, step_words, waiting_told};

use crate::replies::MAX_WAITERS;
use crate::said_lines::{said_line, turned_line};
use crate::server::Server;
use crate::session_request::SessionRequest;
use cell_base::{Grant, Refusal, Reply, Request, ResId, Told};
use live_cell::{JournalFull, live_law};
use outside_io::Disk;
use record_text::Line;
use wait_queue::Waiter;

const ALREADY_WAITING: &[u8] = b"already-waiting";

const WAITERS_FULL: &[u8] = b"waiters-full";

impl<D: Disk> Server<D> {
    /// Answers a request of a session, which may wait where there is no room for it, or not.
    pub fn answer_request(
        &mut self,
        asked: &SessionRequest<'_>,
        may_wait: bool,
    ) -> Result<(), JournalFull>
        requires asked { IsAsked self.old.live.cell asked.now }
        requires ready { IsOpen self.old }
        ensures answered { OnOk result (HasAnswered self.old (asked_for asked.now.session asked.now.request may_wait) self.new) }
        ensures full { OnErr result (FindsFull self.old (asked_for asked.now.session asked.now.request may_wait) self.new) }
    {
        if self.queue.waiter_of(asked.session).is_some() {
            self.turn_away(asked, ALREADY_WAITING);
            return Ok(());
        }
        match self.decide(asked) {
            Ok(None) => Ok(()),
            Ok(Some(why)) => {
                self.answer_refusal(asked, why, may_wait);
                Ok(())
            }
            Err(full) => Err(full),
        }
    }

    // Decides a request. Where it is granted, that is answered, and the waits end for which there is room then; where it is refused nothing
    // changes yet.
    fn decide(&mut self, asked: &SessionRequest<'_>) -> Result<Option<Refusal>, JournalFull>
        requires asked { IsAsked self.old.live.cell asked.now }
        requires ready { IsOpen self.old }
        ensures decided { IfOk result (IsDecided self.old asked.now.session asked.now.request self.new) }
        ensures granted { OnErr result (reply_to self.old.live.cell self.old.live.parts asked.now.request ≡ Granted) }
        ensures full { OnErr result (MAX_SERVED
            < self.old.live.len + length self.old.live.pending + length self.old.queue.waiters + 1) }
        ensures same { OnErr result (self.new ≡ self.old) }
    {
        live_law(&self.live);
        match self.ask(asked.session, &asked.request) {
            Ok(Reply::Granted) => {
                self.note_grant(asked);
                self.settle();
                Ok(None)
            }
            Ok(Reply::Refused(why)) => Ok(Some(why)),
            Err(full) => Err(full),
        }
    }

    // A request was granted: it is counted and answered, and those that wait for its job are to be looked at.
    fn note_grant(&mut self, asked: &SessionRequest<'_>)
        requires asked { IsAsked self.old.live.cell asked.now }
        requires short { length self.old.replies < MAX_REPLIES }
        ensures { NotesGrant self.old asked.now.session asked.now.request self.new }
    {
        self.count_grant(asked);
        self.tell(asked, &Told::Answered(Reply::Granted));
        self.queue.note(&asked.request);
    }

    // Asks a request of the live cell, if the journal has room for its grant and one of each session that waits, or it is refused.
    fn ask(&mut self, session: u16, request: &Request) -> Result<Reply, JournalFull>
        requires fits { RequestFits self.old.live.cell request.now }
        requires runs { self.old.live.is_halted ≡ false }
        requires room { self.old.live.room ≡ MAX_SERVED }
        requires spare { 0 < self.old.live.spare }
        ensures reply { IfOk result (λ reply. reply ≡ reply_to self.old.live.cell self.old.live.parts request.now) }
        ensures state { OnOk result (self.new ≡ record self.old { live = asked self.old.live session request.now }) }
        ensures had_room { IfOk result (λ reply. reply ≡ Granted
            → self.old.live.len + length self.old.live.pending + length self.old.queue.waiters < MAX_SERVED) }
        ensures granted { OnErr result (reply_to self.old.live.cell self.old.live.parts request.now ≡ Granted) }
        ensures full { OnErr result (MAX_SERVED
            < self.old.live.len + length self.old.live.pending + length self.old.queue.waiters + 1) }
        ensures same { OnErr result (self.new ≡ self.old) }
    {
        if self.live.room_left() <= self.queue.waiting().len() as u64 {
            if let Reply::Granted = self.live.decide(request) {
                return Err(JournalFull);
            }
        }
        self.live.ask(session, request)
    }

    // Counts a grant, which is the first of its group where there is none yet.
    fn count_grant(&mut self, asked: &SessionRequest<'_>)
        requires { IsAsked self.old.live.cell asked.now }
        ensures counted { CountsGrant self.old asked.now.session asked.now.request self.new }
    {
        self.counts.add(&Grant {
            shift: 0,
            session: asked.session,
            request: asked.request,
        });
        self.first.offer(self.replies.len(), asked.text);
    }

    // Answers a request that was refused: its session waits from now on, if it may, room is all that it lacks and a place is free.
    fn answer_refusal(&mut self, asked: &SessionRequest<'_>, why: Refusal, may_wait: bool)
        requires asked { IsAsked self.old.live.cell asked.now }
        requires ready { IsOpen self.old }
        requires reply { reply_to self.old.live.cell self.old.live.parts asked.now.request ≡ Refused why }
        requires known { RefusalFits self.old.live.cell why }
        ensures said { (talk : Talk) → StandsAt talk self.old
            → IsSaid self.old.live.cell talk self.old (halted_line self.old.live.cell (Step asked.now.session asked.now.request))
            (reply_told self.old.live.cell talk asked.now.session asked.now.request may_wait (Refused why)) self.new }
        ensures goes_on { TakesOneLine self.old self.new }
        ensures waiters { KeepsWaiters self.new }
    {
        match why {
            Refusal::Saturated { at, .. } if may_wait => {
                self.wait_for_room(asked, why, at);
            }
            _ => self.tell(asked, &Told::Answered(Reply::Refused(why))),
        }
    }

    // A request was refused for the neighborhood of this resource: its session waits from now on, if a place is free.
    fn wait_for_room(&mut self, asked: &SessionRequest<'_>, why: Refusal, at: ResId)
        requires asked { IsAsked self.old.live.cell asked.now }
        requires ready { IsOpen self.old }
        requires reply { reply_to self.old.live.cell self.old.live.parts asked.now.request ≡ Refused why }
        requires full { FullAt why at }
        requires known { RefusalFits self.old.live.cell why }
        ensures said { (talk : Talk) → StandsAt talk self.old
            → IsSaid self.old.live.cell talk self.old (halted_line self.old.live.cell (Step asked.now.session asked.now.request))
            (waiting_told talk asked.now.session asked.now.request why) self.new }
        ensures goes_on { TakesOneLine self.old self.new }
        ensures waiters { KeepsWaiters self.new }
    {
        if self.queue.waiting().len() >= usize::from(MAX_WAITERS) {
            self.turn_away(asked, WAITERS_FULL);
            return;
        }
        self.begin_wait(asked, why, at);
    }

    // A session waits from now on, for a request that was refused for the neighborhood of this resource.
    #[inline(never)]
    fn begin_wait(&mut self, asked: &SessionRequest<'_>, why: Refusal, at: ResId)
        requires asked { IsAsked self.old.live.cell asked.now }
        requires ready { IsOpen self.old }
        requires room { length self.old.queue.waiters < MAX_WAITERS }
        requires reply { reply_to self.old.live.cell self.old.live.parts asked.now.request ≡ Refused why }
        requires full { FullAt why at }
        requires known { RefusalFits self.old.live.cell why }
        ensures begun { BeginsWait self.old asked.now.session asked.now.request why self.new }
        ensures waiters { KeepsWaiters self.new }
    {
        let cell = self.live.core().cell();
        let line = said_line(Line::of_word(asked.text), cell, b"waits", Some(why));
        self.queue.push(
            Waiter {
                session: asked.session,
                request: asked.request,
                refusal: why,
            },
            at,
        );
        self.keep(line);
    }

    // Keeps what a session is told of its request. It is made inline, so that what tells of a grant tests for no other words.
    #[inline(always)]
    fn tell(&mut self, asked: &SessionRequest<'_>, told: &Told)
        requires asked { IsAsked self.old.live.cell asked.now }
        requires known { ToldFits self.old.live.cell told.now }
        requires short { length self.old.replies < MAX_REPLIES }
        ensures waiters { KeepsWaiters self.old → KeepsWaiters self.new }
        ensures kept { self.new ≡ record self.old {
          replies = self.old.replies
              ++ line_of (step_words self.old.live.cell asked.now.session asked.now.request told.now) ∷ [];
          asked = line_number (self.old.asked + 1);
        } }
    {
        self.replies
            .push_told(asked.text, self.live.core().cell(), told);
        self.asked = self.asked.saturating_add(1);
    }

    // Answers a request that is not decided.
    #[inline(never)]
    fn turn_away(&mut self, asked: &SessionRequest<'_>, why: &[u8])
        requires asked { IsAsked self.old.live.cell asked.now }
        requires brief { length why.now ≤ 15 }
        requires short { length self.old.replies < MAX_REPLIES }
        ensures waiters { KeepsWaiters self.old → KeepsWaiters self.new }
        ensures kept { self.new ≡ record self.old {
          replies = self.old.replies
              ++ line_of (asked_words self.old.live.cell asked.now.session asked.now.request
              (codes "refused" ∷ why.now ∷ [])) ∷ [];
          asked = line_number (self.old.asked + 1);
        } }
    {
        let line = turned_line(asked.text, why);
        self.keep(line);
    }
}
