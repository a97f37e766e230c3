//! A live cell that answers asks, in groups.
ghost use Rattle.std.specs.Prelude.{◌≡◌, ◌<◌, ◌+◌, ◌++◌, ◌∷◌, [], length, codes, IfSome, OnOk, OnErr};
ghost use Rattle.record_text.specs.Lines.{line_of, told_words};
ghost use Rattle.step_text.specs.Steps.{request_words};
ghost use Rattle.serve_command.specs.Clauses.{Answered, AskFits, FindsFull, HasAnswered, IsOpen, IsQuestion, IsStep, KeepsWaiters};
ghost use Rattle.serve_command.specs.Clauses.{MAX_REPLIES, MAX_SERVED, RequestFits, SaysAsk, StandsAt, Talk, Wait, count_of, last_of, last_words};
ghost use Rattle.serve_command.specs.Clauses.{line_number, reply_to, reply_words};

use crate::asks::Ask;
use crate::counts::SessionCounts;
use crate::first_grant::FirstOfGroup;
use crate::questions::{count_line, job_line, last_line, next_line, refused_line, room_line};
use crate::replies::Replies;
use crate::said_lines::asked_line;
use crate::session_request::SessionRequest;
use cell_base::{Cell, Request, request_fits};
use live_cell::{JournalFull, LiveCell};
use outside_io::Disk;
use record_text::{Line, left_line, why_line};
use step_text::NameIndex;
use wait_queue::WaitQueue;

/// A live cell, the number of each session's grants, the sessions that wait, and how many lines were asked, as far as 64 bits count. Of the
/// group that is under way, the answers, which are put once its grants are stable, and its first grant. And the index of the cell's names,
/// by which lines are read.
#[derive(Drop)]
pub struct Server<D: Disk> {
    pub live: LiveCell<D>,
    pub counts: SessionCounts,
    pub queue: WaitQueue,
    pub asked: u64,
    pub replies: Replies,
    pub first: FirstOfGroup,
    pub names: NameIndex,
}

impl<D: Disk> Server<D> {
    /// Answers an ask, which this line says, after all that were asked before it. Where it would be granted and the journal has no room,
    /// nothing changes.
    pub fn answer(&mut self, ask: &Ask, line: &[u8]) -> Result<(), JournalFull>
        requires fits { AskFits self.old.live.cell ask.now }
        requires says { SaysAsk self.old.live.cell line.now ask.now }
        requires ready { IsOpen self.old }
        ensures answered { OnOk result (HasAnswered self.old ask.now self.new) }
        ensures full { OnErr result (FindsFull self.old ask.now self.new) }
    {
        match ask {
            Ask::Step { session, request } => {
                let asked = SessionRequest {
                    session: *session,
                    request: *request,
                    text: line,
                };
                return self.answer_request(&asked, false);
            }
            Ask::Wait { session, request } => return self.answer_wait(*session, request),
            Ask::Cancel { session } => self.cancel(*session),
            Ask::Parts => self.list_parts(),
            Ask::Jobs { request } => self.list_jobs(request),
            _ => self.answer_question(ask),
        }
        Ok(())
    }

    // Answers a session's request, which may wait. Its text is made anew, since its line has a word more.
    #[inline(never)]
    fn answer_wait(&mut self, session: u16, request: &Request) -> Result<(), JournalFull>
        requires fits { RequestFits self.old.live.cell request.now }
        requires ready { IsOpen self.old }
        ensures answered { OnOk result (HasAnswered self.old (Wait session request.now) self.new) }
        ensures full { OnErr result (FindsFull self.old (Wait session request.now) self.new) }
    {
        let text = asked_line(self.live.core().cell(), session, request);
        let asked = SessionRequest {
            session,
            request: *request,
            text: text.bytes(),
        };
        self.answer_request(&asked, true)
    }

    // Answers a question. It is no part of what answers a step, which would clear the bytes of each line that is made here first, 88
    // instructions (1 December 2026).
    #[inline(never)]
    fn answer_question(&mut self, ask: &Ask)
        requires question { IsQuestion ask.now }
        requires fits { AskFits self.old.live.cell ask.now }
        requires ready { IsOpen self.old }
        ensures { HasAnswered self.old ask.now self.new }
    {
        let line = self.question_line(ask);
        self.keep(line);
    }

    // The line that answers a question. Nothing changes.
    fn question_line(&self, ask: &Ask) -> Line
        requires question { IsQuestion ask.now }
        requires fits { AskFits self.now.live.cell ask.now }
        requires room { self.now.live.room ≡ MAX_SERVED }
        ensures { (talk : Talk) → StandsAt talk self.now
            → result ≡ line_of (reply_words self.now.live.cell talk.granted (line_number (self.now.asked + 1)) ask.now) }
    {
        match ask {
            Ask::Count { session } => count_line(*session, self.counts.of(*session)),
            Ask::Last { session } => self.look_back(*session),
            Ask::Why { request } => self.look(request),
            Ask::Job { job } => job_line(self.live.core(), *job),
            Ask::Next => next_line(self.live.core()),
            Ask::Room => room_line(self.live.room_left()),
            Ask::Left => left_line(self.live.core().parts_left()),
            _ => refused_line(self.asked.saturating_add(1)),
        }
    }

    // The line of what a step would be told. Nothing changes.
    fn look(&self, request: &Request) -> Line
        requires { IsStep self.now.live.cell request.now }
        ensures { let reply = reply_to self.now.live.cell self.now.live.parts request.now in
            result ≡ line_of (codes "why" ∷ request_words self.now.live.cell request.now
            ++ told_words self.now.live.cell (Answered reply)) }
    {
        let core = self.live.core();
        let reply = core.decide(request);
        why_line(core.cell(), request, &reply)
    }

    // The line of how many grants a session has, and of the last of them. Nothing changes.
    fn look_back(&self, session: u16) -> Line
        ensures { (talk : Talk) → StandsAt talk self.now
            → result ≡ line_of (last_words self.now.live.cell session (count_of session talk.granted) (last_of session talk.granted)) }
    {
        let cell = self.live.core().cell();
        let last = fitting(cell, self.counts.last_of(session));
        last_line(cell, session, self.counts.of(session), last)
    }

    /// Keeps the answer to a line, or its first line.
    pub fn keep(&mut self, line: Line)
        requires short { length self.old.replies < MAX_REPLIES }
        ensures kept { self.new ≡ record self.old { replies = self.old.replies ++ line ∷ []; asked = line_number (self.old.asked + 1) } }
        ensures waiters { KeepsWaiters self.old → KeepsWaiters self.new }
    {
        self.replies.push(line);
        self.asked = self.asked.saturating_add(1);
    }
}

// A request that fits a cell. Each one that was granted does; but that is a fact of the grants, of which the table of sessions has no cell.
fn fitting(cell: &Cell, request: Option<Request>) -> Option<Request>
    ensures fits { IfSome result (RequestFits cell.now) }
    ensures same { IfSome request (RequestFits cell.now) → result ≡ request }
{
    match request {
        Some(request) if request_fits(cell, &request) => Some(request),
        _ => None,
    }
}
