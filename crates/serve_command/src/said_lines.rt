//! The lines of sessions that wait, and of requests that are turned away.
ghost use Rattle.std.specs.Prelude.{◌≡◌, ◌≤◌, ◌+◌, ◌∷◌, ◌++◌, [], codes, length, IfSome, None, Some};
ghost use Rattle.std.specs.Fmt.{decimal};
ghost use Rattle.record_text.specs.Fitting.{RefusalFits, ToldFits};
ghost use Rattle.record_text.specs.Lines.{line_after, line_of};
ghost use Rattle.record_text.specs.Spaced.{spaced};
ghost use Rattle.serve_command.specs.Clauses.{Answered, IsTextOf, RequestFits, asked_words, end_words, reason_words};
ghost use Rattle.serve_command.specs.Clauses.{step_or_none, still_line};

use crate::questions::add_step;
use admission_core::Core;
use cell_base::{Cell, Refusal, Reply, Request};
use record_text::{Line, add_request, add_why};
use wait_queue::Waiter;

/// A line that begins with the text of a session's request, with what is said of it in one word, and why.
pub fn said_line(mut line: Line, cell: &Cell, word: &[u8], why: Option<Refusal>) -> Line
    requires text { length line ≤ 76 }
    requires known { IfSome why (RefusalFits cell.now) }
    requires brief { length word.now ≤ 7 }
    ensures { result ≡ line_after line (word.now ∷ reason_words cell.now why) }
{
    add_said(&mut line, cell, word, why);
    line.end()
}

// Appends what is said in one word, and why.
fn add_said(line: &mut Line, cell: &Cell, word: &[u8], why: Option<Refusal>)
    requires known { IfSome why (RefusalFits cell.now) }
    requires brief { length word.now ≤ 7 }
    requires room { length line.old ≤ 76 }
    ensures words { line.new ≡ line.old ++ spaced (word.now ∷ reason_words cell.now why) }
    ensures len { length line.new ≤ length line.old + 76 }
{
    line.word(word);
    match why {
        Some(why) => add_why(line, cell, &why),
        None => {}
    }
}

/// The line of a request of this text that is not decided, and why.
pub fn turned_line(text: &[u8], why: &[u8]) -> Line
    requires text { length text.now ≤ 76 }
    requires brief { length why.now ≤ 15 }
    ensures { result ≡ line_after text.now (codes "refused" ∷ why.now ∷ []) }
{
    let mut line = Line::of_word(text);
    line.word(b"refused");
    line.word(why);
    line.end()
}

/// The text of a session's request, with no end yet.
pub fn asked_line(cell: &Cell, session: u16, request: &Request) -> Line
    requires { RequestFits cell.now request.now }
    ensures { IsTextOf cell.now session request.now result }
{
    let mut line = Line::new();
    line.begin_number(session);
    add_request(&mut line, cell, request);
    line
}

/// How a wait ends: its request is granted, or refused for something else than want of room.
pub fn end_line(cell: &Cell, waiter: &Waiter, reply: &Reply) -> Line
    requires fits { RequestFits cell.now waiter.now.request }
    requires known { ToldFits cell.now (Answered reply.now) }
    ensures { result ≡ line_of (asked_words cell.now waiter.now.session waiter.now.request (end_words cell.now (Answered reply.now))) }
{
    let line = asked_line(cell, waiter.session, &waiter.request);
    match reply {
        Reply::Granted => said_line(line, cell, b"served", None),
        Reply::Refused(why) => said_line(line, cell, b"dropped", Some(*why)),
    }
}

/// A session waits still: this is what its request would be told now.
pub fn still_line(core: &Core, waiter: &Waiter) -> Line
    requires { RequestFits core.now.cell waiter.now.request }
    ensures { result ≡ still_line core.now.cell core.now.parts waiter.now }
{
    let cell = core.cell();
    let line = asked_line(cell, waiter.session, &waiter.request);
    match core.decide(&waiter.request) {
        Reply::Granted => said_line(line, cell, b"still", None),
        Reply::Refused(why) => said_line(line, cell, b"still", Some(why)),
    }
}

/// The step for which a session waits no longer, or none.
pub fn cancel_line(cell: &Cell, session: u16, request: Option<Request>) -> Line
    requires { IfSome request (RequestFits cell.now) }
    ensures { result ≡ line_of (decimal session ∷ codes "cancel" ∷ step_or_none cell.now request) }
{
    let mut line = Line::new();
    line.begin_number(session);
    line.word(b"cancel");
    add_step(&mut line, cell, request);
    line.end()
}
