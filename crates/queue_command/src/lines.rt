//! The lines of sessions that asked a board.
//!
//! | Line | Words |
//! |---|---|
//! | entry | `SESSION REQUEST granted`, or `refused WHY`, `waits WHY`, `served`, `dropped WHY` |
//! | a session that waits at the end | `SESSION REQUEST still WHY` |
//!
//! Each is the line of a granted or a refused request in a record, but for one word, which is no longer there.
ghost use Rattle.std.specs.Prelude.{◌≡◌, ◌≤◌, ◌∷◌, length};
ghost use Rattle.cell_base.specs.declared.requests.Told.TheVariants.{Answered};
ghost use Rattle.record_text.specs.Fitting.{EntryFits as AskedFits};
ghost use Rattle.queue_command.specs.Clauses.{BoardEntryFits, WaiterFits, asked_line, entry_line, reason_words, still_line};

use cell_base::{Cell, Entry, Reply, Request, Told};
use record_text::{Line, line_of, reply_line};
use wait_board::{BoardEntry, BoardTold, Waiter};

/// The line of an entry, in the place of what stood on a line.
pub fn write_entry(line: &mut Line, cell: &Cell, entry: &BoardEntry)
    requires { BoardEntryFits cell.now entry.now }
    ensures { line.new ≡ entry_line cell.now entry.now }
{
    let session = entry.session;
    let request = &entry.request;
    match entry.told {
        BoardTold::Granted => write_asked(line, cell, session, request, b"granted", Reply::Granted),
        BoardTold::Refused(why) => {
            write_asked(
                line,
                cell,
                session,
                request,
                b"refused",
                Reply::Refused(why),
            )
        }
        BoardTold::Waits(why) => {
            write_asked(line, cell, session, request, b"waits", Reply::Refused(why))
        }
        BoardTold::Served => write_asked(line, cell, session, request, b"served", Reply::Granted),
        BoardTold::Dropped(why) => {
            write_asked(
                line,
                cell,
                session,
                request,
                b"dropped",
                Reply::Refused(why),
            )
        }
    }
}

/// The line of a session that waits, in the place of what stood on a line.
pub fn write_still(line: &mut Line, cell: &Cell, waiter: &Waiter)
    requires { WaiterFits cell.now waiter.now }
    ensures { line.new ≡ still_line cell.now waiter.now }
{
    let reply = Reply::Refused(waiter.refusal);
    write_asked(line, cell, waiter.session, &waiter.request, b"still", reply);
}

// A session, its request, this word, and why the reply is no grant.
fn write_asked(
    line: &mut Line,
    cell: &Cell,
    session: u16,
    request: &Request,
    word: &[u8],
    reply: Reply,
)
    requires fits { AskedFits cell.now (record { session = session; request = request.now; told = Answered reply }) }
    requires short { length word.now ≤ 7 }
    ensures { line.new ≡ asked_line cell.now session request.now (word.now ∷ reason_words cell.now reply) }
{
    let told = Told::Answered(reply);
    let recorded = line_of(
        cell,
        &Entry {
            session,
            request: *request,
            told,
        },
    );
    let replied = reply_line(cell, &reply);
    let asked = recorded.bytes().len() - replied.bytes().len() - 1;
    line.begin(&recorded.bytes()[..asked]);
    line.word(word);
    if let Reply::Refused(_) = reply {
        line.word(&replied.bytes()[8..replied.bytes().len() - 1]);
    }
    line.close();
}
