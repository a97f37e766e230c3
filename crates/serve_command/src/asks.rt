//! What a line asks.
ghost use Rattle.std.specs.Prelude.{◌≡◌, ◌∷◌, [], Ok, Err, IfSome};
ghost use Rattle.cell_base.specs.declared.cells.Cell.{Cell};
ghost use Rattle.cell_base.specs.Fits.{RequestFits};
ghost use Rattle.serve_command.specs.Asks.{AskFits, SaysAsk, ask_of, ask_of_one, ask_of_several, ask_of_session, ask_of_words};
ghost use Rattle.serve_command.specs.Asks.{job_asked, jobs_asked, request_of, step_asked, wait_asked, why_asked};
ghost use Rattle.step_text.specs.Words.{words};

use cell_base::{JobId, Request};
use record_text::read_place;
use step_text::{IndexedCell, cut, number_of};

/// The most bytes of a line that asks something: the longest places a part.
pub const MAX_ASK_BYTES: usize = 66;

/// The highest number of a session.
pub const MAX_SESSION: u64 = 65_535;

// The highest number of a job.
const MAX_JOB: u64 = 4_294_967_295;

const LEFT: &[u8] = b"left";

const NEXT: &[u8] = b"next";

const ROOM: &[u8] = b"room";

const PARTS: &[u8] = b"parts";

const JOBS: &[u8] = b"jobs";

const WHY: &[u8] = b"why";

const JOB: &[u8] = b"job";

const GRANTS: &[u8] = b"grants";

const LAST: &[u8] = b"last";

const WAIT: &[u8] = b"wait";

const CANCEL: &[u8] = b"cancel";

/// What a line asks for.
#[derive(Clone, Copy)]
pub enum Ask {
    /// A session asks for a step, or says that it has put a part in.
    Step { session: u16, request: Request },
    /// The same of a step, and where there is no room for it the session waits.
    Wait { session: u16, request: Request },
    /// A session waits no longer.
    Cancel { session: u16 },
    /// How many grants of a session are on the disk.
    Count { session: u16 },
    /// The same, and the last of them.
    Last { session: u16 },
    /// What a step would be told.
    Why { request: Request },
    /// Where the part of a job stands.
    Job { job: JobId },
    /// The next step of the plan that empties the cell.
    Next,
    /// How many grants more the journal takes.
    Room,
    /// How many parts are left in the cell.
    Left,
    /// Where all parts stand.
    Parts,
    /// Which parts stand in the way of a step.
    Jobs { request: Request },
    /// The line asks nothing.
    Nothing,
}

/// What a line asks. What it asks for fits the cell, and where that is a step, the line is the text of it.
#[tactic(auto, unfolding(crate::specs::Asks::ask_of))]
pub fn read_ask(cell: &IndexedCell<'_>, line: &[u8]) -> Ask
    ensures ask { result ≡ ask_of cell.now line.now }
    ensures fits { AskFits cell.now result }
    ensures says { SaysAsk cell.now line.now result }
{
    if line.len() > MAX_ASK_BYTES {
        return Ask::Nothing;
    }
    ask_of_words(cell, line)
}

// The same, however long the line is.
fn ask_of_words(cell: &IndexedCell<'_>, line: &[u8]) -> Ask
    ensures ask { result ≡ ask_of_words cell.now (words line.now) }
    ensures fits { AskFits cell.now result }
{
    let (word, rest) = cut(line);
    match rest {
        Some(rest) => ask_of_several(cell, word, rest),
        None => ask_of_one(word),
    }
}

fn ask_of_one(word: &[u8]) -> Ask
    ensures ask { result ≡ ask_of_one word.now }
    ensures fits { (cell : Cell) → AskFits cell result }
{
    if word == LEFT {
        Ask::Left
    } else if word == NEXT {
        Ask::Next
    } else if word == ROOM {
        Ask::Room
    } else if word == PARTS {
        Ask::Parts
    } else {
        Ask::Nothing
    }
}

fn ask_of_several(cell: &IndexedCell<'_>, word: &[u8], rest: &[u8]) -> Ask
    ensures ask { result ≡ ask_of_several cell.now word.now (words rest.now) }
    ensures fits { AskFits cell.now result }
{
    if word == WHY {
        return why_of(cell, rest);
    }
    if word == JOBS {
        return jobs_of(cell, rest);
    }
    if word == JOB {
        return job_of(rest);
    }
    match number_of(1, MAX_SESSION, word) {
        Some(session) => ask_of_session(cell, session as u16, rest),
        None => Ask::Nothing,
    }
}

fn why_of(cell: &IndexedCell<'_>, text: &[u8]) -> Ask
    ensures ask { result ≡ why_asked cell.now (words text.now) }
    ensures fits { AskFits cell.now result }
{
    match cell.read(text) {
        Ok(request) => Ask::Why { request },
        Err(_) => Ask::Nothing,
    }
}

fn jobs_of(cell: &IndexedCell<'_>, text: &[u8]) -> Ask
    ensures ask { result ≡ jobs_asked cell.now (words text.now) }
    ensures fits { AskFits cell.now result }
{
    match cell.read(text) {
        Ok(request) => Ask::Jobs { request },
        Err(_) => Ask::Nothing,
    }
}

fn job_of(text: &[u8]) -> Ask
    ensures ask { result ≡ job_asked (words text.now) }
    ensures fits { (cell : Cell) → AskFits cell result }
{
    let (word, rest) = cut(text);
    match rest {
        Some(_) => Ask::Nothing,
        None => job_of_word(word),
    }
}

// The same of a text that is one word.
fn job_of_word(word: &[u8]) -> Ask
    ensures ask { result ≡ job_asked (word.now ∷ []) }
    ensures fits { (cell : Cell) → AskFits cell result }
{
    match number_of(0, MAX_JOB, word) {
        Some(job) => Ask::Job {
            job: JobId(job as u32),
        },
        None => Ask::Nothing,
    }
}

// Most lines ask for a step, so the text is read as one before its words are cut.
fn ask_of_session(cell: &IndexedCell<'_>, session: u16, text: &[u8]) -> Ask
    ensures ask { result ≡ ask_of_session cell.now session (words text.now) }
    ensures fits { AskFits cell.now result }
{
    match cell.read(text) {
        Ok(request) => Ask::Step { session, request },
        Err(_) => other_of_session(cell, session, text),
    }
}

// The same, whatever the text is.
fn other_of_session(cell: &IndexedCell<'_>, session: u16, text: &[u8]) -> Ask
    ensures ask { result ≡ ask_of_session cell.now session (words text.now) }
    ensures fits { AskFits cell.now result }
{
    let (word, rest) = cut(text);
    match rest {
        Some(rest) if word == WAIT => wait_of(cell, session, rest),
        None if word == GRANTS => Ask::Count { session },
        None if word == LAST => Ask::Last { session },
        None if word == CANCEL => Ask::Cancel { session },
        _ => step_of(cell, session, text),
    }
}

// A session asks for a step, and it may wait.
fn wait_of(cell: &IndexedCell<'_>, session: u16, text: &[u8]) -> Ask
    ensures ask { result ≡ wait_asked cell.now session (words text.now) }
    ensures fits { AskFits cell.now result }
{
    match cell.read(text) {
        Ok(request) => Ask::Wait { session, request },
        Err(_) => Ask::Nothing,
    }
}

// A session asks for a step, or says that it has put a part in.
fn step_of(cell: &IndexedCell<'_>, session: u16, text: &[u8]) -> Ask
    ensures ask { result ≡ step_asked cell.now session (words text.now) }
    ensures fits { AskFits cell.now result }
{
    match request_of(cell, text) {
        Some(request) => Ask::Step { session, request },
        None => Ask::Nothing,
    }
}

// A step, or the place of a part.
fn request_of(cell: &IndexedCell<'_>, text: &[u8]) -> Option<Request>
    ensures request { result ≡ request_of cell.now (words text.now) }
    ensures fits { IfSome result (RequestFits cell.now) }
{
    match cell.read(text) {
        Ok(request) => Some(request),
        Err(_) => read_place(cell, text),
    }
}
