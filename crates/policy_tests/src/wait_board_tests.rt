//! What no clause says: that memory is had, that two threads share a board by a lock, and that what it then holds is what its
//! asks make of a new one. The cell has one machine of one unit; and that a load which makes no room ends the wait of a load of the same
//! job, where the cell has two machines.
use crate::same::assert_same;
use admission_core::Core;
use cell_base::{
    Cell, JobId, List, NoMemory, Refusal, Request, ResId, TypeId, cell_fits, request_fits,
};
use std::alloc::Global;
use std::sync::{Mutex, Wait};
use std::test::Fail;
use std::thread::{self, Threads};
use test_fixtures::{add_machine, add_type, cell_of_one};
use wait_board::{Board, BoardEntry, BoardFault, BoardReply, BoardTold, Waiter};

const FULL: Refusal = Refusal::Saturated {
    at: ResId(0),
    count: 1,
    capacity: 1,
};

const LOAD_7: Request = Request::Load {
    job: JobId(7),
    kind: TypeId(0),
};

const LOAD_8: Request = Request::Load {
    job: JobId(8),
    kind: TypeId(0),
};

const PROCESS: Request = Request::Process { machine: ResId(0) };

const UNLOAD_7: Request = Request::Unload { job: JobId(7) };

const UNLOAD_8: Request = Request::Unload { job: JobId(8) };

const SECOND: Waiter = Waiter {
    session: 2,
    request: LOAD_8,
    refusal: FULL,
};

const ASKS: [(u16, Request, Answer); 8] = [
    (1, LOAD_7, Answer::Told(BoardReply::Granted)),
    (2, LOAD_8, Answer::Told(BoardReply::Waits(FULL))),
    (3, LOAD_8, Answer::Told(BoardReply::Waits(FULL))),
    (2, PROCESS, Answer::Not(BoardFault::AlreadyWaits(SECOND))),
    (1, PROCESS, Answer::Told(BoardReply::Granted)),
    (
        1,
        LOAD_7,
        Answer::Told(BoardReply::Refused(Refusal::JobLoaded)),
    ),
    (1, UNLOAD_7, Answer::Told(BoardReply::Granted)),
    (1, UNLOAD_7, Answer::Not(BoardFault::Full { len: 8 })),
];

const HISTORY: [BoardEntry; 8] = [
    BoardEntry {
        session: 1,
        request: LOAD_7,
        told: BoardTold::Granted,
    },
    BoardEntry {
        session: 2,
        request: LOAD_8,
        told: BoardTold::Waits(FULL),
    },
    BoardEntry {
        session: 3,
        request: LOAD_8,
        told: BoardTold::Waits(FULL),
    },
    BoardEntry {
        session: 1,
        request: PROCESS,
        told: BoardTold::Granted,
    },
    BoardEntry {
        session: 1,
        request: LOAD_7,
        told: BoardTold::Refused(Refusal::JobLoaded),
    },
    BoardEntry {
        session: 1,
        request: UNLOAD_7,
        told: BoardTold::Granted,
    },
    BoardEntry {
        session: 2,
        request: LOAD_8,
        told: BoardTold::Served,
    },
    BoardEntry {
        session: 3,
        request: LOAD_8,
        told: BoardTold::Dropped(Refusal::JobLoaded),
    },
];

const ONE: [Request; 3] = [LOAD_7, PROCESS, UNLOAD_7];

const TWO: [Request; 3] = [LOAD_8, PROCESS, UNLOAD_8];

/// Two machines of one unit, and for each a type that is worked on there alone.
fn two_apart(alloc: Global) -> Result<Cell, NoMemory> {
    let mut resources = List::new(alloc);
    add_machine(&mut resources, b"M1", 1)?;
    add_machine(&mut resources, b"M2", 2)?;
    let mut types = List::new(alloc);
    add_type(alloc, &mut types, b"A", &[0])?;
    add_type(alloc, &mut types, b"B", &[1])?;
    Ok(Cell { resources, types })
}

/// A board of three sessions over the empty cell of one machine.
fn board_of_three(alloc: Global, room: u64) -> Result<Board, Fail> {
    board_over(alloc, cell_of_one(alloc)?, room)
}

/// A board of three sessions over an empty cell.
fn board_over(alloc: Global, cell: Cell, room: u64) -> Result<Board, Fail> {
    if !cell_fits(&cell) {
        return Err("the cell fits".into());
    }
    match Board::open(alloc, Core::open(alloc, cell)?, 3, room) {
        Ok(board) => Ok(board),
        Err(_) => Err("memory".into()),
    }
}

/// The answer to an ask of one of the three sessions.
#[derive(Clone, Copy, Debug, PartialEq, Eq)]
enum Answer {
    Told(BoardReply),
    Not(BoardFault),
    Misfit,
}

fn asked(board: &mut Board, session: u16, request: &Request) -> Answer {
    if session < 1 || session > board.sessions() || !request_fits(board.core().cell(), request) {
        return Answer::Misfit;
    }
    match board.try_ask(session, request) {
        Ok(reply) => Answer::Told(reply),
        Err(fault) => Answer::Not(fault),
    }
}

/// Whether the board answers each ask of a table as it says.
fn answers_as_listed(board: &mut Board, asks: &[(u16, Request, Answer)]) -> bool {
    for (session, request, expected) in asks.iter() {
        if asked(board, *session, request) != *expected {
            return false;
        }
    }
    true
}

#[test]
fn a_load_waits_until_the_machine_is_free(rt: HostRuntime) -> Result<(), Fail> {
    let mut board = board_of_three(rt.alloc(), 8)?;
    assert!(rt; answers_as_listed(&mut board, &ASKS));
    assert_same(&rt, board.history(), HISTORY.as_slice());
    assert!(rt; board.waiting().is_empty());
    Ok(())
}

/// Session 2 waits for M1 with a load of job 8. One of job 57, which shares a place with it in a queue of three, leaves it there; one of
/// its own job at M2 ends the wait, though no neighborhood got room.
const LOADS: [(u16, Request, Answer); 6] = [
    (1, LOAD_7, Answer::Told(BoardReply::Granted)),
    (2, LOAD_8, Answer::Told(BoardReply::Waits(FULL))),
    (
        3,
        Request::Load {
            job: JobId(57),
            kind: TypeId(1),
        },
        Answer::Told(BoardReply::Granted),
    ),
    (
        3,
        Request::Process { machine: ResId(1) },
        Answer::Told(BoardReply::Granted),
    ),
    (
        3,
        Request::Unload { job: JobId(57) },
        Answer::Told(BoardReply::Granted),
    ),
    (
        3,
        Request::Load {
            job: JobId(8),
            kind: TypeId(1),
        },
        Answer::Told(BoardReply::Granted),
    ),
];

#[test]
fn a_load_of_the_same_job_ends_a_wait(rt: HostRuntime) -> Result<(), Fail> {
    let cell = two_apart(rt.alloc()).expect(&rt, "memory");
    let mut board = board_over(rt.alloc(), cell, 8)?;
    assert!(rt; answers_as_listed(&mut board, &LOADS[..5]));
    assert_same(&rt, board.waiting(), [SECOND].as_slice());
    assert!(rt; answers_as_listed(&mut board, &LOADS[5..]));
    assert!(rt; board.waiting().is_empty());
    assert_same(
        &rt,
        board.history().last().copied(),
        Some(BoardEntry {
            session: 2,
            request: LOAD_8,
            told: BoardTold::Dropped(Refusal::JobLoaded),
        }),
    );
    Ok(())
}

/// A session goes through a script under the lock, a step at each taking of it; while it waits its ask is refused.
fn go_through<R: Wait>(rt: &R, board: &Mutex<Board>, session: u16, script: &[Request]) {
    for request in script {
        asked(&mut board.lock(rt), session, request);
    }
}

/// The asks of a history, asked of a new board in their order.
fn asked_again(alloc: Global, history: &[BoardEntry]) -> Result<Board, Fail> {
    let mut board = board_of_three(alloc, 100)?;
    for entry in history {
        match entry.told {
            BoardTold::Served | BoardTold::Dropped(_) => {}
            _ => {
                asked(&mut board, entry.session, &entry.request);
            }
        }
    }
    Ok(board)
}

/// Whether a new board, asked the same, comes to the same history, waiters and parts.
fn is_made_again(alloc: Global, board: &Board) -> Result<bool, Fail> {
    let again = asked_again(alloc, board.history())?;
    Ok(
        again.history() == board.history()
            && again.waiting() == board.waiting()
            && again.core().parts_left() == board.core().parts_left(),
    )
}

/// A board that two threads have asked at the same time.
fn asked_by_two<R: Threads + Wait + Sync>(rt: &R, alloc: Global) -> Result<Board, Fail> {
    let shared = Mutex::new(board_of_three(alloc, 100)?);
    thread::join(
        rt,
        || go_through(rt, &shared, 1, &ONE),
        || go_through(rt, &shared, 2, &TWO),
    );
    Ok(shared.into_inner())
}

#[test]
fn two_threads_share_a_board(rt: HostRuntime) -> Result<(), Fail> {
    let board = asked_by_two(&rt, rt.alloc())?;
    assert!(rt; !board.history().is_empty());
    assert!(rt; is_made_again(rt.alloc(), &board)?);
    Ok(())
}
