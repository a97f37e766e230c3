//! Each form of line, as it is printed.
ghost use Rattle.std.specs.Prelude.{IsTrue};
ghost use Rattle.record_text.specs.Fitting.{ToldFits, EntryFits};

use crate::same::assert_same;
use cell_base::{
    Cell, Entry, JobId, List, NoMemory, Refusal, Reply, Request, ResId, Told, TypeId, request_fits,
};
use record_text::{
    Line, PLAIN_REFUSALS, head_line, left_line, line_of, plan_line, refusal_word, step_line,
};
use std::alloc::Global;
use std::test::Fail;
use test_fixtures::{add_machine, add_type};

/// Names of as many bytes as a name may have.
const LONG_RESOURCE: &[u8] = b"a-machine-of-thirty-two-bytes__1";

const LONG_TYPE: &[u8] = b"a-type-of-parts-of-as-many-bytes";

/// A cell with a short and a long name of each sort. A part of each type is worked on at 64 places.
fn named_cell(alloc: Global) -> Result<Cell, NoMemory> {
    let mut resources = List::new(alloc);
    add_machine(&mut resources, b"M1", 1)?;
    add_machine(&mut resources, LONG_RESOURCE, 1)?;
    let mut types = List::new(alloc);
    add_type(alloc, &mut types, b"A", &[0; 64])?;
    add_type(alloc, &mut types, LONG_TYPE, &[0; 64])?;
    Ok(Cell { resources, types })
}

fn told_fits(cell: &Cell, told: &Told) -> bool
    ensures { IsTrue result → ToldFits cell.now told.now }
{
    match told {
        Told::Answered(Reply::Refused(Refusal::Saturated { at, .. })) => {
            u64::from(at.0) < cell.resources.len()
        }
        _ => true,
    }
}

fn entry_fits(cell: &Cell, entry: &Entry) -> bool
    ensures { IsTrue result → EntryFits cell.now entry.now }
{
    request_fits(cell, &entry.request) && told_fits(cell, &entry.told)
}

/// The line of an entry whose ids fit the cell.
fn printed(cell: &Cell, session: u16, request: Request, told: Told) -> Option<Line> {
    let entry = Entry {
        session,
        request,
        told,
    };
    if entry_fits(cell, &entry) {
        Some(line_of(cell, &entry))
    } else {
        None
    }
}

fn load(job: u32, kind: u16) -> Request {
    Request::Load {
        job: JobId(job),
        kind: TypeId(kind),
    }
}

fn move_by(branch: u16) -> Request {
    Request::Move {
        job: JobId(7),
        branch,
    }
}

fn place(job: u32, kind: u16, place: u16, done: bool) -> Request {
    Request::Place {
        job: JobId(job),
        kind: TypeId(kind),
        place,
        done,
    }
}

fn refused(why: Refusal) -> Told {
    Told::Answered(Reply::Refused(why))
}

fn saturated(at: u16, count: u32, capacity: u32) -> Told {
    refused(Refusal::Saturated {
        at: ResId(at),
        count,
        capacity,
    })
}

#[test]
fn first_lines_of_a_record(rt: HostRuntime) -> Result<(), Fail> {
    let cell = named_cell(rt.alloc())?;
    let entry = Entry {
        session: 1,
        request: load(7, 0),
        told: Told::Answered(Reply::Granted),
    };
    assert!(rt; entry_fits(&cell, &entry));
    let head = head_line(1, 0);
    let asked = line_of(&cell, &entry);
    let left = left_line(1);
    let table: [(Line, &[u8]); 3] = [
        (head, b"shift 1 after 0\n"),
        (asked, b"1 load 7 A granted\n"),
        (left, b"left 1\n"),
    ];
    for (line, text) in &table {
        assert_same(&rt, line.bytes(), *text);
    }
    Ok(())
}

#[test]
fn each_entry_has_its_line(rt: HostRuntime) -> Result<(), Fail> {
    let cell = named_cell(rt.alloc())?;
    let requests: [(u16, Request, &[u8]); 7] = [
        (1, load(7, 0), b"1 load 7 A granted\n"),
        (
            2,
            Request::Process { machine: ResId(0) },
            b"2 process M1 granted\n",
        ),
        (64, move_by(0), b"64 move 7 granted\n"),
        (64, move_by(2), b"64 move 7 2 granted\n"),
        (
            3,
            Request::Unload { job: JobId(7) },
            b"3 unload 7 granted\n",
        ),
        (0, place(7, 0, 1, false), b"0 place 7 A 1 waiting granted\n"),
        (0, place(0, 0, 0, true), b"0 place 0 A 0 done granted\n"),
    ];
    for (session, request, text) in requests {
        let line = printed(&cell, session, request, Told::Answered(Reply::Granted));
        assert_same(&rt, line.as_ref().map(|line| line.bytes()), Some(text));
    }
    let answers: [(Told, &[u8]); 3] = [
        (Told::Halted, b"1 move 7 halted\n"),
        (
            refused(Refusal::NotProcessed),
            b"1 move 7 refused not-processed\n",
        ),
        (
            saturated(0, 2, 3),
            b"1 move 7 refused saturated M1 2 of 3\n",
        ),
    ];
    for (told, text) in answers {
        let line = printed(&cell, 1, move_by(0), told);
        assert_same(&rt, line.as_ref().map(|line| line.bytes()), Some(text));
    }
    Ok(())
}

#[test]
fn each_plain_refusal_has_its_word(rt: HostRuntime) -> Result<(), Fail> {
    let cell = named_cell(rt.alloc())?;
    for why in PLAIN_REFUSALS {
        let mut wanted = Line::of_word(b"1 move 7 refused");
        wanted.word(refusal_word(&why));
        let wanted = wanted.end();
        let line = printed(&cell, 1, move_by(0), refused(why));
        assert_same(
            &rt,
            line.as_ref().map(|line| line.bytes()),
            Some(wanted.bytes()),
        );
    }
    Ok(())
}

#[test]
fn longest_line_of_a_record(rt: HostRuntime) -> Result<(), Fail> {
    let cell = named_cell(rt.alloc())?;
    let most = saturated(1, u32::MAX, u32::MAX);
    let line = printed(&cell, u16::MAX, place(u32::MAX, 1, 63, false), most);
    let text: &[u8] = b"65535 place 4294967295 a-type-of-parts-of-as-many-bytes 63 waiting \
refused saturated a-machine-of-thirty-two-bytes__1 4294967295 of 4294967295\n";
    assert_same(&rt, line.as_ref().map(|line| line.bytes()), Some(text));
    assert_same(&rt, text.len(), 143);
    Ok(())
}

#[test]
fn other_lines(rt: HostRuntime) -> Result<(), Fail> {
    let cell = named_cell(rt.alloc())?;
    let step = Request::Move {
        job: JobId(7),
        branch: 1,
    };
    let table: [(Line, &[u8]); 7] = [
        (head_line(1, 0), b"shift 1 after 0\n"),
        (
            head_line(u32::MAX, u64::MAX),
            b"shift 4294967295 after 18446744073709551615\n",
        ),
        (left_line(0), b"left 0\n"),
        (left_line(4096), b"left 4096\n"),
        (plan_line(10), b"plan 10\n"),
        (plan_line(u64::MAX), b"plan 18446744073709551615\n"),
        (step_line(&cell, &step), b"move 7 1\n"),
    ];
    for (line, text) in &table {
        assert_same(&rt, line.bytes(), *text);
    }
    Ok(())
}
