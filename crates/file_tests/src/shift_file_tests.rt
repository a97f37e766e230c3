//! Scripts as a shift file tells them, and texts that are no steps.
use crate::same::assert_same;
use cell_base::{
    Cell, JobId, JobType, List, Name, NoMemory, Request, ResId, Shift, Step, TypeId, cell_fits,
};
use shift_file::{StepFault, read_shift, read_step};
use std::alloc::{AllocError, Global};
use std::test::Fail;
use test_fixtures::{add_machine, add_type};

// A type whose route has these resources, and these places that may follow each place.
fn job_type(alloc: Global, name: Name, on: &[u16], next: &[&[u16]]) -> Result<JobType, NoMemory> {
    let mut route = List::new(alloc);
    for resource in on {
        route.try_push(Step {
            on: ResId(*resource),
            works: true,
        })?;
    }
    let mut lists = List::new(alloc);
    for places in next {
        let mut list = List::new(alloc);
        for place in *places {
            list.try_push(*place)?;
        }
        lists.try_push(list)?;
    }
    Ok(JobType {
        name,
        route,
        next: lists,
    })
}

// Three machines, a type that goes from the first to one of the others, and one from the second to the first.
fn cell(alloc: Global) -> Result<Cell, NoMemory> {
    let names: [&[u8]; 3] = [b"M1", b"M2", b"M3"];
    let mut resources = List::new(alloc);
    for name in names {
        add_machine(&mut resources, name, 1)?;
    }
    let mut types = List::new(alloc);
    if let Some(name) = Name::read(b"B") {
        types.try_push(job_type(alloc, name, &[0, 1, 2], &[&[1, 2], &[], &[]])?)?;
    }
    add_type(alloc, &mut types, b"Z", &[1, 0])?;
    Ok(Cell { resources, types })
}

fn text_of(alloc: Global, patience: u32, session: &str) -> Result<String, AllocError> {
    format!(in alloc; "version = 1\nnumber = 1\npatience = {patience}\n[[session]]\n{session}")
}

const JOB: JobId = JobId(7);

// The shift has one session, of these steps.
fn has_script(shift: &Shift, steps: &[Request]) -> bool {
    match shift.scripts.as_slice() {
        [script] => script.as_slice() == steps,
        _ => false,
    }
}

#[test]
fn scripts(rt: HostRuntime) -> Result<(), Fail> {
    let load = Request::Load {
        job: JOB,
        kind: TypeId(0),
    };
    let process = Request::Process { machine: ResId(1) };
    let first = Request::Move {
        job: JOB,
        branch: 0,
    };
    let second = Request::Move {
        job: JOB,
        branch: 1,
    };
    let unload = Request::Unload { job: JOB };
    let by_first: &[Request] = &[load, first, unload];
    let by_second: &[Request] = &[load, second, unload];
    let turns: &[Request] = &[process, process];
    let listed: &[Request] = &[load, process, first, second, unload];
    let cases = [
        ("job = 7\ntype = \"B\"\n", by_first),
        ("job = 7\ntype = \"B\"\npath = [0]\n", by_first),
        ("job = 7\ntype = \"B\"\npath = [1]\n", by_second),
        ("machine = \"M2\"\nturns = 2\n", turns),
        (
            "steps = [\"load 7 B\", \"process M2\", \"move 7\", \"move 7 1\", \"unload 7\"]\n",
            listed,
        ),
    ];
    let alloc = rt.alloc();
    let cell = cell(alloc)?;
    assert!(rt; cell_fits(&cell));
    for (session, steps) in cases {
        let text = text_of(alloc, 3, session)?;
        let shift = read_shift(alloc, &cell, text.as_bytes())?;
        assert_same(&rt, shift.patience, 3);
        assert!(rt; has_script(&shift, steps), "{session}");
    }
    Ok(())
}

#[test]
fn texts_that_are_no_steps(rt: HostRuntime) -> Result<(), Fail> {
    let cell = cell(rt.alloc())?;
    assert!(rt; cell_fits(&cell));
    let bad = [
        "",
        "load 8",
        "load  8 B",
        " load 8 B",
        "load 8 B ",
        "load 8 B B",
        "load 08 B",
        "load +8 B",
        "load 4294967296 B",
        "load 8 B.",
        "move 7 0",
        "move 7 8",
        "move 7 01",
        "process",
        "process M1 1",
        "unload 7 ",
        "place 7 B 0 done",
        "Load 7 B",
    ];
    for text in bad {
        assert_eq!(rt;
            read_step(&cell, text.as_bytes()),
            Err(StepFault::BadStep),
            "{text}"
        );
    }
    for text in ["load 8 Q", "process M9", "process B", "load 8 M1"] {
        assert_eq!(rt;
            read_step(&cell, text.as_bytes()),
            Err(StepFault::UnknownName),
            "{text}"
        );
    }
    Ok(())
}
