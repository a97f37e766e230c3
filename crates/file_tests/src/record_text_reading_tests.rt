//! Texts that are read, and the bad lines of others.
use crate::same::assert_same;
use cell_base::{Cell, JobType, List, Name, NoMemory, ResId, Step, cell_fits};
use record_text::{RecordFault, read_record};
use std::alloc::Global;
use std::test::Fail;
use test_fixtures::add_machine;

/// Adds a type with one place, on a resource.
fn add_type(
    alloc: Global,
    list: &mut List<JobType>,
    name: &[u8],
    on: u16,
    works: bool,
) -> Result<(), NoMemory> {
    let mut route = List::new(alloc);
    route.try_push(Step {
        on: ResId(on),
        works,
    })?;
    let mut next = List::new(alloc);
    next.try_push(List::new(alloc))?;
    if let Some(name) = Name::read(name) {
        list.try_push(JobType { name, route, next })?;
    }
    Ok(())
}

/// A cell of which some names are words of a record.
fn named_cell(alloc: Global) -> Result<Cell, NoMemory> {
    let mut resources = List::new(alloc);
    add_machine(&mut resources, b"M1", 1)?;
    add_machine(&mut resources, b"halted", 1)?;
    let mut types = List::new(alloc);
    add_type(alloc, &mut types, b"A", 0, true)?;
    add_type(alloc, &mut types, b"granted", 1, false)?;
    Ok(Cell { resources, types })
}

/// The bad line of a text; nothing where it is a record.
fn bad_line(alloc: Global, text: &[u8]) -> Result<Option<u32>, NoMemory> {
    let cell = named_cell(alloc)?;
    if !cell_fits(&cell) {
        return Err(NoMemory);
    }
    match read_record(alloc, &cell, text) {
        Ok(_) => Ok(None),
        Err(RecordFault::Bad { line }) => Ok(Some(line)),
        Err(RecordFault::Memory) => Err(NoMemory),
    }
}

#[test]
fn records_and_bad_lines(rt: HostRuntime) -> Result<(), Fail> {
    let table: [(&[u8], Option<u32>); 17] = [
        (
            b"shift 1 after 0\n1 load 7 A granted\nleft 1\nplan 2\nprocess M1\nunload 7\n",
            None,
        ),
        // names that are words of a record
        (
            b"shift 1 after 0\n1 load 7 granted granted\n1 process halted refused idle\nleft 1\nplan 1\nunload 7\n",
            None,
        ),
        // two blocks, the first one halted
        (
            b"shift 1 after 0\n1 process halted halted\nshift 1 after 0\n0 place 7 A 0 waiting granted\nleft 0\nplan 0\n",
            None,
        ),
        (b"", Some(1)),
        // a step is missing, and a newline
        (b"shift 1 after 0\nleft 1\nplan 2\nprocess M1\n", Some(5)),
        (b"shift 1 after 0\nleft 1\nplan 1\nprocess M1", Some(4)),
        (b"shift 1 after 0\nleft 0\nplan 0\n\n", Some(4)),
        // the greatest number of steps, and one more
        (
            b"shift 1 after 0\nleft 0\nplan 18446744073709551615\nprocess M1\n",
            Some(5),
        ),
        (
            b"shift 1 after 0\nleft 0\nplan 18446744073709551616\n",
            Some(3),
        ),
        (b"shift 1 after 0\n1 load 07 A granted\n", Some(2)),
        (b"shift 1 after 0\n1  load 7 A granted\n", Some(2)),
        (b"shift 1 after 0\n1 load 7 B granted\n", Some(2)),
        (b"shift 1 after 0\n65536 load 7 A granted\n", Some(2)),
        (b"shift 1 after 0\n1 move 7 0 granted\n", Some(2)),
        (b"shift 1 after 0\n0 place 7 A 1 waiting granted\n", Some(2)),
        (
            b"shift 1 after 0\n0 place 7 granted 0 waiting granted\n",
            Some(2),
        ),
        (b"shift 1 after 0\n1 process M1 halted\nleft 0\n", Some(3)),
    ];
    for (text, line) in table {
        assert_same(&rt, bad_line(rt.alloc(), text)?, line);
    }
    Ok(())
}
