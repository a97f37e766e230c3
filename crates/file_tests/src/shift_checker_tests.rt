//! Verdicts on records of a small cell.
use crate::same::assert_same;
use cell_base::{NoMemory, ResId, cell_fits};
use record_text::{RecordFault, read_record};
use shift_checker::{Verdict, Why, check, check_text};
use std::alloc::Global;
use std::test::Fail;
use test_fixtures::crossing;

/// The verdict on a text; nothing where it is no record.
fn verdict_on(alloc: Global, text: &[u8]) -> Result<Option<Verdict>, NoMemory> {
    let cell = crossing(alloc)?;
    if !cell_fits(&cell) {
        return Ok(None);
    }
    match read_record(alloc, &cell, text) {
        Ok(blocks) => Ok(Some(check(alloc, &cell, &blocks)?)),
        Err(_) => Ok(None),
    }
}

/// The same, judged as the text is read.
fn verdict_as_read(alloc: Global, text: &[u8]) -> Result<Option<Verdict>, NoMemory> {
    let cell = crossing(alloc)?;
    if !cell_fits(&cell) {
        return Ok(None);
    }
    match check_text(alloc, &cell, text) {
        Ok(verdict) => Ok(Some(verdict)),
        Err(RecordFault::Bad { .. }) => Ok(None),
        Err(RecordFault::Memory) => Err(NoMemory),
    }
}

#[test]
fn verdicts_on_texts(rt: HostRuntime) -> Result<(), Fail> {
    let table: [(&[u8], Option<Verdict>); 8] = [
        (
            b"shift 1 after 0\n1 load 7 A granted\nleft 1\nplan 4\nprocess M1\nmove 7\nprocess M2\nunload 7\n",
            Some(Verdict::Yes),
        ),
        (
            b"shift 1 after 0\n1 load 7 A refused job-loaded\nleft 1\nplan 4\nprocess M1\nmove 7\nprocess M2\nunload 7\n",
            Some(Verdict::No {
                line: 2,
                why: Why::Reply,
            }),
        ),
        (
            b"shift 1 after 0\n1 load 7 A granted\nleft 1\nplan 3\nprocess M1\nmove 7\nunload 7\n",
            Some(Verdict::No {
                line: 7,
                why: Why::Step,
            }),
        ),
        (
            b"shift 1 after 0\n1 load 7 A granted\nleft 1\nplan 3\nprocess M1\nmove 7\nprocess M2\n",
            Some(Verdict::No {
                line: 4,
                why: Why::Parts,
            }),
        ),
        (
            b"shift 1 after 0\n1 load 7 A granted\n1 load 8 Z refused saturated M2 1 of 2\nleft 1\nplan 0\n",
            Some(Verdict::No {
                line: 3,
                why: Why::Reply,
            }),
        ),
        // a shift that halts at a move after two grants, and the next one, before which the move was not written
        (
            b"shift 1 after 0\n1 load 7 A granted\n1 process M1 granted\n1 move 7 halted\n\
shift 1 after 2\n1 move 7 granted\n1 process M2 granted\n1 unload 7 granted\nleft 0\nplan 0\n",
            Some(Verdict::Yes),
        ),
        (b"shift 1 after 0\n1 load 7 A granted\n", None),
        // a line that is none of a record, after one that fails
        (
            b"shift 1 after 1\n1 load 7 A granted\nleft 1\nplan 4\nprocess M1\nmove 7\nprocess M3\nunload 7\n",
            None,
        ),
    ];
    for (text, verdict) in table {
        assert_same(&rt, verdict_on(rt.alloc(), text)?, verdict);
        assert_same(&rt, verdict_as_read(rt.alloc(), text)?, verdict);
    }
    Ok(())
}
