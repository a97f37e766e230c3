//! A conversation in which each call of the disk, each put, whole and torn, and each read of the input fails in its turn. What comes before
//! the failure is put, and what a crash leaves has each grant that was told. A client that counts its grants goes on from there.

use crate::interrupted::call::{CallEnd, crash};
use crate::interrupted::conversing::{Failing, Outside};
use crate::interrupted::spoken::Spoken;
use crate::interrupted::stored::grants_on;
use anyhow::{Context, Result, bail};
use cell_base::Grant;
use lists::List;
use outside_io::CallKind;
use std::alloc::Global;
use std::sync::Wait;

/// The kinds of calls, each with its name.
pub const KINDS: [(&str, Outside); 7] = [
    ("lengths", Outside::Disk(CallKind::Len)),
    ("reads of the disk", Outside::Disk(CallKind::Read)),
    ("writes", Outside::Disk(CallKind::Write)),
    ("syncs", Outside::Disk(CallKind::Sync)),
    ("puts", Outside::Put),
    ("torn puts", Outside::TornPut),
    ("reads of the input", Outside::Read),
];

// More calls of a kind than a conversation here has.
const MOST_CALLS: u64 = 512;

const ASKED: &str = "left
1 load 7 A
2 wait load 8 Z
1 grants
why load 8 Z
1 process M1
0 move 7
1 move 7
1 process M2
1 unload 7
2 grants
left
";

// What is answered after the first line.
const ANSWERED: &str = "left 0
1 load 7 A granted
2 load 8 Z waits saturated M2 1 of 1
1 grants 1
why load 8 Z refused saturated M2 1 of 1
1 process M1 granted
line refused 7
1 move 7 granted
1 process M2 granted
1 unload 7 granted
2 load 8 Z served
2 grants 1
left 1
left 1
plan 4
process M2
move 8
process M1
unload 8
";

// The lines that are granted, in their order. All but the last are of session 1.
const GRANTED: [&str; 6] = [
    "1 load 7 A\n",
    "1 process M1\n",
    "1 move 7\n",
    "1 process M2\n",
    "1 unload 7\n",
    "2 load 8 Z\n",
];

/// A conversation as it goes where nothing fails: the journal before it and its number of grants, the answers, and the grants and the
/// journal after it.
#[derive(Drop)]
pub struct Served {
    spoken: Spoken,
    opening: Vec<u8>,
    before: u64,
    answers: String,
    grants: List<Grant>,
    journal: Vec<u8>,
}

impl Served {
    /// Holds it.
    pub fn new<R: Wait>(rt: &R, alloc: Global, spoken: Spoken) -> Result<Served> {
        let before = spoken.granted_before();
        let answers = format!(in alloc; "shift 0 after {before}\n{ANSWERED}")?;
        let opening = spoken.opening(rt, alloc)?;
        let (grants, journal) = serve_all(rt, alloc, spoken, &opening, answers.as_str())?;
        Ok(Served {
            spoken,
            opening,
            before,
            answers,
            grants,
            journal,
        })
    }

    /// Lets the calls of a kind fail in their turn, until one isn't made. Answers how many were made.
    pub fn check<R: Wait>(&self, rt: &R, alloc: Global, kind: Outside) -> Result<u64> {
        let mut made = 0u64;
        for nth in 1..MOST_CALLS {
            let failing = Failing { kind, nth };
            let asked = self.spoken.asked(ASKED);
            let told = asked.ask(rt, alloc, &self.opening, Some(failing))?;
            if told.status == 0 {
                told.is_to_be(0, self.answers.as_str())?;
                return Ok(made);
            }
            let checked = self.check_failed(rt, alloc, failing, &told);
            checked.context(format_args!("where {kind:?} {nth} fails"))?;
            made = nth;
        }
        bail!("{MOST_CALLS} calls of {kind:?}")
    }

    // Checks how a conversation ended, and goes on with what a crash leaves of it.
    fn check_failed<R: Wait>(
        &self,
        rt: &R,
        alloc: Global,
        failing: Failing,
        told: &CallEnd,
    ) -> Result<()> {
        let (status, text) = (told.status, told.text.as_str());
        let Some(answered) = self.answered(failing, status, text) else {
            bail!("{text}= {status}");
        };
        for pick in 0..4u64 {
            let left = self.check_left(alloc, answered, told, pick)?;
            let journal = crash(alloc, &told.disk, pick)?;
            self.go_on(rt, alloc, journal.bytes(), left)?;
        }
        Ok(())
    }

    // A crash leaves such grants as may be left where this was answered. Answers how many.
    fn check_left(
        &self,
        alloc: Global,
        answered: Answered<'_>,
        told: &CallEnd,
        pick: u64,
    ) -> Result<u64> {
        let left = grants_on(alloc, crash(alloc, &told.disk, pick)?)?;
        if !self.may_be_left(answered, left.as_slice()) {
            let text = told.text.as_str();
            bail!(
                "{left:?} in image {pick} after\n{text}",
                left = left.as_slice()
            );
        }
        Ok(left.len())
    }

    // What was answered before this call failed, where the status and the text may come then.
    fn answered<'a>(&self, failing: Failing, status: u8, text: &'a str) -> Option<Answered<'a>> {
        let answers = self.answers.as_str();
        let (lines, in_group) = match (failing.kind, status) {
            (Outside::Disk(_), 7) if text == "device fault\n" => ("", false),
            (Outside::Disk(_), 7) => {
                let lines = text.strip_suffix("halted\n")?;
                let is_grant = answers.strip_prefix(lines)?.starts_with("granted\n");
                (is_grant.then_some(lines)?, true)
            }
            (Outside::Read, 3) => (text.strip_suffix("read fault\n")?, false),
            (Outside::Put, 8) if text.len() == first_bytes(answers, failing.nth, false) => (
                text, true,
            ),
            (Outside::TornPut, 8) if text.len() == first_bytes(answers, failing.nth, true) => {
                (text, true)
            }
            _ => return None,
        };
        let answered = Answered { lines, in_group };
        answers.starts_with(lines).then_some(answered)
    }

    // Whether a crash may leave these grants where this was answered: those that were told and whole groups of them, and not the next group
    // but where the failure came within it.
    fn may_be_left(&self, answered: Answered<'_>, left: &[Grant]) -> bool {
        let told = answered.lines.lines().filter(|line| line.ends_with(" granted")
            || line.ends_with(" served"));
        let least = told.count() as u64;
        let most = if answered.in_group {
            self.spoken.after(least)
        } else {
            least
        };
        let kept = (left.len() as u64).saturating_sub(self.before);
        let in_groups = self.spoken.groups.contains(&kept);
        self.grants.as_slice().starts_with(left) && least <= kept && kept <= most && in_groups
    }

    // Asks how many grants each session has, and then the lines after these grants. The journal comes to the same bytes.
    fn go_on<R: Wait>(&self, rt: &R, alloc: Global, journal: &[u8], left: u64) -> Result<()> {
        let kept = left.saturating_sub(self.before) as usize;
        let lines = lines_from(alloc, kept)?;
        let asked = self.spoken.asked(lines.as_str());
        let told = asked.ask(rt, alloc, journal, None)?;
        self.check_end(alloc, &told, left, kept)
    }

    // The sessions have their shares of these grants, and the journal is what it is where nothing fails.
    fn check_end(&self, alloc: Global, told: &CallEnd, left: u64, kept: usize) -> Result<()> {
        let (first, second) = (kept.min(5), kept.saturating_sub(5));
        let counts = format!(in alloc;
            "shift 0 after {left}\n1 grants {first}\n2 grants {second}\n"
        )?;
        let (status, text) = (told.status, told.text.as_str());
        let is_same = told.disk.bytes() == self.journal.as_slice();
        if status != 0 || !text.starts_with(counts.as_str()) || !is_same {
            bail!("after {left} grants\n{text}= {status}");
        }
        Ok(())
    }
}

// Serves the whole conversation where nothing fails, and answers the grants and the journal after it.
fn serve_all<R: Wait>(
    rt: &R,
    alloc: Global,
    spoken: Spoken,
    opening: &[u8],
    answers: &str,
) -> Result<(List<Grant>, Vec<u8>)> {
    let told = spoken.asked(ASKED).ask(rt, alloc, opening, None)?;
    told.is_to_be(0, answers)?;
    let journal = told.disk.bytes().to_vec(alloc)?;
    Ok((grants_on(alloc, told.disk)?, journal))
}

// The lines that ask how many grants each session has, and then for what is granted after so many.
fn lines_from(alloc: Global, kept: usize) -> Result<String> {
    let mut lines = String::from_str(alloc, "1 grants\n2 grants\n")?;
    for line in GRANTED.get(kept..).unwrap_or(&[]) {
        lines.push_str(line)?;
    }
    Ok(lines)
}

// The answers before a failure, of which the last may be torn, and whether the failure came within a group of lines.
#[derive(Clone, Copy)]
struct Answered<'a> {
    lines: &'a str,
    in_group: bool,
}

// How many bytes the lines before the nth have, and of it the first half where it is torn.
fn first_bytes(text: &str, nth: u64, torn: bool) -> usize {
    let mut bytes = 0usize;
    let mut number = 0u64;
    for line in text.split_inclusive('\n') {
        number = number.saturating_add(1);
        if number == nth {
            let half = if torn { line.len() / 2 } else { 0 };
            return bytes.saturating_add(half);
        }
        bytes = bytes.saturating_add(line.len());
    }
    bytes
}
