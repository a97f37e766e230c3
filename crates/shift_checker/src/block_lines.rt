//! The lines of blocks that were read, and the walk over them.
ghost use Rattle.std.specs.Prelude.{◌≡◌, ◌+◌, ◌<◌, ◌≤◌, ◌^◌, ◌∷◌, ◌++◌, [], length, slice_get, Some, List as Items};
ghost use Rattle.shift_checker.specs.Clauses.{AreWellFormed, Between, Block, BlockIsWellFormed, line_count, tail_count, unread};
ghost use Rattle.shift_checker.specs.declared.verdict.Verdict.TheVariants.{Yes};
ghost use Rattle.shift_checker.specs.Carrying.{unbegun, carried_lines};
ghost use Rattle.shift_checker.specs.Judging.{verdict_from};
ghost use Rattle.shift_checker.specs.Lines.{IsWalked, judged};
ghost use Rattle.shift_checker.specs.Saying.{block_says, tail_says};

use crate::Verdict;
use crate::walk::Walk;
use record_text::{Block, RecordLine, Tail};

/// Goes over all blocks of a file, up to the first line that fails.
pub fn walk_blocks(walk: &mut Walk<'_>, blocks: &[Block]) -> Verdict
    requires formed { AreWellFormed walk.old.cell blocks.now }
    requires walked { IsWalked 1 unread walk.old }
    ensures { result ≡ verdict_from 1 (carried_lines walk.old.cell unbegun blocks.now) }
{
    for block in blocks {
        let verdict = walk_block(walk, block);
        if let Verdict::No { .. } = verdict {
            return verdict;
        }
    }
    Verdict::Yes
}

/// Goes on by the lines of a block, up to the first one that fails.
fn walk_block(walk: &mut Walk<'_>, block: &Block) -> Verdict
    requires formed { BlockIsWellFormed walk.old.cell block.now }
    requires lines { block.now.first_line + line_count block.now ≤ 2 ^ 32 }
    requires walked { (given : Items Block) × IsWalked block.now.first_line (given, Between) walk.old }
    ensures verdict { (given : Items Block) → IsWalked block.now.first_line (given, Between) walk.old
        → result ≡ verdict_from 1 (judged walk.old.cell (given ++ block.now ∷ [], Between)) }
    ensures walked { (given : Items Block) → IsWalked block.now.first_line (given, Between) walk.old
        → result ≡ Yes → IsWalked (block.now.first_line + line_count block.now) (given ++ block.now ∷ [], Between) walk.new }
    ensures cell { walk.new.cell ≡ walk.old.cell }
{
    for at in 0..line_count(block) {
        let verdict = walk.line(block.first_line + at as u32, &line_of(block, at));
        if let Verdict::No { .. } = verdict {
            return verdict;
        }
    }
    Verdict::Yes
}

fn line_count(block: &Block) -> u64
    requires { block.now.first_line + line_count block.now ≤ 2 ^ 32 }
    ensures { result ≡ line_count block.now }
{
    let tail = match &block.tail {
        Tail::Planned { steps, .. } => steps.len() + 2,
        Tail::Halted => 0,
    };
    1 + block.entries.len() + tail
}

/// What the line at this place of a block says.
fn line_of(block: &Block, at: u64) -> RecordLine
    requires { at < line_count block.now }
    ensures { Some result ≡ slice_get (block_says block.now) at }
{
    if at == 0 {
        return RecordLine::Head {
            shift: block.shift,
            after: block.after,
        };
    }
    let entries = block.entries.len();
    if at <= entries {
        return RecordLine::Entry(*block.entries.get(at - 1));
    }
    line_of_tail(&block.tail, at - 1 - entries)
}

fn line_of_tail(tail: &Tail, at: u64) -> RecordLine
    requires { at < tail_count tail.now }
    ensures { Some result ≡ slice_get (tail_says tail.now) at }
{
    match tail {
        Tail::Planned { left, steps } => match at {
            0 => RecordLine::Left(*left),
            1 => RecordLine::Plan(steps.len()),
            _ => RecordLine::Step(*steps.get(at - 2)),
        },
        Tail::Halted => RecordLine::Left(0),
    }
}
