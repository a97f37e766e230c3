//! `feed CELL JOURNAL FROM`: the grants of the journal from an index on, as frames.
ghost use Rattle.std.specs.Prelude.{◌≤◌, length, IfOk, IfErr};
ghost use Rattle.cell_walks.specs.Clauses.{Ends, IsOnlyRead, disk_seen, files_seen, observed, sink_seen};
ghost use Rattle.cell_texts.specs.Clauses.{CellFits, MAX_CELL_BYTES, known};
ghost use Rattle.journal_texts.specs.Clauses.{GrantsFit, to_read};
ghost use Rattle.standby_link.specs.Fed.{fed};
ghost use Rattle.standby_commands.specs.Feed.{EndsFeeding, HasFed, HasTooFew, IsFeeding, feed};

use crate::printing::print_frames;
use crate::refusals::feed_refused;
use cell_driver::{Command, drive};
use cell_texts::{Answered, CellFile, CommandEnd, Made, print_usage};
use cell_walks::{EarlyEnd, Status};
use journal_texts::{Found, find_grants};
use outside_io::{Disk, Files, Sink};
use printer::Printer;
use standby_link::Feeder;
use std::alloc::Global;
use step_text::number_of;

/// Runs `feed CELL JOURNAL FROM`. A word that is no number of 64 bits is answered as words that are no command: by `usage`.
pub fn run_feed<F: Files, K: Sink, D: Disk>(
    alloc: Global,
    files: &mut F,
    out: &mut K,
    cell: &str,
    from: &str,
    usage: &[u8],
    disk: D,
) -> CommandEnd<D>
    ensures { Ends (observed (files_seen F.Files files.old files.new) (disk_seen D.Disk disk result.disk))
        (sink_seen K.Sink out.old out.new) (feed usage.now cell.now from.now) result.status }
{
    match number_of(0, u64::MAX, from.as_bytes()) {
        Some(first) => drive(&Feed { first }, alloc, files, out, cell, disk),
        None => CommandEnd {
            status: print_usage(out, usage),
            disk,
        },
    }
}

/// The command `feed`, from the grant of this index on.
#[derive(Drop)]
pub struct Feed {
    first: u64,
}

/// What feeds, and the index from which on it does.
#[derive(Drop)]
pub struct Feeding {
    feeder: Feeder,
    first: u64,
}

impl Command for Feed {
    ghost use Rattle.cell_walks.specs.Outcomes.{done};
    ghost use Rattle.standby_commands.specs.Feed.{feed_journal};

    type Answer = Feeding;

    ghost onward = { λ feed. feed_journal feed.first };

    ghost outcome = { λ feeding. done (fed feeding.first feeding.feeder.grants) };

    ghost is_whole = { λ feeding. feeding.first ≤ length feeding.feeder.grants };

    ghost has_no_journal = { λ _. ⊥ };

    fn answer<F: Files, D: Disk>(
        &self,
        alloc: Global,
        held: CellFile,
        _files: &mut F,
        disk: D,
    ) -> Answered<Feeding, D> {
        let Made { made, disk } = feed_of_journal(alloc, held, self.first, disk);
        match made {
            Ok(feeder) => Made {
                made: Ok(Feeding {
                    feeder,
                    first: self.first,
                }),
                disk,
            },
            Err(end) => Made::ended(end, disk),
        }
    }

    fn print<K: Sink>(feeding: Feeding, out: &mut Printer<K>) -> Status {
        print_frames(out, &feeding.feeder, feeding.first);
        Status::Done
    }
}

// A feeder of the grants of a journal, of which there have to be as many as the index says; or the early end in its place. It only reads.
fn feed_of_journal<D: Disk>(
    alloc: Global,
    held: CellFile,
    first: u64,
    disk: D,
) -> Answered<Feeder, D>
    requires fits { CellFits held.cell }
    requires short { length held.text.items ≤ MAX_CELL_BYTES }
    ensures fed { IfOk result.made (IsFeeding (disk_seen D.Disk disk result.disk) (to_read (known held)) first) }
    ensures ended { IfErr result.made (EndsFeeding (disk_seen D.Disk disk result.disk) (to_read (known held)) first) }
    ensures only_read { IsOnlyRead (disk_seen D.Disk disk result.disk) }
{
    let Made { made, disk } = find_grants(alloc, held, disk);
    match made {
        Ok(found) => Made {
            made: feeder_of(found, first),
            disk,
        },
        Err(end) => Made::ended(end, disk),
    }
}

// A feeder of the grants that were found, of which there have to be as many as the index says.
fn feeder_of(found: Found, first: u64) -> Result<Feeder, EarlyEnd>
    requires { GrantsFit found }
    ensures fed { IfOk result (HasFed first found.grants) }
    ensures ended { IfErr result (HasTooFew first found.grants) }
{
    let Found { core: _, grants } = found;
    let len = grants.len();
    if len < first {
        return Err(feed_refused(len));
    }
    Ok(Feeder::new(grants))
}
