//! `make NUMBER`: a shift that is drawn from a number, its sessions in rounds on the empty cell that is drawn with it.
ghost use Rattle.std.specs.Prelude.{◌≡◌};
ghost use Rattle.cell_walks.specs.Clauses.{Ends, disk_seen, files_seen, no_disk, observed, sink_seen};
ghost use Rattle.make_command.specs.Clauses.{make};

use crate::printing::print_summary;
use crate::summary::summary_of;
use cell_texts::{CommandEnd, print_usage};
use cell_walks::{EarlyEnd, Status, finish_early};
use outside_io::{Disk, Files, Sink};
use std::alloc::Global;
use step_text::number_of;

/// Runs `make NUMBER`. A word that is no number of 64 bits is answered as words that are no command: by `usage`, the line of all
/// commands with their words. It reads no file: `files` says for its clause that they stay as they are.
pub fn run_make<F: Files, K: Sink, D: Disk>(
    alloc: Global,
    files: &F,
    out: &mut K,
    number: &str,
    usage: &[u8],
    disk: D,
) -> CommandEnd<D>
    ensures ends { Ends (observed (files_seen F.Files files.now files.now) (disk_seen D.Disk disk result.disk))
        (sink_seen K.Sink out.old out.new) (make usage.now number.now) result.status }
    ensures same { result.disk ≡ disk }
{
    let status = make_of_word(alloc, files, out, number, usage);
    CommandEnd { status, disk }
}

// The same without the disk.
fn make_of_word<F: Files, K: Sink>(
    alloc: Global,
    files: &F,
    out: &mut K,
    number: &str,
    usage: &[u8],
) -> Status
    ensures { Ends (observed (files_seen F.Files files.now files.now) no_disk) (sink_seen K.Sink out.old out.new)
        (make usage.now number.now) result }
{
    match number_of(0, u64::MAX, number.as_bytes()) {
        Some(number) => match summary_of(alloc, number) {
            Ok(summary) => print_summary(out, &summary),
            Err(_) => finish_early(out, EarlyEnd::WantOfMemory),
        },
        None => print_usage(out, usage),
    }
}
