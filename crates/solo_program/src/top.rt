//! The top call.
ghost use Rattle.std.specs.Prelude.{◌≡◌, ℕ, List, map};
ghost use Rattle.std.specs.String.{string_bytes};
ghost use Rattle.cell_walks.specs.Clauses.{Promises, disk_told, files_told, observed, sink_told};
ghost use Rattle.solo_command.specs.Solo.{solo};
ghost use Rattle.solo_program.specs.Words.{no_command, solo_words, usage_text};

use crate::asked::asked_in;
use cell_texts::{CommandEnd, print_usage};
use cell_walks::{leaves_only_now, reads_an_image};
use outside_io::{Disk, Files, Sink};
use solo_command::run_solo;
use std::alloc::Global;

/// Runs `solo CELL SHIFT`, or prints how it is written. A sink that failed gives status 8 whatever else happened.
pub fn solo_main<F: Files, K: Sink, D: Disk>(
    alloc: Global,
    words: &[String],
    files: &mut F,
    out: &mut K,
    disk: D,
) -> CommandEnd<D>
    // Words that are written so: what every walk promises, of that of `solo`.
    ensures command { (cell shift : List ℕ) → solo_words cell shift ≡ map string_bytes words.now →
        let files = files_told F.holds F.is_sound F.faults files.old files.new in
        let disk = disk_told D.reads_as D.may_leave D.moment D.left_since D.faults disk result.disk in
        Promises (observed files disk) (sink_told K.taken K.was_put K.faults out.old out.new) (solo cell shift) result.status }

    // Words that are not: the same of the walk that prints how it is written.
    ensures none { ((cell shift : List ℕ) → solo_words cell shift ≡ map string_bytes words.now → ⊥) →
        let files = files_told F.holds F.is_sound F.faults files.old files.new in
        let disk = disk_told D.reads_as D.may_leave D.moment D.left_since D.faults disk result.disk in
        Promises (observed files disk) (sink_told K.taken K.was_put K.faults out.old out.new) no_command result.status }

    // The disk is handed back as it was.
    ensures untouched { result.disk ≡ disk }
{
    reads_an_image(&disk);
    leaves_only_now(&disk);
    match asked_in(words) {
        Some(asked) => run_solo(alloc, files, out, asked.cell, asked.shift, disk),
        None => CommandEnd {
            status: print_usage(out, usage()),
            disk,
        },
    }
}

// How the command is written.
fn usage() -> &'static [u8]
    ensures { result.now ≡ usage_text }
{
    b"usage: solo CELL SHIFT\n"
}
