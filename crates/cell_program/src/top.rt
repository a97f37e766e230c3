//! The top call: the words of a command line, files, a sink and a disk go in, and a status and the disk come out.
ghost use Rattle.std.specs.Prelude.{◌≡◌, ℕ, List, map, None};
ghost use Rattle.cell_walks.specs.Clauses.{Ends, disk_seen, files_seen, observed, sink_seen};
ghost use Rattle.std.specs.String.{string_bytes};
ghost use Rattle.command_words.specs.Words.{Begin as BeginTask, Drain as DrainTask, Follow as FollowTask, Run as RunTask};
ghost use Rattle.command_words.specs.Words.{Task, journal_of, serve_words, task_in, words_of};
ghost use Rattle.command_words.specs.Calls.{PromisesAt, no_command};
ghost use Rattle.cell_program.specs.Walks.{walk_of};
ghost use Rattle.cell_program.specs.Causes.{Causes};
ghost use Rattle.cell_program.specs.Headline.{Begun, Drained, Headline};
ghost use Rattle.cell_program.specs.Promised.{FollowsAll};
ghost use Rattle.standby_commands.specs.FollowTold.{FollowTells};

use carry_commands::{run_begin, run_carry};
use cell_commands::{run_check, run_drain, run_plan, run_show, run_why};
use cell_texts::{CommandEnd, print_usage};
use cell_walks::{leaves_only_now, reads_an_image};
use command_words::{Command, Ended, command_of, usage};
use hybrid_command::run_hybrid;
use look_commands::{run_grants, run_parts};
use make_command::run_make;
use order_advisor::Weighing;
use order_commands::run_orders;
use outside_io::{Disk, Files, Pace, Sink};
use queue_command::run_queue;
use run_command::run_on_journal;
use solo_command::run_solo;
use standby_commands::{run_feed, run_follow};
use std::alloc::Global;
use std::sync::Wait;
use std::thread::Threads;

/// Runs one command. The words are matched by their number and the first one; the tests come in the order of the command's walk.
/// A sink that failed gives status 8 whatever else happened.
pub fn cell_main<R: Threads + Wait + Sync, F: Files, K: Sink, D: Disk + Send, P: Pace + Sync>(
    rt: &R,
    alloc: Global,
    words: &[String],
    files: &mut F,
    out: &mut K,
    disk: D,
    pace: &P,
) -> Ended<D>
    // Words that are a command: what every walk promises, of the walk of that command.
    ensures command { (task : Task) → words_of task ≡ map string_bytes words.now →
        let files = files_seen F.Files files.old files.new in
        let disk = disk_seen D.Disk disk result.disk in
        PromisesAt (observed files disk) (sink_seen K.Sink out.old out.new) (walk_of task) result.status }

    // Words that are none: the same of the walk that prints the commands.
    ensures none { ((task : Task) → words_of task ≡ map string_bytes words.now → ⊥) →
        let files = files_seen F.Files files.old files.new in
        let disk = disk_seen D.Disk disk result.disk in
        PromisesAt (observed files disk) (sink_seen K.Sink out.old out.new) no_command result.status }

    // So are the words of `serve`, which has a call of its own: it reads an input, and here is none.
    ensures serve { (cell journal : List ℕ) → serve_words cell journal ≡ map string_bytes words.now →
        let files = files_seen F.Files files.old files.new in
        let disk = disk_seen D.Disk disk result.disk in
        PromisesAt (observed files disk) (sink_seen K.Sink out.old out.new) no_command result.status }

    // No command ends without its cause.
    ensures causes { (task : Task) → words_of task ≡ map string_bytes words.now →
        let files = files_seen F.Files files.old files.new in
        let disk = disk_seen D.Disk disk result.disk in
        Causes (observed files disk) (sink_seen K.Sink out.old out.new) task result.status }

    // What that says of `run`, fact by fact.
    ensures headline { (cell shift journal : List ℕ) → words_of (RunTask cell shift journal) ≡ map string_bytes words.now →
        let files = files_seen F.Files files.old files.new in
        let disk = disk_seen D.Disk disk result.disk in
        Headline (observed files disk) (sink_seen K.Sink out.old out.new) cell shift result.status }

    // The same of `drain`, of `begin` and of `follow`.
    ensures drained { (cell journal : List ℕ) → words_of (DrainTask cell journal) ≡ map string_bytes words.now →
        let files = files_seen F.Files files.old files.new in
        let disk = disk_seen D.Disk disk result.disk in
        Drained (observed files disk) (sink_seen K.Sink out.old out.new) cell result.status }
    ensures begun { (cell start journal : List ℕ) → words_of (BeginTask cell start journal) ≡ map string_bytes words.now →
        let files = files_seen F.Files files.old files.new in
        let disk = disk_seen D.Disk disk result.disk in
        Begun (observed files disk) (sink_seen K.Sink out.old out.new) cell start result.status }
    ensures followed { (cell frames journal : List ℕ) → words_of (FollowTask cell frames journal) ≡ map string_bytes words.now →
        let files = files_seen F.Files files.old files.new in
        let disk = disk_seen D.Disk disk result.disk in
        FollowTells (observed files disk) (sink_seen K.Sink out.old out.new) cell frames result.status }

    // Frames of one list of grants are all taken, where nothing is refused and nothing outside fails.
    ensures goes_through { (cell frames journal : List ℕ) → words_of (FollowTask cell frames journal) ≡ map string_bytes words.now →
        let files = files_seen F.Files files.old files.new in
        let disk = disk_seen D.Disk disk result.disk in
        FollowsAll (observed files disk) (sink_seen K.Sink out.old out.new) cell frames result.status }

    // A command without a journal hands the disk back as it was, and so do words that are none.
    ensures untouched { ((task : Task) → words_of task ≡ map string_bytes words.now → journal_of task ≡ None) → result.disk ≡ disk }
{
    reads_an_image(&disk);
    let CommandEnd { status, disk } = run_words(rt, alloc, words, files, out, disk, pace);
    Ended {
        status: status.number(),
        disk,
    }
}

// Runs the command that the words are, or prints the commands with their words.
fn run_words<R: Threads + Wait + Sync, F: Files, K: Sink, D: Disk + Send, P: Pace + Sync>(
    rt: &R,
    alloc: Global,
    words: &[String],
    files: &mut F,
    out: &mut K,
    disk: D,
    pace: &P,
) -> CommandEnd<D>
    ensures command { (task : Task) → words_of task ≡ map string_bytes words.now →
        let files = files_seen F.Files files.old files.new in
        let disk = disk_seen D.Disk disk result.disk in
        Ends (observed files disk) (sink_seen K.Sink out.old out.new) (walk_of task) result.status }
    ensures none { ((task : Task) → words_of task ≡ map string_bytes words.now → ⊥) →
        let files = files_seen F.Files files.old files.new in
        let disk = disk_seen D.Disk disk result.disk in
        Ends (observed files disk) (sink_seen K.Sink out.old out.new) no_command result.status }
    ensures same { ((task : Task) → words_of task ≡ map string_bytes words.now → journal_of task ≡ None) → result.disk ≡ disk }
{
    leaves_only_now(&disk);
    match command_of(words) {
        Some(command) => run_command(rt, alloc, command, files, out, disk, pace),
        None => CommandEnd {
            status: print_usage(out, usage()),
            disk,
        },
    }
}

// Runs a command.
fn run_command<R: Threads + Wait + Sync, F: Files, K: Sink, D: Disk + Send, P: Pace + Sync>(
    rt: &R,
    alloc: Global,
    command: Command<'_>,
    files: &mut F,
    out: &mut K,
    disk: D,
    pace: &P,
) -> CommandEnd<D>
    ensures ends { let files = files_seen F.Files files.old files.new in
        let disk = disk_seen D.Disk disk result.disk in
        Ends (observed files disk) (sink_seen K.Sink out.old out.new) (walk_of (task_in command.entry)) result.status }
    ensures same { journal_of (task_in command.entry) ≡ None → result.disk ≡ disk }
{
    match command {
        Command::Solo { cell, shift } => run_solo(alloc, files, out, cell, shift, disk),
        Command::Run { cell, shift, .. } => run_on_journal(
            rt, alloc, files, out, cell, shift, disk, pace,
        ),
        Command::Plan { cell, .. } => run_plan(alloc, files, out, cell, disk),
        Command::Drain { cell, .. } => run_drain(alloc, files, out, cell, disk),
        Command::Why { cell, step, .. } => run_why(alloc, files, out, cell, step, disk),
        Command::Check { cell, record_file } => run_check(
            alloc,
            files,
            out,
            cell,
            record_file,
            disk,
        ),
        Command::Show { cell } => run_show(alloc, files, out, cell, disk),
        Command::Make { number } => run_make(alloc, files, out, number, usage(), disk),
        Command::Carry { cell, other, .. } => run_carry(alloc, files, out, cell, other, disk),
        Command::Begin { cell, start, .. } => run_begin(alloc, files, out, cell, start, disk),
        Command::Hybrid { cell, shift } => run_hybrid(alloc, files, out, cell, shift, disk),
        Command::Queue { cell, shift } => run_queue(alloc, files, out, cell, shift, disk),
        Command::Advise { cell } => {
            let weighing = Weighing::Alike;
            run_orders(alloc, files, out, cell, weighing, disk)
        }
        Command::Arrange { cell } => {
            let weighing = Weighing::ByCapacity;
            run_orders(alloc, files, out, cell, weighing, disk)
        }
        Command::Grants { cell, .. } => run_grants(alloc, files, out, cell, disk),
        Command::Parts { cell, .. } => run_parts(alloc, files, out, cell, disk),
        Command::Feed { cell, from, .. } => {
            run_feed(alloc, files, out, cell, from, usage(), disk)
        }
        Command::Follow { cell, frames, .. } => run_follow(alloc, files, out, cell, frames, disk),
    }
}
