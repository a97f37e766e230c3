//! The top call of the command that reads an input while it answers.
ghost use Rattle.std.specs.Prelude.{◌≡◌, ◌∷◌, [], List, ℕ, map};
ghost use Rattle.std.specs.String.{string_bytes};
ghost use Rattle.cell_walks.specs.Clauses.{Ends, disk_told, files_told};
ghost use Rattle.cell_walks.specs.Observed.{ShowsFile, observed_with};
ghost use Rattle.peers.specs.Meanings.{peer_gave, peer_took};
ghost use Rattle.serve_command.specs.LivesThrough.{LivesThrough, WhereTold};
ghost use Rattle.serve_command.specs.Serve.{serve};
ghost use Rattle.serve_command.specs.ServesAll.{ServesAll};
ghost use Rattle.command_words.specs.Calls.{PromisesAt, no_command};
ghost use Rattle.command_words.specs.Words.{serve_words};

use cell_texts::CommandEnd;
use cell_walks::{leaves_only_now, reads_an_image};
use command_words::{Ended, served_in, usage};
use outside_io::{Disk, Files};
use peers::Peer;
use serve_command::{print_usage_beside, run_serve};
use std::alloc::Global;
use std::sync::Wait;

/// Runs `serve CELL JOURNAL` with the program at the other end: the one command that reads an input while it answers. All that it puts is
/// handed on before it waits for more input. Other words get the commands with their words, as from `cell_main`.
pub fn serve_main<R: Wait, F: Files, D: Disk, T: Peer<D>>(
    rt: &R,
    alloc: Global,
    words: &[String],
    files: &mut F,
    peer: &mut T,
    disk: D,
) -> Ended<D>
    // Words that are `serve CELL JOURNAL`: what every walk promises, of that of `serve`.
    ensures promises { (cell journal : List ℕ) → serve_words cell journal ≡ map string_bytes words.now →
        let files = files_told F.holds F.is_sound F.faults files.old files.new in
        let disk = disk_told D.reads_as D.may_leave D.moment D.left_since D.faults disk result.disk in
        PromisesAt (observed_with files (peer_gave T.Peer peer.old peer.new) disk) (peer_took T.Peer peer.old peer.new) (serve cell) result.status }

    // Where nothing is refused and nothing outside fails, every line is answered, up to the first step for which there is no room.
    ensures complete { (cell journal : List ℕ) → serve_words cell journal ≡ map string_bytes words.now →
        let files = files_told F.holds F.is_sound F.faults files.old files.new in
        let disk = disk_told D.reads_as D.may_leave D.moment D.left_since D.faults disk result.disk in
        ServesAll (observed_with files (peer_gave T.Peer peer.old peer.new) disk) (peer_took T.Peer peer.old peer.new) cell result.status }

    // At each moment since entry: what was given and put by then, and what a crash then may leave.
    ensures moments { (cell journal : List ℕ) → serve_words cell journal ≡ map string_bytes words.now →
        let files = files_told F.holds F.is_sound F.faults files.old files.new in
        WhereTold D.Disk T.Peer disk peer.old (λ given before file.
        LivesThrough D.Disk T.Peer (ShowsFile files cell) given before file disk peer.old result.disk peer.new) }

    // Other words: what every walk promises, of that which prints the commands. The disk is handed back as it was.
    ensures none { ((cell journal : List ℕ) → serve_words cell journal ≡ map string_bytes words.now → ⊥) →
        let files = files_told F.holds F.is_sound F.faults files.old files.new in
        let disk = disk_told D.reads_as D.may_leave D.moment D.left_since D.faults disk result.disk in
        PromisesAt (observed_with files (peer_gave T.Peer peer.old peer.new) disk) (peer_took T.Peer peer.old peer.new) no_command result.status }
    ensures untouched { ((cell journal : List ℕ) → serve_words cell journal ≡ map string_bytes words.now → ⊥) → result.disk ≡ disk }
{
    reads_an_image(&disk);
    let CommandEnd { status, disk } = serve_or_say(rt, alloc, words, files, peer, disk);
    Ended {
        status: status.number(),
        disk,
    }
}

// Serves what the words serve, or prints the commands with their words.
fn serve_or_say<R: Wait, F: Files, D: Disk, T: Peer<D>>(
    rt: &R,
    alloc: Global,
    words: &[String],
    files: &mut F,
    peer: &mut T,
    disk: D,
) -> CommandEnd<D>
    ensures ends { (cell journal : List ℕ) → serve_words cell journal ≡ map string_bytes words.now →
        let files = files_told F.holds F.is_sound F.faults files.old files.new in
        let disk = disk_told D.reads_as D.may_leave D.moment D.left_since D.faults disk result.disk in
        Ends (observed_with files (peer_gave T.Peer peer.old peer.new) disk) (peer_took T.Peer peer.old peer.new) (serve cell) result.status }
    ensures moments { (cell journal : List ℕ) → serve_words cell journal ≡ map string_bytes words.now →
        let files = files_told F.holds F.is_sound F.faults files.old files.new in
        WhereTold D.Disk T.Peer disk peer.old (λ given before file.
        LivesThrough D.Disk T.Peer (ShowsFile files cell) given before file disk peer.old result.disk peer.new) }
    ensures none { ((cell journal : List ℕ) → serve_words cell journal ≡ map string_bytes words.now → ⊥) →
        let files = files_told F.holds F.is_sound F.faults files.old files.new in
        let disk = disk_told D.reads_as D.may_leave D.moment D.left_since D.faults disk result.disk in
        Ends (observed_with files (peer_gave T.Peer peer.old peer.new) disk) (peer_took T.Peer peer.old peer.new) no_command result.status }
    ensures same { ((cell journal : List ℕ) → serve_words cell journal ≡ map string_bytes words.now → ⊥) → result.disk ≡ disk }
{
    leaves_only_now(&disk);
    match served_in(words) {
        Some(served) => run_serve(rt, alloc, files, peer, served.cell, disk),
        None => CommandEnd {
            status: print_usage_beside(peer, &disk, usage()),
            disk,
        },
    }
}
