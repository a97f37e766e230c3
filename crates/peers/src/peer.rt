//! What is read and printed while a disk is written goes between a program and its peer.
ghost use Rattle.std.specs.Prelude.{◌≡◌, ◌≤◌, ◌<◌, ◌⊎◌, ℕ, List, Option, Ok, length, take, IfOk, OnOk, OnErr};
ghost use Rattle.std.specs.Io.KnownBytes.{Appends};
ghost use Rattle.outside_io.specs.Causes.{HasCause};
ghost use Rattle.outside_io.specs.Sink.{AppendsPrefix};
ghost use Rattle.peers.specs.Moments.{Moment, IsMoment, IsDuringPut, IsDuringRead};

use outside_io::{Disk, Failed};

/// Gives bytes as they come, and takes bytes, piece after piece. It counts by the clock of a disk that is lent to each call.
pub trait Peer<D: Disk> {
    /// The bytes given so far, where the peer tells.
    ghost given: { Self → Option (List ℕ) };

    /// It has given its last byte.
    ghost has_ended: { Self → Type 0 };

    /// How many reads have failed.
    ghost read_faults: { Self → ℕ };

    /// The bytes taken so far, where the peer tells.
    ghost taken: { Self → Option (List ℕ) };

    /// The bytes handed on so far, where the peer tells. What was taken may be held back until it is to be handed on.
    ghost handed_on: { Self → Option (List ℕ) };

    /// One put of a piece may take the peer from the one state to the other, whatever it answers.
    ghost was_put: { Self → List ℕ → Self → Type 0 };

    /// How many other calls have failed.
    ghost faults: { Self → ℕ };

    /// The moment of the last put or read.
    ghost since: { Self → ℕ };

    /// What was given and put by then, with what a crash then might have left, at each moment until the last put or read.
    ghost past: { Self → Moment → Type 0 };

    /// Takes a piece, while the disk rests. A call that fails may have taken a prefix of it.
    fn put(&mut self, disk: &D, piece: &[u8]) -> Result<(), Failed>
        ensures whole { OnOk result (Appends (taken self.old) (taken self.new) piece.now) }
        ensures part { OnErr result (AppendsPrefix (taken self.old) (taken self.new) piece.now) }
        ensures one_put { was_put self.old piece.now self.new }
        ensures cause { HasCause (faults self.old) (faults self.new) result }

        ensures unread { given self.new ≡ given self.old }
        ensures ended { has_ended self.old → has_ended self.new }
        ensures no_read { read_faults self.new ≡ read_faults self.old }

        // Each moment is one of before, or one of the put, at which a part of what it took was taken. None is forgotten.
        ensures clock { since self.old ≤ D.moment disk.now → since self.new ≤ D.moment disk.now }
        ensures moments { (at : Moment) → IsMoment D.left_since given taken since past self.new disk.now at
            → IsMoment D.left_since given taken since past self.old disk.now at
            ⊎ IsDuringPut D.may_leave (given self.old) (taken self.old) (taken self.new) disk.now at }
        ensures keeps { (at : Moment) → IsMoment D.left_since given taken since past self.old disk.now at
            → IsMoment D.left_since given taken since past self.new disk.now at };

    /// Hands on what was put, while the disk rests. The call belongs to the put before it, and its failure is one of that put.
    fn flush(&mut self, disk: &D) -> Result<(), Failed>
        ensures handed { OnOk result (handed_on self.new ≡ taken self.new) }
        ensures same { taken self.new ≡ taken self.old }
        ensures of_put { (first : Self) (piece : List ℕ) → was_put first piece self.old → was_put first piece self.new }
        ensures cause { HasCause (faults self.old) (faults self.new) result }

        ensures unread { given self.new ≡ given self.old }
        ensures ended { has_ended self.old → has_ended self.new }
        ensures no_read { read_faults self.new ≡ read_faults self.old }

        ensures clock { since self.old ≤ D.moment disk.now → since self.new ≤ D.moment disk.now }
        ensures moments { (at : Moment) → IsMoment D.left_since given taken since past self.new disk.now at
            → IsMoment D.left_since given taken since past self.old disk.now at
            ⊎ IsDuringPut D.may_leave (given self.old) (taken self.old) (taken self.new) disk.now at }
        ensures keeps { (at : Moment) → IsMoment D.left_since given taken since past self.old disk.now at
            → IsMoment D.left_since given taken since past self.new disk.now at };

    /// Puts what is there to the front of `out`, and answers how many bytes; where nothing is there yet it waits, while the disk rests.
    /// No bytes: the end. A call that fails gives nothing. All that was put is handed on before, so that nobody waits for what is held
    /// back. Of the puts the call belongs to the one before it.
    fn next_piece(&mut self, disk: &D, out: &mut [u8]) -> Result<usize, Failed>
        requires some { 0 < length out.old }
        requires handed { handed_on self.old ≡ taken self.old }
        ensures within { IfOk result (λ n. n ≤ length out.new) }
        ensures gives { IfOk result (λ n. Appends (given self.old) (given self.new) (take n out.new)) }
        ensures end { result ≡ Ok 0 → has_ended self.new }
        ensures nothing { OnErr result (given self.new ≡ given self.old) }
        ensures cause { HasCause (read_faults self.old) (read_faults self.new) result }

        ensures same { taken self.new ≡ taken self.old }
        ensures none_handed { handed_on self.new ≡ handed_on self.old }
        ensures of_put { (first : Self) (piece : List ℕ) → was_put first piece self.old → was_put first piece self.new }
        ensures no_put { faults self.new ≡ faults self.old }

        ensures clock { since self.old ≤ D.moment disk.now → since self.new ≤ D.moment disk.now }
        ensures moments { (at : Moment) → IsMoment D.left_since given taken since past self.new disk.now at
            → IsMoment D.left_since given taken since past self.old disk.now at
            ⊎ IsDuringRead D.may_leave (taken self.old) (given self.old) (given self.new) disk.now at }
        ensures keeps { (at : Moment) → IsMoment D.left_since given taken since past self.old disk.now at
            → IsMoment D.left_since given taken since past self.new disk.now at };
}
