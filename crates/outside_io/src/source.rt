//! What is read comes from a source, piece after piece.
ghost use Rattle.std.specs.Prelude.{◌≡◌, ◌<◌, ◌≤◌, ℕ, List, Option, Ok, length, take, IfOk, OnErr};
ghost use Rattle.std.specs.Io.KnownBytes.{Appends};
ghost use Rattle.outside_io.specs.Causes.{HasCause};

use crate::Failed;

/// Gives bytes as they come, piece after piece.
pub trait Source {
    /// The bytes given so far, where the source tells.
    ghost given: { Self → Option (List ℕ) };

    /// It has come to its end.
    ghost has_ended: { Self → Type 0 };

    /// How many calls have failed.
    ghost faults: { Self → ℕ };

    /// Puts what is there to the front of `out`, and answers how many bytes; where nothing is there yet it waits. No bytes: the end.
    /// A call that fails gives nothing.
    fn next_piece(&mut self, out: &mut [u8]) -> Result<usize, Failed>
        requires { 0 < length out.old }
        ensures within { IfOk result (λ n. n ≤ length out.new) }
        ensures gives { IfOk result (λ n. Appends (given self.old) (given self.new) (take n out.new)) }
        ensures end { result ≡ Ok 0 → has_ended self.new }
        ensures nothing { OnErr result (given self.new ≡ given self.old) }
        ensures cause { HasCause (faults self.old) (faults self.new) result };
}

/// A source that has ended before its first byte, for commands that read nothing.
#[derive(Clone, Copy, Debug, PartialEq, Eq)]
pub struct NoSource;

impl Source for NoSource {
    ghost use Rattle.std.specs.Prelude.{Some, [], ⊤};

    ghost given = { λ _. Some [] };

    ghost has_ended = { λ _. ⊤ };

    ghost faults = { λ _. 0 };

    fn next_piece(&mut self, _out: &mut [u8]) -> Result<usize, Failed>
        ensures none { result ≡ Ok 0 }
    {
        Ok(0)
    }
}
