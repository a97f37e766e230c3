//! A source in memory, which gives its bytes in pieces, and whose calls fail where a test wants it.
ghost use Rattle.std.specs.Prelude.{◌≡◌, ◌<◌, ◌≤◌, length, IfOk};

use crate::listed::ListedCalls;
use crate::{Failed, Source};
use lists::{List, NoMemory};
use std::alloc::Global;
use std::marker::Model;

/// Gives its bytes in pieces of at most so many. A call that fails gives nothing. Contracts see the bytes, those given so far, the
/// listed calls and the counts.
pub struct MemSource {
    bytes: Vec<u8>,
    at: usize,
    piece: usize,
    listed: ListedCalls,
    faults: u64,
    ghost within: { at ≤ length bytes.items },
    ghost some: { 0 < piece },
}

impl Model for MemSource {
    ghost use Rattle.std.specs.Prelude.{take};
    ghost use Rattle.outside_io.specs.MemSource.{MemSourceState};

    ghost Value = { MemSourceState };

    ghost view = { λ source. record {
      bytes = source.bytes.items;
      given = take source.at source.bytes.items;
      piece = source.piece;
      fails = source.listed.fails;
      made = source.listed.made;
      faults = source.faults;
    } };
}

// Written out, so that letting a source go is one step in each proof and not a walk through all that it holds.
impl Drop for MemSource {
    fn drop(self) {
        let MemSource {
            bytes: _,
            at: _,
            piece: _,
            listed: _,
            faults: _,
        } = self;
    }
}

impl MemSource {
    ghost use Rattle.std.specs.Prelude.{[], max};
    ghost use Rattle.outside_io.specs.MemSource.{source_bytes, source_given, source_piece, source_faults, failing_reads, reads_made};

    /// A source of these bytes, in pieces of at most so many, and of one where that is 0. The calls numbered in `fails`, from 1,
    /// are to fail.
    pub fn new(
        alloc: Global,
        bytes: &[u8],
        piece: usize,
        fails: List<u64>,
    ) -> Result<MemSource, NoMemory>
        ensures bytes { IfOk result (λ source. source_bytes source ≡ bytes.now) }
        ensures given { IfOk result (λ source. source_given source ≡ []) }
        ensures piece { IfOk result (λ source. source_piece source ≡ max piece 1) }
        ensures listed { IfOk result (λ source. failing_reads source ≡ fails) }
        ensures made { IfOk result (λ source. reads_made source ≡ 0) }
        ensures faults { IfOk result (λ source. source_faults source ≡ 0) }
    {
        let bytes = bytes.to_vec(alloc)?;
        Ok(MemSource {
            bytes,
            at: 0,
            piece: piece.max(1),
            listed: ListedCalls::new(fails),
            faults: 0,
        })
    }
}

impl Source for MemSource {
    ghost use Rattle.std.specs.Prelude.{Some, Ok, take, IsTrue, IsErr, OnErr};
    ghost use Rattle.std.specs.Io.KnownBytes.{Appends};
    ghost use Rattle.outside_io.specs.Causes.{one_more, HasCause};
    ghost use Rattle.outside_io.specs.MemSource.{source_bytes, source_given, source_piece, source_ended, source_faults};
    ghost use Rattle.outside_io.specs.MemSource.{failing_reads, reads_made, next_read_fails, next_length};

    ghost given = { λ source. Some (source_given source) };

    ghost has_ended = { source_ended };

    ghost faults = { source_faults };

    fn next_piece(&mut self, out: &mut [u8]) -> Result<usize, Failed>
        requires { 0 < length out.old }
        ensures within { IfOk result (λ n. n ≤ length out.new) }
        ensures gives { IfOk result (λ n. Appends (Some (source_given self.old)) (Some (source_given self.new)) (take n out.new)) }
        ensures end { result ≡ Ok 0 → source_ended self.new }
        ensures nothing { OnErr result (source_given self.new ≡ source_given self.old) }
        ensures cause { HasCause (source_faults self.old) (source_faults self.new) result }

        // It fails exactly at the listed calls, and else gives as many bytes as it can.
        ensures listed { IsTrue (next_read_fails self.old) → IsErr result }
        ensures nowhere_else { IsErr result → IsTrue (next_read_fails self.old) }
        ensures full { IfOk result (λ n. n ≡ next_length self.old (length out.old)) }

        ensures same_bytes { source_bytes self.new ≡ source_bytes self.old }
        ensures same_piece { source_piece self.new ≡ source_piece self.old }
        ensures same_listed { failing_reads self.new ≡ failing_reads self.old }
        ensures made { reads_made self.new ≡ one_more (reads_made self.old) }
    {
        if self.listed.fails_now() {
            self.faults = self.faults.saturating_add(1);
            return Err(Failed);
        }
        let from = self.at;
        let count = (self.bytes.len() - from).min(self.piece).min(out.len());
        out[..count].copy_from_slice(&self.bytes[from..from + count]);
        self.at = from + count;
        Ok(count)
    }
}
