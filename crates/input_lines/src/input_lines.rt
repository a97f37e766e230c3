//! Whole lines out of pieces.
ghost use Rattle.std.specs.Prelude.{◌≡◌, ◌↔◌, ◌+◌, ◌≤◌, ◌<◌, ◌++◌, ◌∷◌, [], ℕ, List, Ok, None, length, take, drop, true, false};
ghost use Rattle.std.specs.Prelude.{IfOk, IsTrue, OnErr};
ghost use Rattle.std.specs.Option.{ForSome};
ghost use Rattle.memchr.specs.Find.{IsFirstByte};
ghost use Rattle.outside_io.specs.Causes.{HasCause};
ghost use Rattle.peers.specs.Reads.{IsRead};
ghost use Rattle.input_lines.specs.Lines.{is_newline};
ghost use Rattle.input_lines.specs.Reading.{GivesPiece, AreLinesSoFar, IsLineTaken, StandsIn, line_at_hand};

use arrayvec::ArrayVec;
use lists::NoMemory;
use memchr::memchr;
use outside_io::{Disk, Failed};
use peers::Peer;
use std::alloc::Global;
use std::marker::Model;

/// How many bytes of a line are kept.
pub const LINE_KEPT: usize = 67;

// How many bytes are asked for at a time: as many as a pipe gives at once.
const PIECE_BYTES: usize = 65_536;

/// The line at hand, the bytes of the line that has begun, and the bytes after these that were read. Most lines stand whole in the piece, and
/// none of their bytes is copied: `whole` says from where to where. Another one is kept beside it.
#[derive(Drop)]
pub struct InputLines {
    piece: Vec<u8>,
    at: usize,
    end: usize,
    whole: Option<(usize, usize)>,
    begun: ArrayVec<u8, LINE_KEPT>,
    line: ArrayVec<u8, LINE_KEPT>,
    ghost within: { (at ≤ end) × (end ≤ length piece.items) × (0 < length piece.items) },
    ghost stands: { ForSome whole (StandsIn piece.items) },
}

impl Model for InputLines {
    ghost use Rattle.input_lines.specs.Reading.{LinesState, line_at_hand, reading};

    ghost Value = { LinesState };

    ghost view = { λ s. reading s.piece.items s.at s.end s.begun.items (line_at_hand s.piece.items s.whole s.line.items) };
}

impl InputLines {
    /// Nothing was read yet.
    pub fn new(alloc: Global) -> Result<InputLines, NoMemory>
        ensures { IfOk result (λ lines. lines ≡ record { begun = []; ahead = []; line = [] }) }
    {
        let piece = vec![in alloc; 0u8; PIECE_BYTES]?;
        Ok(InputLines {
            piece,
            at: 0,
            end: 0,
            whole: None,
            begun: ArrayVec::new(),
            line: ArrayVec::new(),
        })
    }

    /// Whether each byte that was read is in a line that was given, or in the begun one.
    pub fn is_spent(&self) -> bool
        ensures { IsTrue result ↔ self.now.ahead ≡ [] }
    {
        self.at == self.end
    }

    /// Reads the next piece of a peer beside a disk, where all that was read is spent and all that was put is handed on, and answers how
    /// many bytes it has. No bytes: the end of the input.
    pub fn fill<D: Disk, T: Peer<D>>(&mut self, peer: &mut T, disk: &D) -> Result<usize, Failed>
        requires spent { self.old.ahead ≡ [] }
        requires handed { T.handed_on peer.old ≡ T.taken peer.old }
        ensures goes_on { IfOk result (λ count. GivesPiece (T.given peer.old) (T.given peer.new) self.old self.new count) }
        ensures end { result ≡ Ok 0 → T.has_ended peer.new }
        ensures nothing { OnErr result ((T.given peer.new ≡ T.given peer.old) × (self.new ≡ self.old)) }
        ensures cause { HasCause (T.read_faults peer.old) (T.read_faults peer.new) result }
        ensures read { IsRead D.Disk T.Peer disk.now peer.old peer.new }
    {
        keep_line(self.piece.as_slice(), &mut self.whole, &mut self.line);
        match peer.next_piece(disk, self.piece.as_mut_slice()) {
            Ok(count) => {
                self.at = 0;
                self.end = count;
                Ok(count)
            }
            Err(failed) => {
                self.at = 0;
                self.end = 0;
                Err(failed)
            }
        }
    }

    /// Takes the next whole line. Where there is none, all bytes that were read are in the line that has begun, and no line is at hand.
    pub fn next_line(&mut self) -> bool
        ensures whole { result ≡ true → (text : List ℕ) (given : List (List ℕ)) → AreLinesSoFar text given self.old
            → (line : List ℕ) × (self.new.line ≡ take LINE_KEPT line) × AreLinesSoFar text (given ++ line ∷ []) self.new }
        ensures shorter { result ≡ true → length self.new.ahead < length self.old.ahead }
        ensures none { result ≡ false → (self.new.ahead ≡ [])
            × ((text : List ℕ) (given : List (List ℕ)) → AreLinesSoFar text given self.old → AreLinesSoFar text given self.new) }
        ensures no_line { result ≡ false → self.new.line ≡ [] }
    {
        if self.is_spent() {
            self.put_away();
            return false;
        }
        match first_newline(&self.piece[self.at..self.end]) {
            Some(count) if self.begun.is_empty() => {
                self.lend(count);
                true
            }
            Some(count) => {
                self.finish(count);
                true
            }
            None => {
                self.keep(self.end - self.at);
                self.put_away();
                false
            }
        }
    }

    /// The line at hand, without its newline: all of it, or its first `LINE_KEPT` bytes.
    pub fn line(&self) -> &[u8]
        ensures { result.now ≡ self.now.line }
    {
        match self.whole {
            Some((from, to)) => &self.piece[from..to],
            None => self.line.as_slice(),
        }
    }

    // No line is at hand any more, and none is copied when the piece is written over.
    fn put_away(&mut self)
        ensures { self.new ≡ record self.old { line = [] } }
    {
        self.whole = None;
        self.line.clear();
    }

    // Takes the line of so many bytes that stands whole in the piece.
    fn lend(&mut self, count: usize)
        requires inside { count < length self.old.ahead }
        requires whole { self.old.begun ≡ [] }
        ensures { IsLineTaken count self.old self.new }
    {
        self.whole = Some((self.at, self.at + count.min(LINE_KEPT)));
        self.at += count + 1;
    }

    // Takes the line that has begun, of which so many bytes are ahead.
    fn finish(&mut self, count: usize)
        requires { count < length self.old.ahead }
        ensures { IsLineTaken count self.old self.new }
    {
        self.keep(count);
        self.at += 1;
        std::mem::swap(&mut self.line, &mut self.begun);
        self.begun.clear();
        self.whole = None;
    }

    // Moves so many bytes into the line that has begun, which keeps its first bytes.
    fn keep(&mut self, count: usize)
        requires { count ≤ length self.old.ahead }
        ensures { self.new
            ≡ record self.old { begun = take LINE_KEPT (self.old.begun ++ take count self.old.ahead); ahead = drop count self.old.ahead } }
    {
        keep_first(&mut self.begun, &self.piece[self.at..self.at + count]);
        self.at += count;
    }
}

// Copies a line that stands in a piece, before the piece is written over.
fn keep_line(piece: &[u8], whole: &mut Option<(usize, usize)>, line: &mut ArrayVec<u8, LINE_KEPT>)
    requires { ForSome whole.old (StandsIn piece.now) }
    ensures kept { line.new.items ≡ line_at_hand piece.now whole.old line.old.items }
    ensures none { whole.new ≡ None }
{
    if let Some((from, to)) = *whole {
        line.clear();
        append(line, &piece[from..to]);
        *whole = None;
    }
}

// Appends as many bytes as are kept.
fn keep_first(kept: &mut ArrayVec<u8, LINE_KEPT>, bytes: &[u8])
    ensures { kept.new.items ≡ take LINE_KEPT (kept.old.items ++ bytes.now) }
{
    let room = LINE_KEPT - kept.len();
    let count = bytes.len().min(room);
    append(kept, &bytes[..count]);
}

// Appends bytes for which there is room.
fn append(kept: &mut ArrayVec<u8, LINE_KEPT>, bytes: &[u8])
    requires { length kept.old.items + length bytes.now ≤ LINE_KEPT }
    ensures { kept.new.items ≡ kept.old.items ++ bytes.now }
{
    let _ = kept.try_extend_from_slice(bytes);
}

// Where the first newline stands.
fn first_newline(bytes: &[u8]) -> Option<usize>
    ensures { IsFirstByte is_newline bytes.now result }
{
    memchr(b'\n', bytes)
}
