//! A sink that keeps its first failure.
ghost use Rattle.std.specs.Prelude.{◌≡◌, [], ◌∷◌, false};

use cell_walks::Status;
use line_text::Line;
use outside_io::Sink;

/// A sink to which lines are printed, each by one `put`. Once a put has failed, no more are made.
#[derive(Drop)]
pub struct Printer<'a, K> {
    pub(crate) out: &'a mut K,
    pub(crate) failed: bool,
}

impl<'a, K: Sink> Printer<'a, K> {
    ghost use Rattle.printer.specs.Printing.{Prints, status_of};

    /// A printer that has printed nothing yet.
    pub fn new(out: &'a mut K) -> Printer<'a, K>
        ensures same_sink { result.out.ghost_name ≡ out.entry.ghost_name }
        ensures value { result.out.now ≡ out.old }
        ensures none { result.failed ≡ false }
    {
        Printer { out, failed: false }
    }

    /// Prints these bytes as they are.
    pub fn piece(&mut self, piece: &[u8])
        ensures { Prints K.Sink self.old self.new (piece.now ∷ []) }
    {
        if self.failed {
            return;
        }
        match self.out.put(piece) {
            Ok(()) => {}
            Err(_) => self.failed = true,
        }
    }

    /// Prints a line.
    pub fn line(&mut self, line: &Line)
        ensures { Prints K.Sink self.old self.new (line.now ∷ []) }
    {
        self.piece(line.bytes());
    }

    /// Prints each of these lines.
    pub fn lines(&mut self, lines: &[Line])
        ensures { Prints K.Sink self.old self.new lines.now }
    {
        for line in lines {
            self.line(line);
        }
    }

    /// Whether a put has failed.
    pub fn has_failed(&self) -> bool
        ensures { result ≡ self.now.failed }
    {
        self.failed
    }

    /// The status of a command that has printed its answer: this one, or the sink's fault.
    pub fn status(&self, status: Status) -> Status
        ensures { result ≡ status_of self.now status }
    {
        if self.failed {
            Status::SinkFault
        } else {
            status
        }
    }
}
