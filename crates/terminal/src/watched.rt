//! The input of a conversation, with a look at what can't be seen of its lines.
ghost use Rattle.std.specs.Prelude.{◌≡◌};

use hints::{BEGINS_WITH_MARK, BYTE_ORDER_MARK, ENDS_IN_RETURN};
use memchr::memchr2;
use memchr::memmem::find;
use outside_io::{Failed, Source};

/// How each line ends that a carriage return spoils.
const RETURN: &[u8] = b"\r\n";

/// A source over another one. Where it looks, it tells on standard error of the first line that ends in a carriage return and of the first
/// one that begins with a byte order mark: such a line asks nothing, and whoever reads it sees why it should.
#[derive(Drop)]
pub struct Watched<'a, S, R> {
    inner: S,
    rt: &'a R,
    looks_for_return: bool,
    looks_for_mark: bool,
}

impl<'a, S, R: Eprint> Watched<'a, S, R> {
    /// A source of which nothing was read yet.
    pub fn new(rt: &'a R, inner: S, looks: bool) -> Watched<'a, S, R> {
        Watched {
            inner,
            rt,
            looks_for_return: looks,
            looks_for_mark: looks,
        }
    }

    // Tells of what is in a piece, and not again of what was told. Most pieces have neither byte, which one search shows.
    fn look(&mut self, piece: &[u8])
        ensures { self.new.inner ≡ self.old.inner }
    {
        if memchr2(RETURN[0], BYTE_ORDER_MARK[0], piece).is_none() {
            return;
        }
        if self.looks_for_return && find(piece, RETURN).is_some() {
            self.looks_for_return = false;
            let _ = eprintln!(self.rt; "standard input, a line{ENDS_IN_RETURN}: it asks nothing");
        }
        if self.looks_for_mark && find(piece, BYTE_ORDER_MARK).is_some() {
            self.looks_for_mark = false;
            let _ = eprintln!(self.rt; "standard input, a line{BEGINS_WITH_MARK}: it asks nothing");
        }
    }
}

impl<S: Source, R: Eprint> Source for Watched<'_, S, R> {
    ghost given = { λ source. S.given source.inner };

    ghost has_ended = { λ source. S.has_ended source.inner };

    ghost faults = { λ source. S.faults source.inner };

    fn next_piece(&mut self, out: &mut [u8]) -> Result<usize, Failed> {
        let count = self.inner.next_piece(out)?;
        if self.looks_for_return || self.looks_for_mark {
            self.look(&out[..count]);
        }
        Ok(count)
    }
}
