//! A line of text, made word by word.
ghost use Rattle.std.specs.Prelude.{◌≡◌, ◌+◌, ◌<◌, ◌≤◌, ◌∷◌, [], ◌++◌, length};
ghost use Rattle.std.specs.Fmt.{decimal};

use itoa::{Buffer, Integer, write_digits};
use std::marker::Model;

/// The most bytes of a line. The longest line of a record has 143, with its newline.
pub const LINE_BYTES: usize = 160;

/// A line that is made word by word, on the stack. Contracts see it as its bytes.
///
/// Where many lines are made one after the other, one `Line` serves: each begins with `begin` and ends with `close`.
///
/// Each call asks for room in `LINE_BYTES`, and says how long the line is at most after it.
///
/// The small calls are made inline, so that words whose text is known are copied as constants: without that a record took an eighth more
/// instructions (28 November 2026).
#[derive(Drop)]
pub struct Line {
    len: usize,
    bytes: [u8; LINE_BYTES],
}

impl Model for Line {
    ghost use Rattle.std.specs.Prelude.{List, ℕ, ◌≤◌, take};

    ghost Value = { List ℕ };

    ghost view = { λ l. take l.len l.bytes };

    ghost invariant = { λ l. l.len ≤ 160 };
}

impl Line {
    /// A line with nothing on it.
    pub fn new() -> Line
        ensures { result ≡ [] }
    {
        Line {
            len: 0,
            bytes: [0; LINE_BYTES],
        }
    }

    /// A line that begins with this word.
    pub fn of_word(word: &[u8]) -> Line
        requires { length word.now ≤ LINE_BYTES }
        ensures { result ≡ word.now }
    {
        let mut line = Line::new();
        line.append(word);
        line
    }

    /// Begins the line anew with this word.
    #[inline(always)]
    pub fn begin(&mut self, word: &[u8])
        requires { length word.now ≤ LINE_BYTES }
        ensures { self.new ≡ word.now }
    {
        self.clear();
        self.append(word);
    }

    /// Begins the line anew with this number, in decimal digits.
    pub fn begin_number(&mut self, n: u16)
        ensures digits { self.new ≡ decimal n }
        ensures len { length self.new ≤ 10 }
    {
        self.clear();
        self.digits(u32::from(n));
    }

    /// Appends a space and a word.
    #[inline(always)]
    pub fn word(&mut self, word: &[u8])
        requires { length self.old + 1 + length word.now ≤ LINE_BYTES }
        ensures bytes { self.new ≡ self.old ++ 32 ∷ word.now }
        ensures len { length self.new ≡ length self.old + 1 + length word.now }
    {
        self.space();
        self.append(word);
    }

    /// Appends a space and a number in decimal digits: at most 5 of a `u16`, 10 of a `u32`, 20 of a `u64`.
    pub fn number<N: Integer>(&mut self, n: N)
        requires { length self.old + 1 + N.MAX_STR_LEN ≤ LINE_BYTES }
        ensures bytes { self.new ≡ self.old ++ 32 ∷ N.text n }
        ensures len { length self.new ≤ length self.old + 1 + N.MAX_STR_LEN }
    {
        let mut digits = Buffer::new();
        self.word(digits.format(n).as_bytes());
    }

    /// Appends a space and the digits of a number of 32 bits, which is mostly a short one.
    #[inline(always)]
    pub fn short_number(&mut self, n: u32)
        requires { length self.old + 11 ≤ LINE_BYTES }
        ensures bytes { self.new ≡ self.old ++ 32 ∷ decimal n }
        ensures len { length self.new ≤ length self.old + 11 }
    {
        self.space();
        self.digits(n);
    }

    /// Appends a newline.
    #[inline(always)]
    pub fn close(&mut self)
        requires { length self.old + 1 ≤ LINE_BYTES }
        ensures { self.new ≡ self.old ++ 10 ∷ [] }
    {
        self.push(b'\n');
    }

    /// The line with its newline.
    pub fn end(mut self) -> Line
        requires { length self + 1 ≤ LINE_BYTES }
        ensures { result ≡ self ++ 10 ∷ [] }
    {
        self.close();
        self
    }

    /// The bytes, the newline with them where the line has its end.
    #[inline(always)]
    pub fn bytes(&self) -> &[u8]
        ensures value { result.now ≡ self.now }
        ensures short { length self.now ≤ LINE_BYTES }
    {
        &self.bytes[..self.len]
    }

    #[inline(always)]
    fn clear(&mut self)
        ensures { self.new ≡ [] }
    {
        self.len = 0;
    }

    #[inline(always)]
    fn space(&mut self)
        requires { length self.old + 1 ≤ LINE_BYTES }
        ensures bytes { self.new ≡ self.old ++ 32 ∷ [] }
        ensures len { length self.new ≡ length self.old + 1 }
    {
        self.push(b' ');
    }

    #[inline(always)]
    fn push(&mut self, byte: u8)
        requires { length self.old + 1 ≤ LINE_BYTES }
        ensures bytes { self.new ≡ self.old ++ byte ∷ [] }
        ensures len { length self.new ≡ length self.old + 1 }
    {
        self.bytes[self.len] = byte;
        self.len += 1;
    }

    #[inline(always)]
    fn append(&mut self, bytes: &[u8])
        requires { length self.old + length bytes.now ≤ LINE_BYTES }
        ensures bytes { self.new ≡ self.old ++ bytes.now }
        ensures len { length self.new ≡ length self.old + length bytes.now }
    {
        let end = self.len + bytes.len();
        self.bytes[self.len..end].copy_from_slice(bytes);
        self.len = end;
    }

    // A number of one digit or two is written in its place. The digits of a longer one are counted and then written there: by a buffer of
    // their own, which is cleared and copied, a plan took a thirtieth more instructions (29 November 2026).
    fn digits(&mut self, n: u32)
        requires { length self.old + 10 ≤ LINE_BYTES }
        ensures bytes { self.new ≡ self.old ++ decimal n }
        ensures len { length self.new ≤ length self.old + 10 }
    {
        if n < 10 {
            self.push(b'0' + n as u8);
        } else if n < 100 {
            self.push(b'0' + (n / 10) as u8);
            self.push(b'0' + (n % 10) as u8);
        } else {
            self.long_digits(n);
        }
    }

    // Appends the digits of a number, however many there are.
    fn long_digits(&mut self, n: u32)
        requires { length self.old + 10 ≤ LINE_BYTES }
        ensures bytes { self.new ≡ self.old ++ decimal n }
        ensures len { length self.new ≤ length self.old + 10 }
    {
        let end = self.len + digit_count(n);
        let _start = write_digits(u64::from(n), &mut self.bytes, end);
        self.len = end;
    }
}

/// How many digits a number has.
fn digit_count(n: u32) -> usize
    ensures count { result ≡ length (decimal n) }
    ensures few { result ≤ 10 }
{
    if n < 10_000 {
        short_count(n)
    } else if n < 100_000_000 {
        4 + short_count(n / 10_000)
    } else {
        8 + short_count(n / 100_000_000)
    }
}

/// How many digits a number of at most four has.
fn short_count(n: u32) -> usize
    requires { n < 10000 }
    ensures count { result ≡ length (decimal n) }
    ensures few { result ≤ 4 }
    ensures shorter { n < 100 → result ≤ 2 }
{
    if n < 10 {
        1
    } else if n < 100 {
        2
    } else if n < 1_000 {
        3
    } else {
        4
    }
}
