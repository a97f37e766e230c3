//! How far a long command is: one line on standard error, which each next one wipes.
use std::fmt;
use std::fmt::Display;
use std::rt::Clock;
use std::time::Duration;

/// Brings the cursor to the front of its line, and wipes the line.
pub(crate) const WIPE: &str = "\r\x1b[K";

/// The least milliseconds between two lines.
const BETWEEN: u64 = 250;

/// The bytes of a file that is big enough to be told of as soon as it is read, since what comes then may take its time too.
const LARGE: u64 = 4_000_000;

/// A line that is shown at most four times a second, and never where it is off. No call of it fails.
#[derive(Drop)]
pub struct Progress<'a, R> {
    rt: &'a R,
    is_on: bool,
    begun: Option<Duration>,
    shown: Option<Duration>,
}

impl<'a, R: Clock + Eprint> Progress<'a, R> {
    /// A line that is not yet shown; it is off where it isn't wanted.
    pub fn new(rt: &'a R, is_on: bool) -> Progress<'a, R> {
        Progress {
            rt,
            is_on,
            begun: None,
            shown: None,
        }
    }

    /// Whether it is wanted.
    pub fn is_on(&self) -> bool {
        self.is_on
    }

    /// Shows how many grants were made stable, and how many a second, where a line is due.
    pub fn show_grants(&mut self, grants: u64) {
        if let Some(millis) = self.due(2 * BETWEEN) {
            let rate = u128::from(grants) * 1000 / millis.max(1);
            self.show(format_args!("{grants} grants written to the disk, {rate} a second"));
        }
    }

    /// Shows how much of a file of so many bytes is read, where a line is due.
    pub fn show_read(&mut self, name: &str, read: u64, bytes: u64) {
        if self.due(1000).is_some() {
            let (read, bytes) = (Megabytes(read), Megabytes(bytes));
            self.show(format_args!("{name}: {read} of {bytes} read"));
        }
    }

    /// Shows how much of a file is read whose length isn't known, where a line is due or a large file is read to its end.
    pub fn show_part(&mut self, name: &str, read: u64, is_whole: bool) {
        if self.due(1000).is_some() || (self.is_on && is_whole && read >= LARGE) {
            let read = Megabytes(read);
            self.show(format_args!("{name}: {read} read"));
        }
    }

    /// Shows a line that stays, in the place of the one before. It is no part of what is off.
    pub fn tell(&self, line: &str) {
        let wipe = if self.is_on { WIPE } else { "" };
        let _ = eprintln!(self.rt; "{wipe}{line}");
    }

    // The milliseconds since the first call, where that is `least` of them ago and no line was shown lately.
    fn due(&mut self, least: u64) -> Option<u128> {
        if !self.is_on {
            return None;
        }
        let Ok(now) = self.rt.monotonic() else {
            return None;
        };
        let begun = *self.begun.get_or_insert(now);
        let shown = self.shown.unwrap_or(begun);
        let since = now.saturating_sub(begun);
        let is_late = now.saturating_sub(shown) >= Duration::from_millis(BETWEEN);
        if !is_late || since < Duration::from_millis(least) {
            return None;
        }
        self.shown = Some(now);
        Some(since.as_millis())
    }

    // Shows a line in the place of the one before.
    fn show<D: Display + Drop>(&self, line: D) {
        let _ = eprint!(self.rt; "{WIPE}{line}");
    }
}

// A number of bytes, shown in millions of them with one digit after the point.
#[derive(Clone, Copy)]
struct Megabytes(u64);

impl Display for Megabytes {
    fn fmt<W: fmt::Write>(&self, f: &mut fmt::Formatter<W>) -> fmt::Result {
        let whole = self.0 / 1_000_000;
        let tenth = self.0 / 100_000 % 10;
        write!(f, "{whole}.{tenth} MB")
    }
}
