//! A call to the system that failed.
use std::io::Error;

/// What was to be done to which file, in one word, and the system's error.
#[derive(Clone, Copy, Debug)]
pub struct Failure<'a> {
    pub call: &'static str,
    pub name: &'a str,
    pub error: Error,
}
