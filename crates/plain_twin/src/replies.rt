//! How often each reply was given.
use anyhow::Result;
use cell_base::Reply;
use record_text::refusal_word;
use std::alloc::Global;
use std::{fmt, str};

/// How often a request was refused by one word.
#[derive(Drop)]
struct Refused {
    word: &'static [u8],
    times: u32,
}

/// The number of requests, of grants, and of refusals by their words, in the order in which these came first.
#[derive(Drop)]
pub struct Replies {
    requests: u32,
    granted: u32,
    refused: Vec<Refused>,
}

impl Replies {
    /// No request so far.
    pub fn none(alloc: Global) -> Replies {
        Replies {
            requests: 0,
            granted: 0,
            refused: Vec::new(alloc),
        }
    }

    /// One more reply.
    pub fn note(&mut self, reply: Reply) -> Result<()> {
        self.requests = self.requests.saturating_add(1);
        match reply {
            Reply::Granted => self.granted = self.granted.saturating_add(1),
            Reply::Refused(why) => self.note_refused(refusal_word(&why))?,
        }
        Ok(())
    }

    fn note_refused(&mut self, word: &'static [u8]) -> Result<()> {
        for refused in self.refused.iter_mut() {
            if refused.word == word {
                refused.times = refused.times.saturating_add(1);
                return Ok(());
            }
        }
        self.refused.push(Refused { word, times: 1 })?;
        Ok(())
    }
}

impl fmt::Display for Replies {
    fn fmt<W: fmt::Write>(&self, f: &mut fmt::Formatter<W>) -> fmt::Result {
        write!(f, "{} requests: {} granted", self.requests, self.granted)?;
        for refused in &self.refused {
            let word = str::from_utf8(refused.word).unwrap_or("");
            write!(f, ", {} {word}", refused.times)?;
        }
        Ok(())
    }
}
