//! How many waiters there are of each key: of the jobs of their requests, or of their sessions.
//!
//! A grant touches the waiters of its own job, and a request asks whether its own session waits: mostly there is none. A table tells so
//! without a look at any of them. The place of a key is the key modulo the number of places, and has the number of waiters whose keys
//! share it. There is a place for each number of a session, so that no two sessions share one, and of up to 4,096 waiters with jobs at
//! random one in sixteen at most does. The number of places is a power of two, so that a key of any size is found without a division.
ghost use Rattle.std.specs.Prelude.{◌≡◌, ◌<◌, ◌%◌, ◌==◌, ℕ, [], ◌∷◌, ◌++◌, not, length, get_or, slice_index, IfOk, Option as Maybe};
ghost use Rattle.std.specs.Prelude.{List as Sequence};
ghost use Rattle.std.specs.List.{remove};
ghost use Rattle.wait_queue.specs.declared.waiter.Waiter.{Waiter};
ghost use Rattle.wait_queue.specs.Counting.{AreCounted, CanCount, CountsOne, number_of};
ghost use Rattle.wait_queue.specs.Watching.{is_of, job_of};

use cell_base::{JobId, NoMemory, Request};
use std::alloc::Global;
use std::marker::Model;

/// How many places there are.
const PLACES: usize = 65_536;

/// For each place the number of waiters whose keys share it. Contracts see these numbers.
#[derive(Drop)]
pub struct KeyCounts {
    counts: Vec<u16>,
}

impl Model for KeyCounts {
    ghost use Rattle.std.specs.Prelude.{ℕ, ◌≡◌, length, List as Sequence};

    ghost Value = { Sequence ℕ };

    ghost view = { λ s. s.counts.items };

    ghost invariant = { λ s. length s.counts.items ≡ 65536 };
}

impl KeyCounts {
    /// Nobody waits.
    pub fn new(alloc: Global) -> Result<KeyCounts, NoMemory>
        ensures counted { (key_of : Waiter → Maybe ℕ) → IfOk result (λ counts. AreCounted key_of counts []) }
        ensures places { IfOk result (λ counts. 0 < length counts) }
    {
        let counts = zeros(alloc, PLACES)?;
        Ok(KeyCounts { counts })
    }

    /// One waiter more, of this key, or of none.
    pub fn add(&mut self, key: Option<u32>)
        requires { CanCount self.old key }
        ensures counted { (key_of : Waiter → Maybe ℕ) (waiters : Sequence Waiter) (waiter : Waiter) → key_of waiter ≡ key
            → AreCounted key_of self.old waiters → AreCounted key_of self.new (waiters ++ waiter ∷ []) }
        ensures places { length self.new ≡ length self.old }
    {
        if let Some(key) = key {
            let place = self.place_of(key);
            self.counts[place] += 1;
        }
    }

    /// One waiter fewer, of this key, or of none.
    pub fn remove(&mut self, key: Option<u32>)
        requires { CountsOne self.old key }
        ensures counted { (key_of : Waiter → Maybe ℕ) (waiters : Sequence Waiter) (at : ℕ) (waiter : Waiter) → key_of waiter ≡ key
            → at < length waiters → get_or waiters at waiter ≡ waiter → AreCounted key_of self.old waiters
            → AreCounted key_of self.new (remove waiters at) }
        ensures places { length self.new ≡ length self.old }
    {
        if let Some(key) = key {
            let place = self.place_of(key);
            self.counts[place] -= 1;
        }
    }

    /// Whether a waiter of the key, or of one that shares its place, is there.
    pub fn has(&self, key: u32) -> bool
        ensures { result ≡ not (slice_index self.now (key % length self.now) == 0) }
    {
        self.counts[self.place_of(key)] != 0
    }

    fn place_of(&self, key: u32) -> usize
        ensures place { result ≡ key % length self.now }
        ensures within { result < length self.now }
    {
        places_law(self);
        key as usize % PLACES
    }
}

// There are so many places.
fn places_law(counts: &KeyCounts)
    ensures { length counts.now ≡ 65536 }
{
    let _counts = &counts.counts;
}

// So many zeros.
fn zeros(alloc: Global, count: usize) -> Result<Vec<u16>, NoMemory>
    ensures long { IfOk result (λ counts. length counts.items ≡ count) }
    ensures each { IfOk result (λ counts. (place : ℕ) → place < count → slice_index counts.items place ≡ 0) }
{
    let counts = vec![in alloc; 0u16; count]?;
    Ok(counts)
}

/// The number of the job whose part a request changes.
pub fn job_number(request: &Request) -> Option<u32>
    ensures { result ≡ number_of (job_of request.now) }
{
    match job_of(request) {
        Some(job) => Some(job.0),
        None => None,
    }
}

/// The job whose part a request changes.
pub fn job_of(request: &Request) -> Option<JobId>
    ensures { result ≡ job_of request.now }
{
    match *request {
        Request::Load { job, .. } => Some(job),
        Request::Process { .. } => None,
        Request::Move { job, .. } => Some(job),
        Request::Unload { job } => Some(job),
        Request::Place { job, .. } => Some(job),
    }
}

/// Whether a request is of this job.
pub fn is_of(job: JobId, request: &Request) -> bool
    ensures { result ≡ is_of job request.now }
{
    match job_of(request) {
        Some(own) => own.0 == job.0,
        None => false,
    }
}
