//! The calls of a disk in memory that are to fail.
ghost use Rattle.std.specs.Prelude.{◌≡◌, None, IfOk};
ghost use Rattle.outside_io.specs.ListedDiskCalls.{numbers_of, listed_of, is_stopped, one_left_fewer, next_fails, after_call};

use crate::listed::ListedCalls;
use crate::{CallKind, DiskCall};
use lists::{List, NoMemory};
use std::alloc::Global;

/// The calls of each kind that are to fail, and after how many more calls of any kind all do.
#[derive(Drop)]
pub(crate) struct ListedDiskCalls {
    pub(crate) len: ListedCalls,
    pub(crate) read: ListedCalls,
    pub(crate) write: ListedCalls,
    pub(crate) sync: ListedCalls,
    pub(crate) left: Option<u64>,
}

impl ListedDiskCalls {
    pub(crate) fn new(alloc: Global, fails: &[DiskCall]) -> Result<ListedDiskCalls, NoMemory>
        ensures fails { IfOk result (λ calls. (kind : _)
            → (listed_of calls kind).fails ≡ numbers_of kind fails.now) }
        ensures made { IfOk result (λ calls. (kind : _) → (listed_of calls kind).made ≡ 0) }
        ensures left { IfOk result (λ calls. calls.left ≡ None) }
    {
        let len = ListedCalls::new(numbers(alloc, fails, CallKind::Len)?);
        let read = ListedCalls::new(numbers(alloc, fails, CallKind::Read)?);
        let write = ListedCalls::new(numbers(alloc, fails, CallKind::Write)?);
        let sync = ListedCalls::new(numbers(alloc, fails, CallKind::Sync)?);
        Ok(ListedDiskCalls {
            len,
            read,
            write,
            sync,
            left: None,
        })
    }

    /// Counts a call, and answers whether it is to fail.
    pub(crate) fn fails_now(&mut self, kind: CallKind) -> bool
        ensures answer { result ≡ next_fails self.old kind }
        ensures counted { self.new ≡ after_call self.old kind }
    {
        let stopped = stops_now(&mut self.left);
        let listed = match kind {
            CallKind::Len => self.len.fails_now(),
            CallKind::Read => self.read.fails_now(),
            CallKind::Write => self.write.fails_now(),
            CallKind::Sync => self.sync.fails_now(),
        };
        listed || stopped
    }
}

// The numbers of the calls of one kind.
fn numbers(alloc: Global, calls: &[DiskCall], kind: CallKind) -> Result<List<u64>, NoMemory>
    ensures { IfOk result (λ numbers. numbers ≡ numbers_of kind calls.now) }
{
    let mut numbers = List::new(alloc);
    for call in calls {
        if call.kind == kind {
            numbers.try_push(call.nth)?;
        }
    }
    Ok(numbers)
}

// Counts a call down, and answers whether none was left.
fn stops_now(left: &mut Option<u64>) -> bool
    ensures answer { result ≡ is_stopped left.old }
    ensures left { left.new ≡ one_left_fewer left.old }
{
    match *left {
        None => false,
        Some(0) => true,
        Some(calls) => {
            *left = Some(calls - 1);
            false
        }
    }
}
