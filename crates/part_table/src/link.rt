//! A link of a chain, and how it lies in memory, in 20 bytes.
//!
//! The fields of a struct lie in the order of the source, and each struct is padded for itself. So a link takes 28 bytes as it is,
//! and 20 with all its fields in one struct: the log of 4,096 parts takes 328 KB in the place of 459 KB, and its compaction, which
//! goes through all of it, has less to read and to write.
//!
//! ```text
//! offset  bytes  field
//!      0      4  job
//!      4      4  slot
//!      8      4  next
//!     12      2  kind
//!     14      2  place
//!     16      2  on
//!     18      1  done
//!     19      1  stays
//! ```
ghost use Rattle.std.specs.Prelude.{◌≡◌};
ghost use Rattle.part_table.specs.Logs.{gone_entry, done_entry, with_slot};

use crate::standing::{Entry, Standing};
use cell_base::{JobId, Part, ResId, TypeId};
use std::marker::Model;

/// An entry, and the place of the next one that was told the same resource.
#[derive(Clone, Copy)]
pub struct Link {
    pub entry: Entry,
    pub next: u32,
}

/// A link in 20 bytes, which contracts see as the link.
#[derive(Clone, Copy)]
pub struct Packed {
    job: JobId,
    slot: u32,
    next: u32,
    kind: TypeId,
    place: u16,
    on: ResId,
    done: bool,
    stays: bool,
}

impl Model for Packed {
    ghost use Rattle.part_table.specs.declared.link.Link.{Link};

    ghost Value = { Link };

    ghost view = { λ s. record {
      entry = record {
        item = record {
          part = record { job = s.job; kind = s.kind; place = s.place; done = s.done };
          on = s.on;
        };
        stays = s.stays;
        slot = s.slot;
      };
      next = s.next;
    } };

    ghost inverse = { λ link. record {
      job = link.entry.item.part.job;
      slot = link.entry.slot;
      next = link.next;
      kind = link.entry.item.part.kind;
      place = link.entry.item.part.place;
      on = link.entry.item.on;
      done = link.entry.item.part.done;
      stays = link.entry.stays;
    } };
}

// The table above: nothing lies between the fields.
const _: () = prove!(size_of::<Packed>() == 20);

impl Packed {
    /// A link, packed.
    #[inline(always)]
    pub fn of(link: Link) -> Packed
        ensures { result ≡ link }
    {
        let Link { entry, next } = link;
        let Standing { part, on } = entry.item;
        Packed {
            job: part.job,
            slot: entry.slot,
            next,
            kind: part.kind,
            place: part.place,
            on,
            done: part.done,
            stays: entry.stays,
        }
    }

    /// Its entry.
    #[inline(always)]
    pub fn entry(&self) -> Entry
        ensures { result ≡ self.now.entry }
    {
        let part = Part {
            job: self.job,
            kind: self.kind,
            place: self.place,
            done: self.done,
        };
        Entry {
            item: Standing { part, on: self.on },
            stays: self.stays,
            slot: self.slot,
        }
    }

    /// The place to which it leads.
    #[inline(always)]
    pub fn next(&self) -> u32
        ensures { result ≡ self.now.next }
    {
        self.next
    }

    /// It leads to a place.
    #[inline(always)]
    pub fn lead_to(&mut self, place: u32)
        ensures { self.new ≡ record self.old { next = place } }
    {
        self.next = place;
    }

    /// Its part does not stand there any more.
    #[inline(always)]
    pub fn take_out(&mut self)
        ensures { self.new ≡ record self.old { entry = gone_entry self.old.entry } }
    {
        self.stays = false;
    }

    /// Its part is done.
    #[inline(always)]
    pub fn finish(&mut self)
        ensures { self.new ≡ record self.old { entry = done_entry self.old.entry } }
    {
        self.done = true;
    }

    /// Its job has another slot.
    #[inline(always)]
    pub fn set_slot(&mut self, slot: u32)
        ensures { self.new ≡ record self.old { entry = with_slot self.old.entry slot } }
    {
        self.slot = slot;
    }
}
