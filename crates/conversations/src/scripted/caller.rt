//! Calls of the whole controller in memory, in each of which one call of the outside may be made to fail.

use crate::in_memory::{disk_with, listed};
use crate::scripted::call_end::{CallEnd, written};
use crate::scripted::command::disk_name;
use crate::scripted::folder::Folder;
use crate::scripted::late_pace::LatePace;
use anyhow::{Result, bail};
use cell_program::{Ended, cell_main};
use lists::List;
use outside_io::{DiskCall, MemDisk, MemFiles, MemSink, Sink};
use std::alloc::Global;
use std::rt::Clock;
use std::sync::Wait;
use std::thread::Threads;
use test_fixtures::TornSink;

/// The one call of the outside that is to fail; puts and reads are numbered from 1. Of a torn put the sink takes the first
/// half of the piece.
#[derive(Clone, Copy)]
pub enum Failing {
    Nothing,
    Put(u64),
    TornPut(u64),
    Read(u64),
    Device(DiskCall),
}

/// The controller over the files of a folder.
#[derive(Drop)]
pub struct Caller<'a, R> {
    rt: &'a R,
    alloc: Global,
    folder: &'a Folder,
}

impl<'a, R: Print + Clock + Threads + Wait + Sync> Caller<'a, R> {
    /// The controller over these files.
    pub fn new(rt: &'a R, alloc: Global, folder: &'a Folder) -> Caller<'a, R> {
        Caller { rt, alloc, folder }
    }

    /// What memory is taken from.
    pub fn alloc(&self) -> Global {
        self.alloc
    }

    /// The files.
    pub fn folder(&self) -> &Folder {
        self.folder
    }

    /// What the disk of a call holds; where there is no such file it has no bytes.
    pub fn journal(&self, words: &[String]) -> &[u8] {
        match self.folder.bytes_of(disk_name(words)) {
            Some(bytes) => bytes,
            None => &[],
        }
    }

    /// A disk with these bytes, of which no call is to fail.
    pub fn disk(&self, bytes: &[u8]) -> Result<MemDisk> {
        disk_with(self.alloc, bytes, None)
    }

    /// Calls the controller with these words.
    pub fn call(&self, words: &[String], failing: Failing) -> Result<CallEnd> {
        let call = match failing {
            Failing::Device(call) => Some(call),
            _ => None,
        };
        let disk = disk_with(self.alloc, self.journal(words), call)?;
        self.call_on(words, disk, failing)
    }

    /// Calls it over this disk.
    pub fn call_on(&self, words: &[String], disk: MemDisk, failing: Failing) -> Result<CallEnd> {
        match failing {
            Failing::TornPut(put) => self.call_torn(words, disk, put),
            Failing::Put(put) => self.call_whole(words, disk, Some(put), None),
            Failing::Read(read) => self.call_whole(words, disk, None, Some(read)),
            Failing::Nothing | Failing::Device(_) => self.call_whole(words, disk, None, None),
        }
    }

    // Calls it over a sink that takes each piece whole, and of which this put fails.
    fn call_whole(
        &self,
        words: &[String],
        disk: MemDisk,
        put: Option<u64>,
        read: Option<u64>,
    ) -> Result<CallEnd> {
        let mut out = MemSink::new(self.alloc, listed(self.alloc, put)?);
        let mut files = self.folder.in_memory(listed(self.alloc, read)?)?;
        let ended = self.end_over(words, disk, &mut files, &mut out);
        CallEnd::new(self.alloc, ended, out.bytes(), files)
    }

    // Calls it over a sink that takes the first half of this put.
    fn call_torn(&self, words: &[String], disk: MemDisk, put: u64) -> Result<CallEnd> {
        let mut files = self.folder.in_memory(List::new(self.alloc))?;
        let mut out = TornSink::new(self.alloc, put.saturating_sub(1));
        let ended = self.end_over(words, disk, &mut files, &mut out);
        CallEnd::new(self.alloc, ended, out.bytes(), files)
    }

    /// Prints both and ends where a call ended otherwise than with this status, text and journal.
    pub fn check(&self, told: &CallEnd, status: u8, text: &[u8], left: &[u8]) -> Result<()> {
        if told.is(status, text, left) {
            return Ok(());
        }
        let wanted = written(self.alloc, status, text, left)?;
        self.end_otherwise(wanted.as_str(), told)
    }

    /// Prints what was wanted and how a call ended, and ends.
    pub fn end_otherwise(&self, wanted: &str, told: &CallEnd) -> Result<()> {
        let told = told.written(self.alloc)?;
        println!(self.rt; "wanted\n{wanted}told\n{told}")?;
        bail!("a call ended otherwise")
    }

    // Calls it over these files and this sink.
    fn end_over<K: Sink>(
        &self,
        words: &[String],
        disk: MemDisk,
        files: &mut MemFiles,
        out: &mut K,
    ) -> Ended<MemDisk> {
        let pace = LatePace::new(self.rt);
        cell_main(self.rt, self.alloc, words, files, out, disk, &pace)
    }
}
