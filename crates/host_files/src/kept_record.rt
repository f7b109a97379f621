//! The record of a run, kept in the working folder while the run goes on.

use crate::standing::{Standing, found_at};
use run_record::{Record, push_entry};
use std::alloc::Global;
use std::fs::OpenOptions;
use std::io::{ErrorKind, Write};
use std::rt::Files;
use std::sync::atomic::{AtomicBool, Ordering};
use std::{fs, io};

/// The name of the file.
const KEPT: &str = ".pegasus.record";

/// A line that no entry has: behind it entries are missing.
const BROKEN: &[u8] = b"\nbroken\n";

/// What a gate writes its entries with: the file, once it is open, and room for a line, which is kept from entry to entry.
#[derive(Drop)]
pub(crate) struct EntryWriter<R: Files> {
    file: Option<R::File>,
    line: Vec<u8>,
}

impl<R: Files> EntryWriter<R> {
    pub(crate) fn new(alloc: Global) -> EntryWriter<R> {
        EntryWriter {
            file: None,
            line: Vec::new(alloc),
        }
    }

    /// Writes the line of the last entry of a record, in one piece, and returns whether it could.
    fn write_last(&mut self, alloc: Global, history: &Record) -> bool {
        let count = history.len();
        let Some(file) = self.file.as_mut() else {
            return false;
        };
        if count == 0 {
            return true;
        }
        self.line.clear();
        push_entry(alloc, &mut self.line, &history.entry(count - 1)).is_ok()
            && file.write_all(&self.line).is_ok()
    }
}

/// What the gates of a call share that keep its record: the runtime, what the file begins with, and how far they came.
#[derive(Drop)]
pub struct KeptRecord<R> {
    rt: R,
    keeps: bool,
    head: Vec<u8>,
    /// Whether this call has an entry, so that the file is its own.
    begun: AtomicBool,
    /// Whether the file could not be made or written, so that the run goes on without it.
    failed: AtomicBool,
}

impl<R: Files> KeptRecord<R> {
    /// `keeps` is whether there is to be a file at all, and `head` the lines before its entries.
    pub fn new(rt: R, keeps: bool, head: Vec<u8>) -> KeptRecord<R> {
        KeptRecord {
            rt,
            keeps,
            head,
            begun: AtomicBool::new(false),
            failed: AtomicBool::new(false),
        }
    }

    /// Takes the file away, once the text of the call has been written, which has the record.
    pub fn remove(&self) {
        if self.begun.load(Ordering::SeqCst) && !self.failed.load(Ordering::SeqCst) {
            let _removed = fs::remove_file(&self.rt, KEPT);
        }
    }

    /// Opens the file for a gate: the first gate of a call that adds an entry makes it, in place of one that an earlier call
    /// left.
    fn open(&self) -> io::Result<R::File> {
        if self.begun.swap(true, Ordering::SeqCst) {
            return OpenOptions::new().append(true).open(&self.rt, KEPT);
        }
        match found_at(&self.rt, KEPT)? {
            Standing::Nothing => {}
            Standing::File => fs::remove_file(&self.rt, KEPT)?,
            Standing::Folder | Standing::Other => {
                return Err(io::Error::from(ErrorKind::AlreadyExists));
            }
        }
        let mut file = OpenOptions::new()
            .append(true)
            .create_new(true)
            .open(&self.rt, KEPT)?;
        file.write_all(&self.head)?;
        Ok(file)
    }

    /// Says at the end of the file that entries are missing, or takes it away.
    fn break_off(&self, file: &mut Option<R::File>) {
        self.failed.store(true, Ordering::SeqCst);
        if let Some(file) = file {
            if file.write_all(BROKEN).is_err() {
                let _removed = fs::remove_file(&self.rt, KEPT);
            }
        }
    }

    /// Writes the line of the last entry of a record, in one piece. Where it can't be written, none is from then on.
    pub(crate) fn keep(&self, alloc: Global, to: &mut EntryWriter<R>, history: &Record) {
        if !self.keeps || self.failed.load(Ordering::SeqCst) {
            return;
        }
        if to.file.is_none() {
            to.file = self.open().ok();
        }
        if !to.write_last(alloc, history) {
            self.break_off(&mut to.file);
        }
    }
}
