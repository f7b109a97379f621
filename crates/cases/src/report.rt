//! The lines that tell how the cases went.

use crate::calling::is_case_met;
use crate::case::{Complaint, OF_CASE, OF_FILE, Trial, unknown_key};
use outside::Memory;
use std::alloc::Global;
use std::collections::BTreeSet;
use std::sync::Wait;
use std::thread::Threads;
use toml::de::Error;
use toml::{Table, Value};

/// What has been told so far.
#[derive(Drop)]
pub struct Report {
    text: Vec<u8>,
    names: BTreeSet<String>,
    cases: u64,
    differing: u64,
    unread: u64,
}

impl Report {
    pub fn new(alloc: Global) -> Report {
        Report {
            text: Vec::new(alloc),
            names: BTreeSet::new(alloc),
            cases: 0,
            differing: 0,
            unread: 0,
        }
    }

    fn add(&mut self, pieces: &[&str]) -> Result<(), Memory> {
        for piece in pieces {
            self.text.extend_from_slice(piece.as_bytes())?;
        }
        Ok(())
    }

    /// Tells that something can't be read.
    pub fn add_unread(&mut self, pieces: &[&str]) -> Result<(), Memory> {
        self.unread = self.unread.saturating_add(1);
        self.add(&["unread "])?;
        self.add(pieces)?;
        self.add(&["\n"])
    }

    /// Tells in a line that a file is no TOML.
    fn add_fault(&mut self, alloc: Global, file: &str, fault: &Error) -> Result<(), Memory> {
        let lines = format!(in alloc; "{fault}")?;
        let line = lines.as_str().trim_end().replace(alloc, "\n", " ")?;
        self.add_unread(&[file, ": ", line.as_str()])
    }

    /// Tells the cases of a file, and what of it can't be read.
    pub fn add_file<R: Threads + Wait + Sync>(
        &mut self,
        rt: &R,
        alloc: Global,
        name: &str,
        text: &str,
    ) -> Result<(), Memory> {
        match toml::table_from_str(alloc, text) {
            Ok(file) => {
                let told = self.add_cases(rt, alloc, name, &file);
                drop(file);
                told
            }
            Err(fault) => {
                let told = self.add_fault(alloc, name, &fault);
                drop(fault);
                told
            }
        }
    }

    fn add_cases<R: Threads + Wait + Sync>(
        &mut self,
        rt: &R,
        alloc: Global,
        place: &str,
        file: &Table,
    ) -> Result<(), Memory> {
        if let Some(key) = unknown_key(file, OF_FILE) {
            return self.add_unread(&[place, ": unknown key ", key]);
        }
        let Some(Value::Table(cases)) = file.get("case") else {
            return self.add_unread(&[place, ": there are no cases"]);
        };
        for (name, case) in cases.iter() {
            self.add_case(rt, alloc, file, (place, name.as_str()), case)?;
        }
        Ok(())
    }

    /// Tells whether a case ended as it says, and what came instead.
    fn add_case<R: Threads + Wait + Sync>(
        &mut self,
        rt: &R,
        alloc: Global,
        file: &Table,
        (place, name): (&str, &str),
        case: &Value,
    ) -> Result<(), Memory> {
        let Value::Table(case) = case else {
            return self.add_unread(&[place, ": ", name, ": no table"]);
        };
        if let Some(key) = unknown_key(case, OF_CASE) {
            return self.add_unread(&[place, ": ", name, ": unknown key ", key]);
        }
        let mut trial = Trial::new(alloc);
        self.enter_name(&mut trial, name);
        let is_met = trial.complaint.is_none() && is_case_met(rt, &mut trial, file, case);
        let told = self.add_trial(&trial, is_met, (place, name));
        drop(trial);
        told
    }

    /// Keeps a case's name, which is one word, and its own.
    fn enter_name(&mut self, trial: &mut Trial, name: &str) {
        if name.is_empty() || name.contains(' ') {
            trial.complain(Complaint::Idle("a name is one word"));
        }
        match String::from_str(trial.alloc, name) {
            Ok(name) => match self.names.insert(name) {
                Ok(true) => {}
                Ok(false) => trial.complain(Complaint::Idle("another case has this name")),
                Err(_) => trial.complain(Complaint::Memory),
            },
            Err(_) => trial.complain(Complaint::Memory),
        }
    }

    /// Tells why a case of a file isn't tried.
    fn add_complaint<'a>(
        &mut self,
        (place, name): (&'a str, &'a str),
        why: &'a str,
        key: &'a str,
    ) -> Result<(), Memory> {
        self.add_unread(&[place, ": ", name, ": ", why, key])
    }

    fn add_trial(
        &mut self,
        trial: &Trial,
        is_met: bool,
        (place, name): (&str, &str),
    ) -> Result<(), Memory> {
        match trial.complaint {
            Some(Complaint::Memory) => Err(Memory),
            Some(Complaint::Misfit(key)) => {
                let why = "nothing, or nothing that fits, at ";
                self.add_complaint((place, name), why, key)
            }
            Some(Complaint::Idle(why)) => self.add_complaint((place, name), why, ""),
            None => self.add_verdict(name, is_met, &trial.text),
        }
    }

    fn add_verdict(&mut self, name: &str, is_met: bool, text: &[u8]) -> Result<(), Memory> {
        self.cases = self.cases.saturating_add(1);
        if !is_met {
            self.differing = self.differing.saturating_add(1);
        }
        let verdict = if is_met { "ok " } else { "differs " };
        self.add(&[verdict, name, "\n"])?;
        self.text.extend_from_slice(text)?;
        Ok(())
    }

    /// All that was told, with the line that counts the cases.
    pub fn finish(&mut self, alloc: Global) -> Result<&[u8], Memory> {
        let last = format!(in alloc; "{} cases, {} differ\n", self.cases, self.differing)?;
        self.add(&[last.as_str()])?;
        Ok(&self.text)
    }

    /// The status that the program ends with.
    pub fn status(&self) -> u8 {
        u8::from(self.differing > 0 || self.unread > 0)
    }
}
