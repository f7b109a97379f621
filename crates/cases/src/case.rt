//! A case that is tried: what stands under its keys, and what is told of its calls.

use outside::{Word, push_line};
use std::alloc::Global;
use toml::{Table, Value};

/// The keys that a file of cases may have.
pub const OF_FILE: &str = "calls documents replicas scratch case";

/// The keys that a case may have.
pub const OF_CASE: &str = "calls documents replicas scratch
    failing_fetch failing_write failing_host failing_part failing_run write_takes room
    first_run_held first_gate_held gate_first each_front status text after_record has_lines
    delivered not_delivered stored not_stored trace";

/// Why a case isn't tried.
#[derive(Clone, Copy)]
pub enum Complaint {
    Memory,
    /// Nothing stands under this key, or not what has to.
    Misfit(&'static str),
    /// The case would show nothing.
    Idle(&'static str),
}

/// A key of a table that isn't known.
pub fn unknown_key<'a>(table: &'a Table, known: &str) -> Option<&'a str> {
    for key in table.keys() {
        if !known.split_whitespace().any(|one| one == key.as_str()) {
            return Some(key.as_str());
        }
    }
    None
}

/// A case that is tried. The first complaint is kept; what is read after it stands for nothing, and no call is made.
#[derive(Drop)]
pub struct Trial {
    pub alloc: Global,
    /// What came of the call that didn't end as the case says.
    pub text: Vec<u8>,
    pub complaint: Option<Complaint>,
}

impl Trial {
    pub fn new(alloc: Global) -> Trial {
        Trial {
            alloc,
            text: Vec::new(alloc),
            complaint: None,
        }
    }

    pub fn complain(&mut self, complaint: Complaint) {
        if self.complaint.is_none() {
            self.complaint = Some(complaint);
        }
    }

    /// Complains where memory was wanting.
    pub fn keep<E: Drop>(&mut self, done: Result<(), E>) {
        if done.is_err() {
            self.complain(Complaint::Memory);
        }
    }

    pub fn misfit(&mut self, key: &'static str) {
        self.complain(Complaint::Misfit(key));
    }

    /// The text that a value under a key is.
    pub fn text_of<'a>(&mut self, value: &'a Value, key: &'static str) -> &'a str {
        match value {
            Value::String(text) => text.as_str(),
            _ => {
                self.misfit(key);
                ""
            }
        }
    }

    pub fn items_of<'a>(&mut self, value: &'a Value, key: &'static str) -> &'a [Value] {
        match value {
            Value::Array(items) => items.as_slice(),
            _ => {
                self.misfit(key);
                &[]
            }
        }
    }

    pub fn table_of<'a>(&mut self, value: &'a Value, key: &'static str) -> Option<&'a Table> {
        match value {
            Value::Table(table) => Some(table),
            _ => {
                self.misfit(key);
                None
            }
        }
    }

    /// A number, from 1 on.
    fn number_of(&mut self, value: &Value, key: &'static str) -> u64 {
        match value {
            Value::Integer(number) if *number > 0 => number.unsigned_abs(),
            _ => {
                self.misfit(key);
                1
            }
        }
    }

    /// A byte, or a status.
    pub fn byte_of(&mut self, value: &Value, key: &'static str) -> u8 {
        match value {
            Value::Integer(byte) if *byte >= 0 && *byte < 256 => *byte as u8,
            _ => {
                self.misfit(key);
                0
            }
        }
    }

    pub fn text_at<'a>(&mut self, table: &'a Table, key: &'static str) -> Option<&'a str> {
        match table.get(key) {
            Some(value) => Some(self.text_of(value, key)),
            None => None,
        }
    }

    /// What is listed under a key; nothing where it is absent.
    pub fn items_at<'a>(&mut self, table: &'a Table, key: &'static str) -> &'a [Value] {
        match table.get(key) {
            Some(value) => self.items_of(value, key),
            None => &[],
        }
    }

    pub fn table_at<'a>(&mut self, table: &'a Table, key: &'static str) -> Option<&'a Table> {
        match table.get(key) {
            Some(value) => self.table_of(value, key),
            None => None,
        }
    }

    pub fn number_at(&mut self, table: &Table, key: &'static str) -> Option<u64> {
        match table.get(key) {
            Some(value) => Some(self.number_of(value, key)),
            None => None,
        }
    }

    /// Whether a flag is set.
    pub fn flag_at(&mut self, table: &Table, key: &'static str) -> bool {
        match table.get(key) {
            Some(Value::Boolean(flag)) => *flag,
            Some(_) => {
                self.misfit(key);
                false
            }
            None => false,
        }
    }

    pub fn numbers_at(&mut self, table: &Table, key: &'static str) -> Vec<u64> {
        let mut numbers = Vec::new(self.alloc);
        for item in self.items_at(table, key) {
            let number = self.number_of(item, key);
            self.keep(numbers.push(number));
        }
        numbers
    }

    pub fn pairs_at(&mut self, table: &Table, key: &'static str) -> Vec<(u64, u64)> {
        let mut pairs = Vec::new(self.alloc);
        for item in self.items_at(table, key) {
            if let [first, second] = self.items_of(item, key) {
                let pair = (self.number_of(first, key), self.number_of(second, key));
                self.keep(pairs.push(pair));
            } else {
                self.misfit(key);
            }
        }
        pairs
    }

    /// The words of a call.
    pub fn words_of(&mut self, call: &Value) -> Vec<String> {
        let mut words = Vec::new(self.alloc);
        for word in self.items_of(call, "calls") {
            match String::from_str(self.alloc, self.text_of(word, "calls")) {
                Ok(word) => self.keep(words.push(word)),
                Err(_) => self.complain(Complaint::Memory),
            }
        }
        words
    }

    /// Adds a text, in which `<n>` stands for a number.
    fn push_numbered(&mut self, into: &mut Vec<u8>, text: &str, number: u64) {
        let Ok(digits) = format!(in self.alloc; "{number}") else {
            return self.complain(Complaint::Memory);
        };
        match text.replace(self.alloc, "<n>", digits.as_str()) {
            Ok(one) => self.keep(into.extend_from_slice(one.as_bytes())),
            Err(_) => self.complain(Complaint::Memory),
        }
    }

    /// Adds a text so many times; `<n>` in it stands for the number of the time, from 0.
    fn push_repeated(&mut self, into: &mut Vec<u8>, repeated: &Table, key: &'static str) {
        let times = self.number_at(repeated, "times");
        match (times, self.text_at(repeated, "text"), repeated.len()) {
            (Some(times), Some(text), 2) => {
                for number in 0..times {
                    self.push_numbered(into, text, number);
                }
            }
            _ => self.misfit(key),
        }
    }

    /// Adds a text, an array of bytes, or a text that stands there several times.
    fn push_piece(&mut self, into: &mut Vec<u8>, piece: &Value, key: &'static str) {
        match piece {
            Value::Array(bytes) => {
                for byte in bytes {
                    let byte = self.byte_of(byte, key);
                    self.keep(into.push(byte));
                }
            }
            Value::Table(repeated) => self.push_repeated(into, repeated, key),
            text => {
                let text = self.text_of(text, key);
                self.keep(into.extend_from_slice(text.as_bytes()));
            }
        }
    }

    /// The bytes of a document, a replica or a site's file: a text, or an array of pieces.
    pub fn content_of(&mut self, content: &Value, key: &'static str) -> Vec<u8> {
        let mut bytes = Vec::new(self.alloc);
        match content {
            Value::Array(pieces) => {
                for piece in pieces {
                    self.push_piece(&mut bytes, piece, key);
                }
            }
            text => {
                let text = self.text_of(text, key);
                self.keep(bytes.extend_from_slice(text.as_bytes()));
            }
        }
        bytes
    }

    /// Tells a first word and some more in a line.
    pub fn tell(&mut self, first: &str, words: &[Word<'_>]) {
        let told = push_line(&mut self.text, first, words);
        self.keep(told);
    }

    fn tell_bytes(&mut self, bytes: &[u8]) {
        let told = self.text.extend_from_slice(bytes);
        self.keep(told);
    }

    /// Tells a text, each line after two spaces and a bar.
    pub fn tell_quoted(&mut self, quoted: &[u8]) {
        let quoted = quoted.strip_suffix(b"\n").unwrap_or(quoted);
        for line in quoted.split(|b| *b == b'\n') {
            self.tell_bytes(b"  | ");
            self.tell_bytes(line);
            self.tell_bytes(b"\n");
        }
    }
}
