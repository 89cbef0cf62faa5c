//! A case: the words and the input of a call, and which calls fail around it.

use hippo_entry_hex::first_word;
use hippo_io::{MemorySink, MemorySource};
use hippo_keeper::{KeeperFail, KeeperFails};
use hippo_values::{Bytes, Calls, Memory, Sequence, Txt};
use std::alloc::Global;
use std::mem;

// The highest number of bytes that a case may write, unless it says otherwise.
const ROOM: usize = 1_000_000;

// The clinic of most cases: seven entries and one session.
const CLINIC: [&str; 9] = [
    "at 2024-01-02T08:00:00Z",
    "0 CREATE TABLE patient (pid INTEGER, name TEXT, phone TEXT, zip INTEGER, PRIMARY KEY (pid), SUBJECT pid)",
    "0 CREATE PURPOSE treatment",
    "0 CREATE RECIPIENT nurse",
    "0 AUTHORIZE ann FOR treatment, nurse",
    "0 ALLOW treatment TO nurse ON patient (pid, name)",
    "0 INSERT INTO patient VALUES (1, 'Ada', '555-1', 95120)",
    "0 INSERT INTO patient VALUES (2, 'Bob', '555-2', NULL)",
    "1 login ann treatment nurse",
];

fn number(word: &str) -> u64 {
    word.parse().unwrap_or(0)
}

/// A call of the program: its words and its input; which calls of the source, of the sink and of
/// the keeper fail; how many bytes the sink takes; and whether the output is shortened.
#[derive(Drop)]
pub struct Case {
    pub words: Sequence<Txt>,
    pub input: Vec<u8>,
    pub failing_reads: Calls,
    pub failing_writes: Calls,
    pub failing: KeeperFails,
    pub room: usize,
    pub is_brief: bool,
}

impl Case {
    pub fn new(alloc: Global) -> Case {
        Case {
            words: Sequence::new(alloc),
            input: Vec::new(alloc),
            failing_reads: Calls::new(alloc),
            failing_writes: Calls::new(alloc),
            failing: KeeperFails::new(alloc),
            room: ROOM,
            is_brief: false,
        }
    }

    /// Returns the source that the case asks for. The source takes the case's input.
    pub fn take_source(&mut self, alloc: Global) -> MemorySource {
        let input = mem::replace(&mut self.input, Vec::new(alloc));
        let failing = mem::replace(&mut self.failing_reads, Calls::new(alloc));
        MemorySource::new(Bytes::from_vec(input), failing)
    }

    /// Returns the sink that the case asks for, or an error when out of memory.
    pub fn take_sink(&mut self, alloc: Global) -> Result<MemorySink, Memory> {
        let failing = mem::replace(&mut self.failing_writes, Calls::new(alloc));
        MemorySink::new(alloc, self.room, failing)
    }

    fn add_text(&mut self, text: &str) -> Result<(), Memory> {
        self.input.extend_from_slice(text.as_bytes())?;
        Ok(())
    }

    fn add_line(&mut self, text: &str) -> Result<(), Memory> {
        self.add_text(text)?;
        self.add_text("\n")
    }

    fn add_times(&mut self, words: &str) -> Result<(), Memory> {
        let (count, text) = first_word(words);
        for _ in 0..number(count) {
            self.add_text(text)?;
        }
        Ok(())
    }

    fn add_numbered(&mut self, alloc: Global, words: &str) -> Result<(), Memory> {
        let (count, text) = first_word(words);
        let (front, back) = text.split_once('#').unwrap_or((text, ""));
        for number in 0..number(count) {
            let line = format!(in alloc; "{front}{number}{back}\n")?;
            self.add_text(line.as_str())?;
        }
        Ok(())
    }

    fn add_bytes(&mut self, numbers: &str) -> Result<(), Memory> {
        for number in numbers.split(' ') {
            self.input.push(number.parse::<u8>().unwrap_or(0))?;
        }
        Ok(())
    }

    fn add_clinic(&mut self) -> Result<(), Memory> {
        for line in CLINIC {
            self.add_line(line)?;
        }
        Ok(())
    }

    fn add_failing(&mut self, call: &str, keeps: bool) -> Result<(), Memory> {
        let call = number(call);
        self.failing.push(KeeperFail { call, keeps })
    }

    // Carries out an order about what is outside the program. Returns false if it is not such an
    // order.
    fn take_outside(&mut self, word: &str, text: &str) -> Result<bool, Memory> {
        match word {
            "reads" => self.failing_reads.push(number(text))?,
            "writes" => self.failing_writes.push(number(text))?,
            "fails" => self.add_failing(text, false)?,
            "keeps" => self.add_failing(text, true)?,
            "room" => self.room = text.parse().unwrap_or(0),
            "brief" => self.is_brief = true,
            _ => return Ok(false),
        }
        Ok(true)
    }

    /// Carries out an order about the case. Returns false if it is not one.
    pub fn take(&mut self, alloc: Global, word: &str, text: &str) -> Result<bool, Memory> {
        match word {
            "word" => self.words.push(Txt::from_str(alloc, text)?)?,
            "line" => self.add_line(text)?,
            "part" => self.add_text(text)?,
            "times" => self.add_times(text)?,
            "numbered" => self.add_numbered(alloc, text)?,
            "bytes" => self.add_bytes(text)?,
            "clinic" => self.add_clinic()?,
            "" | "#" => {}
            _ => return self.take_outside(word, text),
        }
        Ok(true)
    }
}
