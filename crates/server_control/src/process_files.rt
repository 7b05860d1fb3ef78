//! What the system knows of the process (Linux, proc(5): /proc/self/stat and /proc/self/status).
use metric_families::ProcessFacts;
use std::alloc::{AllocError, Global};
use std::fs::File;
use std::io::{Read, Seek, SeekFrom};

/// How many nanoseconds one of the ticks has in which the system counts processor time: USER_HZ is 100 (Linux, proc(5)).
const TICK: u64 = 10_000_000;

/// How many words of the line stand between the program's name and the processor time.
const BEFORE: usize = 11;

/// The files in which the system reports on the process: the one of its times, and the one of its memory.
pub struct ProcessFiles {
    times: Option<File>,
    memory: Option<File>,
}

impl Drop for ProcessFiles {
    fn drop(self) {
        let ProcessFiles {
            times: _,
            memory: _,
        } = self;
    }
}

impl ProcessFiles {
    /// These files; None for one that the system doesn't have.
    pub fn new(times: Option<File>, memory: Option<File>) -> ProcessFiles {
        ProcessFiles { times, memory }
    }

    /// What the files say. None where one is missing, or says something else. The fault is a request for memory that was refused.
    pub(crate) fn read(&mut self, alloc: Global) -> Result<Option<ProcessFacts>, AllocError> {
        let (Some(times), Some(memory)) = (&mut self.times, &mut self.memory) else {
            return Ok(None);
        };
        let Some(times) = text_of(times, alloc)? else {
            return Ok(None);
        };
        let Some(memory) = text_of(memory, alloc)? else {
            return Ok(None);
        };
        Ok(facts_in(times.as_str(), memory.as_str()))
    }
}

/// The text of a file. None where it can't be read. The fault is a request for memory that was refused.
fn text_of(file: &mut File, alloc: Global) -> Result<Option<String>, AllocError> {
    let mut octets = Vec::new(alloc);
    if file.seek(SeekFrom::Start(0)).is_err() || file.read_to_end(&mut octets).is_err() {
        return Ok(None);
    }
    Ok(Some(String::from_utf8_lossy(alloc, &octets)?))
}

/// What the texts of both files say. None where they say something else.
fn facts_in(times: &str, memory: &str) -> Option<ProcessFacts> {
    Some(ProcessFacts {
        processor: ticks_in(times)?.saturating_mul(TICK),
        resident: octets_in(memory, "VmRSS:")?,
        in_all: octets_in(memory, "VmSize:")?,
    })
}

/// For how many ticks the process has run, in its own code and in the system's: the fourteenth and fifteenth word, the second of which is the program's name in parentheses.
fn ticks_in(times: &str) -> Option<u64> {
    let (_name, rest) = times.rsplit_once(')')?;
    let mut words = rest.split_ascii_whitespace().skip(BEFORE);
    let own = words.next()?.parse::<u64>().ok()?;
    let system = words.next()?.parse::<u64>().ok()?;
    Some(own.saturating_add(system))
}

/// The octets in a line that begins with a word, and gives them in units of 1,024. None where there is no such line.
fn octets_in(memory: &str, word: &str) -> Option<u64> {
    let line = memory.lines().find(|line| line.starts_with(word))?;
    let number = line.split_ascii_whitespace().nth(1)?;
    Some(number.parse::<u64>().ok()?.saturating_mul(1024))
}
