//! The last lines that were written.
ghost use Rattle.std.specs.Prelude.{◌≤◌, ◌<◌, vec_len};

use std::alloc::{AllocError, Global};
use std::sync::{Mutex, Wait};

/// The last lines that were written, which threads share.
#[derive(Drop)]
pub struct RecentLines {
    alloc: Global,
    most: usize,
    lines: Mutex<Vec<String>>,
}

impl RecentLines {
    /// The last ones, at most so many; none was written yet.
    pub fn new(alloc: Global, most: usize) -> RecentLines {
        RecentLines {
            alloc,
            most,
            lines: Mutex::new(Vec::new(alloc)),
        }
    }

    /// A line was written. One for which there is no memory is left out.
    pub fn put<R: Wait>(&self, rt: &R, line: String) {
        let mut lines = self.lines.lock(rt);
        let _ = keep(&mut *lines, self.most, line);
    }

    /// The lines, the oldest first. The fault is a request for memory that was refused.
    pub fn copy<R: Wait>(&self, rt: &R) -> Result<Vec<String>, AllocError> {
        let lines = self.lines.lock(rt);
        let mut copied = Vec::new(self.alloc);
        for line in lines.iter() {
            copied.push(String::from_str(self.alloc, line.as_str())?)?;
        }
        Ok(copied)
    }
}

/// Puts a line after others, and takes the oldest one away where there are so many already. The fault is a growth that was refused.
fn keep(lines: &mut Vec<String>, most: usize, line: String) -> Result<(), AllocError>
    ensures { 0 < most → vec_len lines.old ≤ most → vec_len lines.new ≤ most }
{
    if lines.len() >= most && !lines.is_empty() {
        let _oldest = lines.remove(0);
    }
    lines.push(line)?;
    Ok(())
}
