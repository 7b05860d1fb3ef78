//! The files that the lines of a plain text are of.
ghost use Rattle.std.specs.Prelude.{◌≡◌, ◌↔◌, ◌≤◌, ◌^◌, IfSome, IsNone};
ghost use Rattle.wide_file.specs.PlainText.{line_in, place_in};

use crate::file_path::FilePath;

/// A line of a file.
#[derive(Drop)]
pub struct Place {
    /// The file.
    pub file: FilePath,
    /// The line, counted from 1; 0 where it is none.
    pub line: u64,
}

/// Lines of a plain text that are those of one file, at the same distance.
#[derive(Drop)]
pub(crate) struct Part {
    /// The first line of the text.
    pub at: u64,
    /// The file.
    pub file: FilePath,
    /// The line of it for that.
    pub from: u64,
}

impl Part {
    /// The line of the text for a line of the file; None over 2^64 - 1.
    pub fn line_in(&self, line: u64) -> Option<u64>
        ensures none { IsNone result ↔ (2 ^ 64 ≤ line_in self.now line) }
        ensures line { IfSome result (λ at. at ≡ line_in self.now line) }
    {
        self.at.checked_add(line.saturating_sub(self.from))
    }

    /// The file and its line for a line of the text; None over 2^64 - 1.
    pub fn place_in(&self, line: u64) -> Option<(&FilePath, u64)>
        ensures none { IsNone result ↔ (2 ^ 64 ≤ (place_in self.now line).line) }
        ensures place { IfSome result (λ place. place_in self.now line ≡ record { file = place.0.now; line = place.1 }) }
    {
        let own = self.from.checked_add(line.saturating_sub(self.at))?;
        Some((&self.file, own))
    }
}
