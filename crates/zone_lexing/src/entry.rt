//! What is told of an entry.

/// An entry without its words.
#[derive(Clone, Copy, Debug, PartialEq, Eq)]
pub struct EntryHead {
    /// The line on which the entry begins, counted from 1.
    pub line: u64,
    /// Whether that line begins with a blank: the entry then takes the owner before it (RFC 1035, 5.1).
    pub indented: bool,
    /// The line of a quote or a parenthesis without its other one, or of a parenthesis inside others; it ends the entry,
    /// and nothing after it is read.
    pub unclosed: Option<u64>,
}
