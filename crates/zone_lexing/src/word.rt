//! The words of an entry.

/// A word of an entry, as it is written: its escapes are not undone.
#[derive(Clone, Copy)]
pub enum Word<'a> {
    /// Outside quotes.
    Plain(&'a [u8]),
    /// What stands between two quotes.
    Quoted(&'a [u8]),
    /// A quote or a parenthesis without its other one stands where a word would.
    Unclosed,
}
