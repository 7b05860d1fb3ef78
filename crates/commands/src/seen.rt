//! Where a zone's text is refused: the line, the words of its entry, and the faulty word or owner.
use crate::lines::lines_of;
use dns_name::Name;
use master_file::{Cause, FileFault};
use record_text::{owner, read_front};
use std::alloc::{AllocError, Global};
use zone_lexing::{Entries, Word};

/// The part of a zone's text where it is refused.
#[derive(Drop)]
pub struct Seen<'a> {
    /// The line that the fault names.
    pub line: &'a [u8],
    /// The words of the entry that begins on the line; empty if none begins there.
    pub words: Vec<Word<'a>>,
    /// Whether the line begins with white space.
    pub indented: bool,
    /// The faulty word, or the owner of the record, if it is known.
    pub word: Option<&'a [u8]>,
}

/// Finds the part of a text that a fault refers to. None if the text has no such line.
///
/// An error is an allocation that was refused.
pub fn seen_at(
    alloc: Global,
    fault: FileFault,
    text: &[u8],
) -> Result<Option<Seen<'_>>, AllocError> {
    let rest = from_line(text, fault.line);
    let Some(line) = lines_of(rest).next() else {
        return Ok(None);
    };
    let mut words = Vec::new(alloc);
    let mut indented = false;
    match Entries::new(rest).next(&mut words)? {
        Some(head) if head.line == 1 => indented = head.indented,
        _ => words.clear(),
    }
    let word = word_at(alloc, fault, text, indented, &words)?;
    Ok(Some(Seen {
        line: line.octets,
        words,
        indented,
        word,
    }))
}

/// The words of an entry after its owner.
pub fn marks_of<'w, 'a>(indented: bool, words: &'w [Word<'a>]) -> &'w [Word<'a>] {
    match words {
        [_, behind @ ..] if !indented => behind,
        _ => words,
    }
}

/// A text from the line of this number on; empty if the text has no such line.
fn from_line(text: &[u8], number: u64) -> &[u8] {
    if number == 0 {
        return b"";
    }
    let mut rest = text;
    for _ in 1..number {
        match rest.iter().position(|octet| *octet == b'\n') {
            Some(end) => rest = &rest[end + 1..],
            None => return b"",
        }
    }
    rest
}

/// The faulty word in the entry that begins on the fault's line, or the owner of its record. None if no single word is at fault, or if no entry
/// begins on the line. An entry's words are read from its own line on; the text before it is read only to find an owner that the entry inherits.
fn word_at<'a>(
    alloc: Global,
    fault: FileFault,
    text: &'a [u8],
    indented: bool,
    words: &[Word<'a>],
) -> Result<Option<&'a [u8]>, AllocError> {
    if words.is_empty() {
        return Ok(None);
    }
    let owner = match words.first() {
        _ if indented => last_owner(alloc, fault, text)?,
        Some(Word::Plain(own)) => Some(*own),
        _ => None,
    };
    Ok(word_of(fault.cause, indented, owner, words))
}

/// The owner that the entry on a fault's line inherits, for a fault that is reported with its owner.
fn last_owner(alloc: Global, fault: FileFault, text: &[u8]) -> Result<Option<&[u8]>, AllocError> {
    if !matches!(fault.cause, Cause::Outside | Cause::Apex | Cause::Conflict) {
        return Ok(None);
    }
    let mut entries = Entries::new(text);
    let mut words = Vec::new(alloc);
    let mut owner = None;
    for _ in 0..u64::MAX {
        let Some(head) = entries.next(&mut words)? else {
            return Ok(None);
        };
        if head.line >= fault.line {
            return Ok(owner);
        }
        owner = match words.first() {
            Some(Word::Plain(text)) if !head.indented && !text.starts_with(b"$") => Some(*text),
            _ => owner,
        };
    }
    Ok(None)
}

/// The faulty word of an entry. `indented` is whether the entry's line begins with white space; `owner` is the last owner up to that line.
fn word_of<'a>(
    cause: Cause,
    indented: bool,
    owner: Option<&'a [u8]>,
    words: &[Word<'a>],
) -> Option<&'a [u8]> {
    match cause {
        Cause::Directive => octets_of(words.first()),
        Cause::BadName => octets_of(bad_name(words)),
        Cause::Number | Cause::BadClass | Cause::UnknownType => {
            octets_of(bad_mark(cause, marks_of(indented, words)))
        }
        Cause::Outside | Cause::Apex | Cause::Conflict => owner,
        _ => None,
    }
}

/// The first word that is not a valid name in any position.
fn bad_name<'w, 'a>(words: &'w [Word<'a>]) -> Option<&'w Word<'a>> {
    let root = Name::root();
    for word in words {
        if owner(*word, &root) == Err(Cause::BadName) {
            return Some(word);
        }
    }
    None
}

/// The first of the words after an owner that makes the TTL, class or type faulty, for this cause.
fn bad_mark<'w, 'a>(cause: Cause, words: &'w [Word<'a>]) -> Option<&'w Word<'a>> {
    for (at, word) in words.iter().enumerate() {
        match read_front(&words[..at + 1]) {
            Err(fault) if fault == cause => return Some(word),
            _ => {}
        }
    }
    None
}

/// The octets of a word, as written in the text.
pub fn octets_of<'a>(word: Option<&Word<'a>>) -> Option<&'a [u8]> {
    match word? {
        Word::Plain(text) | Word::Quoted(text) => Some(text),
        Word::Unclosed => None,
    }
}
