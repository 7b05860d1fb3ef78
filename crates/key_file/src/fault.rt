//! Why a key file is refused.
use std::fmt;

/// Why a key file is refused, and where. It has no word of the file.
#[derive(Clone, Copy, Debug, PartialEq, Eq)]
pub struct KeyFileFault {
    /// The line, from 1.
    pub line: usize,
    /// What is wrong there.
    pub fault: KeyFault,
}

/// What is wrong in a key file.
#[derive(Clone, Copy, Debug, PartialEq, Eq)]
pub enum KeyFault {
    /// The file ends within a statement.
    Ends,
    /// A comment or a quoted word isn't closed.
    Open,
    /// Neither a `key` statement nor `ALGORITHM:NAME:SECRET`.
    Statement,
    /// A word is expected.
    Word,
    /// A mark is expected: `{`, `}` or `;`.
    Mark(char),
    /// A `key` statement must have `algorithm` and `secret`, each once.
    Clauses,
    /// The algorithm is hmac-md5 or hmac-sha1.
    WeakAlgorithm,
    /// The algorithm is another that isn't known.
    UnknownAlgorithm,
    /// The key's name isn't one.
    BadName,
    /// The key's name has more than 128 octets.
    LongName,
    /// The secret isn't base64 (RFC 4648, 4).
    Base64,
    /// The secret has no octet, or more than 1,024.
    Size,
    /// A key before has the same name.
    Twice,
    /// There are more than 256 keys.
    TooMany,
    /// A growth was refused.
    NoMemory,
}

impl fmt::Display for KeyFileFault {
    fn fmt<W: fmt::Write>(&self, f: &mut fmt::Formatter<W>) -> fmt::Result {
        let line = self.line;
        match self.fault {
            KeyFault::NoMemory => write!(f, "out of memory"),
            KeyFault::Mark(mark) => write!(f, "line {line}: '{mark}' is missing"),
            fault => {
                let words = words_of(fault);
                write!(f, "line {line}: {words}")
            }
        }
    }
}

/// What is wrong, in words.
fn words_of(fault: KeyFault) -> &'static str {
    match fault {
        KeyFault::Ends => "the file ends within a key",
        KeyFault::Open => "a comment or a quoted word is not closed",
        KeyFault::Statement => "neither a key statement nor ALGORITHM:NAME:SECRET",
        KeyFault::Word => "a word is missing",
        KeyFault::Mark(_) => "a mark is missing",
        KeyFault::Clauses => "a key has algorithm and secret, each once",
        KeyFault::WeakAlgorithm => {
            "hmac-md5 and hmac-sha1 are too weak; use hmac-sha256, hmac-sha384 or hmac-sha512"
        }
        KeyFault::UnknownAlgorithm =>
            "the algorithm is not hmac-sha256, hmac-sha384 or hmac-sha512",
        KeyFault::BadName => "the key's name is not a domain name",
        KeyFault::LongName => "the key's name is longer than 128 octets",
        KeyFault::Base64 => "the secret is not base64",
        KeyFault::Size => "the secret has no octet, or more than 1024",
        KeyFault::Twice => "a key before has this name",
        KeyFault::TooMany => "more than 256 keys",
        KeyFault::NoMemory => "out of memory",
    }
}
