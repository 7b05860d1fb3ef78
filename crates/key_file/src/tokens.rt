//! The words and marks of a key file.
use crate::fault::{KeyFault, KeyFileFault};
use std::alloc::Global;

/// A word or a mark, with the line where it ends.
#[derive(Clone, Copy, PartialEq, Eq)]
pub(crate) struct Token<'a> {
    /// The line, from 1.
    pub line: usize,
    /// What it is.
    pub kind: TokenKind<'a>,
}

/// A word, or a mark.
#[derive(Clone, Copy, PartialEq, Eq)]
pub(crate) enum TokenKind<'a> {
    /// A word, without its quotes.
    Word(&'a [u8]),
    /// `{`, `}` or `;`.
    Mark(u8),
}

/// What the octets before a position leave open.
#[derive(Clone, Copy, PartialEq, Eq)]
enum State {
    /// Nothing.
    Blank,
    /// A word that began at a position.
    Word(usize),
    /// A quoted word that began at a position.
    Quoted(usize),
    /// A comment up to the line's end.
    LineComment,
    /// A comment up to `*/` that began at a position, and the line of that.
    BlockComment(usize, usize),
}

/// A text that is taken apart.
#[derive(Drop)]
struct Lexer<'a> {
    text: &'a [u8],
    tokens: Vec<Token<'a>>,
    state: State,
    line: usize,
}

/// The words and marks of a text, in order. An error is a comment or a quoted word that isn't closed, or lack of memory.
pub(crate) fn tokens_of<'a>(alloc: Global, text: &'a [u8]) -> Result<Vec<Token<'a>>, KeyFileFault> {
    let mut lexer = Lexer {
        text,
        tokens: Vec::new(alloc),
        state: State::Blank,
        line: 1,
    };
    for (at, octet) in text.iter().enumerate() {
        lexer.step(at, *octet)?;
    }
    lexer.finish()
}

impl<'a> Lexer<'a> {
    /// Takes the octet at a position.
    fn step(&mut self, at: usize, octet: u8) -> Result<(), KeyFileFault> {
        match self.state {
            State::Blank => self.start_token(at, octet)?,
            State::Word(start) => {
                if ends_word(octet) {
                    self.put_word(start, at)?;
                    self.start_token(at, octet)?;
                }
            }
            State::Quoted(start) => {
                if octet == b'\n' {
                    return Err(self.fault(KeyFault::Open));
                }
                if octet == b'"' {
                    self.put_word(start, at)?;
                    self.state = State::Blank;
                }
            }
            State::LineComment => {
                if octet == b'\n' {
                    self.state = State::Blank;
                }
            }
            State::BlockComment(start, _) => {
                if octet == b'/' && at.saturating_sub(start) >= 3 && self.is_after(at, b'*') {
                    self.state = State::Blank;
                }
            }
        }
        if octet == b'\n' {
            self.line = self.line.saturating_add(1);
        }
        Ok(())
    }

    /// Takes the octet at a position, before which nothing is open.
    fn start_token(&mut self, at: usize, octet: u8) -> Result<(), KeyFileFault> {
        let next = self.text.get(at.saturating_add(1)).copied();
        self.state = match (octet, next) {
            (b'#', _) | (b'/', Some(b'/')) => State::LineComment,
            (b'/', Some(b'*')) => State::BlockComment(at, self.line),
            (b'"', _) => State::Quoted(at.saturating_add(1)),
            (b'{' | b'}' | b';', _) => {
                self.put(TokenKind::Mark(octet))?;
                State::Blank
            }
            _ if octet.is_ascii_whitespace() => State::Blank,
            _ => State::Word(at),
        };
        Ok(())
    }

    /// Whether the octet before a position is this one.
    fn is_after(&self, at: usize, octet: u8) -> bool {
        self.text.get(at.saturating_sub(1)) == Some(&octet)
    }

    /// Puts the word between two positions.
    fn put_word(&mut self, start: usize, end: usize) -> Result<(), KeyFileFault> {
        let word = self.text.get(start..end).unwrap_or(&[]);
        self.put(TokenKind::Word(word))
    }

    /// Puts a word or a mark.
    fn put(&mut self, kind: TokenKind<'a>) -> Result<(), KeyFileFault> {
        let line = self.line;
        if self.tokens.push(Token { line, kind }).is_err() {
            return Err(self.fault(KeyFault::NoMemory));
        }
        Ok(())
    }

    /// Ends the text, and gives its words and marks.
    fn finish(self) -> Result<Vec<Token<'a>>, KeyFileFault> {
        let mut lexer = self;
        match lexer.state {
            State::Word(start) => {
                let end = lexer.text.len();
                lexer.put_word(start, end)?;
            }
            State::Quoted(_) => return Err(lexer.fault(KeyFault::Open)),
            State::BlockComment(_, line) => {
                return Err(KeyFileFault {
                    line,
                    fault: KeyFault::Open,
                });
            }
            State::Blank | State::LineComment => {}
        }
        Ok(lexer.tokens)
    }

    /// What is wrong, at this line.
    fn fault(&self, fault: KeyFault) -> KeyFileFault {
        KeyFileFault {
            line: self.line,
            fault,
        }
    }
}

/// Whether a word without quotes ends before an octet.
fn ends_word(octet: u8) -> bool {
    octet.is_ascii_whitespace() || matches!(octet, b'{' | b'}' | b';' | b'"')
}
