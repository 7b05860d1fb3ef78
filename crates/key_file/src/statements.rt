//! The statements of a key file.
ghost use Rattle.std.specs.Prelude.{◌≡◌, ◌∷◌, ◌++◌, IfOk, IfErr, IfSome};

use crate::fault::{KeyFault, KeyFileFault};
use crate::tokens::{Token, TokenKind};

/// A key as its statement has it.
#[derive(Clone, Copy, PartialEq, Eq)]
pub(crate) struct KeyText<'a> {
    /// The line where the statement begins.
    pub line: usize,
    /// The key's name.
    pub name: &'a [u8],
    /// Its algorithm.
    pub algorithm: &'a [u8],
    /// Its secret, in base64.
    pub secret: &'a [u8],
}

/// A clause of a `key` statement.
#[derive(Clone, Copy)]
enum Clause<'a> {
    /// Its algorithm.
    Algorithm(&'a [u8]),
    /// Its secret.
    Secret(&'a [u8]),
}

/// The words and marks of a file, of which some are taken.
#[derive(Drop)]
pub(crate) struct Statements<'t, 'a> {
    tokens: &'t [Token<'a>],
    next: usize,
    line: usize,
}

impl<'t, 'a> Statements<'t, 'a> {
    /// The statements of these words and marks.
    pub fn new(tokens: &'t [Token<'a>]) -> Statements<'t, 'a> {
        Statements {
            tokens,
            next: 0,
            line: 1,
        }
    }

    /// The key of the next statement; None where none is left.
    pub fn next_key(&mut self) -> Result<Option<KeyText<'a>>, KeyFileFault> {
        let Some(first) = self.next_token() else {
            return Ok(None);
        };
        let TokenKind::Word(word) = first.kind else {
            return Err(self.fault(KeyFault::Statement));
        };
        if word.eq_ignore_ascii_case(b"key") {
            return Ok(Some(self.key_statement(first.line)?));
        }
        let key = key_in_line(first.line, word)?;
        self.skip_end();
        Ok(Some(key))
    }

    /// The key of a `key` statement, whose first word was taken.
    fn key_statement(&mut self, line: usize) -> Result<KeyText<'a>, KeyFileFault> {
        let name = self.word()?;
        self.mark(b'{')?;
        let first = self.clause()?;
        let second = self.clause()?;
        self.mark(b'}')?;
        self.skip_end();
        let (algorithm, secret) = match (first, second) {
            (Clause::Algorithm(algorithm), Clause::Secret(secret)) => (algorithm, secret),
            (Clause::Secret(secret), Clause::Algorithm(algorithm)) => (algorithm, secret),
            (Clause::Algorithm(_), Clause::Algorithm(_)) => {
                return Err(self.fault(KeyFault::Clauses));
            }
            (Clause::Secret(_), Clause::Secret(_)) => return Err(self.fault(KeyFault::Clauses)),
        };
        Ok(KeyText {
            line,
            name,
            algorithm,
            secret,
        })
    }

    /// A clause, with its end.
    fn clause(&mut self) -> Result<Clause<'a>, KeyFileFault> {
        let first = self.word()?;
        let word = self.word()?;
        self.mark(b';')?;
        if first.eq_ignore_ascii_case(b"algorithm") {
            return Ok(Clause::Algorithm(word));
        }
        if first.eq_ignore_ascii_case(b"secret") {
            return Ok(Clause::Secret(word));
        }
        Err(self.fault(KeyFault::Clauses))
    }

    /// The next word or mark.
    fn next_token(&mut self) -> Option<Token<'a>> {
        let token = *self.tokens.get(self.next)?;
        self.line = token.line;
        self.next = self.next.saturating_add(1);
        Some(token)
    }

    /// The word that has to be next.
    fn word(&mut self) -> Result<&'a [u8], KeyFileFault> {
        let Some(token) = self.next_token() else {
            return Err(self.fault(KeyFault::Ends));
        };
        match token.kind {
            TokenKind::Word(word) => Ok(word),
            TokenKind::Mark(_) => Err(self.fault(KeyFault::Word)),
        }
    }

    /// Takes the mark that has to be next.
    fn mark(&mut self, mark: u8) -> Result<(), KeyFileFault> {
        let Some(token) = self.next_token() else {
            return Err(self.fault(KeyFault::Ends));
        };
        if token.kind == TokenKind::Mark(mark) {
            return Ok(());
        }
        Err(self.fault(KeyFault::Mark(char::from(mark))))
    }

    /// Takes a `;` that is next.
    fn skip_end(&mut self) {
        if let Some(token) = self.tokens.get(self.next) {
            if token.kind == TokenKind::Mark(b';') {
                self.next = self.next.saturating_add(1);
            }
        }
    }

    /// What is wrong, at the line of the word or mark that was taken last.
    fn fault(&self, fault: KeyFault) -> KeyFileFault {
        KeyFileFault {
            line: self.line,
            fault,
        }
    }
}

/// The key of a word `ALGORITHM:NAME:SECRET`.
fn key_in_line(line: usize, word: &[u8]) -> Result<KeyText<'_>, KeyFileFault>
    ensures line { IfOk result (λ key. key.line ≡ line) }
    ensures parts { IfOk result (λ key. word.now ≡ key.algorithm.now ++ 58 ∷ (key.name.now ++ 58 ∷ key.secret.now)) }
    ensures err { IfErr result (λ fault. fault ≡ record { line = line; fault = KeyFault.Statement }) }
{
    let fault = KeyFileFault {
        line,
        fault: KeyFault::Statement,
    };
    let Some((algorithm, rest)) = split_at_colon(word) else {
        return Err(fault);
    };
    let Some((name, secret)) = split_at_colon(rest) else {
        return Err(fault);
    };
    Ok(KeyText {
        line,
        name,
        algorithm,
        secret,
    })
}

/// The octets before and after the first colon; None where there is none.
fn split_at_colon(word: &[u8]) -> Option<(&[u8], &[u8])>
    ensures { IfSome result (λ parts. word.now ≡ parts.0.now ++ 58 ∷ parts.1.now) }
{
    let at = word.iter().position(|octet| *octet == b':')?;
    let (front, rest) = word.split_at(at);
    Some((front, rest.get(1..)?))
}
