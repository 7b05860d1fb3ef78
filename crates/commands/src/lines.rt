//! The lines of a text.
ghost use Rattle.std.specs.Prelude.{◌≡◌, length};
ghost use Rattle.std.specs.Io.BufRead.{strip_last};
ghost use Rattle.std.specs.Iterator.{at_most};
ghost use Rattle.commands.specs.Input.{without_end as line_without_end};

/// The maximum length of the message on a line, in octets (RFC 1035, 4.2.2).
pub const MAX_REQUEST: usize = 65_535;

/// A line of a text, without its end.
#[derive(Clone, Copy)]
pub struct Line<'a> {
    /// The line's number in the text, counted from 1.
    pub number: u64,
    /// The line's octets, without the LF, or the CR and LF, that ends it.
    pub octets: &'a [u8],
}

/// The lines of a text in order; the last line may lack its end.
#[derive(Drop)]
pub struct Lines<'a> {
    rest: &'a [u8],
    number: u64,
}

/// The lines of a text.
pub fn lines_of(text: &[u8]) -> Lines<'_> {
    Lines {
        rest: text,
        number: 0,
    }
}

/// A line's octets without the LF, or the CR and LF, at its end.
pub fn without_end(line: &[u8]) -> &[u8]
    ensures { result.now ≡ line_without_end line.now }
{
    match line {
        [front @ .., b'\r', b'\n'] | [front @ .., b'\n'] => front,
        _ => line,
    }
}

/// A line without the LF at its end.
pub fn without_lf(line: &[u8]) -> &[u8]
    ensures { result.now ≡ strip_last 10 line.now }
{
    match line {
        [front @ .., b'\n'] => front,
        _ => line,
    }
}

impl<'a> Iterator for Lines<'a> {
    type Item = Line<'a>;

    ghost remaining = { λ s. at_most (length s.rest.now) };

    fn next(&mut self) -> Option<Line<'a>> {
        if self.rest.is_empty() {
            return None;
        }
        let len = match self.rest.iter().position(|octet| *octet == b'\n') {
            Some(end) => end + 1,
            None => self.rest.len(),
        };
        let (line, rest) = self.rest.split_at(len);
        self.rest = rest;
        self.number = self.number.saturating_add(1);
        Some(Line {
            number: self.number,
            octets: without_end(line),
        })
    }
}
