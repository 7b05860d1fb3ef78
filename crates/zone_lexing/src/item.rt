//! What a zone text is made of: words, and what stands between them (RFC 1035, 5.1).
ghost use Rattle.std.specs.Prelude.{◌≡◌, ◌<◌, ◌≤◌, ◌+◌, length, false, IfSome};
ghost use Rattle.zone_lexing.specs.Items.{line_end, is_blank, ends, escapes, run_len, string_at, item_at};

/// What an item of a text is.
#[derive(Clone, Copy)]
pub(crate) enum Token {
    /// A word outside quotes.
    Bare,
    /// A string with its two quotes.
    InQuotes,
    /// A space or a tab.
    Blank,
    /// From a semicolon up to the line's end.
    Comment,
    /// An opening parenthesis.
    Open,
    /// A closing parenthesis.
    Close,
    /// A quote whose line ends before its string does, and the rest of that line.
    Unclosed,
    /// An LF, or a CR and an LF.
    LineEnd,
}

/// Octets of a line that belong together.
#[derive(Clone, Copy)]
pub(crate) enum Run {
    /// A word outside quotes.
    OfWord,
    /// What stands between quotes.
    OfString,
    /// A comment.
    OfComment,
}

/// How many octets end the line at the front of a text; 0 where the line goes on.
fn line_end(text: &[u8]) -> usize
    ensures end { result ≡ line_end text.now }
    ensures within { result ≤ length text.now }
{
    match text {
        [b'\n', ..] => 1,
        [b'\r', b'\n', ..] => 2,
        _ => 0,
    }
}

/// A space or a tab.
fn is_blank(octet: u8) -> bool
    ensures { result ≡ is_blank octet }
{
    octet == b' ' || octet == b'\t'
}

impl Run {
    /// Whether an octet ends the run; whether a backslash takes it along.
    fn ends(self, escaped: bool, octet: u8) -> bool
        ensures { result ≡ ends self escaped octet }
    {
        match self {
            _ if escaped => false,
            Run::OfWord => is_blank(octet) || matches!(octet, b'"' | b';' | b'(' | b')'),
            Run::OfString => octet == b'"',
            Run::OfComment => false,
        }
    }
}

/// Whether an octet is a backslash that takes the next one along; whether a backslash takes it along.
fn escapes(escaped: bool, octet: u8) -> bool
    ensures { result ≡ escapes escaped octet }
{
    !escaped && octet == b'\\'
}

/// How many octets the run at the front of a text has, up to what ends it or its line. A backslash takes the next octet
/// of the line with it.
fn run_len(run: Run, text: &[u8]) -> usize
    ensures len { result ≡ run_len run false text.now }
    ensures within { result ≤ length text.now }
{
    let mut escaped = false;
    for (at, octet) in text.iter().enumerate() {
        if line_end(&text[at..]) > 0 || run.ends(escaped, *octet) {
            return at;
        }
        escaped = escapes(escaped, *octet);
    }
    text.len()
}

/// What a quote opens before a text, and how many octets spell it with its quotes.
fn string_at(text: &[u8]) -> (Token, usize)
    ensures string { result ≡ string_at text.now }
    ensures within { result.1 ≤ length text.now + 1 }
{
    let len = run_len(Run::OfString, text);
    match &text[len..] {
        [b'"', ..] => (Token::InQuotes, len + 2),
        _ => (Token::Unclosed, len + 1),
    }
}

/// The item at the front of a text, and how many octets spell it; None where there is no text.
pub(crate) fn item_at(text: &[u8]) -> Option<(Token, usize)>
    ensures item { result ≡ item_at text.now }
    ensures some { IfSome result (λ found. 0 < found.1) }
    ensures within { IfSome result (λ found. found.1 ≤ length text.now) }
    ensures quotes { IfSome result (λ found. found.0 ≡ Token.InQuotes → 2 ≤ found.1) }
{
    let [first, behind @ ..] = text else {
        return None;
    };
    let end = line_end(text);
    if end > 0 {
        return Some((Token::LineEnd, end));
    }
    Some(match first {
        b' ' | b'\t' => (Token::Blank, 1),
        b'(' => (Token::Open, 1),
        b')' => (Token::Close, 1),
        b';' => (Token::Comment, run_len(Run::OfComment, text)),
        b'"' => string_at(behind),
        _ => (Token::Bare, run_len(Run::OfWord, text)),
    })
}
