//! What stands after an opening parenthesis (RFC 1035, 5.1).
ghost use Rattle.std.specs.Prelude.{◌≡◌, ◌+◌, ◌^◌, ◌<◌, length};
ghost use Rattle.zone_lexing.specs.Items.{items};
ghost use Rattle.zone_lexing.specs.Entries.{closes, nested};

use crate::item::{Token, item_at};

/// Whether a closing parenthesis stands in a text.
pub(crate) fn closes(text: &[u8]) -> bool
    ensures { result ≡ closes (items 0 text.now) }
{
    let mut rest = text;
    while let Some((token, len)) = item_at(rest) {
        match token {
            Token::Close => return true,
            _ => {}
        }
        rest = &rest[len..];
    }
    false
}

/// The line of the first opening parenthesis in a text, counted from 1; so many lines end before the text.
pub(crate) fn nested(text: &[u8], lines: u64) -> Option<u64>
    requires { lines + length text.now < 2 ^ 64 }
    ensures { result ≡ nested (lines + 1) (items 0 text.now) }
{
    let mut rest = text;
    let mut above = lines;
    while let Some((token, len)) = item_at(rest) {
        match token {
            Token::Open => return Some(above + 1),
            Token::LineEnd => above += 1,
            _ => {}
        }
        rest = &rest[len..];
    }
    None
}
