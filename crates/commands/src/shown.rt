//! How octets of a zone's text are displayed.
use std::alloc::AllocError;

/// The maximum number of octets displayed of a word or a line.
const MAX_SHOWN: usize = 400;

/// Appends octets to a text, between backquotes: the first [`MAX_SHOWN`] of them, and three dots if there are more.
pub fn push_quoted(to: &mut String, octets: &[u8]) -> Result<(), AllocError> {
    to.push('`')?;
    push_octets(to, octets)?;
    to.push('`')?;
    if octets.len() > MAX_SHOWN {
        to.push_str("...")?;
    }
    Ok(())
}

/// Appends the first [`MAX_SHOWN`] octets to a text.
pub fn push_octets(to: &mut String, octets: &[u8]) -> Result<(), AllocError> {
    for octet in &octets[..octets.len().min(MAX_SHOWN)] {
        push_octet(to, *octet)?;
    }
    Ok(())
}

/// Appends an octet to a text in printable form: a tab as a space, and any other unprintable octet as a backslash and three digits (RFC 1035, 5.1).
fn push_octet(to: &mut String, octet: u8) -> Result<(), AllocError> {
    match octet {
        b'\t' => to.push(' '),
        b' '..=b'~' => to.push(char::from(octet)),
        _ => {
            to.push('\\')?;
            for digit in [octet / 100, octet / 10 % 10, octet % 10] {
                to.push(char::from(b'0' + digit))?;
            }
            Ok(())
        }
    }
}
