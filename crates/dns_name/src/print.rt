//! The text form of names (RFC 1035, 5.1).
ghost use Rattle.std.specs.Prelude.{◌≡◌, ◌+◌, ◌*◌, ◌<◌, ◌≤◌, [], ◌∷◌, ◌++◌, length, Some};
ghost use Rattle.std.specs.List.{flat_map};
ghost use Rattle.arrayvec.specs.ArrayString.{array_string_len};
ghost use Rattle.dns_name.specs.Labels.{labels_in, IsWhole};
ghost use Rattle.dns_name.specs.Text.{digits_of, is_special, octet_text, label_text, text_of};

use crate::name::Name;
use crate::octets::first_label;
use arrayvec::ArrayString;
use std::fmt;

/// The most characters of a name's text: four for each octet but the closing one.
pub const MAX_TEXT: usize = 1016;

/// Whether a character stands in a text only after a backslash.
fn is_special(octet: u8) -> bool
    ensures { result ≡ is_special octet }
{
    matches!(
        octet,
        b'.' | b'\\' | b'"' | b';' | b'(' | b')' | b'@' | b'$'
    )
}

/// A character after the others.
fn put(text: &mut ArrayString<MAX_TEXT>, character: u8)
    requires room { array_string_len text.old < MAX_TEXT }
    requires ascii { character < 128 }
    ensures { text.new.bytes ≡ text.old.bytes ++ character ∷ [] }
{
    text.push(char::from(character));
}

/// The three digits of an octet after the others.
fn put_digits(text: &mut ArrayString<MAX_TEXT>, octet: u8)
    requires { array_string_len text.old + 3 ≤ MAX_TEXT }
    ensures { text.new.bytes ≡ text.old.bytes ++ digits_of octet }
{
    put(text, b'0' + octet / 100);
    put(text, b'0' + octet / 10 % 10);
    put(text, b'0' + octet % 10);
}

/// An octet of a label after the others.
fn put_octet(text: &mut ArrayString<MAX_TEXT>, octet: u8)
    requires { array_string_len text.old + 4 ≤ MAX_TEXT }
    ensures bytes { text.new.bytes ≡ text.old.bytes ++ octet_text octet }
    ensures len { array_string_len text.new ≤ array_string_len text.old + 4 }
{
    if octet < b'!' || octet > b'~' {
        put(text, b'\\');
        put_digits(text, octet);
    } else if is_special(octet) {
        put(text, b'\\');
        put(text, octet);
    } else {
        put(text, octet);
    }
}

/// A label and its dot after the others.
fn put_label(text: &mut ArrayString<MAX_TEXT>, label: &[u8])
    requires { array_string_len text.old + 4 * length label.now + 1 ≤ MAX_TEXT }
    ensures bytes { text.new.bytes ≡ text.old.bytes ++ label_text label.now }
    ensures len { array_string_len text.new ≤ array_string_len text.old + 4 * length label.now + 1 }
{
    for octet in label {
        put_octet(text, *octet);
    }
    put(text, b'.');
}

impl Name {
    /// The name as text: its labels with a dot after each, and the root as a dot. In a label the characters
    /// `. \ " ; ( ) @ $` have a backslash in front, and octets outside 33 to 126 are three digits after one
    /// (RFC 1035, 5.1).
    pub fn to_text(&self) -> ArrayString<MAX_TEXT>
        ensures { result.bytes ≡ text_of self.now }
    {
        let mut text = ArrayString::new();
        if self.is_root() {
            put(&mut text, b'.');
            return text;
        }
        let mut rest = self.octets();
        while let Some((label, behind)) = first_label(rest) {
            put_label(&mut text, label);
            rest = behind;
        }
        text
    }
}

impl fmt::Display for Name {
    ghost output = { λ name. Some (text_of name) };

    fn fmt<W: fmt::Write>(&self, f: &mut fmt::Formatter<W>) -> fmt::Result {
        f.pad(self.to_text().as_str())
    }
}

impl fmt::Debug for Name {
    fn fmt<W: fmt::Write>(&self, f: &mut fmt::Formatter<W>) -> fmt::Result {
        f.write_str(self.to_text().as_str())
    }
}
