//! Names as text (RFC 1035, 5.1).
ghost use Rattle.std.specs.Prelude.{◌≡◌, ℕ, ◌<◌, ◌≤◌, List, [], ◌∷◌, ◌++◌, length, IfSome, MatchOption};
ghost use Rattle.dns_name.specs.Gather.{IsGathered, IsAllOf};
ghost use Rattle.dns_name.specs.Text.{marks, mark_at, octet_at, escaped, numbered, name_of_text, lawful};

use crate::name::{MAX_LABEL, MAX_NAME, Name};
use crate::octets::{append, append_label};
use arrayvec::ArrayVec;
use thiserror::Error;

/// Why a text is no name. A bad escape is told before the others, an empty label before one that is too long,
/// and that before a name that is too long.
#[derive(Clone, Copy, Debug, PartialEq, Eq, Error)]
pub enum NameFault {
    /// A label of more than 63 octets (RFC 1035, 2.3.4).
    #[error("N1 LabelTooLong")]
    LabelTooLong,
    /// More than 255 octets on the wire (RFC 1035, 2.3.4).
    #[error("N2 NameTooLong")]
    NameTooLong,
    /// Two dots together, a dot in front, or no text at all.
    #[error("N3 EmptyLabel")]
    EmptyLabel,
    /// A backslash that neither a character nor three digits up to 255 follow (RFC 1035, 5.1).
    #[error("N4 BadEscape")]
    BadEscape,
}

/// A place in the text of a name: the dot between two labels, or one octet of a label.
#[derive(Clone, Copy)]
enum Mark {
    Dot,
    Octet(u8),
}

/// The first mark of a text, and how many characters spell it.
fn mark_at(text: &[u8]) -> Option<(Mark, usize)>
    ensures { result ≡ mark_at text.now }
{
    match text {
        [b'\\', rest @ ..] => escaped(rest),
        [b'.', ..] => Some((Mark::Dot, 1)),
        [octet, ..] => Some((Mark::Octet(*octet), 1)),
        [] => None,
    }
}

/// What stands after a backslash, and how many characters the backslash and it are.
fn escaped(text: &[u8]) -> Option<(Mark, usize)>
    ensures { result ≡ escaped text.now }
{
    let first = *text.first()?;
    if first.is_ascii_digit() {
        numbered(text)
    } else {
        Some((Mark::Octet(first), 2))
    }
}

/// The octet that three digits stand for.
fn numbered(text: &[u8]) -> Option<(Mark, usize)>
    ensures { result ≡ numbered text.now }
{
    let [a, b, c, ..] = text else {
        return None;
    };
    if !a.is_ascii_digit() || !b.is_ascii_digit() || !c.is_ascii_digit() {
        return None;
    }
    let number = u16::from(*a - b'0') * 100 + u16::from(*b - b'0') * 10 + u16::from(*c - b'0');
    let octet = u8::try_from(number).ok()?;
    Some((Mark::Octet(octet), 4))
}

/// The octet that the front of a text stands for, and how many characters spell it: a backslash and three digits the
/// octet of that number, a backslash and another character that character, and another octet itself. None where
/// there is no text, or where a backslash has neither form after it (RFC 1035, 5.1).
pub fn octet_at(text: &[u8]) -> Option<(u8, usize)>
    ensures octet { result ≡ octet_at text.now }
    ensures within { IfSome result (λ spelt. (0 < spelt.1) × (spelt.1 ≤ length text.now)) }
{
    let (mark, len) = mark_at(text)?;
    match mark {
        Mark::Dot => Some((b'.', len)),
        Mark::Octet(octet) => Some((octet, len)),
    }
}

/// What is read of a name's text: the octets of the closed labels, the first 64 octets of the current label, and
/// what is wrong with the closed labels.
#[derive(Drop)]
struct Gathered {
    octets: ArrayVec<u8, MAX_NAME>,
    label: ArrayVec<u8, 64>,
    empty: bool,
    long: bool,
    crowded: bool,
}

impl Gathered {
    /// Nothing is read.
    fn new() -> Gathered
        ensures { IsGathered result [] [] }
    {
        Gathered {
            octets: ArrayVec::new(),
            label: ArrayVec::new(),
            empty: false,
            long: false,
            crowded: false,
        }
    }

    /// One more octet of the current label.
    fn push(&mut self, octet: u8)
        ensures { (labels : List (List ℕ)) (label : List ℕ) → IsGathered self.old labels label → IsGathered self.new labels (label ++ octet ∷ []) }
    {
        let _ = self.label.try_push(octet);
    }

    /// The current label is whole.
    fn close(&mut self)
        ensures { (labels : List (List ℕ)) (label : List ℕ) → IsGathered self.old labels label → IsGathered self.new (labels ++ label ∷ []) [] }
    {
        let len = self.label.len();
        self.empty |= len == 0;
        self.long |= len > MAX_LABEL;
        self.crowded |= !append_label(&mut self.octets, self.label.as_slice());
        self.label.clear();
    }

    /// The name of the closed labels, with those of another after them.
    fn named(mut self, behind: &Name) -> Result<Name, NameFault>
        requires { (labels : List (List ℕ)) × IsGathered self labels [] }
        ensures { (labels : List (List ℕ)) → IsGathered self labels [] → result ≡ lawful (labels ++ behind.now) }
    {
        let rest = behind.wire();
        if self.empty {
            return Err(NameFault::EmptyLabel);
        }
        if self.long {
            return Err(NameFault::LabelTooLong);
        }
        if self.crowded || self.octets.len() + rest.len() > MAX_NAME {
            return Err(NameFault::NameTooLong);
        }
        append(&mut self.octets, rest);
        Ok(Name::from_octets(self.octets))
    }
}

/// The labels of a text; None where a backslash has no escape after it.
fn gather(text: &[u8]) -> Option<Gathered>
    ensures { MatchOption result (marks 0 text.now ≡ None) (IsAllOf text.now) }
{
    let mut gathered = Gathered::new();
    let mut rest = text;
    while !rest.is_empty() {
        let (mark, len) = mark_at(rest)?;
        match mark {
            Mark::Dot => gathered.close(),
            Mark::Octet(octet) => gathered.push(octet),
        }
        rest = &rest[len..];
    }
    Some(gathered)
}

impl Name {
    /// The name that a text stands for: labels with dots between them, an octet as itself, after a backslash, or as
    /// three digits after one. A text that ends in no dot has the origin after it; a dot alone is the root, and `@`
    /// alone the origin, where `\@` is a label (RFC 1035, 5.1).
    pub fn from_text(text: &[u8], origin: &Name) -> Result<Name, NameFault>
        ensures { result ≡ name_of_text text.now origin.now }
    {
        if text == b"@".as_slice() {
            return Ok(origin.copy());
        }
        if text.is_empty() {
            return Err(NameFault::EmptyLabel);
        }
        if text == b".".as_slice() {
            return Ok(Name::root());
        }
        let Some(mut gathered) = gather(text) else {
            return Err(NameFault::BadEscape);
        };
        if gathered.label.is_empty() {
            return gathered.named(&Name::root());
        }
        gathered.close();
        gathered.named(origin)
    }
}
