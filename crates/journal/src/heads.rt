//! What the head of a journal says (own).
use crate::frame::SUM;
use sha2::{Digest, Sha256};

/// Identifies a text: its length in octets, and its SHA-256.
#[derive(Clone, Copy, Debug, PartialEq, Eq)]
pub struct TextSum {
    /// Its length in octets.
    pub len: u64,
    /// The SHA-256 of its octets (FIPS 180-4, 6.2).
    pub sum: [u8; SUM],
}

impl TextSum {
    ghost use Rattle.std.specs.Prelude.{◌↔◌, IsTrue};
    ghost use Rattle.journal.specs.Head.{IsText};

    /// The `TextSum` of a text.
    pub fn of(text: &[u8]) -> TextSum
        ensures { IsText result text.now }
    {
        TextSum {
            len: text.len() as u64,
            sum: Sha256::digest(text),
        }
    }

    /// Whether this is the `TextSum` of a text.
    pub fn is_of(&self, text: &[u8]) -> bool
        ensures { IsTrue result ↔ IsText self.now text.now }
    {
        *self == TextSum::of(text)
    }
}

/// The head of a journal, as values.
#[derive(Clone, Copy, Debug, PartialEq, Eq)]
pub struct Head {
    /// The number of the zone text that the journal belongs to: the N of `zone-N`.
    pub number: u64,
    /// Random octets that no client knows, so that no client can put a frame into an update.
    pub random: [u8; 16],
    /// The zone text that the journal belongs to.
    pub text: TextSum,
    /// The serial of that zone text (RFC 1035, 3.3.13).
    pub serial: u32,
    /// The zone text that the store was created from, as the operator gave it.
    pub origin: TextSum,
}

/// Why octets begin with no head. The first fault is reported.
#[derive(Clone, Copy, Debug, PartialEq, Eq)]
pub enum HeadFault {
    /// There are fewer octets than a head has.
    Short,
    /// They don't begin with the name of this journal format.
    Foreign,
    /// The checksum isn't that of the head.
    WrongSum,
}
