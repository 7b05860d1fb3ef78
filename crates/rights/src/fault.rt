//! Why a rule is refused.
ghost use Rattle.std.specs.Prelude.{◌≡◌};
ghost use Rattle.rights.specs.declared.fault.RuleFault.TheVariants.{NoMemory as no_memory};

use dns_name::NameFault;
use std::alloc::AllocError;
use std::fmt;

/// Why the text of a rule is refused. Each has the word that is refused.
#[derive(Clone, Copy, Debug, PartialEq, Eq)]
pub enum RuleFault<'a> {
    /// The text has no colon with a blank after it.
    NoColon,
    /// The word is neither an address nor a prefix.
    Address(&'a str),
    /// The number of bits of the prefix is none that its addresses have.
    Length(&'a str),
    /// The prefix has bits set after its number of bits.
    Rest(&'a str),
    /// A comma, or the text, ends before a right.
    NoRight,
    /// The word is no right.
    Right(&'a str),
    /// The right is given twice.
    Twice(&'a str),
    /// The word follows a right, after which nothing may stand.
    Surplus(&'a str),
    /// The word must have a name after it.
    NoName(&'a str),
    /// The word is not a name.
    Name(&'a str, NameFault),
    /// The word is neither a type nor `tcp`.
    Type(&'a str),
    /// A growth was refused.
    NoMemory,
}

impl From<AllocError> for RuleFault<'_> {
    ghost from_gives = { λ refused given. given ≡ no_memory };

    fn from(_refused: AllocError) -> Self {
        RuleFault::NoMemory
    }
}

impl fmt::Display for RuleFault<'_> {
    fn fmt<W: fmt::Write>(&self, f: &mut fmt::Formatter<W>) -> fmt::Result {
        match self {
            RuleFault::NoColon => write!(f, "no colon and blank between who and the rights"),
            RuleFault::Address(word) => write!(
                f,
                "'{word}' is not an address or a prefix, such as 192.0.2.7 or 2001:db8::/32"
            ),
            RuleFault::Length(word) => {
                write!(
                    f,
                    "the length of '{word}' is not a number up to 32, or 128 of IPv6"
                )
            }
            RuleFault::Rest(word) => write!(f, "'{word}' has bits set after its length"),
            RuleFault::NoRight => write!(f, "a right is missing: transfer or update"),
            RuleFault::Right(word) => write!(f, "'{word}' is not a right: transfer or update"),
            RuleFault::Twice(word) => write!(f, "'{word}' is given twice; give a second rule"),
            RuleFault::Surplus(word) => write!(f, "nothing may follow before '{word}'"),
            RuleFault::NoName(word) => write!(f, "a name is missing after '{word}'"),
            RuleFault::Name(word, fault) => write!(f, "'{word}' is not a name: {fault}"),
            RuleFault::Type(word) => write!(f, "'{word}' is not a type, such as AAAA or TYPE257"),
            RuleFault::NoMemory => write!(f, "out of memory"),
        }
    }
}
