//! What is wrong with a zone's text.
ghost use Rattle.std.specs.Prelude.{◌≡◌, Some};
ghost use Rattle.record_text.specs.declared.cause.Cause.TheVariants.{BadName, NoMemory};
ghost use Rattle.record_text.specs.Fault.{cause_of_data, code_of, name_of, printed};

use dns_name::NameFault;
use dns_rdata::DataFault;
use std::alloc::AllocError;
use std::error::Error;
use std::fmt;

/// What is wrong with a zone's text (RFC 1035, 5).
#[derive(Clone, Copy, Debug, PartialEq, Eq)]
pub enum Cause {
    /// A `$` word that is no directive served, or a directive without its argument.
    Directive,
    /// A word that is no name.
    BadName,
    /// A word that is no number, or a number too great for its field.
    Number,
    /// A class other than IN.
    BadClass,
    /// A word that is no type that a record of a zone has.
    UnknownType,
    /// Too few or too many words, or data not of its form.
    BadData,
    /// A quote or parenthesis without its end, a nested or stray parenthesis.
    Unclosed,
    /// No TTL is in force.
    NoTtl,
    /// The first record has no owner.
    NoOwner,
    /// An owner outside the apex (RFC 1035, 5.2).
    Outside,
    /// No SOA, a second SOA, or no NS at the apex (RFC 1035, 5.2).
    Apex,
    /// A CNAME beside other data or another CNAME (RFC 2181, 10.1), or an NS at an owner whose first label is `*`.
    Conflict,
    /// More records, records of a set, or octets of data than a zone may have.
    Limit,
    /// A growth was refused.
    NoMemory,
}

impl Cause {
    /// The code that is printed of it, `M1` to `M14` (own).
    pub fn code(self) -> &'static str
        ensures { result.now ≡ code_of self }
    {
        match self {
            Cause::Directive => "M1",
            Cause::BadName => "M2",
            Cause::Number => "M3",
            Cause::BadClass => "M4",
            Cause::UnknownType => "M5",
            Cause::BadData => "M6",
            Cause::Unclosed => "M7",
            Cause::NoTtl => "M8",
            Cause::NoOwner => "M9",
            Cause::Outside => "M10",
            Cause::Apex => "M11",
            Cause::Conflict => "M12",
            Cause::Limit => "M13",
            Cause::NoMemory => "M14",
        }
    }

    /// The name that is printed of it after the code (own).
    pub fn name(self) -> &'static str
        ensures { result.now ≡ name_of self }
    {
        match self {
            Cause::Directive => "Directive",
            Cause::BadName => "BadName",
            Cause::Number => "Number",
            Cause::BadClass => "BadClass",
            Cause::UnknownType => "UnknownType",
            Cause::BadData => "BadData",
            Cause::Unclosed => "Unclosed",
            Cause::NoTtl => "NoTtl",
            Cause::NoOwner => "NoOwner",
            Cause::Outside => "Outside",
            Cause::Apex => "Apex",
            Cause::Conflict => "Conflict",
            Cause::Limit => "Limit",
            Cause::NoMemory => "NoMemory",
        }
    }
}

impl fmt::Display for Cause {
    ghost output = { λ cause. Some (printed cause) };

    fn fmt<W: fmt::Write>(&self, f: &mut fmt::Formatter<W>) -> fmt::Result {
        write!(f, "{} {}", self.code(), self.name())
    }
}

impl Error for Cause {}

impl From<AllocError> for Cause {
    ghost from_gives = { λ fault given. given ≡ NoMemory };

    fn from(_: AllocError) -> Cause {
        Cause::NoMemory
    }
}

impl From<NameFault> for Cause {
    ghost from_gives = { λ fault given. given ≡ BadName };

    fn from(_: NameFault) -> Cause {
        Cause::BadName
    }
}

impl From<DataFault> for Cause {
    ghost from_gives = { λ fault given. given ≡ cause_of_data fault };

    fn from(fault: DataFault) -> Cause {
        match fault {
            DataFault::BadLength => Cause::BadData,
            DataFault::TooLong => Cause::Limit,
            DataFault::NoMemory => Cause::NoMemory,
        }
    }
}
