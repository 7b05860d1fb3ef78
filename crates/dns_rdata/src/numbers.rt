//! The numbers of record types, classes and reply codes, and the numbers that a record and an SOA carry.
ghost use Rattle.std.specs.Prelude.{◌≡◌, ◌<◌, ◌^◌};
ghost use Rattle.dns_rdata.specs.Numbers.{is_metatype};
ghost use Rattle.dns_rdata.specs.Raw.{ttl_in_zone};

/// A record type, or a type that only a question may have (RFC 1035, 3.2.2 and 3.2.3).
#[derive(Clone, Copy, Debug, PartialEq, Eq, PartialOrd, Ord)]
pub struct RType(pub u16);

impl RType {
    /// A host address (RFC 1035, 3.4.1).
    pub const A: RType = RType(1);
    /// An authoritative name server (RFC 1035, 3.3.11).
    pub const NS: RType = RType(2);
    /// The canonical name for an alias (RFC 1035, 3.3.1).
    pub const CNAME: RType = RType(5);
    /// The start of a zone of authority (RFC 1035, 3.3.13).
    pub const SOA: RType = RType(6);
    /// A pointer to another name (RFC 1035, 3.3.12).
    pub const PTR: RType = RType(12);
    /// A mail exchange (RFC 1035, 3.3.9).
    pub const MX: RType = RType(15);
    /// Text strings (RFC 1035, 3.3.14).
    pub const TXT: RType = RType(16);
    /// A host address of version 6 (RFC 3596, 2.1).
    pub const AAAA: RType = RType(28);
    /// Where a service is found (RFC 2782).
    pub const SRV: RType = RType(33);
    /// What a message says of its sender's extensions; no record of a zone (RFC 6891, 6.1.1).
    pub const OPT: RType = RType(41);
    /// A request for an incremental transfer (RFC 1995, 4).
    pub const IXFR: RType = RType(251);
    /// A request for a transfer of the whole zone (RFC 1035, 3.2.3).
    pub const AXFR: RType = RType(252);
    /// A request for mailbox records (RFC 1035, 3.2.3).
    pub const MAILB: RType = RType(253);
    /// A request for mail agents (RFC 1035, 3.2.3).
    pub const MAILA: RType = RType(254);
    /// A request for all records (RFC 1035, 3.2.3).
    pub const ANY: RType = RType(255);

    /// Whether no record of a zone has the type: 0, OPT, and those kept for what only a message carries, 128 to 255 (RFC 2136,
    /// 3.4.1.2; RFC 6891, 6.1.1; RFC 6895, 3.1).
    pub fn is_metatype(self) -> bool
        ensures { result ≡ is_metatype self.0 }
    {
        self.0 == 0 || self == RType::OPT || (128 <= self.0 && self.0 <= 255)
    }
}

/// A class (RFC 1035, 3.2.4).
#[derive(Clone, Copy, Debug, PartialEq, Eq)]
pub struct Class(pub u16);

impl Class {
    /// The Internet.
    pub const IN: Class = Class(1);
    /// No class; in an update it says that something isn't there, or isn't to be there (RFC 2136, 1.1).
    pub const NONE: Class = Class(254);
    /// Any class; only a question or an update has it (RFC 1035, 3.2.5; RFC 2136, 2.4 and 2.5).
    pub const ANY: Class = Class(255);
}

/// How long a record may be kept, in seconds (RFC 1035, 3.2.1).
#[derive(Clone, Copy, Debug, PartialEq, Eq, PartialOrd, Ord)]
pub struct Ttl(pub u32);

impl Ttl {
    /// The greatest TTL, in seconds (RFC 2181, 8).
    pub const MAX: Ttl = Ttl(0x7fff_ffff);

    /// The TTL for a number of seconds that was received, of 32 bits: 0 where its top bit is set (RFC 2181, 8).
    pub fn received(seconds: u32) -> Ttl
        ensures ttl { result.0 ≡ ttl_in_zone seconds }
        ensures lasts { result.0 < 2 ^ 31 }
    {
        if seconds <= Ttl::MAX.0 {
            Ttl(seconds)
        } else {
            Ttl(0)
        }
    }
}

/// A zone's serial (RFC 1982).
#[derive(Clone, Copy, Debug, PartialEq, Eq)]
pub struct Serial(pub u32);

/// How many reply codes the four bits of a header tell (RFC 1035, 4.1.1).
const HEADER_CODES: u8 = 16;

/// A reply code, of twelve bits: the low four stand in a header, the upper eight in an OPT (RFC 1035, 4.1.1; RFC 2136, 2.2;
/// RFC 6891, 6.1.3).
#[derive(Clone, Copy, Debug, PartialEq, Eq)]
pub enum Rcode {
    /// No error.
    NoError,
    /// The request's form can't be read.
    FormErr,
    /// The server can't answer.
    ServFail,
    /// The name doesn't exist.
    NxDomain,
    /// The kind of request isn't supported.
    NotImp,
    /// The server won't answer.
    Refused,
    /// A name that ought not to exist does.
    YXDomain,
    /// A set that ought not to exist does.
    YXRRSet,
    /// A set that ought to exist doesn't.
    NXRRSet,
    /// The server isn't authoritative for the zone.
    NotAuth,
    /// A name isn't in the zone.
    NotZone,
    /// The version of the request's OPT isn't supported (RFC 6891, 6.1.3 and 9).
    BadVers,
}

impl Rcode {
    ghost use Rattle.dns_rdata.specs.Numbers.{rcode_number, header_bits, extended_bits};

    /// The code's number (RFC 1035, 4.1.1; RFC 2136, 2.2; RFC 6891, 9).
    pub fn number(self) -> u8
        ensures { result ≡ rcode_number self }
    {
        match self {
            Rcode::NoError => 0,
            Rcode::FormErr => 1,
            Rcode::ServFail => 2,
            Rcode::NxDomain => 3,
            Rcode::NotImp => 4,
            Rcode::Refused => 5,
            Rcode::YXDomain => 6,
            Rcode::YXRRSet => 7,
            Rcode::NXRRSet => 8,
            Rcode::NotAuth => 9,
            Rcode::NotZone => 10,
            Rcode::BadVers => 16,
        }
    }

    /// The four bits of its number that stand in a header (RFC 1035, 4.1.1).
    pub fn header_bits(self) -> u8
        ensures { result ≡ header_bits self }
    {
        self.number() % HEADER_CODES
    }

    /// The eight bits of its number that stand in an OPT (RFC 6891, 6.1.3).
    pub fn extended_bits(self) -> u8
        ensures { result ≡ extended_bits self }
    {
        self.number() / HEADER_CODES
    }
}
