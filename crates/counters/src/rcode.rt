//! RCODEs of replies.
ghost use Rattle.std.specs.Prelude.{◌≡◌, ◌<◌};
ghost use Rattle.counters.specs.Rcodes.{rcode_index, rcode_word, rcode_of};

/// An RCODE that is counted by itself, or all others (RFC 6895, 2.3).
#[derive(Clone, Copy, PartialEq, Eq)]
pub enum Rcode {
    /// No error.
    NoError,
    /// The request cannot be read.
    FormErr,
    /// The server failed.
    ServFail,
    /// The name does not exist, or it has to.
    NxDomain,
    /// The kind of request is not supported.
    NotImp,
    /// The peer may not.
    Refused,
    /// A name exists that must not (RFC 2136, 2.2).
    YxDomain,
    /// An RRset exists that must not (RFC 2136, 2.2).
    YxRrset,
    /// An RRset does not exist that has to (RFC 2136, 2.2).
    NxRrset,
    /// The zone is not served here, or a signature is refused (RFC 8945, 5.2).
    NotAuth,
    /// A name lies outside of the zone (RFC 2136, 2.2).
    NotZone,
    /// The version of EDNS is not supported (RFC 6891, 6.1.3).
    BadVers,
    /// Any other.
    Other,
}

impl Rcode {
    /// All, in the order of their places.
    pub const ALL: [Rcode; 13] = [
        Rcode::NoError,
        Rcode::FormErr,
        Rcode::ServFail,
        Rcode::NxDomain,
        Rcode::NotImp,
        Rcode::Refused,
        Rcode::YxDomain,
        Rcode::YxRrset,
        Rcode::NxRrset,
        Rcode::NotAuth,
        Rcode::NotZone,
        Rcode::BadVers,
        Rcode::Other,
    ];

    /// The RCODE of a number.
    pub fn of(number: u16) -> Rcode
        ensures { result ≡ rcode_of number }
    {
        match number {
            0 => Rcode::NoError,
            1 => Rcode::FormErr,
            2 => Rcode::ServFail,
            3 => Rcode::NxDomain,
            4 => Rcode::NotImp,
            5 => Rcode::Refused,
            6 => Rcode::YxDomain,
            7 => Rcode::YxRrset,
            8 => Rcode::NxRrset,
            9 => Rcode::NotAuth,
            10 => Rcode::NotZone,
            16 => Rcode::BadVers,
            _ => Rcode::Other,
        }
    }

    /// Its word in a label.
    pub fn word(self) -> &'static str
        ensures { result.now ≡ rcode_word self }
    {
        match self {
            Rcode::NoError => "NOERROR",
            Rcode::FormErr => "FORMERR",
            Rcode::ServFail => "SERVFAIL",
            Rcode::NxDomain => "NXDOMAIN",
            Rcode::NotImp => "NOTIMP",
            Rcode::Refused => "REFUSED",
            Rcode::YxDomain => "YXDOMAIN",
            Rcode::YxRrset => "YXRRSET",
            Rcode::NxRrset => "NXRRSET",
            Rcode::NotAuth => "NOTAUTH",
            Rcode::NotZone => "NOTZONE",
            Rcode::BadVers => "BADVERS",
            Rcode::Other => "other",
        }
    }

    /// Its place among all.
    #[inline(always)]
    pub fn index(self) -> usize
        ensures place { result ≡ rcode_index self }
        ensures within { result < 13 }
    {
        match self {
            Rcode::NoError => 0,
            Rcode::FormErr => 1,
            Rcode::ServFail => 2,
            Rcode::NxDomain => 3,
            Rcode::NotImp => 4,
            Rcode::Refused => 5,
            Rcode::YxDomain => 6,
            Rcode::YxRrset => 7,
            Rcode::NxRrset => 8,
            Rcode::NotAuth => 9,
            Rcode::NotZone => 10,
            Rcode::BadVers => 11,
            Rcode::Other => 12,
        }
    }
}
