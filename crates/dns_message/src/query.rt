//! What a request says (RFC 1035, 4.1).
ghost use Rattle.std.specs.Prelude.{◌<◌};

use crate::edns::Edns;
use crate::update::Update;
use dns_name::Name;
use dns_rdata::{Class, RType, Rcode, Serial};

/// What a reply copies from a request's header (RFC 1035, 4.1.1).
#[derive(Clone, Copy, Debug, PartialEq, Eq)]
pub struct Head {
    /// The number by which the one who asks knows the reply.
    pub id: u16,
    /// The kind of request, of four bits.
    pub opcode: u8,
    /// Whether recursion is desired.
    pub rd: bool,
    ghost four_bits: { opcode < 16 },
}

/// A question (RFC 1035, 4.1.2).
#[derive(Drop)]
pub struct Question {
    /// The name asked.
    pub name: Name,
    /// The type asked.
    pub rtype: RType,
    /// The class asked.
    pub class: Class,
}

impl Question {
    /// A question for the addresses of the root, into which others are read.
    pub(crate) fn blank() -> Question {
        Question {
            name: Name::root(),
            rtype: RType::A,
            class: Class::IN,
        }
    }
}

/// A standard query (RFC 1035, 4.1.1).
#[derive(Drop)]
pub struct Query {
    /// What the reply copies from its header.
    pub head: Head,
    /// What it asks.
    pub question: Question,
    /// Of an IXFR, the serial of the zone that the one who asks holds; None where the authority section isn't one SOA of
    /// class IN at the name asked, whose data has its form, and of any other type (RFC 1995, 3).
    pub serial: Option<Serial>,
    /// What its OPT says; None where it has none (RFC 6891, 6.1.1).
    pub edns: Option<Edns>,
}

impl Query {
    /// A query for the root, into which others are read.
    pub fn blank() -> Query {
        let head = Head {
            id: 0,
            opcode: 0,
            rd: false,
        };
        Query {
            head,
            question: Question::blank(),
            serial: None,
            edns: None,
        }
    }
}

/// What octets say that don't ask for an update, where the query, or the question alone, is read into a query that is kept
/// (RFC 1035, 4.1 and 4.2).
#[derive(Clone, Copy)]
pub enum Said {
    /// A query: the one that is kept.
    Query,
    /// Nothing that is answered.
    Silent,
    /// A request that gets its header and a code alone.
    Fault(Head, Rcode),
    /// A request whose OPT isn't obeyed: its question is that of the query that is kept; its code and its DO, as
    /// [`Parsed::BadOpt`] has them.
    BadOpt(Head, Rcode, bool),
}

/// What the octets of a datagram or of a frame say (RFC 1035, 4.1 and 4.2).
#[derive(Drop)]
pub enum Parsed {
    /// A query.
    Query(Query),
    /// A dynamic update (RFC 2136, 2).
    Update(Update),
    /// Nothing that is answered.
    Silent,
    /// A request that gets its header and a code alone.
    Fault(Head, Rcode),
    /// A request whose OPT isn't obeyed: its question, or the zone entry of an update; FORMERR of an OPT at another owner than the
    /// root and of two, or else BADVERS of a version above 0; and DO of the first (RFC 6891, 6.1.1, 6.1.3 and 7).
    BadOpt(Head, Question, Rcode, bool),
    /// An update that couldn't be read, since a growth was refused.
    NoMemory(Head),
}
