//! OPCODEs of requests.
ghost use Rattle.std.specs.Prelude.{◌≡◌, ◌<◌};
ghost use Rattle.counters.specs.Opcodes.{opcode_index, opcode_word, opcode_of};

/// An OPCODE that is counted by itself, or all others (RFC 6895, 2.2).
#[derive(Clone, Copy, PartialEq, Eq)]
pub enum Opcode {
    /// A standard query (RFC 1035, 4.1.1).
    Query,
    /// An inverse query (RFC 3425).
    Iquery,
    /// A request for the status of a server (RFC 1035, 4.1.1).
    Status,
    /// A notice of a change (RFC 1996).
    Notify,
    /// An update (RFC 2136).
    Update,
    /// A stateful operation (RFC 8490).
    Dso,
    /// Any other.
    Other,
}

impl Opcode {
    /// All, in the order of their places.
    pub const ALL: [Opcode; 7] = [
        Opcode::Query,
        Opcode::Iquery,
        Opcode::Status,
        Opcode::Notify,
        Opcode::Update,
        Opcode::Dso,
        Opcode::Other,
    ];

    /// The OPCODE of a number.
    pub fn of(number: u8) -> Opcode
        ensures { result ≡ opcode_of number }
    {
        match number {
            0 => Opcode::Query,
            1 => Opcode::Iquery,
            2 => Opcode::Status,
            4 => Opcode::Notify,
            5 => Opcode::Update,
            6 => Opcode::Dso,
            _ => Opcode::Other,
        }
    }

    /// Its word in a label.
    pub fn word(self) -> &'static str
        ensures { result.now ≡ opcode_word self }
    {
        match self {
            Opcode::Query => "QUERY",
            Opcode::Iquery => "IQUERY",
            Opcode::Status => "STATUS",
            Opcode::Notify => "NOTIFY",
            Opcode::Update => "UPDATE",
            Opcode::Dso => "DSO",
            Opcode::Other => "other",
        }
    }

    /// Its place among all.
    #[inline(always)]
    pub fn index(self) -> usize
        ensures place { result ≡ opcode_index self }
        ensures within { result < 7 }
    {
        match self {
            Opcode::Query => 0,
            Opcode::Iquery => 1,
            Opcode::Status => 2,
            Opcode::Notify => 3,
            Opcode::Update => 4,
            Opcode::Dso => 5,
            Opcode::Other => 6,
        }
    }
}
