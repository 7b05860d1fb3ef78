//! Reasons why connections end.
ghost use Rattle.std.specs.Prelude.{◌≡◌, ◌<◌};
ghost use Rattle.counters.specs.ConnectionEnds.{connection_end_index, connection_end_word};

/// A reason why a connection ends (own).
#[derive(Clone, Copy, PartialEq, Eq)]
pub enum ConnectionEnd {
    /// Its peer closed it, or all that it asked for was sent.
    Done,
    /// Its peer was idle or slow for too long.
    Idle,
    /// It was closed or turned away for want of a place.
    Limit,
    /// A read, a write or a request for memory failed.
    Fault,
}

impl ConnectionEnd {
    /// All, in the order of their places.
    pub const ALL: [ConnectionEnd; 4] = [
        ConnectionEnd::Done,
        ConnectionEnd::Idle,
        ConnectionEnd::Limit,
        ConnectionEnd::Fault,
    ];

    /// Its word in a label.
    pub fn word(self) -> &'static str
        ensures { result.now ≡ connection_end_word self }
    {
        match self {
            ConnectionEnd::Done => "done",
            ConnectionEnd::Idle => "idle",
            ConnectionEnd::Limit => "limit",
            ConnectionEnd::Fault => "fault",
        }
    }

    /// Its place among all.
    #[inline(always)]
    pub fn index(self) -> usize
        ensures place { result ≡ connection_end_index self }
        ensures within { result < 4 }
    {
        match self {
            ConnectionEnd::Done => 0,
            ConnectionEnd::Idle => 1,
            ConnectionEnd::Limit => 2,
            ConnectionEnd::Fault => 3,
        }
    }
}
