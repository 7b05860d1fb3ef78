//! Transports of requests.
ghost use Rattle.std.specs.Prelude.{◌≡◌, ◌<◌};
ghost use Rattle.counters.specs.Transports.{transport_index, transport_word};

/// The transport of a request.
#[derive(Clone, Copy, PartialEq, Eq)]
pub enum Transport {
    /// UDP.
    Udp,
    /// TCP.
    Tcp,
}

impl Transport {
    /// All, in the order of their places.
    pub const ALL: [Transport; 2] = [Transport::Udp, Transport::Tcp];

    /// Its word in a label.
    pub fn word(self) -> &'static str
        ensures { result.now ≡ transport_word self }
    {
        match self {
            Transport::Udp => "udp",
            Transport::Tcp => "tcp",
        }
    }

    /// Its place among all.
    #[inline(always)]
    pub fn index(self) -> usize
        ensures place { result ≡ transport_index self }
        ensures within { result < 2 }
    {
        match self {
            Transport::Udp => 0,
            Transport::Tcp => 1,
        }
    }
}
