//! Transfers of the zone.
ghost use Rattle.std.specs.Prelude.{◌≡◌, ◌<◌};
ghost use Rattle.counters.specs.Transfers.{transfer_index, transfer_word, sent_word};

/// What a request for a transfer gets (RFC 1995, 4; RFC 5936, 2.2).
#[derive(Clone, Copy, PartialEq, Eq)]
pub enum Transfer {
    /// AXFR: the whole zone.
    Axfr,
    /// AXFR: a refusal.
    AxfrRefused,
    /// IXFR: what changed.
    Ixfr,
    /// IXFR: the whole zone.
    IxfrFull,
    /// IXFR: the SOA alone, since nothing changed.
    IxfrCurrent,
    /// IXFR: a refusal.
    IxfrRefused,
}

impl Transfer {
    /// All, in the order of their places.
    pub const ALL: [Transfer; 6] = [
        Transfer::Axfr,
        Transfer::AxfrRefused,
        Transfer::Ixfr,
        Transfer::IxfrFull,
        Transfer::IxfrCurrent,
        Transfer::IxfrRefused,
    ];

    /// The word of what is asked for in a label.
    pub fn word(self) -> &'static str
        ensures { result.now ≡ transfer_word self }
    {
        match self {
            Transfer::Axfr | Transfer::AxfrRefused => "AXFR",
            Transfer::Ixfr | Transfer::IxfrFull | Transfer::IxfrCurrent | Transfer::IxfrRefused =>
                "IXFR",
        }
    }

    /// The word of what was sent in a label.
    pub fn sent_word(self) -> &'static str
        ensures { result.now ≡ sent_word self }
    {
        match self {
            Transfer::Axfr | Transfer::IxfrFull => "full",
            Transfer::Ixfr => "incremental",
            Transfer::IxfrCurrent => "current",
            Transfer::AxfrRefused | Transfer::IxfrRefused => "refused",
        }
    }

    /// Its place among all.
    #[inline(always)]
    pub fn index(self) -> usize
        ensures place { result ≡ transfer_index self }
        ensures within { result < 6 }
    {
        match self {
            Transfer::Axfr => 0,
            Transfer::AxfrRefused => 1,
            Transfer::Ixfr => 2,
            Transfer::IxfrFull => 3,
            Transfer::IxfrCurrent => 4,
            Transfer::IxfrRefused => 5,
        }
    }
}
