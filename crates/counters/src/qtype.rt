//! Types of questions.
ghost use Rattle.std.specs.Prelude.{◌≡◌, ◌<◌};
ghost use Rattle.counters.specs.Qtypes.{qtype_index, qtype_word, qtype_of};

/// A type of a question that is counted by itself, or all others (own).
#[derive(Clone, Copy, PartialEq, Eq)]
pub enum Qtype {
    /// A (RFC 1035, 3.4.1).
    A,
    /// NS (RFC 1035, 3.3.11).
    Ns,
    /// CNAME (RFC 1035, 3.3.1).
    Cname,
    /// SOA (RFC 1035, 3.3.13).
    Soa,
    /// PTR (RFC 1035, 3.3.12).
    Ptr,
    /// MX (RFC 1035, 3.3.9).
    Mx,
    /// TXT (RFC 1035, 3.3.14).
    Txt,
    /// AAAA (RFC 3596, 2.1).
    Aaaa,
    /// SRV (RFC 2782).
    Srv,
    /// NAPTR (RFC 3403, 4).
    Naptr,
    /// DS (RFC 4034, 5).
    Ds,
    /// SSHFP (RFC 4255, 3).
    Sshfp,
    /// DNSKEY (RFC 4034, 2).
    Dnskey,
    /// TLSA (RFC 6698, 2).
    Tlsa,
    /// SVCB (RFC 9460, 2).
    Svcb,
    /// HTTPS (RFC 9460, 9).
    Https,
    /// IXFR (RFC 1995, 4).
    Ixfr,
    /// AXFR (RFC 5936, 2.1).
    Axfr,
    /// ANY (RFC 1035, 3.2.3).
    Any,
    /// CAA (RFC 8659, 4).
    Caa,
    /// Any other.
    Other,
}

impl Qtype {
    /// All, in the order of their places.
    pub const ALL: [Qtype; 21] = [
        Qtype::A,
        Qtype::Ns,
        Qtype::Cname,
        Qtype::Soa,
        Qtype::Ptr,
        Qtype::Mx,
        Qtype::Txt,
        Qtype::Aaaa,
        Qtype::Srv,
        Qtype::Naptr,
        Qtype::Ds,
        Qtype::Sshfp,
        Qtype::Dnskey,
        Qtype::Tlsa,
        Qtype::Svcb,
        Qtype::Https,
        Qtype::Ixfr,
        Qtype::Axfr,
        Qtype::Any,
        Qtype::Caa,
        Qtype::Other,
    ];

    /// The type of a number.
    pub fn of(number: u16) -> Qtype
        ensures { result ≡ qtype_of number }
    {
        match number {
            1 => Qtype::A,
            2 => Qtype::Ns,
            5 => Qtype::Cname,
            6 => Qtype::Soa,
            12 => Qtype::Ptr,
            15 => Qtype::Mx,
            16 => Qtype::Txt,
            28 => Qtype::Aaaa,
            33 => Qtype::Srv,
            35 => Qtype::Naptr,
            43 => Qtype::Ds,
            44 => Qtype::Sshfp,
            48 => Qtype::Dnskey,
            52 => Qtype::Tlsa,
            64 => Qtype::Svcb,
            65 => Qtype::Https,
            251 => Qtype::Ixfr,
            252 => Qtype::Axfr,
            255 => Qtype::Any,
            257 => Qtype::Caa,
            _ => Qtype::Other,
        }
    }

    /// Its word in a label.
    pub fn word(self) -> &'static str
        ensures { result.now ≡ qtype_word self }
    {
        match self {
            Qtype::A => "A",
            Qtype::Ns => "NS",
            Qtype::Cname => "CNAME",
            Qtype::Soa => "SOA",
            Qtype::Ptr => "PTR",
            Qtype::Mx => "MX",
            Qtype::Txt => "TXT",
            Qtype::Aaaa => "AAAA",
            Qtype::Srv => "SRV",
            Qtype::Naptr => "NAPTR",
            Qtype::Ds => "DS",
            Qtype::Sshfp => "SSHFP",
            Qtype::Dnskey => "DNSKEY",
            Qtype::Tlsa => "TLSA",
            Qtype::Svcb => "SVCB",
            Qtype::Https => "HTTPS",
            Qtype::Ixfr => "IXFR",
            Qtype::Axfr => "AXFR",
            Qtype::Any => "ANY",
            Qtype::Caa => "CAA",
            Qtype::Other => "other",
        }
    }

    /// Its place among all.
    #[inline(always)]
    pub fn index(self) -> usize
        ensures place { result ≡ qtype_index self }
        ensures within { result < 21 }
    {
        match self {
            Qtype::A => 0,
            Qtype::Ns => 1,
            Qtype::Cname => 2,
            Qtype::Soa => 3,
            Qtype::Ptr => 4,
            Qtype::Mx => 5,
            Qtype::Txt => 6,
            Qtype::Aaaa => 7,
            Qtype::Srv => 8,
            Qtype::Naptr => 9,
            Qtype::Ds => 10,
            Qtype::Sshfp => 11,
            Qtype::Dnskey => 12,
            Qtype::Tlsa => 13,
            Qtype::Svcb => 14,
            Qtype::Https => 15,
            Qtype::Ixfr => 16,
            Qtype::Axfr => 17,
            Qtype::Any => 18,
            Qtype::Caa => 19,
            Qtype::Other => 20,
        }
    }
}
