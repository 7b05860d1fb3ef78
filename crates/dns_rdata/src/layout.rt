//! How the data of each type lies (RFC 1035, 3.3 and 3.4.1; RFC 2782; RFC 3596, 2.2; RFC 3597, 3).
ghost use Rattle.std.specs.Prelude.{◌≡◌};
ghost use Rattle.dns_rdata.specs.Layout.{layout_of};

use crate::numbers::RType;

/// The octets of the five numbers after the names of an SOA's data (RFC 1035, 3.3.13).
pub(crate) const SOA_NUMBERS: usize = 20;

/// How a type's data lies.
#[derive(Clone, Copy, Debug, PartialEq, Eq)]
pub enum Layout {
    /// Octets of a fixed count, names, and octets of a fixed count.
    Fields {
        /// How many octets stand before the names.
        front: usize,
        /// How many names there are.
        names: usize,
        /// How many octets stand after the names.
        back: usize,
        /// Whether a message may write the names with pointers (RFC 1035, 4.1.4; RFC 2782).
        compressed: bool,
    },
    /// One string or more, each a length octet and so many octets (RFC 1035, 3.3 and 3.3.14).
    Strings,
    /// Octets of any number, of a type that nobody here knows: no name in them is looked for (RFC 3597, 3, 4 and 6).
    Opaque,
}

impl RType {
    /// How the type's data lies; None of a metatype, which no record of a zone has (RFC 1035, 3.3 and 3.4.1; RFC 2782;
    /// RFC 3596, 2.2; RFC 3597, 3).
    #[tactic(auto, unfolding(crate::specs::Layout::layout_of))]
    pub fn layout(self) -> Option<Layout>
        ensures { result ≡ layout_of self.0 }
    {
        let (front, names, back, compressed) = match self {
            RType::A => (4, 0, 0, false),
            RType::NS | RType::CNAME | RType::PTR => (0, 1, 0, true),
            RType::SOA => (0, 2, SOA_NUMBERS, true),
            // The preference, and then the exchange.
            RType::MX => (2, 1, 0, true),
            RType::TXT => return Some(Layout::Strings),
            RType::AAAA => (16, 0, 0, false),
            // Priority, weight and port, and then the target.
            RType::SRV => (6, 1, 0, false),
            _ if self.is_metatype() => return None,
            _ => return Some(Layout::Opaque),
        };
        Some(Layout::Fields {
            front,
            names,
            back,
            compressed,
        })
    }
}
