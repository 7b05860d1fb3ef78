//! What requests for transfers got.
use counters::Transfer;
use message_counts::transfer_of;

/// A reply's header and question `example. IN IXFR`: NOERROR with three answers (RFC 1035, 4.1).
const FULL: &[u8] =
    b"\x00\x01\x84\x00\x00\x01\x00\x03\x00\x00\x00\x00\x07example\x00\x00\xfb\x00\x01\xc0\x0c\x00\x06\x00\x01\x00\x00\x00\x01\x00\x16\x00\x00\x00\x00\x00\x07\x00\x00\x00\x01\x00\x00\x00\x01\x00\x00\x00\x01\x00\x00\x00\x01\xc0\x0c\x00\x02\x00\x01\x00\x00\x00\x01\x00\x01\x00";

/// The same, whose second record is an SOA too: the zone that the client has (RFC 1995, 4).
const CHANGES: &[u8] =
    b"\x00\x01\x84\x00\x00\x01\x00\x03\x00\x00\x00\x00\x07example\x00\x00\xfb\x00\x01\xc0\x0c\x00\x06\x00\x01\x00\x00\x00\x01\x00\x16\x00\x00\x00\x00\x00\x07\x00\x00\x00\x01\x00\x00\x00\x01\x00\x00\x00\x01\x00\x00\x00\x01\xc0\x0c\x00\x06\x00\x01\x00\x00\x00\x01\x00\x01\x00";

/// One answer: the client has the zone (RFC 1995, 2).
const CURRENT: &[u8] =
    b"\x00\x01\x84\x00\x00\x01\x00\x01\x00\x00\x00\x00\x07example\x00\x00\xfb\x00\x01\xc0\x0c\x00\x06\x00\x01\x00\x00\x00\x01\x00\x01\x00";

/// REFUSED.
const REFUSED: &[u8] = b"\x00\x01\x84\x05\x00\x00\x00\x00\x00\x00\x00\x00";

/// The type IXFR (RFC 1995, 2).
const IXFR: u16 = 251;

/// The type AXFR (RFC 1035, 3.2.3).
const AXFR: u16 = 252;

#[test]
fn tells_what_transfers_got(rt: HostRuntime) {
    let cases = [
        (IXFR, FULL, Some(Transfer::IxfrFull)),
        (IXFR, CHANGES, Some(Transfer::Ixfr)),
        (IXFR, CURRENT, Some(Transfer::IxfrCurrent)),
        (IXFR, REFUSED, Some(Transfer::IxfrRefused)),
        (AXFR, FULL, Some(Transfer::Axfr)),
        (AXFR, REFUSED, Some(Transfer::AxfrRefused)),
        (1, FULL, None),
    ];
    let mut others = 0usize;
    for (qtype, reply, want) in cases {
        if transfer_of(qtype, reply) != want {
            others = others.saturating_add(1);
        }
    }
    assert_eq!(rt; others, 0);
}
