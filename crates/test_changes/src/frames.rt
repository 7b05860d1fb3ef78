//! Frames over TCP (RFC 1035, 4.2.2).
use dns_message::{put_frame, take_frame};

/// A message, and the octets after its frame.
type Taken = (&'static [u8], &'static [u8]);

/// Octets, the message of their first frame, and the octets after it (RFC 1035, 4.2.2).
const FRAMES: [(&[u8], Option<Taken>); 8] = [
    (b"", None),
    (b"\x00", None),
    (b"\x00\x03ab", None),
    (b"\x01\x00abc", None),
    (b"\x00\x00", Some((b"", b""))),
    (b"\x00\x00\x00", Some((b"", b"\x00"))),
    (b"\x00\x03abc", Some((b"abc", b""))),
    (b"\x00\x03abcd", Some((b"abc", b"d"))),
];

/// The first octets whose frame is taken otherwise.
fn wrongly_taken() -> Option<&'static [u8]> {
    for (octets, want) in FRAMES {
        if take_frame(octets) != want {
            return Some(octets);
        }
    }
    None
}

/// A message, the room for its frame, and what the room then holds where its octets were `-` (RFC 1035, 4.2.2).
const PUT: [(&[u8], usize, Option<usize>, &[u8; 7]); 7] = [
    (b"abc", 0, None, b"-------"),
    (b"abc", 1, None, b"-------"),
    (b"abc", 4, None, b"-------"),
    (b"abc", 5, Some(5), b"\x00\x03abc--"),
    (b"abc", 7, Some(5), b"\x00\x03abc--"),
    (b"", 1, None, b"-------"),
    (b"", 2, Some(2), b"\x00\x00-----"),
];

/// The first message and room whose frame is put otherwise.
fn wrongly_put() -> Option<(&'static [u8], usize)> {
    for (message, room, len, want) in PUT {
        let mut out = *b"-------";
        if put_frame(message, &mut out[..room.min(7)]) != len || out != *want {
            return Some((message, room));
        }
    }
    None
}

/// Whether 65,536 octets of 7 are refused as a message, and taken without the first, and what is after the frame stays.
fn longest_alone_fits(message: &[u8], out: &mut [u8]) -> bool {
    if put_frame(message, out).is_some() || !out.starts_with(b"\0\0\0") {
        return false;
    }
    let len = put_frame(message.get(1..).unwrap_or_default(), out);
    len == Some(65_537) && out.starts_with(b"\xff\xff\x07") && out.ends_with(b"\x07\0")
}

// The longest message is of 65,535 octets (RFC 1035, 4.2.2).
#[test]
fn frames_are_taken_and_put(rt: HostRuntime) {
    assert_eq!(rt; wrongly_taken(), None);
    assert_eq!(rt; wrongly_put(), None);
    assert!(rt; longest_alone_fits(&[7; 65_536], &mut [0; 65_538]));
}
