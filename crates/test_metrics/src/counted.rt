//! What requests and replies count as.
use counters::{AddressFamily, Counter, Counters, Opcode, Qtype, Rcode, SharedCounters, Transport};
use message_counts::{count_reply, count_request};

/// A query for the AAAA records of `www.example.test.`, without EDNS (RFC 1035, 4.1).
const QUERY: &[u8] =
    b"\x12\x34\x01\x00\x00\x01\x00\x00\x00\x00\x00\x00\x03www\x07example\x04test\x00\x00\x1c\x00\x01";

/// The reply BADVERS to the same with EDNS of version 1 (RFC 6891, 6.1.3).
const BADVERS: &[u8] =
    b"\x12\x34\x81\x00\x00\x01\x00\x00\x00\x00\x00\x01\x03www\x07example\x04test\x00\x00\x1c\x00\x01\x00\x00\x29\x04\xd0\x01\x00\x00\x00\x00\x00";

/// The reply REFUSED to an update (RFC 2136, 3.8).
const REFUSED: &[u8] = b"\x00\x01\xa8\x05\x00\x00\x00\x00\x00\x00\x00\x00";

/// A reply that is truncated (RFC 1035, 4.1.1).
const TRUNCATED: &[u8] = b"\x00\x01\x86\x00\x00\x00\x00\x00\x00\x00\x00\x00";

/// The numbers after these messages.
fn numbers() -> Counters {
    let mut counters = Counters::new();
    let _asked = count_request(&mut counters, Transport::Udp, AddressFamily::V6, QUERY);
    count_reply(&mut counters, BADVERS);
    count_reply(&mut counters, REFUSED);
    count_reply(&mut counters, TRUNCATED);
    counters
}

/// What is counted, and how often.
const COUNTED: [(Counter, u64); 14] = [
    (Counter::Request(Transport::Udp, AddressFamily::V6), 1),
    (Counter::Request(Transport::Udp, AddressFamily::V4), 0),
    (Counter::Opcode(Opcode::Query), 1),
    (Counter::Question(Qtype::Aaaa), 1),
    (Counter::Question(Qtype::Other), 0),
    (Counter::ReceivedOctets, 34),
    (Counter::Reply(Rcode::BadVers), 1),
    (Counter::Reply(Rcode::Refused), 1),
    (Counter::Reply(Rcode::NoError), 1),
    (Counter::Update(Rcode::Refused), 1),
    (Counter::Update(Rcode::NoError), 0),
    (Counter::Truncated, 1),
    (Counter::Dropped, 0),
    (Counter::SentOctets, 69),
];

/// How many of these numbers are others.
fn others_in(counters: &Counters) -> usize {
    let mut others = 0usize;
    for (counter, number) in &COUNTED {
        if counters.get(*counter) != *number {
            others = others.saturating_add(1);
        }
    }
    others
}

#[test]
fn counts_messages(rt: HostRuntime) {
    assert_eq!(rt; others_in(&numbers()), 0);
}

// What a thread showed last is what others see of it.
#[test]
fn shows_numbers(rt: HostRuntime) -> Result<(), std::alloc::AllocError> {
    let shared = SharedCounters::new(rt.alloc())?;
    let shown = shared.show(&numbers());
    let mut sum = Counters::new();
    let rounds = shared.add_to(&rt, &mut sum);
    assert_eq!(rt; (shown, others_in(&sum), rounds), (true, 0, 1));
    Ok(())
}
