//! What is sent to whom as time goes (RFC 1996, 3.6).
use crate::player::Step::{Clock, Fell, Quiet, Reply, Sent, Serve};
use crate::player::{Step, first_wrong};
use notify::Heard::{Again, Answered};
use std::test::Fail;

/// Two secondaries answer at once; then a newer version is served.
const ANSWERED: &[Step] = &[
    Sent(1, 1),
    Sent(2, 1),
    Quiet(Some(1000)),
    Reply(1, 0, Some(Answered)),
    Reply(2, 1, Some(Answered)),
    Quiet(None),
    Clock(90_000),
    Quiet(None),
    Serve(2),
    Sent(1, 2),
    Sent(2, 2),
    Quiet(Some(1000)),
];

/// Nobody answers: copies after waits of 1, 2, 4, 8, 16, 32 and 60 seconds, ten of them, then it is told of; a newer version is sent
/// again as before, and an answer is told.
const LOST: &[Step] = &[
    Sent(1, 1),
    Quiet(Some(1000)),
    Clock(999),
    Quiet(Some(1)),
    Clock(1000),
    Sent(1, 1),
    Quiet(Some(2000)),
    Clock(2999),
    Quiet(Some(1)),
    Clock(3000),
    Sent(1, 1),
    Quiet(Some(4000)),
    Clock(7000),
    Sent(1, 1),
    Quiet(Some(8000)),
    Clock(15_000),
    Sent(1, 1),
    Quiet(Some(16_000)),
    Clock(31_000),
    Sent(1, 1),
    Quiet(Some(32_000)),
    Clock(63_000),
    Sent(1, 1),
    Quiet(Some(60_000)),
    Clock(123_000),
    Sent(1, 1),
    Clock(183_000),
    Sent(1, 1),
    Clock(243_000),
    Sent(1, 1),
    Clock(303_000),
    Sent(1, 1),
    Quiet(Some(60_000)),
    Clock(363_000),
    Fell(1),
    Quiet(None),
    Clock(9_000_000),
    Quiet(None),
    Serve(2),
    Sent(1, 2),
    Quiet(Some(1000)),
    Clock(9_001_000),
    Sent(1, 2),
    Quiet(Some(2000)),
    Reply(1, 12, Some(Again)),
    Quiet(None),
    Serve(3),
    Clock(9_002_000),
    Sent(1, 3),
    Reply(1, 13, Some(Answered)),
];

/// One that has given up forgets no other, and the other goes on.
const ONE_IS_LOST: &[Step] = &[
    Sent(1, 1),
    Sent(2, 1),
    Reply(2, 1, Some(Answered)),
    Clock(1000),
    Sent(1, 1),
    Clock(3000),
    Sent(1, 1),
    Clock(7000),
    Sent(1, 1),
    Clock(15_000),
    Sent(1, 1),
    Clock(31_000),
    Sent(1, 1),
    Clock(63_000),
    Sent(1, 1),
    Clock(123_000),
    Sent(1, 1),
    Clock(183_000),
    Sent(1, 1),
    Clock(243_000),
    Sent(1, 1),
    Clock(303_000),
    Sent(1, 1),
    Clock(362_999),
    Serve(2),
    Fell(1),
    Sent(1, 2),
    Sent(2, 2),
    Quiet(Some(1000)),
    Reply(2, 13, Some(Answered)),
    Quiet(Some(1000)),
    Reply(1, 12, Some(Again)),
    Quiet(None),
];

/// A reply is counted once, a late one to an earlier copy counts, one to an older version doesn't.
const LATE: &[Step] = &[
    Sent(1, 1),
    Clock(1000),
    Sent(1, 1),
    Serve(2),
    Clock(2000),
    Sent(1, 2),
    Reply(1, 0, None),
    Reply(1, 1, None),
    Quiet(Some(1000)),
    Clock(3000),
    Sent(1, 2),
    Reply(1, 2, Some(Answered)),
    Reply(1, 2, None),
    Reply(1, 3, None),
    Quiet(None),
];

/// Replies of another ID, and from another secondary's address.
const OTHERS: &[Step] = &[
    Sent(1, 1),
    Sent(2, 1),
    Reply(2, 0, None),
    Reply(1, 1, None),
    Reply(3, 0, None),
    Quiet(Some(1000)),
    Reply(1, 0, Some(Answered)),
    Clock(1000),
    Sent(2, 1),
    Quiet(Some(2000)),
];

/// A clock that stands still, one that goes far ahead, and one that goes back.
const CLOCKS: &[Step] = &[
    Clock(50_000),
    Sent(1, 1),
    Quiet(Some(1000)),
    Clock(50_000),
    Quiet(Some(1000)),
    Clock(50_600),
    Clock(10),
    Quiet(Some(400)),
    Clock(409),
    Quiet(Some(1)),
    Clock(410),
    Sent(1, 1),
    Quiet(Some(2000)),
    Clock(18_446_744_073_709_551_615),
    Sent(1, 1),
    Quiet(Some(4000)),
    Clock(0),
    Quiet(Some(4000)),
];

/// Serials that go round: a version is newer by its number (RFC 1982, 3).
const ROUND: &[Step] = &[
    Sent(1, 4_294_967_295),
    Reply(1, 0, Some(Answered)),
    Serve(0),
    Quiet(Some(1000)),
    Clock(1000),
    Sent(1, 0),
    Serve(2_147_483_647),
    Serve(4_294_967_294),
    Clock(2000),
    Sent(1, 4_294_967_294),
    Quiet(Some(1000)),
];

/// The tables: their secondaries, the serial of their first version, and their steps.
const TABLES: [(&str, usize, u32, &[Step]); 7] = [
    ("answered", 2, 1, ANSWERED),
    ("lost", 1, 1, LOST),
    ("one is lost", 2, 1, ONE_IS_LOST),
    ("late replies", 1, 1, LATE),
    ("replies of others", 2, 1, OTHERS),
    ("clocks", 1, 1, CLOCKS),
    ("serials that go round", 1, 4_294_967_295, ROUND),
];

#[test]
fn turns(rt: HostRuntime) {
    for (name, secondaries, serial, steps) in TABLES {
        let wrong = first_wrong(rt.alloc(), secondaries, serial, steps);
        assert_eq!(rt; wrong, Some(None), "{name}");
    }
}

// At most one NOTIFY a second, of the version that is served then.
#[test]
fn thousand_versions_in_a_second(rt: HostRuntime) -> Result<(), Fail> {
    let mut steps = Vec::from_array(rt.alloc(), [Sent(1, 1)])?;
    for past in 0..1000u32 {
        let now = u64::from(past);
        let wait = 1000u64.saturating_sub(now);
        let serial = past.saturating_add(2);
        steps.extend_from_slice(&[Serve(serial), Clock(now), Quiet(Some(wait))])?;
    }
    steps.extend_from_slice(&[Clock(1000), Sent(1, 1001), Quiet(Some(1000))])?;
    let wrong = first_wrong(rt.alloc(), 1, 1, &steps);
    assert_eq!(rt; wrong, Some(None));
    Ok(())
}
