//! What signed requests are taken as, and what they are without their TSIG.
use crate::made::keys;
use crate::messages::{
    ANSWER, AXFR, OLD, QUERY, QUERY_BARE, SHORT, UNKNOWN, UPDATE, UPDATE_BARE, WRONG,
};
use dns_message::{HEADER, Place, tsig_place};
use std::alloc::Global;
use std::test::Fail;
use tsig::{Verification, verify, write_without_tsig};
use wire_names::Message;

/// What a request is by its TSIG, in a word.
fn word(verified: &Verification<'_>) -> &'static str {
    match verified {
        Verification::Unsigned => "unsigned",
        Verification::Silent => "silent",
        Verification::Malformed => "malformed",
        Verification::BadKey(_) => "BADKEY",
        Verification::BadSig(_) => "BADSIG",
        Verification::BadTime(_) => "BADTIME",
        Verification::BadTrunc(_) => "BADTRUNC",
        Verification::Signed(_) => "signed",
    }
}

/// What a request in hexadecimal is at a time.
fn taken(alloc: Global, request: &str, now: u64) -> Result<&'static str, Fail> {
    let octets = hex::decode(alloc, request)?;
    let keys = keys(alloc)?;
    Ok(word(&verify(&keys, now, &Message::new(&octets))))
}

/// Requests, times, and what each is then. The fudge is 300 seconds, on both sides (RFC 8945, 5.2.3).
const REQUESTS: [(&str, u64, &str); 14] = [
    (QUERY, 1_700_000_001, "signed"),
    (UPDATE, 1_700_000_001, "signed"),
    (AXFR, 1_700_000_001, "signed"),
    (UNKNOWN, 1_700_000_001, "BADKEY"),
    (WRONG, 1_700_000_001, "BADSIG"),
    (OLD, 1_700_001_000, "BADTIME"),
    (SHORT, 1_700_000_001, "BADTRUNC"),
    (QUERY_BARE, 1_700_000_001, "unsigned"),
    (ANSWER, 1_700_000_001, "silent"),
    (QUERY, 1_699_999_699, "BADTIME"),
    (QUERY, 1_699_999_700, "signed"),
    (QUERY, 1_700_000_300, "signed"),
    (QUERY, 1_700_000_301, "BADTIME"),
    (QUERY, 0, "BADTIME"),
];

/// The number of the first of the requests that is something else.
fn wrong_request(alloc: Global) -> Result<Option<usize>, Fail> {
    for (i, (request, now, want)) in REQUESTS.iter().enumerate() {
        if taken(alloc, request, *now)? != *want {
            return Ok(Some(i));
        }
    }
    Ok(None)
}

#[test]
fn requests_of_other_programs(rt: HostRuntime) -> Result<(), Fail> {
    assert_eq!(rt; wrong_request(rt.alloc())?, None);
    Ok(())
}

/// A request without its TSIG, and with its ID; None where it has none.
fn without_tsig(alloc: Global, request: &str) -> Result<Option<Vec<u8>>, Fail> {
    let octets = hex::decode(alloc, request)?;
    if octets.len() < HEADER {
        return Ok(None);
    }
    let Some(Place::At(start)) = tsig_place(&Message::new(&octets)) else {
        return Ok(None);
    };
    let mut out = octets.clone()?;
    let id = u16::from_be_bytes([octets[0], octets[1]]);
    let len = write_without_tsig(&octets, start, id, &mut out);
    out.truncate(len);
    Ok(Some(out))
}

/// Whether requests are what they were before they were signed, and one without a TSIG has no place of one.
fn are_put_back(alloc: Global) -> Result<bool, Fail> {
    for (request, want) in [(QUERY, QUERY_BARE), (UPDATE, UPDATE_BARE)] {
        let want = hex::decode(alloc, want)?;
        match without_tsig(alloc, request)? {
            Some(own) if own.as_slice() == want.as_slice() => {}
            _ => return Ok(false),
        }
    }
    Ok(without_tsig(alloc, QUERY_BARE)?.is_none())
}

#[test]
fn requests_without_their_tsig(rt: HostRuntime) -> Result<(), Fail> {
    assert!(rt; are_put_back(rt.alloc())?);
    Ok(())
}
