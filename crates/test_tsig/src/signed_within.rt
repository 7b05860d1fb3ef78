//! How replies to signed requests are signed, and how requests that aren't taken are answered.
use crate::made::{keys, number_at};
use crate::messages::{
    ANSWER, ANSWER_BARE, AXFR, FIRST, FIRST_BARE, OLD, OLD_TOLD, QUERY, SECOND, SECOND_BARE, SHORT,
    SHORT_TOLD, THIRD, THIRD_BARE, UNKNOWN, UNKNOWN_TOLD, UPDATE, UPDATED, UPDATED_BARE, WRONG,
    WRONG_TOLD,
};
use arrayvec::ArrayVec;
use dns_message::HEADER;
use hmac::MAX_MAC;
use std::alloc::Global;
use std::test::Fail;
use tsig::{
    FUDGE, Key, Keys, MAX_ERROR_TSIG, MAX_TSIG, RequestTsig, Stamp, TsigError, Verification,
    add_error_tsig, sign, sign_later, verify,
};
use wire_names::Message;

/// A MAC.
type Mac = ArrayVec<u8, MAX_MAC>;

/// What a reply has to know of a request, where its MAC is right.
fn request_tsig_of(keys: &Keys, now: u64, request: &[u8]) -> Option<RequestTsig> {
    match verify(keys, now, &Message::new(request)) {
        Verification::BadTime(request_tsig) => Some(request_tsig),
        Verification::BadTrunc(request_tsig) => Some(request_tsig),
        Verification::Signed(request_tsig) => Some(request_tsig),
        _ => None,
    }
}

/// Signs the reply in the first octets under a limit of 512, where it has a header and room.
fn sign_in(key: &Key, mac: &mut Mac, stamp: &Stamp, out: &mut [u8], len: usize) -> Option<usize> {
    if out.len() < 512 || len < HEADER || len > 512 || number_at(out, 10) == u16::MAX {
        return None;
    }
    Some(sign(key, mac, stamp, 512, out, len))
}

/// Signs a later message in the first octets, likewise.
fn sign_more(key: &Key, mac: &mut Mac, stamp: &Stamp, out: &mut [u8], len: usize) -> Option<usize> {
    if len < HEADER || len > 512 || out.len() < 512 + MAX_TSIG || number_at(out, 10) == u16::MAX {
        return None;
    }
    Some(sign_later(key, mac, stamp, out, len))
}

/// A stamp of a time, with this error.
fn stamp(time: u64, error: TsigError) -> Stamp {
    Stamp {
        time,
        fudge: FUDGE,
        error,
    }
}

/// The octets of a message with room after them, and how many they are.
fn with_room(alloc: Global, plain: &str) -> Result<(Vec<u8>, usize), Fail> {
    let mut out = hex::decode(alloc, plain)?;
    let len = out.len();
    out.resize(len.min(65535) + 1024, 0)?;
    Ok((out, len))
}

/// The reply to a request, signed at a time, and its MAC; None where it isn't signed.
fn signed(
    alloc: Global,
    request: &str,
    now: u64,
    plain: &str,
    stamp: &Stamp,
) -> Result<Option<(Vec<u8>, Mac)>, Fail> {
    let request = hex::decode(alloc, request)?;
    let keys = keys(alloc)?;
    let Some(request_tsig) = request_tsig_of(&keys, now, &request) else {
        return Ok(None);
    };
    let Some(key) = keys.get(request_tsig.key) else {
        return Ok(None);
    };
    let (mut out, len) = with_room(alloc, plain)?;
    let mut mac = request_tsig.mac;
    let Some(len) = sign_in(key, &mut mac, stamp, &mut out, len) else {
        return Ok(None);
    };
    out.truncate(len);
    Ok(Some((out, mac)))
}

/// Whether a message of another program ends in this MAC, its ID, no error and no Other Data.
fn has_mac(alloc: Global, message: &str, mac: &[u8]) -> Result<bool, Fail> {
    let message = hex::decode(alloc, message)?;
    let end = message.len().saturating_sub(6);
    Ok(message.get(..end).is_some_and(|front| front.ends_with(mac)))
}

/// Requests, their replies without a TSIG, and as other programs signed them.
const REPLIES: [(&str, &str, &str); 2] = [
    (QUERY, ANSWER_BARE, ANSWER),
    (UPDATE, UPDATED_BARE, UPDATED),
];

/// Whether the reply to a request has the MAC that another program gave it.
fn is_signed(alloc: Global, request: &str, plain: &str, want: &str) -> Result<bool, Fail> {
    let stamp = stamp(1_700_000_001, TsigError::NoError);
    match signed(alloc, request, 1_700_000_001, plain, &stamp)? {
        Some((_out, mac)) => has_mac(alloc, want, &mac),
        None => Ok(false),
    }
}

/// Whether the replies to a query and to an update have the MACs that other programs gave them.
fn are_signed(alloc: Global) -> Result<bool, Fail> {
    for (request, plain, want) in &REPLIES {
        if !is_signed(alloc, request, plain, want)? {
            return Ok(false);
        }
    }
    Ok(true)
}

#[test]
fn macs_of_replies(rt: HostRuntime) -> Result<(), Fail> {
    assert!(rt; are_signed(rt.alloc())?);
    Ok(())
}

/// Signs a later message, by the MAC of the one before, in whose place its own comes. Whether it is signed.
fn later(alloc: Global, mac: &mut Mac, time: u64, plain: &str) -> Result<bool, Fail> {
    let keys = keys(alloc)?;
    let Some(key) = keys.get(1) else {
        return Ok(false);
    };
    let (mut out, len) = with_room(alloc, plain)?;
    let stamp = stamp(time, TsigError::NoError);
    Ok(sign_more(key, mac, &stamp, &mut out, len).is_some())
}

/// The times of later messages of a transfer, the messages without a TSIG, and as another program signed them.
const LATER: [(u64, &str, &str); 2] = [
    (1_700_000_002, SECOND_BARE, SECOND),
    (1_700_000_003, THIRD_BARE, THIRD),
];

/// Whether the messages of a transfer have the MACs that another program gave them: the first over the request's MAC and all variables, each later one over the MAC before and the
/// times (RFC 8945, 5.3.1).
fn is_transfer_signed(alloc: Global) -> Result<bool, Fail> {
    let first = stamp(1_700_000_001, TsigError::NoError);
    let Some((_out, mut mac)) = signed(alloc, AXFR, 1_700_000_001, FIRST_BARE, &first)? else {
        return Ok(false);
    };
    if !has_mac(alloc, FIRST, &mac)? {
        return Ok(false);
    }
    for (time, plain, want) in &LATER {
        if !later(alloc, &mut mac, *time, plain)? || !has_mac(alloc, want, &mac)? {
            return Ok(false);
        }
    }
    Ok(true)
}

#[test]
fn macs_of_a_transfer(rt: HostRuntime) -> Result<(), Fail> {
    assert!(rt; is_transfer_signed(rt.alloc())?);
    Ok(())
}

/// Whether the reply to a request, signed, is this one.
fn is_told(
    alloc: Global,
    request: &str,
    now: u64,
    plain: &str,
    stamp: &Stamp,
    want: &str,
) -> Result<bool, Fail> {
    let want = hex::decode(alloc, want)?;
    let made = signed(alloc, request, now, plain, stamp)?;
    Ok(made.is_some_and(|(out, _)| out.as_slice() == want.as_slice()))
}

/// Whether BADTIME and BADTRUNC are reported as another program reports them: the first has the request's time, and the server's as Other Data (RFC 8945, 5.2.3), and the second is signed in
/// full (RFC 8945, 5.2.4).
fn are_told_signed(alloc: Global) -> Result<bool, Fail> {
    let late = stamp(1_700_000_000, TsigError::BadTime(1_700_001_000));
    let short = stamp(1_700_000_001, TsigError::BadTrunc);
    let (old, cut) = ("6666a8090000000000000000", "777780090000000000000000");
    Ok(
        is_told(alloc, OLD, 1_700_001_000, old, &late, OLD_TOLD)?
            && is_told(alloc, SHORT, 1_700_000_001, cut, &short, SHORT_TOLD)?,
    )
}

#[test]
fn errors_that_are_signed(rt: HostRuntime) -> Result<(), Fail> {
    assert!(rt; are_told_signed(rt.alloc())?);
    Ok(())
}

/// Whether the question, TC 1 and NOERROR are left of a reply whose TSIG doesn't fit (RFC 8945, 5.3).
fn is_cut(alloc: Global) -> Result<bool, Fail> {
    let stamp = stamp(1_700_000_001, TsigError::NoError);
    let mut plain = String::from_str(alloc, ANSWER_BARE)?;
    for _ in 0..400 {
        plain.push_str("00")?;
    }
    let Some((out, _)) = signed(alloc, QUERY, 1_700_000_001, &plain, &stamp)? else {
        return Ok(false);
    };
    let want = hex::decode(alloc, "1111860000010000000000010377777707")?;
    Ok(out.starts_with(&want) && out.len() == 12 + 22 + 18 + 10 + 13 + 16 + 32)
}

#[test]
fn reply_that_is_cut(rt: HostRuntime) -> Result<(), Fail> {
    assert!(rt; is_cut(rt.alloc())?);
    Ok(())
}

/// Writes an error, unsigned, in the first octets, where there is a header and room.
fn add_error_in(verified: &Verification<'_>, out: &mut [u8], len: usize) -> Option<usize> {
    if len < HEADER
        || len > 512
        || out.len() < 512 + MAX_ERROR_TSIG
        || number_at(out, 10) == u16::MAX
    {
        return None;
    }
    match verified {
        Verification::BadKey(tsig) => Some(add_error_tsig(tsig, TsigError::BadKey, out, len)),
        Verification::BadSig(tsig) => Some(add_error_tsig(tsig, TsigError::BadSig, out, len)),
        _ => None,
    }
}

/// Whether the reply to a request that isn't taken is this one.
fn is_error(alloc: Global, request: &str, plain: &str, want: &str) -> Result<bool, Fail> {
    let request = hex::decode(alloc, request)?;
    let want = hex::decode(alloc, want)?;
    let keys = keys(alloc)?;
    let verified = verify(&keys, 1_700_000_001, &Message::new(&request));
    let (mut out, len) = with_room(alloc, plain)?;
    let Some(len) = add_error_in(&verified, &mut out, len) else {
        return Ok(false);
    };
    out.truncate(len);
    Ok(out.as_slice() == want.as_slice())
}

/// Whether BADKEY and BADSIG are reported as another program reports them (RFC 8945, 5.2.1, 5.2.2 and 5.3.2).
fn are_told_unsigned(alloc: Global) -> Result<bool, Fail> {
    let (unknown, wrong) = ("4444a8090000000000000000", "5555a8090000000000000000");
    Ok(
        is_error(alloc, UNKNOWN, unknown, UNKNOWN_TOLD)?
            && is_error(alloc, WRONG, wrong, WRONG_TOLD)?,
    )
}

#[test]
fn errors_that_are_unsigned(rt: HostRuntime) -> Result<(), Fail> {
    assert!(rt; are_told_unsigned(rt.alloc())?);
    Ok(())
}
