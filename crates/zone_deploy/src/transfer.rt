//! The zone that a server serves, by a transfer (RFC 5936).
ghost use Rattle.std.specs.Prelude.{◌≡◌, ◌≤◌, ◌++◌, ◌∷◌, ◌||◌, [], List, ℕ, length, map, IfOk, OnOk, Some};
ghost use Rattle.std.specs.Option.{option_copied};
ghost use Rattle.std.specs.Io.KnownBytes.{Consumes};
ghost use Rattle.dns_message.specs.Frame.{frame_of};
ghost use Rattle.transfer_in.specs.Taking.{records_of_message};
ghost use Rattle.zone_deploy.specs.Exchanges.{transfer_query, is_soa_last, ends_with, has_records, IsTransfer, IsServed};
ghost use Rattle.zone_deploy.specs.Replies.{code_of};
ghost use Rattle.zone_deploy.specs.Signatures.{IsNext, first_chain};

use crate::fault::{DeployFault, Request};
use crate::frames::{read_message, write_message};
use crate::replies::code_of;
use crate::signatures::{Chain, seconds_of, sent};
use dns_message::{HEADER, received_records};
use dns_name::Name;
use dns_rdata::{RType, RawRecord};
use std::alloc::{AllocError, Global};
use std::io::{Read, Write};
use std::time::Clock;
use transfer_core::TransferFault;
use transfer_in::apply;
use tsig::Key;
use zone_tree::{Zone, ZoneRead};

/// The most messages of a transfer that are read: some more than a zone has records (own).
const MOST: u64 = 1 << 20;

/// The zone that a server serves, of the apex of another zone: what the messages make of that zone that it sends in reply to a query for the whole zone (RFC
/// 5936, 2). The query is signed by a key where there is one.
///
/// `Refused` where a reply has an RCODE other than NOERROR, `NoReply` where what is read is no reply, `NotSigned` or `BadTsig` where it isn't signed by the
/// key, `Transfer` where the messages are no transfer of such a zone, `Io` where the connection fails, and `NoMemory` where a growth was refused.
pub fn zone_of_server<C: Clock, R: Read, W: Write>(
    alloc: Global,
    clock: &C,
    key: Option<&Key>,
    reader: &mut R,
    writer: &mut W,
    other: &Zone,
) -> Result<Zone, DeployFault>
    ensures { IfOk result (IsServed (option_copied key.entry) other.now (W.contents writer.old) (W.contents writer.new) (R.remaining reader.old) (R.remaining reader.new)) }
{
    let query = query_of(alloc, other.apex())?;
    let (octets, mut chain) = sent(alloc, key, seconds_of(clock), &query)?;
    write_message(alloc, writer, &octets)?;
    let messages = read_transfer(alloc, clock, key, reader, &query, &mut chain)?;
    Ok(apply(alloc, other, &messages)?)
}

/// The query for the whole zone of an apex.
fn query_of(alloc: Global, apex: &Name) -> Result<Vec<u8>, AllocError>
    ensures query { IfOk result (λ query. query.items ≡ transfer_query apex.now) }
    ensures header { IfOk result (λ query. HEADER ≤ length query.items) }
{
    let mut query = b"\0\0\0\0\0\x01\0\0\0\0\0\0".to_vec(alloc)?;
    query.extend_from_slice(apex.wire())?;
    query.extend_from_slice(b"\0\xfc\0\x01")?;
    Ok(query)
}

/// Reads the messages of a transfer, up to that with the SOA that closes it, which must be signed where there is a key (RFC 8945, 5.3.1).
fn read_transfer<C: Clock, R: Read>(
    alloc: Global,
    clock: &C,
    key: Option<&Key>,
    reader: &mut R,
    query: &[u8],
    chain: &mut Chain,
) -> Result<Vec<Vec<u8>>, DeployFault>
    requires { HEADER ≤ length query.now }
    ensures { (now : ℕ) → chain.old ≡ first_chain (option_copied key.entry) now query.now
        → IfOk result (λ messages. IsTransfer (option_copied key.entry) now query.now (R.remaining reader.old) (R.remaining reader.new) (map (λ message. message.items) messages.items)) }
{
    let mut messages = Vec::new(alloc);
    let mut has_begun = false;
    for _ in 0..MOST {
        let message = read_part(alloc, clock, key, reader, query, chain)?;
        let is_last = note_part(alloc, &message, &mut has_begun)?;
        put_part(&mut messages, message)?;
        if is_last {
            let whole = closed(messages, chain)?;
            return Ok(whole);
        }
    }
    Err(DeployFault::Transfer(TransferFault::Broken))
}

/// Reads one message of a transfer.
fn read_part<C: Clock, R: Read>(
    alloc: Global,
    clock: &C,
    key: Option<&Key>,
    reader: &mut R,
    query: &[u8],
    chain: &mut Chain,
) -> Result<Vec<u8>, DeployFault>
    requires { HEADER ≤ length query.now }
    ensures read { IfOk result (λ message. Consumes (R.remaining reader.old) (R.remaining reader.new) (frame_of message.items)) }
    ensures code { IfOk result (λ message. code_of query.now message.items ≡ Some 0) }
    ensures signed { IfOk result (λ message. IsNext (option_copied key.entry) chain.old message.items chain.new) }
{
    let message = read_message(alloc, reader)?;
    let Some(code) = code_of(query, &message) else {
        return Err(DeployFault::NoReply(Request::Transfer));
    };
    chain.check(alloc, key, Request::Transfer, seconds_of(clock), &message)?;
    if code != 0 {
        return Err(DeployFault::Refused(Request::Transfer, code));
    }
    Ok(message)
}

/// Puts a message at the end of others.
fn put_part(messages: &mut Vec<Vec<u8>>, message: Vec<u8>) -> Result<(), AllocError>
    ensures { OnOk result (messages.new.items ≡ messages.old.items ++ message ∷ []) }
{
    messages.push(message)?;
    Ok(())
}

/// The messages of a transfer that is over, of which the last must be signed (RFC 8945, 5.3.1).
fn closed(messages: Vec<Vec<u8>>, chain: &Chain) -> Result<Vec<Vec<u8>>, DeployFault>
    ensures same { IfOk result (λ own. own.items ≡ messages.items) }
    ensures closed { IfOk result (λ own. chain.now.unsigned ≡ 0) }
{
    if chain.is_closed() {
        Ok(messages)
    } else {
        Err(DeployFault::NotSigned(Request::Transfer))
    }
}

/// Whether a transfer is over with a message, by whether a record came before it; that one has come is noted.
fn note_part(alloc: Global, message: &[u8], has_begun: &mut bool) -> Result<bool, DeployFault>
    ensures last { IfOk result (λ is_last. is_last ≡ ends_with has_begun.old (records_of_message message.now)) }
    ensures begun { OnOk result (has_begun.new ≡ has_begun.old || has_records (records_of_message message.now)) }
{
    let Some(records) = received_records(alloc, message)? else {
        return Err(DeployFault::Transfer(TransferFault::Broken));
    };
    let records = records.as_slice();
    let is_last = ends_with(*has_begun, records);
    *has_begun = *has_begun || has_records(records);
    Ok(is_last)
}

/// Whether there is a record.
fn has_records(records: &[RawRecord]) -> bool
    ensures { result ≡ has_records records.now }
{
    !records.is_empty()
}

/// Whether a transfer is over with these records, by whether others came before them: the last one is an SOA, and not the transfer's first record (RFC 5936,
/// 2.2).
fn ends_with(has_begun: bool, records: &[RawRecord]) -> bool
    ensures { result ≡ ends_with has_begun records.now }
{
    is_soa_last(records) && (has_begun || records.len() > 1)
}

/// Whether the last of some records is an SOA.
fn is_soa_last(records: &[RawRecord]) -> bool
    ensures { result ≡ is_soa_last records.now }
{
    match records.last() {
        Some(last) => last.rtype == RType::SOA,
        None => false,
    }
}
