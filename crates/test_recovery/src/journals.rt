//! Updates for the tests, and journals of them.
use dns_name::Name;
use journal::{Head, RequestMessages, TextSum, put_request, write_frame, write_head};
use master_file::read_zone;
use std::alloc::Global;
use std::test::Fail;
use store_recovery::create_store;

/// An update that adds an A record of 192.0.2.1 at a.example, built with Python (RFC 2136, 2).
pub(crate) const ADD_A: &str =
    "000128000001000000010000076578616d706c6500000600010161076578616d706c6500000100010000012c0004c0000201";

/// The same of 192.0.2.2 at b.example.
pub(crate) const ADD_B: &str =
    "000128000001000000010000076578616d706c6500000600010162076578616d706c6500000100010000012c0004c0000202";

/// The same of 192.0.2.3 at a.example.
pub(crate) const ADD_MORE: &str =
    "000128000001000000010000076578616d706c6500000600010161076578616d706c6500000100010000012c0004c0000203";

/// An update that deletes all records at b.example.
pub(crate) const DELETE_B: &str =
    "000128000001000000010000076578616d706c6500000600010162076578616d706c650000ff00ff000000000000";

/// An update that deletes all A records at a.example.
pub(crate) const DELETE_A: &str =
    "000128000001000000010000076578616d706c6500000600010161076578616d706c6500000100ff000000000000";

/// A zone text, with serial 7.
pub(crate) const ZONE: &str = "example. 3600 IN SOA ns.example. host.example. 7 1 1 1 1
example. 3600 IN NS ns.example.
";

/// The head of a store that is created from a zone text, which is written unchanged.
pub(crate) fn head_of(alloc: Global, zone: &str) -> Result<Head, Fail> {
    let Ok(read) = read_zone(alloc, zone.as_bytes(), &Name::root()) else {
        return Err(Fail::from("no zone"));
    };
    let origin = TextSum::of(b"as it was given");
    let (text, head) = create_store(alloc, &read, 3, [9; 16], origin)?;
    if text.as_str() == zone {
        return Ok(head);
    }
    Err(Fail::from("another text is written"))
}

/// The batch of these updates.
fn batch_of(alloc: Global, messages: &[&str]) -> Result<Vec<u8>, Fail> {
    let mut batch = Vec::new(alloc);
    for message in messages {
        let update = hex::decode(alloc, message.as_bytes())?;
        if let Some(request) = RequestMessages::one(alloc, update) {
            put_request(alloc, &mut batch, &request)?;
        }
    }
    Ok(batch)
}

/// The journal of these batches, under the head of a store that is created from a zone text.
pub(crate) fn journal_of(alloc: Global, zone: &str, batches: &[&[&str]]) -> Result<Vec<u8>, Fail> {
    let (mut octets, salt) = write_head(alloc, &head_of(alloc, zone)?)?;
    for (number, messages) in batches.iter().enumerate() {
        let batch = batch_of(alloc, messages)?;
        if batch.len() < 1 << 24 {
            octets.extend_from_slice(&write_frame(alloc, &salt, number as u64, &batch)?)?;
        }
    }
    Ok(octets)
}

/// The journal of one batch of one request, which has these messages, under the head of a store that is created from a zone text.
pub(crate) fn joined_journal_of(
    alloc: Global,
    zone: &str,
    messages: &[&str],
) -> Result<Vec<u8>, Fail> {
    let (mut octets, salt) = write_head(alloc, &head_of(alloc, zone)?)?;
    let mut all = Vec::new(alloc);
    for message in messages {
        all.push(hex::decode(alloc, message.as_bytes())?)?;
    }
    let Some(request) = RequestMessages::of(all) else {
        return Err(Fail::from("a request can't stand in a batch"));
    };
    let mut batch = Vec::new(alloc);
    put_request(alloc, &mut batch, &request)?;
    if batch.len() < 1 << 24 {
        octets.extend_from_slice(&write_frame(alloc, &salt, 0, &batch)?)?;
    }
    Ok(octets)
}
