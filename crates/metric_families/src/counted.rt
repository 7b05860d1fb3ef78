//! What the threads of a server count.
ghost use Rattle.std.specs.Prelude.{◌≡◌, ◌++◌, IfOk, OnOk};
ghost use Rattle.metrics_text.specs.Families.{with_sample};
ghost use Rattle.metric_families.specs.Counted.{counted_told, requests_told, replies_told, updates_told, connections_told, store_told, queries, way_sample, opcodes, qtypes, rcodes, update_rcodes, refusals, transfers, connection_ends, ended_in};

use crate::kinds::{COUNTER, GAUGE};
use crate::single::{put_labelled, put_of_two, single};
use crate::times::times_family;
use counters::{
    AddressFamily, ConnectionEnd, Counter, Counters, Opcode, Qtype, Rcode, Refusal, Transfer,
    Transport,
};
use metrics_text::Family;
use std::alloc::{AllocError, Global};

/// Puts the families of what a server's threads count after others; those of a store where it has one. The fault is a request for memory that was refused; some may then be there.
pub fn counter_families(
    alloc: Global,
    families: &mut Vec<Family>,
    sum: &Counters,
    has_store: bool,
) -> Result<(), AllocError>
    ensures { OnOk result (families.new.items ≡ families.old.items ++ counted_told sum.now has_store) }
{
    put_requests(alloc, families, sum)?;
    put_replies(alloc, families, sum)?;
    put_updates(alloc, families, sum)?;
    families.push(transfers(alloc, sum)?)?;
    put_connections(alloc, families, sum)?;
    if has_store {
        put_store(alloc, families, sum)?;
    }
    Ok(())
}

/// Puts the families of requests after others.
fn put_requests(alloc: Global, families: &mut Vec<Family>, sum: &Counters) -> Result<(), AllocError>
    ensures { OnOk result (families.new.items ≡ families.old.items ++ requests_told sum.now.numbers) }
{
    families.push(queries(alloc, sum)?)?;
    families.push(opcodes(alloc, sum)?)?;
    families.push(qtypes(alloc, sum)?)?;
    families.push(single(
        alloc,
        "dnsd_received_bytes_total",
        "Bytes of requests",
        COUNTER,
        sum.get(Counter::ReceivedOctets),
    )?)?;
    families.push(single(
        alloc,
        "dnsd_dropped_total",
        "Requests without a reply",
        COUNTER,
        sum.get(Counter::Dropped),
    )?)?;
    Ok(())
}

/// Puts the families of replies after others.
fn put_replies(alloc: Global, families: &mut Vec<Family>, sum: &Counters) -> Result<(), AllocError>
    ensures { OnOk result (families.new.items ≡ families.old.items ++ replies_told sum.now.numbers) }
{
    families.push(rcodes(alloc, sum)?)?;
    families.push(single(
        alloc,
        "dnsd_truncated_total",
        "Replies that are truncated",
        COUNTER,
        sum.get(Counter::Truncated),
    )?)?;
    families.push(single(
        alloc,
        "dnsd_sent_bytes_total",
        "Bytes of replies",
        COUNTER,
        sum.get(Counter::SentOctets),
    )?)?;
    Ok(())
}

/// Puts the families of updates after others.
fn put_updates(alloc: Global, families: &mut Vec<Family>, sum: &Counters) -> Result<(), AllocError>
    ensures { OnOk result (families.new.items ≡ families.old.items ++ updates_told sum.now) }
{
    families.push(update_rcodes(alloc, sum)?)?;
    families.push(single(
        alloc,
        "dnsd_updates_changed_total",
        "Updates that changed the zone",
        COUNTER,
        sum.get(Counter::UpdateChanged),
    )?)?;
    families.push(refusals(alloc, sum)?)?;
    families.push(times_family(
        alloc,
        "dnsd_update_seconds",
        "How long updates took until their reply",
        &sum.updates,
    )?)?;
    Ok(())
}

/// Puts the families of connections after others.
fn put_connections(
    alloc: Global,
    families: &mut Vec<Family>,
    sum: &Counters,
) -> Result<(), AllocError>
    ensures { OnOk result (families.new.items ≡ families.old.items ++ connections_told sum.now.numbers) }
{
    let opened = sum.get(Counter::ConnectionOpened);
    let open = opened.saturating_sub(ended_in(sum));
    families.push(single(
        alloc,
        "dnsd_connections",
        "TCP connections that are open",
        GAUGE,
        open,
    )?)?;
    families.push(single(
        alloc,
        "dnsd_connections_opened_total",
        "TCP connections that were opened",
        COUNTER,
        opened,
    )?)?;
    families.push(connection_ends(alloc, sum)?)?;
    Ok(())
}

/// Puts the families of what a store wrote after others.
fn put_store(alloc: Global, families: &mut Vec<Family>, sum: &Counters) -> Result<(), AllocError>
    ensures { OnOk result (families.new.items ≡ families.old.items ++ store_told sum.now) }
{
    families.push(times_family(
        alloc,
        "dnsd_store_fsync_seconds",
        "How long writes of a batch took",
        &sum.syncs,
    )?)?;
    families.push(single(
        alloc,
        "dnsd_store_batches_total",
        "Batches of updates that the store wrote",
        COUNTER,
        sum.get(Counter::StoreBatch),
    )?)?;
    families.push(single(
        alloc,
        "dnsd_store_batch_updates_total",
        "Updates of these batches",
        COUNTER,
        sum.get(Counter::StoreUpdate),
    )?)?;
    families.push(single(
        alloc,
        "dnsd_store_compactions_total",
        "Compactions of the store",
        COUNTER,
        sum.get(Counter::StoreCompaction),
    )?)?;
    Ok(())
}

/// How many connections have ended.
fn ended_in(sum: &Counters) -> u64
    ensures { result ≡ ended_in sum.now.numbers }
{
    let mut ended = 0u64;
    for reason in ConnectionEnd::ALL {
        ended = ended.saturating_add(sum.get(Counter::ConnectionEnded(reason)));
    }
    ended
}

/// The ways by which requests come.
const WAYS: [(Transport, AddressFamily); 4] = [
    (Transport::Udp, AddressFamily::V4),
    (Transport::Udp, AddressFamily::V6),
    (Transport::Tcp, AddressFamily::V4),
    (Transport::Tcp, AddressFamily::V6),
];

/// The family of requests by transport and address family.
fn queries(alloc: Global, sum: &Counters) -> Result<Family, AllocError>
    ensures { IfOk result (λ family. family ≡ queries sum.now.numbers) }
{
    let help = "Requests, by transport and IP version";
    let mut family = Family::new(alloc, "dnsd_queries_total", help, COUNTER);
    for way in WAYS {
        put_way(alloc, &mut family, way.0, way.1, sum)?;
    }
    Ok(family)
}

/// Puts the sample of a way by which requests come after others.
fn put_way(
    alloc: Global,
    family: &mut Family,
    transport: Transport,
    version: AddressFamily,
    sum: &Counters,
) -> Result<(), AllocError>
    ensures { OnOk result (family.new ≡ with_sample family.old (way_sample transport version sum.now.numbers)) }
{
    let number = sum.get(Counter::Request(transport, version));
    let first = ("transport", transport.word());
    put_of_two(family, alloc, first, ("family", version.word()), number)?;
    Ok(())
}

/// The family of requests by OPCODE.
fn opcodes(alloc: Global, sum: &Counters) -> Result<Family, AllocError>
    ensures { IfOk result (λ family. family ≡ opcodes sum.now.numbers) }
{
    let mut family = Family::new(alloc, "dnsd_requests_total", "Requests, by OPCODE", COUNTER);
    for opcode in Opcode::ALL {
        let number = sum.get(Counter::Opcode(opcode));
        put_labelled(&mut family, alloc, "opcode", opcode.word(), number)?;
    }
    Ok(family)
}

/// The family of questions by type.
fn qtypes(alloc: Global, sum: &Counters) -> Result<Family, AllocError>
    ensures { IfOk result (λ family. family ≡ qtypes sum.now.numbers) }
{
    let mut family = Family::new(
        alloc,
        "dnsd_query_types_total",
        "Questions, by type",
        COUNTER,
    );
    for qtype in Qtype::ALL {
        let number = sum.get(Counter::Question(qtype));
        put_labelled(&mut family, alloc, "type", qtype.word(), number)?;
    }
    Ok(family)
}

/// The family of replies by RCODE.
fn rcodes(alloc: Global, sum: &Counters) -> Result<Family, AllocError>
    ensures { IfOk result (λ family. family ≡ rcodes sum.now.numbers) }
{
    let mut family = Family::new(alloc, "dnsd_responses_total", "Replies, by RCODE", COUNTER);
    for rcode in Rcode::ALL {
        let number = sum.get(Counter::Reply(rcode));
        put_labelled(&mut family, alloc, "rcode", rcode.word(), number)?;
    }
    Ok(family)
}

/// The family of replies to updates by RCODE.
fn update_rcodes(alloc: Global, sum: &Counters) -> Result<Family, AllocError>
    ensures { IfOk result (λ family. family ≡ update_rcodes sum.now.numbers) }
{
    let help = "Replies to updates, by RCODE";
    let mut family = Family::new(alloc, "dnsd_updates_total", help, COUNTER);
    for rcode in Rcode::ALL {
        let number = sum.get(Counter::Update(rcode));
        put_labelled(&mut family, alloc, "rcode", rcode.word(), number)?;
    }
    Ok(family)
}

/// The family of refused updates by reason.
fn refusals(alloc: Global, sum: &Counters) -> Result<Family, AllocError>
    ensures { IfOk result (λ family. family ≡ refusals sum.now.numbers) }
{
    let help = "Updates that were refused, by reason";
    let mut family = Family::new(alloc, "dnsd_updates_refused_total", help, COUNTER);
    for reason in Refusal::ALL {
        let number = sum.get(Counter::UpdateRefused(reason));
        put_labelled(&mut family, alloc, "reason", reason.word(), number)?;
    }
    Ok(family)
}

/// The family of transfers by what was asked for and what was sent.
fn transfers(alloc: Global, sum: &Counters) -> Result<Family, AllocError>
    ensures { IfOk result (λ family. family ≡ transfers sum.now.numbers) }
{
    let help = "Requests for transfers, by what was sent";
    let mut family = Family::new(alloc, "dnsd_transfers_total", help, COUNTER);
    for transfer in Transfer::ALL {
        let number = sum.get(Counter::Transfer(transfer));
        let first = ("type", transfer.word());
        put_of_two(
            &mut family,
            alloc,
            first,
            ("result", transfer.sent_word()),
            number,
        )?;
    }
    Ok(family)
}

/// The family of connections that ended by reason.
fn connection_ends(alloc: Global, sum: &Counters) -> Result<Family, AllocError>
    ensures { IfOk result (λ family. family ≡ connection_ends sum.now.numbers) }
{
    let help = "TCP connections that ended, by reason";
    let mut family = Family::new(alloc, "dnsd_connections_ended_total", help, COUNTER);
    for reason in ConnectionEnd::ALL {
        let number = sum.get(Counter::ConnectionEnded(reason));
        put_labelled(&mut family, alloc, "reason", reason.word(), number)?;
    }
    Ok(family)
}
