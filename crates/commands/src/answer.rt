//! Requests in hexadecimal, one per line, and their replies.
ghost use Rattle.std.specs.Prelude.{◌≡◌, ℕ, ◌<◌, ◌≤◌, ◌+◌, ◌*◌, ◌/◌, ◌^◌, ◌↔◌, false, true, List, [], ◌∷◌, ◌++◌, length, take, Some, None, unwrap_or, Ok, IfOk, OnOk, OnErr, IfSome, MatchBool, MatchOption, codes};
ghost use Rattle.std.specs.Option.{option_copied};
ghost use Rattle.std.specs.Io.BufRead.{strip_last};
ghost use Rattle.std.specs.Io.KnownBytes.{Appends};
ghost use Rattle.hex.specs.Hex.{decode_of, encode_lower};
ghost use Rattle.commands.specs.declared.lines.TheConstants.{MAX_REQUEST};
ghost use Rattle.commands.specs.declared.answer.TheConstants.{MAX_DIGITS};
ghost use Rattle.serve_core.specs.declared.transport.TheConstants.{TCP_LIMIT};
ghost use Rattle.serve_core.specs.Replies.{IsNoTransfer};
ghost use Rattle.dns_message.specs.Octets.{fit};
ghost use Rattle.serve_core.specs.Transfers.{peer_over, is_permitted, messages_to, reply_to_peer};
ghost use Rattle.serve_core.specs.Transport.{limit_of, room_of};
ghost use Rattle.commands.specs.Versions.{Past, begun, changes_for, Holds};
ghost use Rattle.commands.specs.Answers.{request_on, transfer_in, Answers, BeginsToAnswer, TakesLine, WritesFor, WritesReply, WritesSaid};
ghost use Rattle.commands.specs.Lines.{spaced, spaced_behind, Writes};

use crate::input::{MAX_READS, endless};
use crate::kept::Kept;
use crate::lines::{MAX_REQUEST, without_lf};
use crate::whole::write_whole;
use dns_message::{Parsed, Query, parse};
use serve_core::{
    Peer, Responded, TCP_LIMIT, Transport, is_permitted, respond, respond_by, transfer_reply,
};
use std::alloc::Global;
use std::io::{self, BufRead, Write};
use transfer_core::{ChainView, MAX_MESSAGE, Packer};
use wire_names::NameWriter;
use zone_tree::{Version, Zone};

/// The maximum number of hexadecimal digits in a reply.
const MAX_DIGITS: usize = 2 * TCP_LIMIT;

/// Buffers that are allocated once, so that answering a query allocates nothing after its line has been read.
#[derive(Drop)]
struct Buffers {
    /// The line as it was read.
    line: Vec<u8>,
    /// The request's octets.
    request: Vec<u8>,
    /// The octets of the reply, or of a message of a transfer.
    reply: Vec<u8>,
    /// The same octets in hexadecimal.
    digits: Vec<u8>,
    /// The names written in the reply, for compression. It is large; each reply resets it.
    names: NameWriter,
    ghost request_room: { length request.items ≡ MAX_REQUEST },
    ghost reply_room: { length reply.items ≡ TCP_LIMIT },
    ghost digits_room: { length digits.items ≡ MAX_DIGITS },
}

impl Buffers {
    /// Room for the longest request and the longest reply.
    fn new(alloc: Global) -> io::Result<Buffers> {
        Ok(Buffers {
            line: Vec::new(alloc),
            request: vec![in alloc; 0u8; MAX_REQUEST]?,
            reply: vec![in alloc; 0u8; TCP_LIMIT]?,
            digits: vec![in alloc; 0u8; MAX_DIGITS]?,
            names: NameWriter::new(),
        })
    }
}

/// Answers each line of the input, a request in hexadecimal, with a line: the reply over the transport in lower case, or the messages of a transfer
/// separated by spaces; `-` if there is no reply, `!` if the line is not hexadecimal of at most 65,535 octets. Clients are permitted to update and
/// transfer the zone, and later lines see the zone as updated (RFC 2136, 3; RFC 5936, 2.2).
///
/// An `Err` is an I/O error, lack of memory, or an input that has not ended after 2^32 reads. What has been written by then is a prefix of the
/// output. An update that runs out of memory gets SERVFAIL and changes nothing.
pub fn run_answer<R: BufRead, W: Write>(
    alloc: Global,
    zone: Zone,
    transport: Transport,
    reader: &mut R,
    writer: &mut W,
) -> io::Result<()>
    // Clauses about octets hold if the reader reports its remaining octets and the writer its contents.
    ensures ok { OnOk result (IfSome (R.remaining reader.old) (λ input.
        Answers transport (begun zone) input (W.contents writer.old) (W.contents writer.new))) }
    ensures err { OnErr result (IfSome (R.remaining reader.old) (λ input.
        BeginsToAnswer transport (begun zone) input (W.contents writer.old) (W.contents writer.new))) }
{
    let mut buffers = Buffers::new(alloc)?;
    answer_first(alloc, zone, transport, reader, writer, &mut buffers)
}

/// Answers each line of the input, starting from the first version of a zone.
fn answer_first<R: BufRead, W: Write>(
    alloc: Global,
    zone: Zone,
    transport: Transport,
    reader: &mut R,
    writer: &mut W,
    buffers: &mut Buffers,
) -> io::Result<()>
    ensures ok { OnOk result (IfSome (R.remaining reader.old) (λ input.
        Answers transport (begun zone) input (W.contents writer.old) (W.contents writer.new))) }
    ensures err { OnErr result (IfSome (R.remaining reader.old) (λ input.
        BeginsToAnswer transport (begun zone) input (W.contents writer.old) (W.contents writer.new))) }
{
    let mut kept = Kept::new(alloc, zone)?;
    answer_lines(alloc, &mut kept, transport, reader, writer, buffers)
}

/// Answers each line of the input, starting from the newest version.
fn answer_lines<R: BufRead, W: Write>(
    alloc: Global,
    kept: &mut Kept,
    transport: Transport,
    reader: &mut R,
    writer: &mut W,
    buffers: &mut Buffers,
) -> io::Result<()>
    requires { kept.old.newest.number ≡ 0 }
    ensures ok { (past : Past) → Holds past kept.old → OnOk result (IfSome (R.remaining reader.old) (λ input.
        Answers transport past input (W.contents writer.old) (W.contents writer.new))) }
    ensures err { (past : Past) → Holds past kept.old → OnErr result (IfSome (R.remaining reader.old) (λ input.
        BeginsToAnswer transport past input (W.contents writer.old) (W.contents writer.new))) }
{
    // Each line makes at most one version, so version numbers never exceed the number of lines.
    for _line in 0..MAX_READS {
        if !answer_next(alloc, kept, transport, reader, writer, buffers)? {
            return Ok(());
        }
    }
    Err(endless())
}

/// Answers the next line. Returns false if there is none.
fn answer_next<R: BufRead, W: Write>(
    alloc: Global,
    kept: &mut Kept,
    transport: Transport,
    reader: &mut R,
    writer: &mut W,
    buffers: &mut Buffers,
) -> io::Result<bool>
    requires { kept.old.newest.number + 1 < 2 ^ 64 }
    ensures counted { kept.new.newest.number ≤ kept.old.newest.number + 1 }
    ensures ok { (past : Past) → Holds past kept.old → IfOk result (λ more. IfSome (R.remaining reader.old) (λ rest. MatchBool more
        (TakesLine transport past kept.new rest (R.remaining reader.new) (W.contents writer.old) (W.contents writer.new))
        ((rest ≡ []) × (W.contents writer.new ≡ W.contents writer.old)))) }
    ensures err { (past : Past) → Holds past kept.old → OnErr result (IfSome (R.remaining reader.old) (λ rest.
        BeginsToAnswer transport past rest (W.contents writer.old) (W.contents writer.new))) }
{
    buffers.line.clear();
    if reader.read_until(b'\n', &mut buffers.line)? == 0 {
        return Ok(false);
    }
    write_line(alloc, kept, transport, writer, buffers)?;
    Ok(true)
}

/// Writes the line for the line that was read, and moves on to the next version if there is one.
fn write_line<W: Write>(
    alloc: Global,
    kept: &mut Kept,
    transport: Transport,
    writer: &mut W,
    buffers: &mut Buffers,
) -> io::Result<()>
    requires { kept.old.newest.number + 1 < 2 ^ 64 }
    ensures counted { kept.new.newest.number ≤ kept.old.newest.number + 1 }
    ensures line { (past : Past) → Holds past kept.old → WritesFor result transport (request_on (strip_last 10 buffers.old.line.items)) past kept.new
        (W.contents writer.old) (W.contents writer.new) }
{
    match request_of(without_lf(buffers.line.as_slice()), &mut buffers.request) {
        None => write_whole(writer, b"!\n"),
        Some(len) => {
            let request = &buffers.request[..len];
            write_reply(
                alloc,
                kept,
                transport,
                request,
                &mut buffers.names,
                &mut buffers.reply,
                &mut buffers.digits,
                writer,
            )
        }
    }
}

/// Writes the line for a request, and moves on to the next version if there is one.
fn write_reply<W: Write>(
    alloc: Global,
    kept: &mut Kept,
    transport: Transport,
    request: &[u8],
    names: &mut NameWriter,
    reply: &mut [u8],
    digits: &mut [u8],
    writer: &mut W,
) -> io::Result<()>
    requires number { kept.old.newest.number + 1 < 2 ^ 64 }
    requires reply_room { room_of transport ≤ length reply.old }
    requires message_room { MAX_MESSAGE ≤ length reply.old }
    requires digits_room { 2 * length reply.old ≤ length digits.old }
    ensures counted { kept.new.newest.number ≤ kept.old.newest.number + 1 }
    ensures line { (past : Past) → Holds past kept.old → WritesFor result transport (Some request.now) past kept.new
        (W.contents writer.old) (W.contents writer.new) }
{
    let said = parse(alloc, request);
    write_said(alloc, kept, transport, &said, names, reply, digits, writer)
}

/// Writes the line for a parsed request, and moves on to the next version if there is one.
fn write_said<W: Write>(
    alloc: Global,
    kept: &mut Kept,
    transport: Transport,
    said: &Parsed,
    names: &mut NameWriter,
    reply: &mut [u8],
    digits: &mut [u8],
    writer: &mut W,
) -> io::Result<()>
    requires number { kept.old.newest.number + 1 < 2 ^ 64 }
    requires reply_room { room_of transport ≤ length reply.old }
    requires message_room { MAX_MESSAGE ≤ length reply.old }
    requires digits_room { 2 * length reply.old ≤ length digits.old }
    ensures counted { kept.new.newest.number ≤ kept.old.newest.number + 1 }
    ensures line { (past : Past) → Holds past kept.old → WritesSaid result transport said.now past kept.new
        (W.contents writer.old) (W.contents writer.new) }
{
    let peer = Peer::over(transport, true);
    match transfer_in(kept.last_version(), said, peer) {
        Some(query) => write_messages(kept, query, peer, reply, digits, writer),
        None => match said {
            Parsed::Query(query) => write_found(kept, query, peer, names, reply, digits, writer),
            _ => write_served(alloc, kept, transport, said, reply, digits, writer),
        },
    }
}

/// Writes the line for a query that is not answered by a transfer: its reply (RFC 1034, 4.3.2).
fn write_found<W: Write>(
    kept: &Kept,
    query: &Query,
    peer: Peer,
    names: &mut NameWriter,
    reply: &mut [u8],
    digits: &mut [u8],
    writer: &mut W,
) -> io::Result<()>
    requires reply_room { room_of peer.transport ≤ length reply.old }
    requires digits_room { 2 * length reply.old ≤ length digits.old }
    requires no_transfer { is_permitted kept.now.newest.zone peer query.now ≡ false }
    ensures { Writes result (W.contents writer.old) (W.contents writer.new)
        (encode_lower (fit (reply_to_peer kept.now.newest.zone peer query.now) (limit_of peer.transport query.now.edns)) ++ 10 ∷ []) }
{
    let len = respond_by(names, kept.last_version().zone(), query, peer, reply);
    write_octets(&reply[..len], digits, writer)
}

/// Writes the line for a parsed request that asks for no transfer, and moves on to the next version if there is one.
fn write_served<W: Write>(
    alloc: Global,
    kept: &mut Kept,
    transport: Transport,
    said: &Parsed,
    reply: &mut [u8],
    digits: &mut [u8],
    writer: &mut W,
) -> io::Result<()>
    requires number { kept.old.newest.number + 1 < 2 ^ 64 }
    requires reply_room { room_of transport ≤ length reply.old }
    requires digits_room { 2 * length reply.old ≤ length digits.old }
    requires no_transfer { IsNoTransfer kept.old.newest.zone (peer_over transport true) said.now }
    ensures counted { kept.new.newest.number ≤ kept.old.newest.number + 1 }
    ensures line { (past : Past) → Holds past kept.old → WritesReply result transport said.now past kept.new
        (W.contents writer.old) (W.contents writer.new) }
{
    let Responded { len, next } = respond(alloc, kept.last_version(), transport, true, said, reply);
    kept.go_on(next);
    match len {
        None => write_whole(writer, b"-\n"),
        Some(len) => write_octets(&reply[..len], digits, writer),
    }
}

/// The query, if the parsed request is for a transfer that is sent (RFC 1995, 2; RFC 5936, 2.2.1).
fn transfer_in<'a>(version: &Version, said: &'a Parsed, peer: Peer) -> Option<&'a Query>
    ensures { option_copied result ≡ transfer_in version.now.zone peer said.now }
{
    match said {
        Parsed::Query(query) if is_permitted(version, query, peer) => Some(query),
        _ => None,
    }
}

/// Writes the line for a query for a transfer that is sent: its messages. They hold only the changes if the versions since the client's own are kept
/// (RFC 1995, 4; RFC 5936, 2.2).
fn write_messages<W: Write>(
    kept: &Kept,
    query: &Query,
    peer: Peer,
    out: &mut [u8],
    digits: &mut [u8],
    writer: &mut W,
) -> io::Result<()>
    requires permitted { is_permitted kept.now.newest.zone peer query.now ≡ true }
    requires room { MAX_MESSAGE ≤ length out.old }
    requires digits_room { 2 * length out.old ≤ length digits.old }
    ensures { (past : Past) → Holds past kept.now → Writes result (W.contents writer.old) (W.contents writer.new)
        (spaced (messages_to kept.now.newest.zone (changes_for past query.now) peer query.now) ++ 10 ∷ []) }
{
    let chain = kept.chain_for(query);
    let mut messages = transfer_reply(kept.last_version(), &chain, query, peer);
    write_transfer(&mut messages, out, digits, writer)
}

/// Writes the messages of a transfer in hexadecimal, separated by spaces, and a line end. Each message is written before the next one is made.
fn write_transfer<C: ChainView, W: Write>(
    messages: &mut Packer<'_, C>,
    out: &mut [u8],
    digits: &mut [u8],
    writer: &mut W,
) -> io::Result<()>
    requires room { MAX_MESSAGE ≤ length out.old }
    requires digits_room { 2 * length out.old ≤ length digits.old }
    ensures { Writes result (W.contents writer.old) (W.contents writer.new) (spaced messages.old ++ 10 ∷ []) }
{
    let Some(len) = messages.next_message(out) else {
        return write_whole(writer, b"\n");
    };
    write_digits(&out[..len], digits, writer)?;
    write_behind(messages, out, digits, writer)?;
    write_whole(writer, b"\n")
}

/// Writes the remaining messages in hexadecimal, each preceded by a space.
fn write_behind<C: ChainView, W: Write>(
    messages: &mut Packer<'_, C>,
    out: &mut [u8],
    digits: &mut [u8],
    writer: &mut W,
) -> io::Result<()>
    requires room { MAX_MESSAGE ≤ length out.old }
    requires digits_room { 2 * length out.old ≤ length digits.old }
    ensures { Writes result (W.contents writer.old) (W.contents writer.new) (spaced_behind messages.old) }
{
    while let Some(len) = messages.next_message(out) {
        write_whole(writer, b" ")?;
        write_digits(&out[..len], digits, writer)?;
    }
    Ok(())
}

/// Writes octets in hexadecimal, and a line end.
fn write_octets<W: Write>(octets: &[u8], digits: &mut [u8], writer: &mut W) -> io::Result<()>
    requires { 2 * length octets.now ≤ length digits.old }
    ensures { Writes result (W.contents writer.old) (W.contents writer.new) (encode_lower octets.now ++ 10 ∷ []) }
{
    write_digits(octets, digits, writer)?;
    write_whole(writer, b"\n")
}

/// Writes octets in hexadecimal.
fn write_digits<W: Write>(octets: &[u8], digits: &mut [u8], writer: &mut W) -> io::Result<()>
    requires { 2 * length octets.now ≤ length digits.old }
    ensures { Writes result (W.contents writer.old) (W.contents writer.new) (encode_lower octets.now) }
{
    let len = 2 * octets.len();
    let _ = hex::encode_to_slice(octets, &mut digits[..len]);
    write_whole(writer, &digits[..len])
}

/// Decodes a line of hexadecimal into `out` and returns the number of octets. None if the line is not hexadecimal or has more octets than there is
/// room for.
fn request_of(line: &[u8], out: &mut [u8]) -> Option<usize>
    ensures { MatchOption result
        ((octets : List ℕ) → decode_of line.now ≡ Ok octets → length out.old < length octets)
        (λ len. (len ≤ length out.old) × (decode_of line.now ≡ Ok (take len out.new))) }
{
    let len = line.len() / 2;
    if len > out.len() {
        return None;
    }
    match hex::decode_to_slice(line, &mut out[..len]) {
        Ok(()) => Some(len),
        Err(_) => None,
    }
}
