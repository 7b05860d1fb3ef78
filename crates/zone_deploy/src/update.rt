//! An update, and its reply (RFC 2136).
ghost use Rattle.std.specs.Prelude.{◌≡◌, ◌≤◌, length, IfOk};
ghost use Rattle.std.specs.Option.{option_copied};
ghost use Rattle.zone_deploy.specs.Exchanges.{IsAnswered};

use crate::fault::{DeployFault, Request};
use crate::frames::{read_message, write_message};
use crate::replies::code_of;
use crate::signatures::{seconds_of, sent};
use dns_message::HEADER;
use std::alloc::Global;
use std::io::{Read, Write};
use std::time::Clock;
use tsig::Key;

/// Sends an update, signed by a key where there is one, and gives the number of its reply's RCODE (RFC 2136, 2.2 and 3.8).
///
/// `TooLong` where it has more octets than a message, `NoReply` where what is read is no reply to it, `NotSigned` or `BadTsig` where the reply isn't signed
/// by the key, `Io` where the connection fails, and `NoMemory` where a growth was refused.
pub fn send_update<C: Clock, R: Read, W: Write>(
    alloc: Global,
    clock: &C,
    key: Option<&Key>,
    reader: &mut R,
    writer: &mut W,
    update: &[u8],
) -> Result<u8, DeployFault>
    requires { HEADER ≤ length update.now }
    ensures { IfOk result (IsAnswered (option_copied key.entry) update.now (W.contents writer.old) (W.contents writer.new) (R.remaining reader.old) (R.remaining reader.new)) }
{
    let (octets, mut chain) = sent(alloc, key, seconds_of(clock), update)?;
    write_message(alloc, writer, &octets)?;
    let reply = read_message(alloc, reader)?;
    let Some(code) = code_of(update, &reply) else {
        return Err(DeployFault::NoReply(Request::Update));
    };
    chain.check(alloc, key, Request::Update, seconds_of(clock), &reply)?;
    Ok(code)
}
