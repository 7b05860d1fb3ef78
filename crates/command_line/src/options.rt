//! The options of `serve`.
ghost use Rattle.std.specs.Prelude.{◌≡◌, ◌+◌, ◌*◌, ◌-◌, ◌^◌, ◌<◌, ◌≤◌, [], vec_len, IsNone, IfOk};
ghost use Rattle.std.specs.Result.{IsOkAnd};
ghost use Rattle.command_line.specs.Patience.{IsPatience};
ghost use Rattle.transfer_core.specs.declared.kept.TheConstants.{KEPT};

use crate::command::{KEEP, MAX_KEEP, ORIGIN, WIDE, number_for};
use crate::fault::CommandFault;
use crate::key_rules::KeyRules;
use crate::may::served_rules;
use crate::secondaries::{Secondary, secondaries_of};
use crate::store_options::{
    StorePlan, TRANSFER_RATE, UDP_BUFFER, UPDATE_QUEUE, split_unit, store_of, transfer_rate,
    udp_buffer, update_queue,
};
use clap::ArgMatches;
use commands::Source;
use dns_name::Name;
use rights::Rule;
use std::alloc::{AllocError, Global};
use std::net::SocketAddr;
use tcp_connections::Limits;

/// A zone to serve, and how to serve it.
pub struct Serve<'a> {
    /// Where the zone's text comes from.
    pub zone: Source<'a>,
    /// The origin at the start of the zone's text.
    pub origin: Name,
    /// Whether the origin was given; if not, it is the root by default.
    pub has_origin: bool,
    /// Whether the text is read as other servers read zone files.
    pub is_wide: bool,
    /// The addresses and ports to listen on, each by UDP and TCP.
    pub listen: Vec<SocketAddr>,
    /// The number of workers. Each has a thread for connections, and one for the datagrams of each address.
    pub workers: usize,
    /// The number of older versions kept in addition to the newest, at most [`MAX_KEEP`].
    pub keep: usize,
    /// The number of datagrams and connections, counted together, after which a worker exits.
    pub most: u64,
    /// The rules by which peers may update and transfer whose requests aren't signed.
    pub rules: Vec<Rule>,
    /// Those by which the holders of keys may.
    pub key_rules: Vec<KeyRules>,
    /// The maximum number of open connections per worker.
    pub places: usize,
    /// The timeouts of a connection, and the minimum rate at which its peer must accept what is written to it.
    pub limits: Limits,
    /// The number of octets of datagrams that may wait for a worker, at each address.
    pub udp_buffer: u32,
    /// The limit, in octets, on the memory accounted to updates that wait to be judged.
    pub update_queue: usize,
    /// The secondaries to notify of each version. One thread notifies them all.
    pub secondaries: Vec<Secondary>,
    /// The store in which updates survive a restart, if there is one.
    pub store: Option<StorePlan<'a>>,
    /// The file of the keys that clients sign by, if signatures are checked.
    pub keys: Option<&'a str>,
    /// The path of the socket for the operator's commands, if there is one. One thread takes them.
    pub control: Option<&'a str>,
    /// The address and port at which metrics are told, if they are. One thread tells them.
    pub metrics: Option<SocketAddr>,
    ghost few_kept: { keep ≤ KEPT },
    ghost some_workers: { 0 < workers },
    ghost few_threads: { workers * (vec_len listen + 1) ≤ 62 },
    ghost some_places: { 0 < places },
    ghost few_places: { places ≤ 100000 },
    ghost idle: { IsPatience limits.idle },
    ghost message: { IsPatience limits.message },
    ghost reply: { IsPatience limits.reply },
    ghost rate: { limits.rate ≤ 1073741824 },
}

impl<'a> Drop for Serve<'a> {
    fn drop(self) {
        let Serve {
            zone: _,
            origin: _,
            has_origin: _,
            is_wide: _,
            listen: _,
            workers: _,
            keep: _,
            most: _,
            rules: _,
            key_rules: _,
            places: _,
            limits: _,
            udp_buffer: _,
            update_queue: _,
            secondaries: _,
            store: _,
            keys: _,
            control: _,
            metrics: _,
        } = self;
    }
}

/// The option for an address to listen on.
pub const LISTEN: &str = "listen";

/// The option for the number of workers.
pub const WORKERS: &str = "workers";

/// The maximum number of workers.
const MAX_WORKERS: usize = 31;

/// The maximum number of worker threads in total, since each has a reader of the zone's versions. The engine has one more reader, and the update
/// thread another.
pub const MAX_THREADS: usize = 62;

/// The option for the file of the keys that clients sign by.
pub const KEYS: &str = "keys";

/// The option for the number of datagrams and connections after which a worker exits.
pub const COUNT: &str = "count";

/// The option for the maximum number of open connections per worker.
pub const CONNECTIONS: &str = "connections";

/// The maximum number of open connections per worker that the option accepts.
const MAX_CONNECTIONS: usize = 100_000;

/// The option for the socket for the operator's commands.
pub const CONTROL: &str = "control";

/// The option for the address at which metrics are told.
pub const METRICS: &str = "metrics";

/// The option for the time that a connection may be idle.
pub const IDLE: &str = "idle";

/// The option for the time that the rest of a request may take.
pub const MESSAGE: &str = "message";

/// The option for the time that the peer may take to accept a reply.
pub const REPLY: &str = "reply";

/// The maximum of each timeout, in seconds.
const MAX_SECONDS: u64 = 3_600;

/// The default of each timeout, in seconds.
const SECONDS: u64 = 10;

/// The units of time, and the number of seconds in each.
const TIMES: &[(char, u64)] = &[('s', 1), ('m', 60), ('h', 3_600)];

/// Reads the options of `serve`. An error is an option whose value is refused, too many threads, or lack of memory.
pub fn serve_of<'a>(
    alloc: Global,
    found: &ArgMatches<'a>,
    zone: Source<'a>,
    origin: Name,
) -> Result<Serve<'a>, CommandFault<'a>> {
    let listen = listened(alloc, found)?;
    let workers = number_for(found.get_str(WORKERS), WORKERS, 1, MAX_WORKERS, 4)?;
    let secondaries = secondaries_of(alloc, found)?;
    let control = control_of(found);
    let metrics = metrics_of(found)?;
    let threads = threads_beside(secondaries.as_slice(), control, metrics);
    if listen.len() >= threads || workers * (listen.len() + 1) > threads {
        return Err(CommandFault::Threads(workers, listen.len()));
    }
    let keep = number_for(found.get_str(KEEP), KEEP, 0, MAX_KEEP, MAX_KEEP)?;
    let (rules, key_rules) = served_rules(alloc, found)?;
    let most = count_of(found.get_str(COUNT))?;
    let places = number_for(
        found.get_str(CONNECTIONS),
        CONNECTIONS,
        1,
        MAX_CONNECTIONS,
        1000,
    )?;
    let limits = limits_of(found)?;
    let udp_buffer = udp_buffer(found.get_str(UDP_BUFFER))?;
    let update_queue = update_queue(found.get_str(UPDATE_QUEUE))?;
    let store = store_of(found)?;
    Ok(Serve {
        zone,
        origin,
        has_origin: found.get_str(ORIGIN).is_some(),
        is_wide: found.get_flag(WIDE),
        listen,
        workers,
        keep,
        most,
        rules,
        key_rules,
        places,
        limits,
        udp_buffer,
        update_queue,
        secondaries,
        store,
        keys: found.get_str(KEYS),
        control,
        metrics,
    })
}

/// The path of the socket for the operator's commands, if there is one: '' is none.
fn control_of<'a>(found: &ArgMatches<'a>) -> Option<&'a str> {
    match found.get_str(CONTROL) {
        Some("") | None => None,
        Some(path) => Some(path),
    }
}

/// The address and port at which metrics are told, if they are.
fn metrics_of<'a>(found: &ArgMatches<'a>) -> Result<Option<SocketAddr>, CommandFault<'a>> {
    let Some(word) = found.get_str(METRICS) else {
        return Ok(None);
    };
    match word.parse::<SocketAddr>() {
        Ok(address) => Ok(Some(address)),
        Err(_) => Err(CommandFault::Metrics(word)),
    }
}

/// The maximum number of worker threads in total, less one if there are secondaries, for the thread that notifies them, one if there is a socket for the
/// operator's commands, and one if metrics are told.
fn threads_beside(
    secondaries: &[Secondary],
    control: Option<&str>,
    metrics: Option<SocketAddr>,
) -> usize
    ensures { result ≤ 62 }
{
    let notifying = if secondaries.is_empty() { 0 } else { 1 };
    let controlling = if control.is_some() { 1 } else { 0 };
    let telling = if metrics.is_some() { 1 } else { 0 };
    MAX_THREADS - notifying - controlling - telling
}

/// The addresses and ports to listen on.
fn listened<'a>(
    alloc: Global,
    found: &ArgMatches<'a>,
) -> Result<Vec<SocketAddr>, CommandFault<'a>> {
    let mut listen = Vec::new(alloc);
    let Some(words) = found.get_strs(LISTEN) else {
        return Ok(listen);
    };
    for word in words {
        let Ok(address) = word.parse::<SocketAddr>() else {
            return Err(CommandFault::Listen(*word));
        };
        if listen.push(address).is_err() {
            return Err(CommandFault::from(AllocError));
        }
    }
    Ok(listen)
}

/// The timeouts of connections, and the minimum rate at which peers must accept what is written to them.
fn limits_of<'a>(found: &ArgMatches<'a>) -> Result<Limits, CommandFault<'a>>
    ensures idle { IfOk result (λ limits. IsPatience limits.idle) }
    ensures message { IfOk result (λ limits. IsPatience limits.message) }
    ensures reply { IfOk result (λ limits. IsPatience limits.reply) }
    ensures rate { IfOk result (λ limits. limits.rate ≤ 1073741824) }
{
    Ok(Limits {
        idle: nanos_for(found.get_str(IDLE), IDLE)?,
        message: nanos_for(found.get_str(MESSAGE), MESSAGE)?,
        reply: nanos_for(found.get_str(REPLY), REPLY)?,
        rate: transfer_rate(found.get_str(TRANSFER_RATE))?,
    })
}

/// An option's time in nanoseconds. Its value is a number of seconds, or a number followed by the letter of its unit. Without a value it is the
/// default.
fn nanos_for<'a>(word: Option<&'a str>, option: &'static str) -> Result<u64, CommandFault<'a>>
    ensures { IfOk result (λ nanos. IsPatience nanos) }
{
    let seconds = match word {
        Some(word) => seconds_for(word, option)?,
        None => SECONDS,
    };
    Ok(seconds * 1_000_000_000)
}

/// The value of an option in seconds.
fn seconds_for<'a>(word: &'a str, option: &'static str) -> Result<u64, CommandFault<'a>>
    ensures least { IfOk result (λ seconds. 1 ≤ seconds) }
    ensures most { IfOk result (λ seconds. seconds ≤ 3600) }
{
    let (digits, unit) = split_unit(word, TIMES);
    match digits.parse::<u64>() {
        Ok(number) => match number.checked_mul(unit) {
            Some(seconds) if 1 <= seconds && seconds <= MAX_SECONDS => Ok(seconds),
            _ => Err(CommandFault::Time(option, word)),
        },
        Err(_) => Err(CommandFault::Time(option, word)),
    }
}

/// The number of datagrams and connections after which a worker exits. Without a value it is 2^64 - 1, so that a worker never exits for that reason.
fn count_of<'a>(word: Option<&'a str>) -> Result<u64, CommandFault<'a>>
    ensures { IsNone word.entry → IsOkAnd result (λ most. most ≡ 2 ^ 64 - 1) }
{
    let Some(word) = word else {
        return Ok(u64::MAX);
    };
    word.parse::<u64>().map_err(|_| CommandFault::Number {
        option: COUNT,
        word,
        least: 0,
        most: u64::MAX,
    })
}
