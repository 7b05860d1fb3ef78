//! The start of a transfer: the version that it was permitted in, and the versions since the client's (RFC 1995, 4; RFC 5936, 2.2).
ghost use Rattle.std.specs.Prelude.{◌≡◌, IfOk, OnErr};
ghost use Rattle.zone_server.specs.Known.{HasTooFew};
ghost use Rattle.zone_server.specs.Replied.{IsChained};
ghost use Rattle.dns_engine.specs.Held.{IsLatest};

use crate::right::ServerName;
use crate::server::Server;
use dns_engine::{FirstZone, SharedVersion, VersionChain, VersionOwner, VersionReader};
use dns_message::Query;
use dns_rdata::RType;
use snapshot_cell::Spent;
use std::sync::Wait;

/// Starts a transfer in the version that it was permitted in, whose owner is released: gives that version, and for IXFR the versions since the client's, as the engine has them when
/// its lock is held. The messages are made from these after the lock is free. [`Spent`] if the reader lacks a grant for one of the versions since the client's.
pub fn start_transfer<R: Wait, Z: FirstZone, N: ServerName>(
    rt: &R,
    server: &Server<'_, Z, N>,
    reader: &mut VersionReader<N>,
    strong: VersionOwner<'_, Z, N>,
    query: &Query,
) -> Result<(SharedVersion, VersionChain), Spent>
    requires latest { IsLatest Z.zone reader.old.seen strong.value × (strong.value.number ≡ strong.number) }
    ensures version { IfOk result (λ started. started.0 ≡ strong.entry.value) }
    ensures chained { IfOk result (λ started. IsChained Z.zone query.now strong.entry.value reader.old reader.new started.1) }
    ensures spent { OnErr result (HasTooFew Z.zone query.now strong.entry.value reader.old reader.new) }
{
    let shared = strong.get().share(rt);
    match chain_for(rt, server, reader, &strong, query) {
        Ok(chain) => Ok((shared, chain)),
        Err(spent) => Err(spent),
    }
}

/// The versions since the one that the client of an IXFR holds, up to one that the reader has loaded: none of another query. [`Spent`] where
/// the reader lacks a grant for one of them.
fn chain_for<R: Wait, Z: FirstZone, N: ServerName>(
    rt: &R,
    server: &Server<'_, Z, N>,
    reader: &mut VersionReader<N>,
    strong: &VersionOwner<'_, Z, N>,
    query: &Query,
) -> Result<VersionChain, Spent>
    requires { IsLatest Z.zone reader.old.seen strong.now.value × (strong.now.value.number ≡ strong.now.number) }
    ensures chained { IfOk result (λ chain. IsChained Z.zone query.now strong.now.value reader.old reader.new chain) }
    ensures spent { OnErr result (HasTooFew Z.zone query.now strong.now.value reader.old reader.new) }
{
    if query.question.rtype != RType::IXFR {
        return Ok(VersionChain::none());
    }
    let Some(serial) = query.serial else {
        return Ok(VersionChain::none());
    };
    let reported = server.chain(rt, reader, serial, strong.number());
    VersionChain::of(rt, reported)
}
