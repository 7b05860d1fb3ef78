//! Starting a server whose updates survive a restart.
ghost use Rattle.std.specs.Prelude.{IfOk};
ghost use Rattle.dnsd_setup.specs.Starts.{CanStart};
ghost use Rattle.store_server.specs.OpenStore.{IsGiven};

use crate::started_zone::{StartedStore, StartedZone};
use crate::zone_file::tell_zone;
use crate::zone_text::ZoneText;
use command_line::{PrintedFault, Serve, StorePlan};
use commands::{FAILED, REFUSED};
use log_lines::Level;
use std::fs::{File, Files};
use std::io;
use std::random::RandomSource;
use std::rt::Env;
use std::sync::Arc;
use store_server::{Given, Refusal, Served, Started, TakenZone, start_store};
use update_batches::StoreState;
use zone_change::ChangeSummary;

/// The number of secret octets at the start of a new journal.
const SALT: usize = 16;

/// Locks the store in a directory, opens it, or creates it from a zone's text, and returns what the server starts with. If that is not the store
/// that was created from this text, a line on standard error says so. If nothing can be served, returns the program's status, and standard error has
/// the reason.
#[tactic(auto, using(crate::proofs::GivenLemmas::given))]
pub fn start_store_for<
    R: Files<File = File> + Env + Eprint + AllocGlobal + Alloc + RandomSource + Clone + Drop,
>(
    rt: &R,
    serve: &Serve<'_>,
    plan: StorePlan<'_>,
    text: ZoneText,
) -> io::Result<Result<StartedZone, u8>>
    ensures { IfOk result (λ r. IfOk r CanStart) }
{
    let mut random = [0u8; SALT];
    rt.fill_bytes(&mut random)?;
    let given = Given {
        text: text.octets(),
        origin: &serve.origin,
        taken: plan.taken,
    };
    match start_store(rt, rt.alloc(), plan.dir, given, random) {
        Ok(started) => Ok(Ok(started_in(rt, plan, started)?)),
        Err(refusal) => Ok(Err(tell_refusal(rt, plan.dir, &text, refusal)?)),
    }
}

/// What a server starts with that has started from a store. Standard error has what is to be said of it.
fn started_in<R: Env + Eprint + AllocGlobal>(
    rt: &R,
    plan: StorePlan<'_>,
    started: Started,
) -> io::Result<StartedZone>
    requires { IsGiven started.store }
    ensures { IfOk result CanStart }
{
    tell_started(rt, plan.dir, &started)?;
    let dir = format!(in rt.alloc(); "{}", plan.dir)?;
    let state = Arc::new(rt.alloc(), StoreState::new())?;
    Ok(StartedZone::Store(StartedStore {
        dir,
        journal: plan.journal,
        started,
        state,
    }))
}

/// Reports on standard error which of the two is served, and whether the end of the journal was cut off.
fn tell_started<R: Env + AllocGlobal + Eprint>(
    rt: &R,
    dir: &str,
    started: &Started,
) -> io::Result<()> {
    tell_served(rt, dir, &started.served)?;
    match &started.torn {
        Some(torn) => {
            let mark = Level::Warning.mark_for(rt);
            eprintln!(rt;
                "{mark}the journal of '{dir}' ended in an incomplete batch: it was cut off, and is kept as '{torn}'"
            )
        }
        None => Ok(()),
    }
}

/// Reports on standard error which of the two is served, unless that is the store that was created from the zone's text.
fn tell_served<R: Env + AllocGlobal + Eprint>(
    rt: &R,
    dir: &str,
    served: &Served,
) -> io::Result<()> {
    let (notice, warning) = (Level::Notice.mark_for(rt), Level::Warning.mark_for(rt));
    match served {
        Served::Created => eprintln!(rt; "{notice}created the store '{dir}' from ZONE"),
        Served::Same => Ok(()),
        Served::Store => eprintln!(rt; "{notice}serving the store '{dir}'; ignoring ZONE"),
        Served::StoreThoughOther(serial) => {
            let serial = serial.0;
            eprintln!(rt;
                "{warning}serving the store '{dir}'; ignoring ZONE: it has changed, but its serial {serial} is not newer"
            )
        }
        Served::Zone(TakenZone::Unchanged(serial)) => {
            let serial = serial.0;
            eprintln!(rt;
                "{notice}serving the store '{dir}', which has the zone of ZONE, with serial {serial}"
            )
        }
        Served::Zone(TakenZone::Changed(summary)) => {
            tell_serial(rt, notice, summary)?;
            let (from, to) = (summary.from.0, summary.to.0);
            let (deleted, added) = (summary.deleted, summary.added);
            eprintln!(rt;
                "{warning}serving ZONE; changed the store '{dir}' to it: serial {from} to {to}, {deleted} records deleted, {added} added"
            )
        }
    }
}

/// Reports on standard error that the serial of the zone's text isn't the one that is served, where it isn't.
fn tell_serial<R: Eprint>(rt: &R, notice: &str, summary: &ChangeSummary) -> io::Result<()> {
    let (from, to, given) = (summary.from.0, summary.to.0, summary.given.0);
    if given == to {
        return Ok(());
    }
    eprintln!(rt; "{notice}serial {given} of ZONE isn't greater than {from}: {to} is served")
}

/// Reports on standard error why nothing is served, and returns the program's status.
fn tell_refusal<R: Env + AllocGlobal + Eprint>(
    rt: &R,
    dir: &str,
    text: &ZoneText,
    refusal: Refusal,
) -> io::Result<u8> {
    let mark = Level::Error.mark_for(rt);
    let status = status_of(&refusal);
    let reported = match refusal {
        Refusal::Text(fault) => return tell_zone(rt, text, fault),
        Refusal::Held => eprintln!(rt; "{mark}error: the store '{dir}' is held by another server"),
        Refusal::NoJournal(number) => eprintln!(rt;
            "{mark}error: the store '{dir}' has the zone text '{dir}/zone-{number}', but no journal, which has the updates since: put the journal back, or move the zone texts out of the directory to create a new store from ZONE"
        ),
        Refusal::NoText(number) => eprintln!(rt;
            "{mark}error: the journal of '{dir}' belongs to '{dir}/zone-{number}', which isn't there"
        ),
        Refusal::NoStart(fault) => {
            let reported = PrintedFault { dir, fault };
            eprintln!(rt; "{mark}error: {reported}")
        }
        Refusal::Newer { has, given } => {
            let (has, given) = (has.0, given.0);
            eprintln!(rt;
                "{mark}error: ZONE has changed since the store '{dir}' was created, and its serial {given} is newer than the store's {has}: --take store serves the store, --take zone changes it to ZONE"
            )
        }
        Refusal::NoChange(fault) => eprintln!(rt;
            "{mark}error: --take zone: the store '{dir}' can't be changed to the zone's text: {fault}"
        ),
        Refusal::TooLarge => eprintln!(rt;
            "{mark}error: --take zone: the change from the store '{dir}' to the zone's text has more records than one update may have: move the store out of the way to create a new one from ZONE"
        ),
        Refusal::OtherApex { has, given } => eprintln!(rt;
            "{mark}error: the zone's text has the apex {given}, and the store '{dir}' the apex {has}: give --origin {has}, if that zone is meant, or else --store a new directory"
        ),
        Refusal::NoMemory => eprintln!(rt; "{mark}error: out of memory"),
        Refusal::Device(fault) => {
            eprintln!(rt; "{mark}error: the store '{dir}' can't be read or written: {fault}")
        }
    };
    reported?;
    Ok(status)
}

/// The status with which the program exits if nothing can be served.
fn status_of(refusal: &Refusal) -> u8 {
    match refusal {
        Refusal::NoMemory | Refusal::Device(_) => FAILED,
        _ => REFUSED,
    }
}
