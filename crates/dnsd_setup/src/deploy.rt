//! Bringing the zone that a server serves to another one.
use crate::keys::{key_file_at, warn_of_short};
use crate::zone_file::zone_text_from;
use change_command::write_change;
use command_line::Deploy;
use commands::{DONE, FAILED, Fault, REFUSED, report_fault_of};
use dns_rdata::{Rcode, Serial};
use key_file::KeyFile;
use std::alloc::Global;
use std::fs::{File, Files};
use std::io::{self, BufReader};
use std::net::{Net, SocketAddr, TcpStream};
use std::rt::Env;
use std::time::{Clock, Duration};
use tsig::Key;
use zone_change::{ChangeFault, ChangeSummary, change_to, message_of, summary_of};
use zone_deploy::{DeployFault, Request, ServerFault, send_update, zone_of_server};
use zone_tree::{Zone, ZoneRead};

/// How often the update is made, where another one comes between (own).
const TRIES: u32 = 3;

/// How long the server may take for each read and write, in seconds (own).
const PATIENCE: u64 = 30;

/// What a deployment leads to.
#[derive(Drop)]
enum Deployed {
    /// Nothing changes; the zone that is served has this serial.
    Unchanged(Serial),
    /// The update was taken, or would be sent: what it changes, and the zone before.
    Changed(ChangeSummary, Zone),
    /// Another update came between.
    Again,
}

/// Why a deployment fails.
#[derive(Drop)]
enum Failure {
    /// There is no update.
    NoChange(ChangeFault),
    /// The server can't be reached, refuses, or sends something else.
    Server(DeployFault),
}

impl From<ChangeFault> for Failure {
    fn from(fault: ChangeFault) -> Failure {
        Failure::NoChange(fault)
    }
}

impl From<DeployFault> for Failure {
    fn from(fault: DeployFault) -> Failure {
        Failure::Server(fault)
    }
}

impl From<io::Error> for Failure {
    fn from(fault: io::Error) -> Failure {
        Failure::Server(DeployFault::Io(fault))
    }
}

/// Brings the zone that a server serves to that of a text, by one update, and returns the program's status. The last line on standard output says what
/// changed; errors go to standard error.
pub fn run_deploy<
    R: Files<File = File>
        + Net<Stream = TcpStream>
        + Env
        + Print
        + Eprint
        + Input
        + AllocGlobal
        + Clock,
>(rt: &R, deploy: &Deploy<'_>) -> io::Result<u8> {
    let file = match deploy.key {
        None => None,
        Some(path) => match key_for(rt, path)? {
            Ok(file) => Some(file),
            Err(status) => return Ok(status),
        },
    };
    let next = match next_zone(rt, deploy)? {
        Ok(zone) => zone,
        Err(status) => return Ok(status),
    };
    let key = match &file {
        None => None,
        Some(file) => file.keys.get(0),
    };
    let deployed = deploy_to(rt, rt.alloc(), key, deploy, &next);
    report(rt, deploy, &next, deployed)
}

/// The keys of a file, of which there is one at least. The program's status if there is none; standard error then has the reason.
fn key_for<R: Files<File = File> + Env + Eprint + AllocGlobal>(
    rt: &R,
    path: &str,
) -> io::Result<Result<KeyFile, u8>> {
    match key_file_at(rt, path)? {
        Err(status) => Ok(Err(status)),
        Ok(file) => {
            if file.keys.is_empty() {
                eprintln!(rt; "error: the key file '{path}' has no key")?;
                return Ok(Err(FAILED));
            }
            warn_of_short(rt, path, &file)?;
            Ok(Ok(file))
        }
    }
}

/// The zone of the text. The program's status if it is refused; standard error then has the reason.
fn next_zone<R: Files + Eprint + Input + AllocGlobal>(
    rt: &R,
    deploy: &Deploy<'_>,
) -> io::Result<Result<Zone, u8>> {
    let alloc = rt.alloc();
    let mut reader = BufReader::new(alloc, rt.reader())?;
    let (origin, is_wide) = (&deploy.origin, deploy.is_wide);
    let text = match zone_text_from(rt, deploy.zone, origin, is_wide, &mut reader)? {
        Ok(text) => text,
        Err(status) => return Ok(Err(status)),
    };
    match text.zone(alloc, origin) {
        Ok(zone) => Ok(Ok(zone)),
        Err(fault) => {
            let mut errors = Vec::new(alloc);
            let status = text.report(alloc, deploy.zone, fault, &mut errors)?;
            rt.eprint(String::from_utf8_lossy(alloc, errors.as_slice())?)?;
            Ok(Err(status))
        }
    }
}

/// Deploys a zone, and again where another update comes between, up to [`TRIES`] times.
fn deploy_to<R: Net<Stream = TcpStream> + Clock>(
    rt: &R,
    alloc: Global,
    key: Option<&Key>,
    deploy: &Deploy<'_>,
    next: &Zone,
) -> Result<Deployed, Failure> {
    for _ in 1..TRIES {
        match deploy_once(rt, alloc, key, deploy, next)? {
            Deployed::Again => {}
            deployed => return Ok(deployed),
        }
    }
    deploy_once(rt, alloc, key, deploy, next)
}

/// Reads the zone that is served, and sends the update from it to another one, if it isn't a dry run.
fn deploy_once<R: Net<Stream = TcpStream> + Clock>(
    rt: &R,
    alloc: Global,
    key: Option<&Key>,
    deploy: &Deploy<'_>,
    next: &Zone,
) -> Result<Deployed, Failure> {
    let stream = connect(rt, deploy.server)?;
    let served = zone_of_server(alloc, rt, key, &mut &stream, &mut &stream, next)?;
    let Some(update) = change_to(alloc, &served, next)? else {
        return Ok(Deployed::Unchanged(served.serial()));
    };
    let summary = summary_of(&served, next, &update);
    let message = message_of(alloc, &update)?;
    if deploy.is_dry {
        return Ok(Deployed::Changed(summary, served));
    }
    let stream = connect(rt, deploy.server)?;
    let code = send_update(alloc, rt, key, &mut &stream, &mut &stream, &message)?;
    if code == 0 {
        Ok(Deployed::Changed(summary, served))
    } else if code == Rcode::NXRRSet.number() {
        Ok(Deployed::Again)
    } else {
        Err(Failure::Server(DeployFault::Refused(Request::Update, code)))
    }
}

/// A connection to a server.
fn connect<R: Net<Stream = TcpStream>>(rt: &R, server: SocketAddr) -> io::Result<TcpStream> {
    let stream = TcpStream::connect(rt, server)?;
    stream.set_read_timeout(Some(Duration::from_secs(PATIENCE)))?;
    stream.set_write_timeout(Some(Duration::from_secs(PATIENCE)))?;
    Ok(stream)
}

/// Reports what a deployment led to, and returns the program's status.
fn report<R: Print + Eprint + AllocGlobal>(
    rt: &R,
    deploy: &Deploy<'_>,
    next: &Zone,
    deployed: Result<Deployed, Failure>,
) -> io::Result<u8> {
    match deployed {
        Ok(Deployed::Unchanged(serial)) => {
            let (apex, serial) = (next.apex().to_text(), serial.0);
            println!(rt; "{apex}: nothing to change, serial {serial}")?;
            Ok(DONE)
        }
        Ok(Deployed::Changed(summary, served)) => print_change(rt, deploy, next, &summary, &served),
        Ok(Deployed::Again) => {
            let server = deploy.server;
            eprintln!(rt;
                "error: {server}: its zone was changed by others {TRIES} times before the update came"
            )?;
            Ok(REFUSED)
        }
        Err(Failure::NoChange(fault)) => report_no_change(rt, fault),
        Err(Failure::Server(fault)) => report_server(rt, deploy.server, fault),
    }
}

/// Prints what an update changed; for a dry run, each record that it would change first.
fn print_change<R: Print + Eprint + AllocGlobal>(
    rt: &R,
    deploy: &Deploy<'_>,
    next: &Zone,
    summary: &ChangeSummary,
    served: &Zone,
) -> io::Result<u8> {
    if deploy.is_dry {
        match write_change(rt.alloc(), served, next) {
            Ok(text) => print!(rt; "{text}")?,
            Err(fault) => return report_no_change(rt, fault),
        }
    }
    let (from, to, given) = (summary.from.0, summary.to.0, summary.given.0);
    if given != to {
        eprintln!(rt; "serial {given} of ZONE isn't greater than {from}: {to} is served")?;
    }
    let (apex, deleted, added) = (next.apex().to_text(), summary.deleted, summary.added);
    println!(rt; "{apex}: serial {from} to {to}, {deleted} records deleted, {added} added")?;
    Ok(DONE)
}

/// Writes on standard error why there is no update, and returns the program's status.
fn report_no_change<R: Eprint>(rt: &R, fault: ChangeFault) -> io::Result<u8> {
    eprintln!(rt; "error: {fault}")?;
    Ok(match fault {
        ChangeFault::NoMemory => FAILED,
        _ => REFUSED,
    })
}

/// Writes on standard error why a server's zone isn't read, or the update isn't taken, and returns the program's status.
fn report_server<R: Eprint>(rt: &R, server: SocketAddr, fault: DeployFault) -> io::Result<u8> {
    let status = status_of(&fault);
    let fault = ServerFault { server, fault };
    eprintln!(rt; "error: {fault}")?;
    Ok(status)
}

/// The program's status where a server's zone isn't read, or the update isn't taken.
fn status_of(fault: &DeployFault) -> u8 {
    match fault {
        DeployFault::Refused(_, _) => REFUSED,
        DeployFault::BadTsig(_, _) => REFUSED,
        DeployFault::TooLong => REFUSED,
        DeployFault::NotSigned(_) => FAILED,
        DeployFault::NoReply(_) => FAILED,
        DeployFault::Transfer(_) => FAILED,
        DeployFault::NoMemory => FAILED,
        DeployFault::Io(_) => FAILED,
    }
}
