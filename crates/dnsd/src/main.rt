//! `dnsd`: an authoritative name server for one zone of class IN.
//!
//! `command_line` parses the command line. Commands over a zone's text, standard input and standard output are in `commands`: `answer` replies to
//! each request that it reads, `check` prints the zone's text in its canonical form, `apply` prints the text of the zone after a transfer's messages,
//! and `steps` plays a script. `zone` prints the zone of a store, by `command_line`, `journal` what its updates changed, by `stored_changes`, and
//! `change` what changes from one zone to another, by `change_command`; `deploy` sends that to a server, by `zone_deploy`. `may` prints what a request
//! gets by rules, by `rights`. `control` sends a command to a running server. `serve` answers on sockets, by the workers of `serve_workers`, with what
//! `dnsd_setup` reads, locks and binds.
#![tactic(auto)]

pub mod control;
pub mod key_rights;
pub mod metrics;
pub mod secondaries;
pub mod serve;
pub mod thread_specs;
pub mod warnings;

use command_line::{Task, parse_words, tell_fault};
use commands::{Command, FAILED};
use dnsd_setup::{
    FileReader, ROOT_APEX, Ways, run_change, run_control, run_deploy, run_journal, run_may,
    run_on_streams, run_stored,
};
use log_lines::Level;
use serve::run_serve;
use std::fs::{File, Files};
use std::net::{Net, TcpListener, TcpStream};
use std::process::ExitCode;
use std::random::RandomSource;
use std::rt::Env;
use std::sync::Wait;
use std::thread::{self, Threads};
use std::time::Clock;
use std::{env, io, mem};

fn main(rt: HostRuntime) -> ExitCode {
    // Only here the runtime's type is known, so that a thread may be given all of it: the files too.
    let start = |reader: FileReader| -> io::Result<()> {
        let own = rt;
        // The thread is not joined: a reload that is under way when the server ends is given up.
        let thread = thread::spawn(&rt, move || reader.run(&own))?;
        mem::drop(thread);
        Ok(())
    };
    match run_words(&rt, &start) {
        Ok(status) => ExitCode::from(status),
        Err(fault) => {
            let mark = Level::Error.mark_for(&rt);
            let _ = eprintln!(rt; "{mark}dnsd: {fault}");
            ExitCode::from(FAILED)
        }
    }
}

/// Runs the task that the command line requests, and returns the program's status. `start` starts the thread that reads a zone file for reloads.
fn run_words<
    R: Files<File = File>
        + Env
        + Print
        + Eprint
        + Input
        + AllocGlobal
        + Net<Listener = TcpListener, Stream = TcpStream>
        + Threads
        + Wait
        + Clock
        + RandomSource
        + Copy
        + Send
        + Sync
        + Drop
        + 'static,
    S: Fn(FileReader) -> io::Result<()>,
>(rt: &R, start: &S) -> io::Result<u8>
    requires { (f : _) (x : _) → S.pre f x }
{
    let alloc = rt.alloc();
    let words: Vec<String> = env::args(rt)?.collect(alloc)?;
    match parse_words(alloc, words.as_slice()) {
        Ok(task) => run_task(rt, &task, start),
        Err(fault) => tell_fault(rt, &fault),
    }
}

/// Runs a task, and returns the program's status.
fn run_task<
    R: Files<File = File>
        + Env
        + Print
        + Eprint
        + Input
        + AllocGlobal
        + Net<Listener = TcpListener, Stream = TcpStream>
        + Threads
        + Wait
        + Clock
        + RandomSource
        + Copy
        + Send
        + Sync
        + Drop
        + 'static,
    S: Fn(FileReader) -> io::Result<()>,
>(rt: &R, task: &Task<'_>, start: &S) -> io::Result<u8>
    requires { (f : _) (x : _) → S.pre f x }
{
    match task {
        Task::Lines {
            command,
            has_origin,
            has_warnings,
            is_wide,
            in_words,
        } => {
            let ways = Ways {
                has_warnings: *has_warnings,
                is_wide: *is_wide,
                in_words: *in_words,
            };
            run_command(rt, command, *has_origin, ways)
        }
        Task::Serve(serve) => run_serve(rt, serve, start),
        Task::Stored(stored) => run_stored(rt, *stored),
        Task::Journal(dir) => run_journal(rt, dir),
        Task::Change(change) => run_change(rt, change),
        Task::Deploy(deploy) => run_deploy(rt, deploy),
        Task::May(trial) => run_may(rt, trial),
        Task::Control(control) => run_control(rt, *control),
    }
}

/// Runs a command over standard input and output, and writes its error messages to standard error. Warns if the zone's apex is the root and no origin
/// was given, since names without a final dot are then below the root, and if stock secondaries would not accept the zone.
fn run_command<R: Files + Print + Eprint + Input + AllocGlobal>(
    rt: &R,
    command: &Command<'_>,
    has_origin: bool,
    ways: Ways,
) -> io::Result<u8> {
    let alloc = rt.alloc();
    let mut errors = Vec::new(alloc);
    let ended = run_on_streams(rt, command, ways, &mut errors)?;
    rt.eprint(String::from_utf8_lossy(alloc, errors.as_slice())?)?;
    if ended.at_root && !has_origin && is_warned_of(command) {
        eprintln!(rt; "{ROOT_APEX}")?;
    }
    if let Some(large) = &ended.large {
        eprintln!(rt; "warning: {large}")?;
    }
    Ok(ended.status)
}

/// Whether a command is one for trying out a zone's text, which warns if no origin was given.
fn is_warned_of(command: &Command<'_>) -> bool {
    matches!(command, Command::Check { .. } | Command::Answer { .. })
}
