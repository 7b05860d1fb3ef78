//! Parsing a command line into a task.
ghost use Rattle.std.specs.Prelude.{◌≡◌, ◌≤◌, IsNone, IfOk};
ghost use Rattle.std.specs.Result.{IsOkAnd};

use crate::fault::CommandFault;
use crate::may::{KEY, MAY, Trial, trial_of};
use crate::options::{Serve, serve_of};
use crate::program::program;
use crate::stored_zone::Part;
use clap::ArgMatches;
use commands::{Command, Source};
use control_socket::ControlCommand;
use dns_name::Name;
use serve_core::Transport;
use std::alloc::{AllocError, Global};
use std::convert::AsStr;
use std::net::SocketAddr;

/// The task that a command line requests.
pub enum Task<'a> {
    /// A command that uses standard input and output.
    Lines {
        /// The command.
        command: Command<'a>,
        /// Whether an origin was given for its zone's text.
        has_origin: bool,
        /// Whether warnings of its zone's text are requested.
        has_warnings: bool,
        /// Whether its zone's text is read as other servers read zone files.
        is_wide: bool,
        /// Whether the zone is printed in words.
        in_words: bool,
    },
    /// Serves a zone on sockets.
    Serve(Serve<'a>),
    /// Prints the zone of a store.
    Stored(Stored<'a>),
    /// Prints what the updates of the store in this directory changed.
    Journal(&'a str),
    /// Prints what changes from one zone to another.
    Change(Change<'a>),
    /// Brings the zone that a server serves to another one.
    Deploy(Deploy<'a>),
    /// Prints what a request gets by rules.
    May(Trial<'a>),
    /// Sends a command to a running server.
    Control(Control<'a>),
}

impl<'a> Drop for Task<'a> {
    fn drop(self) {
        match self {
            Task::Lines {
                command: _,
                has_origin: _,
                has_warnings: _,
                is_wide: _,
                in_words: _,
            } => {}
            Task::Serve(_) => {}
            Task::Stored(_) => {}
            Task::Journal(_) => {}
            Task::Change(_) => {}
            Task::Deploy(_) => {}
            Task::May(_) => {}
            Task::Control(_) => {}
        }
    }
}

/// Two zones of which what changes from the first to the second is to be printed.
pub struct Change<'a> {
    /// Where the old zone's text comes from.
    pub old: Source<'a>,
    /// Where the next zone's text comes from.
    pub next: Source<'a>,
    /// The origin at the start of both texts.
    pub origin: Name,
    /// Whether both texts are read as other servers read zone files.
    pub is_wide: bool,
    /// Whether the update is printed as a message in hexadecimal, in place of the records.
    pub is_hex: bool,
}

impl<'a> Drop for Change<'a> {
    fn drop(self) {
        let Change {
            old: _,
            next: _,
            origin: _,
            is_wide: _,
            is_hex: _,
        } = self;
    }
}

/// A zone to which the zone that a server serves is to be brought.
pub struct Deploy<'a> {
    /// The server's address and port.
    pub server: SocketAddr,
    /// Where the zone's text comes from.
    pub zone: Source<'a>,
    /// The origin at the start of the text.
    pub origin: Name,
    /// Whether the text is read as other servers read zone files.
    pub is_wide: bool,
    /// The file whose first key signs what is sent. None where it isn't signed.
    pub key: Option<&'a str>,
    /// Whether what would change is printed, and no update is sent.
    pub is_dry: bool,
}

impl<'a> Drop for Deploy<'a> {
    fn drop(self) {
        let Deploy {
            server: _,
            zone: _,
            origin: _,
            is_wide: _,
            key: _,
            is_dry: _,
        } = self;
    }
}

/// A command for a running server.
#[derive(Clone, Copy, Debug, PartialEq, Eq)]
pub struct Control<'a> {
    /// The path of its socket.
    pub path: &'a str,
    /// The command.
    pub command: ControlCommand,
}

/// A store whose zone is to be printed.
#[derive(Clone, Copy, Debug, PartialEq, Eq)]
pub struct Stored<'a> {
    /// The store's directory.
    pub dir: &'a str,
    /// How much of its journal to use.
    pub part: Part,
    /// Whether the zone is printed in words.
    pub in_words: bool,
}

/// The task that these arguments request. The first one is the program's name.
pub fn parse_words<'a, S: AsStr>(
    alloc: Global,
    words: &'a [S],
) -> Result<Task<'a>, CommandFault<'a>> {
    let matches = program(alloc)?.try_get_matches_from(words)?;
    match matches.subcommand() {
        Some((name, found)) => task_of(alloc, name, found),
        None => Err(CommandFault::from(AllocError)),
    }
}

/// The task of the command with this name.
fn task_of<'a>(
    alloc: Global,
    name: &str,
    found: &ArgMatches<'a>,
) -> Result<Task<'a>, CommandFault<'a>> {
    if name == "zone" {
        return Ok(Task::Stored(stored_of(found)));
    }
    if name == "control" {
        return Ok(Task::Control(control_of(found)?));
    }
    if name == "journal" {
        return Ok(Task::Journal(dir_of(found)));
    }
    if name == MAY {
        return Ok(Task::May(trial_of(alloc, found)?));
    }
    let text = found.get_str(ORIGIN).unwrap_or(".");
    let origin = Name::from_text(text.as_bytes(), &Name::root()).map_err(
        |fault| CommandFault::Origin(text, fault),
    )?;
    if name == "change" {
        return Ok(Task::Change(change_of(found, origin)));
    }
    let zone = text_source(found.get_str(ZONE));
    if name == "deploy" {
        return Ok(Task::Deploy(deploy_of(found, zone, origin)?));
    }
    if name == "serve" {
        return Ok(Task::Serve(serve_of(alloc, found, zone, origin)?));
    }
    Ok(Task::Lines {
        command: command_of(name, found, zone, origin)?,
        has_origin: found.get_str(ORIGIN).is_some(),
        has_warnings: name == "check" && found.get_flag(WARN),
        is_wide: name == "check" && found.get_flag(WIDE),
        in_words: name == "check" && found.get_flag(WORDS),
    })
}

/// The source of a text, by its word: `-` is standard input.
fn text_source(word: Option<&str>) -> Source<'_> {
    match word {
        Some("-") | None => Source::Input,
        Some(path) => Source::File(path),
    }
}

/// The zones of which what changes is to be printed.
fn change_of<'a>(found: &ArgMatches<'a>, origin: Name) -> Change<'a> {
    Change {
        old: text_source(found.get_str(OLD)),
        next: text_source(found.get_str(NEW)),
        origin,
        is_wide: found.get_flag(WIDE),
        is_hex: found.get_flag(HEX),
    }
}

/// The zone to which the zone that a server serves is to be brought.
fn deploy_of<'a>(
    found: &ArgMatches<'a>,
    zone: Source<'a>,
    origin: Name,
) -> Result<Deploy<'a>, CommandFault<'a>> {
    let word = found.get_str(SERVER).unwrap_or("");
    let Ok(server) = word.parse::<SocketAddr>() else {
        return Err(CommandFault::Server(word));
    };
    Ok(Deploy {
        server,
        zone,
        origin,
        is_wide: found.get_flag(WIDE),
        key: found.get_str(KEY),
        is_dry: found.get_flag(DRY_RUN),
    })
}

/// The command for a running server.
fn control_of<'a>(found: &ArgMatches<'a>) -> Result<Control<'a>, CommandFault<'a>> {
    let word = found.get_str(COMMAND_WORD).unwrap_or("");
    match ControlCommand::of(word.as_bytes()) {
        Some(command) => Ok(Control {
            path: found.get_str(PATH).unwrap_or(""),
            command,
        }),
        None => Err(CommandFault::Control(word)),
    }
}

/// The store whose zone is to be printed.
fn stored_of<'a>(found: &ArgMatches<'a>) -> Stored<'a> {
    let part = if found.get_flag(BEFORE_FAULT) {
        Part::BeforeFault
    } else {
        Part::Whole
    };
    Stored {
        dir: dir_of(found),
        part,
        in_words: found.get_flag(WORDS),
    }
}

/// The directory of a store.
fn dir_of<'a>(found: &ArgMatches<'a>) -> &'a str {
    found.get_str(DIR).unwrap_or(".")
}

/// The command with this name.
fn command_of<'a>(
    name: &str,
    found: &ArgMatches<'a>,
    zone: Source<'a>,
    origin: Name,
) -> Result<Command<'a>, CommandFault<'a>> {
    match name {
        "check" => return Ok(Command::Check { zone, origin }),
        "apply" => return Ok(Command::Apply { zone, origin }),
        "steps" => {
            let keep = number_for(found.get_str(KEEP), KEEP, 0, MAX_KEEP, 0)?;
            let window = number_for(found.get_str(WINDOW), WINDOW, 0, MAX_WINDOW, MAX_WINDOW)?;
            return Ok(Command::Steps {
                zone,
                origin,
                keep,
                window,
            });
        }
        _ => {}
    }
    let transport = if found.get_flag(TCP) {
        Transport::Tcp
    } else {
        Transport::Udp
    };
    Ok(Command::Answer {
        zone,
        origin,
        transport,
    })
}

/// The option for the origin at the start of a zone's text.
pub const ORIGIN: &str = "origin";

/// The argument for the source of a zone's text.
pub const ZONE: &str = "zone";

/// The argument for the source of the old zone's text.
pub const OLD: &str = "old";

/// The argument for the source of the next zone's text.
pub const NEW: &str = "new";

/// The argument for the path of a running server's socket.
pub const PATH: &str = "path";

/// The argument for a command for a running server.
pub const COMMAND_WORD: &str = "command";

/// The option for warnings of a zone's text.
pub const WARN: &str = "warn";

/// The option for zone files as other servers take them.
pub const WIDE: &str = "wide";

/// The option for a zone in words.
pub const WORDS: &str = "words";

/// The option for the update's message.
pub const HEX: &str = "hex";

/// The argument for the address and port of a running server.
pub const SERVER: &str = "server";

/// The option for printing what an update would change.
pub const DRY_RUN: &str = "dry-run";

/// The option for replies as over TCP, and for a request over TCP.
pub const TCP: &str = "tcp";

/// The argument for the address that a request comes from.
pub const ADDRESS: &str = "address";

/// The argument for a request in hexadecimal.
pub const REQUEST: &str = "request";

/// The argument for a store's directory.
pub const DIR: &str = "dir";

/// The option for the part of a journal before damage.
pub const BEFORE_FAULT: &str = "before-fault";

/// The option for the number of older versions kept in addition to the newest.
pub const KEEP: &str = "keep";

/// The maximum number of older versions kept.
pub const MAX_KEEP: usize = transfer_core::KEPT;

/// The option for the size of the IXFR history, in window entries.
pub const WINDOW: &str = "window";

/// The maximum number of entries in the window.
const MAX_WINDOW: usize = transfer_core::WINDOW;

/// The number given for an option, which must be in the range from `least` to `most`; `own` if the option is not given.
pub fn number_for<'a>(
    word: Option<&'a str>,
    option: &'static str,
    least: usize,
    most: usize,
    own: usize,
) -> Result<usize, CommandFault<'a>>
    ensures least { least ≤ own → IfOk result (λ number. least ≤ number) }
    ensures most { own ≤ most → IfOk result (λ number. number ≤ most) }
    ensures own { IsNone word.entry → IsOkAnd result (λ number. number ≡ own) }
{
    let Some(word) = word else {
        return Ok(own);
    };
    match word.parse::<usize>() {
        Ok(number) if least <= number && number <= most => Ok(number),
        _ => Err(CommandFault::Number {
            option,
            word,
            least: least as u64,
            most: most as u64,
        }),
    }
}
