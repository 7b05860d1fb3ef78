//! Why a command line is refused, and how that is reported.
ghost use Rattle.std.specs.Prelude.{◌≡◌, ◌⊎◌};

use commands::{DONE, FAILED};
use dns_name::NameFault;
use rights::RuleFault;
use std::alloc::AllocError;
use std::io;

/// The exit status for a command line that is refused.
pub const BAD_COMMAND: u8 = 2;

/// Why a command line is refused.
pub enum CommandFault<'a> {
    /// The arguments are not those of a command, or help or the version was requested.
    Words(clap::Error),
    /// The origin is not a valid name.
    Origin(&'a str, NameFault),
    /// The value of an option is not a number in its range.
    Number {
        /// The option.
        option: &'static str,
        /// The value.
        word: &'a str,
        /// The minimum.
        least: u64,
        /// The maximum.
        most: u64,
    },
    /// The value of the option is not a time in its range.
    Time(&'static str, &'a str),
    /// The address to listen on is not an address with a port.
    Listen(&'a str),
    /// The address for metrics is not an address with a port.
    Metrics(&'a str),
    /// An entry in the list of those that may update and transfer is neither an address nor a prefix.
    Allow(RuleFault<'a>),
    /// The name of the key is not a valid name.
    Key(&'a str, NameFault),
    /// This many workers, for this many addresses, need too many threads.
    Threads(usize, usize),
    /// The value for a secondary is not an address.
    Notify(&'a str),
    /// The value names one secondary more than can be notified.
    Secondaries(&'a str),
    /// The value names a secondary that another value also names.
    SecondaryTwice(&'a str),
    /// The value of an option is not a size in its range.
    Size {
        /// The option.
        option: &'static str,
        /// The sizes it accepts, in the words of the error message.
        takes: &'static str,
        /// The value.
        word: &'a str,
    },
    /// The value is neither `store` nor `zone`.
    Take(&'a str),
    /// The option requires a store, and none is given.
    NoStore(&'static str),
    /// The rule is refused.
    Rule(&'a str, RuleFault<'a>),
    /// The word is not an address.
    Address(&'a str),
    /// The word is not an address and port of a server.
    Server(&'a str),
    /// The word is no command for a running server.
    Control(&'a str),
}

impl<'a> Drop for CommandFault<'a> {
    fn drop(self) {
        match self {
            CommandFault::Words(_) => {}
            CommandFault::Origin(_, _) => {}
            CommandFault::Number {
                option: _,
                word: _,
                least: _,
                most: _,
            } => {}
            CommandFault::Time(_, _) => {}
            CommandFault::Listen(_) => {}
            CommandFault::Metrics(_) => {}
            CommandFault::Allow(_) => {}
            CommandFault::Key(_, _) => {}
            CommandFault::Threads(_, _) => {}
            CommandFault::Notify(_) => {}
            CommandFault::Secondaries(_) => {}
            CommandFault::SecondaryTwice(_) => {}
            CommandFault::Size {
                option: _,
                takes: _,
                word: _,
            } => {}
            CommandFault::Take(_) => {}
            CommandFault::NoStore(_) => {}
            CommandFault::Rule(_, _) => {}
            CommandFault::Address(_) => {}
            CommandFault::Server(_) => {}
            CommandFault::Control(_) => {}
        }
    }
}

impl From<clap::Error> for CommandFault<'_> {
    fn from(fault: clap::Error) -> Self {
        CommandFault::Words(fault)
    }
}

impl From<AllocError> for CommandFault<'_> {
    fn from(fault: AllocError) -> Self {
        CommandFault::Words(clap::Error::from(fault))
    }
}

/// Prints on standard error why the arguments are refused, or on standard output the help or version that they request, and returns the exit status.
pub fn tell_fault<R: Print + Eprint>(rt: &R, fault: &CommandFault<'_>) -> io::Result<u8> {
    match fault {
        CommandFault::Words(fault) => {
            fault.print(rt)?;
            return Ok(status_of(fault));
        }
        CommandFault::Origin(word, fault) => {
            eprintln!(rt; "error: --origin: '{word}' is not a name: {fault}")?;
        }
        CommandFault::Number {
            option,
            word,
            least,
            most,
        } => {
            eprintln!(rt; "error: --{option}: '{word}' is not a number from {least} to {most}")?;
        }
        CommandFault::Time(option, word) => {
            eprintln!(rt;
                "error: --{option}: '{word}' is not a time from 1 to 3600 seconds, such as 30, 30s or 5m"
            )?;
        }
        CommandFault::Listen(word) => {
            eprintln!(rt;
                "error: --listen: '{word}' is not an address and port, such as 127.0.0.1:5353 or [::1]:5353"
            )?;
        }
        CommandFault::Metrics(word) => {
            eprintln!(rt;
                "error: --metrics: '{word}' is not an address and port, such as 127.0.0.1:9153 or [::1]:9153"
            )?;
        }
        CommandFault::Allow(RuleFault::Address(word)) => {
            eprintln!(rt;
                "error: --allow: '{word}' is not an address or a prefix; separate them by commas, such as 127.0.0.1,192.0.2.0/24"
            )?;
        }
        CommandFault::Allow(fault) => eprintln!(rt; "error: --allow: {fault}")?,
        CommandFault::Key(word, fault) => {
            eprintln!(rt; "error: --key: '{word}' is not a name: {fault}")?;
        }
        CommandFault::Threads(workers, addresses) => {
            eprintln!(rt;
                "error: --workers {workers} with {addresses} addresses needs more than 62 threads: each worker has one for TCP, and one for UDP on each address; --notify, --control and --metrics need one more each"
            )?;
        }
        CommandFault::Notify(word) => {
            eprintln!(rt;
                "error: --notify: '{word}' is not an address, such as 192.0.2.7, 192.0.2.7:5353 or [2001:db8::7]:53@2001:db8::1, maybe with ' key NAME' after it"
            )?;
        }
        CommandFault::Secondaries(word) => {
            eprintln!(rt;
                "error: --notify: '{word}' is one more than the limit of 32 secondaries"
            )?;
        }
        CommandFault::SecondaryTwice(word) => {
            eprintln!(rt; "error: --notify: '{word}' repeats a secondary")?;
        }
        CommandFault::Size {
            option,
            takes,
            word,
        } => {
            eprintln!(rt; "error: --{option}: '{word}' is not a size {takes}")?;
        }
        CommandFault::Take(word) => {
            eprintln!(rt; "error: --take: '{word}' is neither store nor zone")?;
        }
        CommandFault::Control(word) => {
            eprintln!(rt; "error: COMMAND: '{word}' is none of reload, status, stats and stop")?;
        }
        CommandFault::NoStore(option) => {
            eprintln!(rt; "error: --{option} needs --store")?;
        }
        CommandFault::Rule(word, fault) => {
            eprintln!(rt; "error: --may '{word}': {fault}")?;
        }
        CommandFault::Address(word) => {
            eprintln!(rt; "error: '{word}' is not an address, such as 192.0.2.7 or 2001:db8::7")?;
        }
        CommandFault::Server(word) => {
            eprintln!(rt;
                "error: '{word}' is not an address and port, such as 192.0.2.1:53 or [2001:db8::1]:53"
            )?;
        }
    }
    Ok(BAD_COMMAND)
}

/// The exit status for a command line that clap refused. Lack of memory has its own.
fn status_of(fault: &clap::Error) -> u8
    ensures { (result ≡ 0) ⊎ (result ≡ 2) ⊎ (result ≡ 3) }
{
    match fault.kind() {
        clap::error::ErrorKind::OutOfMemory => FAILED,
        _ if fault.use_stderr() => BAD_COMMAND,
        _ => DONE,
    }
}
