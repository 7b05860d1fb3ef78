//! The program's commands, and the arguments of each.
use crate::command::{
    ADDRESS, BEFORE_FAULT, COMMAND_WORD, DIR, DRY_RUN, HEX, KEEP, NEW, OLD, ORIGIN, PATH, REQUEST,
    SERVER, TCP, WARN, WIDE, WINDOW, WORDS, ZONE,
};
use crate::may::{ALLOW, KEY, MAY};
use crate::options::{
    CONNECTIONS, CONTROL, COUNT, IDLE, KEYS, LISTEN, MESSAGE, METRICS, REPLY, WORKERS,
};
use crate::secondaries::NOTIFY;
use crate::store_options::{JOURNAL, STORE, TAKE, TRANSFER_RATE, UDP_BUFFER, UPDATE_QUEUE};
use clap::{Arg, ArgAction, Command as Parser};
use metric_families::VERSION;
use std::alloc::{AllocError, Global};

/// The program's name.
const PROGRAM: &str = "dnsd";

/// The form of an argument. Help shows the first text as the name of its value.
#[derive(Clone, Copy)]
enum Form {
    /// An option without a value.
    Flag,
    /// An option with a value.
    Value(&'static str),
    /// An option with a value; the second text is the default.
    Default(&'static str, &'static str),
    /// An option with a value, which may be repeated.
    Several(&'static str),
    /// A required option with a value, which may be repeated.
    OneAtLeast(&'static str),
    /// A required positional argument.
    Word(&'static str),
}

/// An argument of a command.
#[derive(Clone, Copy)]
struct WordRow {
    /// The name by which it is looked up; an option is written with it.
    name: &'static str,
    /// Its form.
    form: Form,
    /// Its help text.
    help: &'static str,
}

/// A command.
#[derive(Clone, Copy)]
struct CommandRow {
    /// Its name.
    name: &'static str,
    /// Its help text.
    about: &'static str,
    /// The example at the end of its help.
    example: &'static str,
    /// Its arguments, in the order in which help lists them.
    words: &'static [WordRow],
}

/// The argument for the origin of a zone's text.
const ORIGIN_ROW: WordRow = WordRow {
    name: ORIGIN,
    form: Form::Value("NAME"),
    help: "origin at the start of the zone's text (default: the root)",
};

/// The argument for the source of a zone's text.
const ZONE_ROW: WordRow = WordRow {
    name: ZONE,
    form: Form::Word("ZONE"),
    help: "text of the zone: a file, or - for standard input up to a line %",
};

/// The option for zone files as other servers take them.
const WIDE_ROW: WordRow = WordRow {
    name: WIDE,
    form: Form::Flag,
    help: "read zone files as other servers do: times with units, such as 1h30m, $INCLUDE, and words of more types, such as CAA; leave out RRSIG, NSEC, NSEC3 and NSEC3PARAM records",
};

/// The option for a zone in words.
const WORDS_ROW: WordRow = WordRow {
    name: WORDS,
    form: Form::Flag,
    help: "print types and data in words, such as CAA, as --wide reads them",
};

/// The argument for a store's directory.
const DIR_ROW: WordRow = WordRow {
    name: DIR,
    form: Form::Word("DIR"),
    help: "directory of the store",
};

/// The commands over zones' text and to a running server, in the order in which help lists them.
const ZONE_COMMANDS: &[CommandRow] = &[
    CommandRow {
        name: "answer",
        about: "answers requests in hexadecimal, one per line",
        example: "Example, a query for www.example.test., type A:\n  echo 12340100000100000000000003777777076578616d706c6504746573740000010001 | dnsd answer zones/example.test.zone",
        words: ANSWER_WORDS,
    },
    CommandRow {
        name: "check",
        about: "prints the zone in canonical form, one record per line",
        example: "Example:\n  dnsd check zones/example.test.zone",
        words: CHECK_WORDS,
    },
    CommandRow {
        name: "apply",
        about: "applies a transfer, one message in hexadecimal per line, and prints the resulting zone",
        example: "Example, with the messages of a transfer in a file:\n  dnsd apply zones/example.test.zone < messages",
        words: &[ORIGIN_ROW, ZONE_ROW],
    },
    CommandRow {
        name: "steps",
        about: "plays a script of steps, one per line; requests arrive over UDP, requests for transfers over TCP",
        example: "Example, which loads the current version and drops it:\n  printf 'load a\\ndrop a\\n' | dnsd steps zones/example.test.zone",
        words: STEPS_WORDS,
    },
    CommandRow {
        name: "change",
        about: "prints what an update changes that takes OLD to NEW, one record per line",
        example: "Example, the update as a message in hexadecimal, sent to a zone from a file:\n  dnsd change --hex old.zone new.zone | dnsd answer old.zone",
        words: CHANGE_WORDS,
    },
    CommandRow {
        name: "deploy",
        about: "brings the zone that a server serves to ZONE, by one update",
        example: "Example, from a working copy to a server that takes updates signed by a key:\n  dnsd deploy --key /etc/dnsd/deploy.key 192.0.2.1:53 example.test.zone",
        words: DEPLOY_WORDS,
    },
];

/// The commands over stores, on rules, and the server, which help lists after those.
const SERVER_COMMANDS: &[CommandRow] = &[
    CommandRow {
        name: "zone",
        about: "prints the zone of a store as a server would load it, one record per line",
        example: "Example, a backup of a store's zone while it is served:\n  dnsd zone /var/lib/dnsd > saved && mv saved backup.zone",
        words: STORED_WORDS,
    },
    CommandRow {
        name: "journal",
        about: "prints what the updates of a store changed, one record per line, since it was created or compacted",
        example: "Example:\n  dnsd journal /var/lib/dnsd",
        words: &[DIR_ROW],
    },
    CommandRow {
        name: MAY,
        about: "prints what an update or a request for a transfer gets from rules, and by which rule",
        example: "Example, the update that makes one zone of another:\n  dnsd may --may '192.0.2.7: update at-or-below dyn.example.test. A AAAA' 192.0.2.7 $(dnsd change --hex old.zone new.zone)",
        words: MAY_WORDS,
    },
    CommandRow {
        name: "control",
        about: "sends a command to a running server: reload, status, stats or stop",
        example: "Example, with a server that was started by --control /run/dnsd/control:\n  dnsd control /run/dnsd/control reload",
        words: CONTROL_WORDS,
    },
    CommandRow {
        name: "serve",
        about: "serves a zone over UDP and TCP",
        example: "Example:\n  dnsd serve --listen 127.0.0.1:5353 zones/example.test.zone\n  dig @127.0.0.1 -p 5353 www.example.test.",
        words: SERVE_WORDS,
    },
];

/// The arguments of `answer`.
const ANSWER_WORDS: &[WordRow] = &[
    ORIGIN_ROW,
    ZONE_ROW,
    WordRow {
        name: TCP,
        form: Form::Flag,
        help: "reply as over TCP, with at most 65535 bytes; by default as over UDP, with at most 512, or up to 1232 with EDNS",
    },
];

/// The arguments of `check`.
const CHECK_WORDS: &[WordRow] = &[
    ORIGIN_ROW,
    WIDE_ROW,
    WORDS_ROW,
    ZONE_ROW,
    WordRow {
        name: WARN,
        form: Form::Flag,
        help: "warn of what is likely a mistake, such as a mail server without an address",
    },
];

/// The arguments of `steps`.
const STEPS_WORDS: &[WordRow] = &[
    ORIGIN_ROW,
    ZONE_ROW,
    WordRow {
        name: KEEP,
        form: Form::Default("N", "0"),
        help: "number of older versions to keep besides the newest, at most 8",
    },
    WordRow {
        name: WINDOW,
        form: Form::Default("N", "16"),
        help: "size of the IXFR history, at most 16",
    },
];

/// The arguments of `change`.
const CHANGE_WORDS: &[WordRow] = &[
    ORIGIN_ROW,
    WIDE_ROW,
    WordRow {
        name: HEX,
        form: Form::Flag,
        help: "print the update as a message in hexadecimal",
    },
    WordRow {
        name: OLD,
        form: Form::Word("OLD"),
        help: "text of the old zone: a file, or - for standard input up to a line %",
    },
    WordRow {
        name: NEW,
        form: Form::Word("NEW"),
        help: "text of the new zone, the same",
    },
];

/// The arguments of `deploy`.
const DEPLOY_WORDS: &[WordRow] = &[
    ORIGIN_ROW,
    WIDE_ROW,
    WordRow {
        name: KEY,
        form: Form::Value("FILE"),
        help: "file of keys, such as serve reads with --keys; its first key signs what is sent, and must sign the replies (default: nothing is signed)",
    },
    WordRow {
        name: DRY_RUN,
        form: Form::Flag,
        help: "print what would change, one record per line, and send no update",
    },
    WordRow {
        name: SERVER,
        form: Form::Word("ADDR:PORT"),
        help: "address and port of the server, which must permit transfers and updates, over TCP",
    },
    ZONE_ROW,
];

/// The arguments of `control`.
const CONTROL_WORDS: &[WordRow] = &[
    WordRow {
        name: PATH,
        form: Form::Word("PATH"),
        help: "socket of the server, as it was given by --control",
    },
    WordRow {
        name: COMMAND_WORD,
        form: Form::Word("COMMAND"),
        help: "reload (ZONE is read again), status, stats or stop",
    },
];

/// The arguments of `zone`.
const STORED_WORDS: &[WordRow] = &[
    WordRow {
        name: BEFORE_FAULT,
        form: Form::Flag,
        help: "print the zone as it was before the damaged updates",
    },
    WORDS_ROW,
    DIR_ROW,
];

/// The option for a rule.
const MAY_ROW: WordRow = WordRow {
    name: MAY,
    form: Form::Several("'WHO: RIGHTS'"),
    help: "rule: WHO is an address or prefix, or key NAME, or both; RIGHTS are transfer and update, separated by a comma; after update may follow exact NAME or at-or-below NAME, then types, and tcp; may be repeated",
};

/// The arguments of `may`.
const MAY_WORDS: &[WordRow] = &[
    MAY_ROW,
    WordRow {
        name: KEY,
        form: Form::Value("NAME"),
        help: "judge as a request signed by this key, by the rules that name it (default: by those that name none)",
    },
    WordRow {
        name: TCP,
        form: Form::Flag,
        help: "the request comes over TCP; by default over UDP",
    },
    WordRow {
        name: ADDRESS,
        form: Form::Word("ADDR"),
        help: "address that the request comes from",
    },
    WordRow {
        name: REQUEST,
        form: Form::Word("REQUEST"),
        help: "the request in hexadecimal",
    },
];

/// The arguments of `serve`.
const SERVE_WORDS: &[WordRow] = &[
    ORIGIN_ROW,
    WIDE_ROW,
    ZONE_ROW,
    WordRow {
        name: LISTEN,
        form: Form::OneAtLeast("ADDR:PORT"),
        help: "address and port to listen on, over UDP and TCP; may be repeated",
    },
    WordRow {
        name: WORKERS,
        form: Form::Default("N", "4"),
        help: "number of workers, each with one thread for TCP and one for UDP on each address; at most 62 threads in total",
    },
    WordRow {
        name: KEEP,
        form: Form::Default("N", "8"),
        help: "number of older versions to keep besides the newest, at most 8",
    },
    WordRow {
        name: ALLOW,
        form: Form::Default("LIST", "127.0.0.1,::1"),
        help: "addresses and prefixes that may update and transfer the zone, separated by commas; '' for none, as by default where --may is given",
    },
    MAY_ROW,
    WordRow {
        name: KEYS,
        form: Form::Value("FILE"),
        help: "file of the keys that clients sign by (TSIG), as tsig-keygen prints them, or ALGORITHM:NAME:SECRET, one per line; its owner alone may read it",
    },
    WordRow {
        name: COUNT,
        form: Form::Value("N"),
        help: "number of datagrams and connections, counted together, after which a worker exits (default: never)",
    },
    WordRow {
        name: NOTIFY,
        form: Form::Several("'ADDR[:PORT][@FROM][ key NAME]'"),
        help: "secondary to notify of each version, from the address FROM, or else the first --listen address of its family, signed by a key of --keys if one is named; may be repeated, at most 32",
    },
    WordRow {
        name: STORE,
        form: Form::Value("DIR"),
        help: "directory in which updates survive a restart; its store is served, or created from ZONE if there is none",
    },
    WordRow {
        name: JOURNAL,
        form: Form::Value("SIZE"),
        help: "journal size at which the store is compacted, such as 100000, 500K or 64M, from 4K to 1024G (default: 64000000)",
    },
    WordRow {
        name: TAKE,
        form: Form::Value("WHICH"),
        help: "which to serve if ZONE has changed since the store was created: store or zone",
    },
    WordRow {
        name: CONTROL,
        form: Form::Value("PATH"),
        help: "socket for the commands of dnsd control, which the server's user alone may use (default: none)",
    },
    WordRow {
        name: METRICS,
        form: Form::Value("ADDR:PORT"),
        help: "address and port for Prometheus, health checks and a page, over HTTP (default: none)",
    },
    WordRow {
        name: CONNECTIONS,
        form: Form::Default("N", "1000"),
        help: "maximum number of open connections per worker, from 1 to 100000",
    },
    WordRow {
        name: IDLE,
        form: Form::Default("TIME", "10"),
        help: "idle timeout of a connection, from 1 to 3600 seconds, such as 30, 30s or 5m",
    },
    WordRow {
        name: MESSAGE,
        form: Form::Default("TIME", "10"),
        help: "timeout to receive a whole request, likewise",
    },
    WordRow {
        name: REPLY,
        form: Form::Default("TIME", "10"),
        help: "timeout for a client to accept a reply, or each part of it, likewise",
    },
    WordRow {
        name: TRANSFER_RATE,
        form: Form::Value("SIZE"),
        help: "minimum number of bytes that a client must accept in ten seconds while a reply waits for it, such as 16K or 1M, up to 1G; 0 for no minimum (default: 16K)",
    },
    WordRow {
        name: UDP_BUFFER,
        form: Form::Value("SIZE"),
        help: "size of the receive buffer of each UDP socket, such as 500K or 4M, from 4K to 1G (default: 4M)",
    },
    WordRow {
        name: UPDATE_QUEUE,
        form: Form::Value("SIZE"),
        help: "limit on the memory accounted to waiting updates, their size and 320 bytes per record, such as 500K or 16M, from 64K to 1G; further updates get SERVFAIL at once (default: 16M)",
    },
];

/// The rows of the first commands.
fn zone_commands() -> &'static [CommandRow] {
    ZONE_COMMANDS
}

/// The rows of the commands after those.
fn server_commands() -> &'static [CommandRow] {
    SERVER_COMMANDS
}

/// The parser for the program's command line.
pub fn program<'a>(alloc: Global) -> Result<Parser<'a>, AllocError> {
    let parser = Parser::new(alloc, PROGRAM)
        .version(VERSION)
        .about("an authoritative name server for one zone")
        .subcommand_required(true)
        .arg_required_else_help(true);
    let parser = with_commands(alloc, parser, zone_commands())?;
    with_commands(alloc, parser, server_commands())
}

/// The parser with the commands of these rows, too.
fn with_commands<'a>(
    alloc: Global,
    parser: Parser<'a>,
    rows: &[CommandRow],
) -> Result<Parser<'a>, AllocError> {
    let mut parser = parser;
    for row in rows {
        parser = parser.subcommand(command_of(alloc, row)?)?;
    }
    Ok(parser)
}

/// The parser for a row of the table of commands.
fn command_of<'a>(alloc: Global, row: &CommandRow) -> Result<Parser<'a>, AllocError> {
    let mut parser = Parser::new(alloc, row.name)
        .about(row.about)
        .after_help(row.example);
    for word in row.words {
        parser = parser.arg(arg_of(alloc, word))?;
    }
    Ok(parser)
}

/// The argument for a row of a table of arguments.
fn arg_of<'a>(alloc: Global, row: &WordRow) -> Arg<'a> {
    let arg = Arg::new(alloc, row.name).help(row.help);
    let option = match row.form {
        Form::Word(value) => return arg.value_name(value).required(true),
        Form::Flag => return arg.long(row.name).action(ArgAction::SetTrue),
        Form::Value(value)
        | Form::Default(value, _)
        | Form::Several(value)
        | Form::OneAtLeast(value) => arg.long(row.name).value_name(value),
    };
    match row.form {
        Form::Default(_, own) => option.default_value(own),
        Form::Several(_) => option.action(ArgAction::Append),
        Form::OneAtLeast(_) => option.action(ArgAction::Append).required(true),
        _ => option,
    }
}
