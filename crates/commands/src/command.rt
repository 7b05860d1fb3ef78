//! Commands over a zone's text.
ghost use Rattle.std.specs.Prelude.{◌≡◌};
ghost use Rattle.commands.specs.Run.{source_of, origin_of};

use dns_name::Name;
use serve_core::Transport;

/// Where the zone's text comes from.
#[derive(Clone, Copy, Debug, PartialEq, Eq)]
pub enum Source<'a> {
    /// The start of standard input, up to a line `%` or the end.
    Input,
    /// A file.
    File(&'a str),
}

/// A command of the program.
pub enum Command<'a> {
    /// Replies to requests in hexadecimal.
    Answer {
        /// Where the zone's text comes from.
        zone: Source<'a>,
        /// The origin at the start of the zone's text.
        origin: Name,
        /// The transport of the requests and replies.
        transport: Transport,
    },
    /// Prints the zone's text in its canonical form.
    Check {
        /// Where the zone's text comes from.
        zone: Source<'a>,
        /// The origin at the start of the zone's text.
        origin: Name,
    },
    /// Applies a transfer, a message in hexadecimal per line, and prints the resulting zone's text.
    Apply {
        /// Where the zone's text comes from.
        zone: Source<'a>,
        /// The origin at the start of the zone's text.
        origin: Name,
    },
    /// Plays a script of steps over the versions of a zone.
    Steps {
        /// Where the zone's text comes from.
        zone: Source<'a>,
        /// The origin at the start of the zone's text.
        origin: Name,
        /// The number of versions kept in addition to the newest, at most 8.
        keep: usize,
        /// The size of the IXFR history: the maximum number of entries in the window, at most 16.
        window: usize,
    },
}

impl<'a> Drop for Command<'a> {
    fn drop(self) {
        match self {
            Command::Answer {
                zone: _,
                origin: _,
                transport: _,
            } => {}
            Command::Check { zone: _, origin: _ } => {}
            Command::Apply { zone: _, origin: _ } => {}
            Command::Steps {
                zone: _,
                origin: _,
                keep: _,
                window: _,
            } => {}
        }
    }
}

impl<'a> Command<'a> {
    /// Where the zone's text comes from.
    pub fn zone(&self) -> Source<'a>
        ensures { result ≡ source_of self.now }
    {
        match self {
            Command::Answer { zone, .. }
            | Command::Check { zone, .. }
            | Command::Apply { zone, .. }
            | Command::Steps { zone, .. } => *zone,
        }
    }

    /// The origin at the start of the zone's text.
    pub fn origin(&self) -> &Name
        ensures { result.now ≡ origin_of self.now }
    {
        match self {
            Command::Answer { origin, .. }
            | Command::Check { origin, .. }
            | Command::Apply { origin, .. }
            | Command::Steps { origin, .. } => origin,
        }
    }
}
