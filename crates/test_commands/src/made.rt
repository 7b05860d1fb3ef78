//! What the tests share: the zone of the examples, commands over it, and what they tell devices that may fail.
use commands::{Command, Source, run_text};
use dns_name::Name;
use serve_core::Transport;
use std::alloc::{AllocError, Global};
use std::io::{self, BufWriter, Cursor, ErrorKind, Write};

/// The zone that the examples are asked of.
pub(crate) const ZONE: &str = "\
example.test. 3600 IN SOA ns1.example.test. admin.example.test. 1 7200 900 1209600 300\n\
example.test. 3600 IN NS ns1.example.test.\n\
mail.example.test. 3600 IN MX 10 web.example.test.\n\
web.example.test. 3600 IN A 192.0.2.10\n\
www.example.test. 3600 IN CNAME web.example.test.\n";

/// A text: a first part, so many addresses of the owner `t.`, and a second part.
pub(crate) type Parts = (&'static str, u32, &'static str);

/// The text of these parts.
pub(crate) fn text_of(alloc: Global, parts: Parts) -> Result<String, AllocError> {
    let mut text = String::new(alloc);
    text.push_str(parts.0)?;
    for number in 0..parts.1 {
        let line = format!(in alloc; "t. 6 IN A 10.0.{}.{}\n", number / 256, number % 256)?;
        text.push_str(line.as_str())?;
    }
    text.push_str(parts.2)?;
    Ok(text)
}

/// A command over standard input, under the root.
#[derive(Clone, Copy)]
pub(crate) enum Kind {
    /// `answer` over UDP.
    Answer,
    /// `apply`.
    Apply,
    /// `check`.
    Check,
    /// `steps` with the last version alone kept, and a window of 16.
    Steps,
}

/// A command of a kind.
fn command(kind: Kind) -> Command<'static> {
    let zone = Source::Input;
    let origin = Name::root();
    match kind {
        Kind::Answer => Command::Answer {
            zone,
            origin,
            transport: Transport::Udp,
        },
        Kind::Apply => Command::Apply { zone, origin },
        Kind::Check => Command::Check { zone, origin },
        Kind::Steps => Command::Steps {
            zone,
            origin,
            keep: 0,
            window: 16,
        },
    }
}

/// A writer that takes so many octets and no more, and may fail to flush.
#[derive(Drop)]
pub(crate) struct Device {
    taken: Vec<u8>,
    room: usize,
    flushes: bool,
}

impl Device {
    /// A device that has taken nothing.
    pub(crate) fn new(alloc: Global, room: usize, flushes: bool) -> Device {
        let taken = Vec::new(alloc);
        Device {
            taken,
            room,
            flushes,
        }
    }
}

impl Write for Device {
    fn write(&mut self, buf: &[u8]) -> io::Result<usize> {
        let len = buf.len().min(self.room);
        if len == 0 && !buf.is_empty() {
            return Err(io::Error::from(ErrorKind::BrokenPipe));
        }
        self.taken.extend_from_slice(&buf[..len])?;
        self.room = self.room.saturating_sub(len);
        Ok(len)
    }

    fn flush(&mut self) -> io::Result<()> {
        if self.flushes {
            Ok(())
        } else {
            Err(io::Error::from(ErrorKind::BrokenPipe))
        }
    }
}

/// What a command tells: its status, what it writes, and what it says of errors.
#[derive(Drop)]
pub(crate) struct CommandResult {
    pub(crate) status: u8,
    pub(crate) written: Vec<u8>,
    pub(crate) errors: Vec<u8>,
}

/// What a command of a kind over a text tells two devices; None where the test has no memory.
pub(crate) fn run_over(
    alloc: Global,
    kind: Kind,
    text: &[u8],
    output: Device,
    errors: Device,
) -> Option<CommandResult> {
    let mut reader = Cursor::new(text);
    let mut writer = BufWriter::new(alloc, output).ok()?;
    let mut errors = errors;
    let ended = run_text(alloc, &command(kind), &mut reader, &mut writer, &mut errors);
    let (output, _) = writer.into_parts();
    Some(CommandResult {
        status: ended.status,
        written: output.taken,
        errors: errors.taken,
    })
}
