//! The severity of lines on standard error, in journald's form (sd-daemon(3)).
use std::env;
use std::rt::Env;

/// The severity of a line.
#[derive(Clone, Copy, Debug, PartialEq, Eq)]
pub enum Level {
    /// The zone is not served, or updates cannot be written.
    Error,
    /// Something may differ from what the operator expects.
    Warning,
    /// The server starts or stops, or something works again.
    Notice,
    /// Normal operation.
    Info,
}

impl Level {
    /// The prefix of a line of this level: its number if journald reads the line, and else nothing.
    pub fn mark(self, in_journal: bool) -> &'static str {
        if !in_journal {
            return "";
        }
        match self {
            Level::Error => "<3>",
            Level::Warning => "<4>",
            Level::Notice => "<5>",
            Level::Info => "<6>",
        }
    }

    /// The prefix of a line of this level on standard error.
    pub fn mark_for<R: Env + AllocGlobal>(self, rt: &R) -> &'static str {
        self.mark(is_in_journal(rt))
    }
}

/// Whether standard error goes to journald (systemd.exec(5)).
pub fn is_in_journal<R: Env + AllocGlobal>(rt: &R) -> bool {
    env::var(rt, "JOURNAL_STREAM").is_ok()
}
