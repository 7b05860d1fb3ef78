//! The commands of a control socket.
ghost use Rattle.std.specs.Prelude.{◌≡◌, MatchOption};
ghost use Rattle.control_socket.specs.Commands.{word_of};
ghost use Rattle.control_socket.specs.declared.command.ControlCommand.{ControlCommand as CommandOf};

/// A command for a running server.
#[derive(Clone, Copy, Debug, PartialEq, Eq)]
pub enum ControlCommand {
    /// Reads the zone's text again, and serves its zone.
    Reload,
    /// Tells what is served.
    Status,
    /// Tells the server's numbers, as lines for Prometheus.
    Stats,
    /// Ends the server.
    Stop,
}

impl ControlCommand {
    /// The command of a word; None if it is none's.
    pub fn of(word: &[u8]) -> Option<ControlCommand>
        ensures { MatchOption result ((command : CommandOf) → word.now ≡ word_of command → ⊥) (λ command. word.now ≡ word_of command) }
    {
        if word == b"reload".as_slice() {
            Some(ControlCommand::Reload)
        } else if word == b"status".as_slice() {
            Some(ControlCommand::Status)
        } else if word == b"stats".as_slice() {
            Some(ControlCommand::Stats)
        } else if word == b"stop".as_slice() {
            Some(ControlCommand::Stop)
        } else {
            None
        }
    }

    /// Its word.
    pub fn word(self) -> &'static str
        ensures { result.now ≡ word_of self }
    {
        match self {
            ControlCommand::Reload => "reload",
            ControlCommand::Status => "status",
            ControlCommand::Stats => "stats",
            ControlCommand::Stop => "stop",
        }
    }
}
