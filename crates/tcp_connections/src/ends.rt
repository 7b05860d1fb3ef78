//! Counts of how connections have ended.
ghost use Rattle.std.specs.Prelude.{◌≡◌, ◌≢◌};
ghost use Rattle.tcp_connections.specs.declared.waiting.Waiting.{Waiting as Awaiting};
ghost use Rattle.tcp_connections.specs.Ends.{one_more, one_late, one_slow, late_of, all_of};

use crate::waiting::Waiting;
use requests::StreamEnd;

/// How many connections have ended, by how they did; at most 2^64 - 1 of each are counted.
#[derive(Clone, Copy, Default, PartialEq, Eq, Debug)]
pub struct Ends {
    /// After the last request's reply, with nothing left to be read.
    pub clean: u64,
    /// Inside a request, with nothing left to be read.
    pub torn: u64,
    /// With a read or a write that failed.
    pub device: u64,
    /// Because no version could be loaded.
    pub spent: u64,
    /// Because there was no memory.
    pub no_memory: u64,
    /// Because no request came for too long.
    pub idle: u64,
    /// Because the rest of a request didn't come for too long.
    pub message: u64,
    /// Because what was to be written wasn't taken for too long.
    pub reply: u64,
    /// Because what was to be written was taken too slowly.
    pub slow: u64,
}

impl Ends {
    /// Counts one more, by how it has ended.
    pub(crate) fn count(&mut self, end: StreamEnd)
        ensures { self.new ≡ one_more end self.old }
    {
        match end {
            StreamEnd::Clean => self.clean = self.clean.saturating_add(1),
            StreamEnd::Torn => self.torn = self.torn.saturating_add(1),
            StreamEnd::Device => self.device = self.device.saturating_add(1),
            StreamEnd::Spent => self.spent = self.spent.saturating_add(1),
            StreamEnd::NoMemory => self.no_memory = self.no_memory.saturating_add(1),
        }
    }

    /// Counts one more, which is over, by what it waited for.
    pub(crate) fn count_late(&mut self, awaited: Waiting)
        requires { awaited ≢ Awaiting.Answer }
        ensures { self.new ≡ one_late awaited self.old }
    {
        match awaited {
            Waiting::Request => self.idle = self.idle.saturating_add(1),
            Waiting::Rest => self.message = self.message.saturating_add(1),
            Waiting::Answer => unreachable!(),
            Waiting::Taking => self.reply = self.reply.saturating_add(1),
        }
    }

    /// Counts one more, which is over because its peer took too slowly what was to be written.
    pub(crate) fn count_slow(&mut self)
        ensures { self.new ≡ one_slow self.old }
    {
        self.slow = self.slow.saturating_add(1);
    }

    /// How many are over in all, because their peers took too long, or took too slowly; at most 2^64 - 1.
    pub fn late(&self) -> u64
        ensures { result ≡ late_of self.now }
    {
        self.idle
            .saturating_add(self.message)
            .saturating_add(self.reply)
            .saturating_add(self.slow)
    }

    /// How many have ended in all; at most 2^64 - 1.
    pub fn total(&self) -> u64
        ensures { result ≡ all_of self.now }
    {
        self.clean
            .saturating_add(self.torn)
            .saturating_add(self.device)
            .saturating_add(self.spent)
            .saturating_add(self.no_memory)
            .saturating_add(self.late())
    }
}
