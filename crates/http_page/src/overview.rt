//! What the page shows.
use crate::graph::Graph;
use std::marker::Model;

/// A line of the log.
#[derive(Drop)]
pub struct Line {
    /// Its text, without a line's end.
    pub text: String,
}

impl Model for Line {
    ghost use Rattle.std.specs.Prelude.{ℕ, List, string_bytes};

    ghost Value = { List ℕ };

    ghost view = { λ l. string_bytes l.text };
}

/// A secondary, and what is known of it.
#[derive(Drop)]
pub struct Secondary {
    /// Its address and port.
    pub address: String,
    /// How many NOTIFYs were sent to it.
    pub sent: u64,
    /// How many of them it answered.
    pub answered: u64,
    /// How many serials were given up, since it did not answer.
    pub given_up: u64,
    /// The serial that it last answered for.
    pub serial: Option<u32>,
}

impl Model for Secondary {
    ghost use Rattle.std.specs.Prelude.{string_bytes};
    ghost use Rattle.http_page.specs.Overview.{SecondaryOf};

    ghost Value = { SecondaryOf };

    ghost view = { λ s. record { address = string_bytes s.address; sent = s.sent; answered = s.answered; given_up = s.given_up; serial = s.serial } };
}

/// What the page shows.
#[derive(Drop)]
pub struct Overview {
    /// The zone's name.
    pub zone: String,
    /// Its serial.
    pub serial: u32,
    /// How many records it has.
    pub records: u64,
    /// How long the server has been running, in seconds.
    pub uptime: u64,
    /// The state of the store, as `ok`.
    pub store: String,
    /// Rates of the last ten minutes.
    pub graphs: Vec<Graph>,
    /// The secondaries.
    pub secondaries: Vec<Secondary>,
    /// The last lines of the log, the oldest first.
    pub lines: Vec<Line>,
}

impl Model for Overview {
    ghost use Rattle.std.specs.Prelude.{string_bytes};
    ghost use Rattle.http_page.specs.Overview.{OverviewOf};

    ghost Value = { OverviewOf };

    ghost view = { λ o. record { zone = string_bytes o.zone; serial = o.serial; records = o.records; uptime = o.uptime; store = string_bytes o.store; graphs = o.graphs.items; secondaries = o.secondaries.items; lines = o.lines.items } };
}
