//! What is known of a secondary: what it was told last, and whether it answers.
ghost use Rattle.std.specs.Prelude.{◌≡◌, ◌↔◌, false, IsTrue};
ghost use Rattle.notify.specs.Copies.{next_notify, due_in, is_due, falls_silent, sooner, as_silent, as_notified, is_answered_by, as_answered};
ghost use Rattle.notify.specs.Turns.{IsAnsweredBy};

use crate::message::is_answer;
use dns_name::Name;
use std::net::SocketAddr;

/// How many copies of a NOTIFY are sent at most: the first, and ten more (RFC 1996, 3.6; own).
pub const MAX_COPIES: u8 = 11;

/// How long the first wait is, in milliseconds, which is also the least time between two NOTIFYs to one secondary (own).
const FIRST_WAIT: u64 = 1000;

/// How long a wait is at most, in milliseconds (RFC 1996, 3.6).
const LONGEST_WAIT: u64 = 60_000;

/// The version that a secondary was told last, and how it stands with that.
#[derive(Clone, Copy)]
pub struct Telling {
    /// The version's number.
    pub number: u64,
    /// The ID of its NOTIFY.
    pub id: u16,
    /// How many copies of the NOTIFY were sent; at most [`MAX_COPIES`] are counted.
    pub copies: u8,
    /// How long the wait after the last copy is, in milliseconds.
    pub wait: u64,
    /// When the last copy was sent, in milliseconds.
    pub at: u64,
    /// Whether the secondary has answered.
    pub answered: bool,
}

/// A secondary: where it is, and what is known of it.
#[derive(Clone, Copy)]
pub struct Secondary {
    /// The address and the port to which its NOTIFYs go, and from which its replies come.
    pub address: SocketAddr,
    /// The version that it was told last; None where it was told none.
    pub telling: Option<Telling>,
    /// How many NOTIFYs to it in a row have no answer, of whichever versions; at most [`MAX_COPIES`] are counted.
    pub unanswered: u8,
    /// Whether it was told of as one that doesn't answer, and hasn't answered since.
    pub silent: bool,
}

impl Secondary {
    /// One that was told nothing yet.
    pub fn new(address: SocketAddr) -> Secondary
        ensures { result ≡ record { address = address; telling = None; unanswered = 0; silent = false } }
    {
        Secondary {
            address,
            telling: None,
            unanswered: 0,
            silent: false,
        }
    }

    /// In how many milliseconds something is due to it, at a time and where a version of this number is served; None where nothing is.
    pub fn due_in(&self, time: u64, number: u64) -> Option<u64>
        ensures { result ≡ due_in time number self.now }
    {
        let Some(sent) = &self.telling else {
            return Some(0);
        };
        let passed = time.saturating_sub(sent.at);
        if number < sent.number {
            return None;
        }
        if sent.number < number {
            return Some(FIRST_WAIT.saturating_sub(passed));
        }
        if sent.answered || (sent.copies >= MAX_COPIES && !self.falls_silent()) {
            return None;
        }
        Some(sent.wait.saturating_sub(passed))
    }

    /// Whether something is due to it.
    pub(crate) fn is_due(&self, time: u64, number: u64) -> bool
        ensures { result ≡ is_due time number self.now }
    {
        self.due_in(time, number) == Some(0)
    }

    /// Whether what is due is to tell of it as one that doesn't answer.
    pub(crate) fn falls_silent(&self) -> bool
        ensures { result ≡ falls_silent self.now }
    {
        self.unanswered >= MAX_COPIES && !self.silent
    }

    /// The same, once it is told of as one that doesn't answer.
    pub(crate) fn as_silent(self) -> Secondary
        ensures { result ≡ as_silent self }
    {
        Secondary {
            silent: true,
            ..self
        }
    }

    /// The same, once it is sent a NOTIFY, and told so.
    pub(crate) fn as_notified(self, telling: Telling) -> Secondary
        ensures { result ≡ as_notified telling self }
    {
        Secondary {
            telling: Some(telling),
            unanswered: self.unanswered.saturating_add(1).min(MAX_COPIES),
            ..self
        }
    }

    /// Whether octets from an address are an answer of it to what it was told last, for the zone at an apex.
    pub(crate) fn answers(&self, apex: &Name, from: SocketAddr, octets: &[u8]) -> bool
        ensures { IsTrue result ↔ IsAnsweredBy apex.now from octets.now self.now }
    {
        self.address == from && self.is_answered_by(apex, octets)
    }

    /// Whether octets answer what it was told last, for the zone at an apex, and it hasn't answered that yet.
    fn is_answered_by(&self, apex: &Name, octets: &[u8]) -> bool
        ensures { result ≡ is_answered_by apex.now octets.now self.now }
    {
        match &self.telling {
            None => false,
            Some(sent) => !sent.answered && is_answer(apex, sent.id, octets),
        }
    }

    /// The same, once it has answered.
    pub(crate) fn as_answered(self) -> Secondary
        ensures { result ≡ as_answered self }
    {
        let telling = match self.telling {
            None => None,
            Some(sent) => Some(Telling {
                answered: true,
                ..sent
            }),
        };
        Secondary {
            telling,
            unanswered: 0,
            silent: false,
            ..self
        }
    }
}

/// The lesser of two waits; None of none.
pub(crate) fn sooner(a: Option<u64>, b: Option<u64>) -> Option<u64>
    ensures { result ≡ sooner a b }
{
    match (a, b) {
        (None, b) => b,
        (Some(a), None) => Some(a),
        (Some(a), Some(b)) => Some(a.min(b)),
    }
}

/// What is told next, where a version of this number is served: another copy where the version was told already, else its first, of
/// this ID.
pub(crate) fn next_notify(telling: Option<Telling>, number: u64, id: u16, time: u64) -> Telling
    ensures { result ≡ next_notify number id time telling }
{
    let first = Telling {
        number,
        id,
        copies: 1,
        wait: FIRST_WAIT,
        at: time,
        answered: false,
    };
    match telling {
        None => first,
        Some(sent) if sent.number == number => Telling {
            copies: sent.copies.saturating_add(1).min(MAX_COPIES),
            wait: sent.wait.saturating_mul(2).min(LONGEST_WAIT),
            at: time,
            ..sent
        },
        Some(_) => first,
    }
}
