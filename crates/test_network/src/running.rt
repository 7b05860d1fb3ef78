//! A worker with the state that its turns need.

use crate::echo::{Both, Echo};
use crate::pieces::{Output, room_of};
use crate::polls::Comers;
use requests::Allowed;
use rights::{Rule, parse_rule};
use std::alloc::{AllocError, Global};
use std::io::{self, ErrorKind};
use std::sync::Wait;
use tcp_connections::{Blocking, Limits};
use tcp_loop::{Arrivals, EventLoop, Plan, Readiness, Remote, TurnEnd};

/// A second, in nanoseconds.
pub(crate) const SECOND: u64 = 1_000_000_000;

/// The rule by which 192.0.2.1 may transfer.
pub(crate) fn may(alloc: Global) -> Result<Vec<Rule>, AllocError> {
    let mut rules = Vec::new(alloc);
    match parse_rule(alloc, "192.0.2.1: transfer") {
        Ok(rule) => rules.push(rule)?,
        Err(_) => return Err(AllocError),
    }
    Ok(rules)
}

/// Ten seconds for each time limit, and the rules by which peers may update and transfer.
fn plan(alloc: Global, rules: &[Rule]) -> Plan<'_> {
    Plan {
        limits: Limits {
            idle: 10 * SECOND,
            message: 10 * SECOND,
            reply: 10 * SECOND,
            rate: 0,
        },
        allowed: Allowed::new(alloc, rules),
    }
}

/// A worker with a poll, one listener, and a handler.
#[derive(Drop)]
pub(crate) struct Running<S: Drop, P, L> {
    alloc: Global,
    rules: Vec<Rule>,
    pub(crate) turns: EventLoop<S, Both>,
    pub(crate) poll: P,
    pub(crate) places: Vec<L>,
    pub(crate) echo: Echo,
    room: Vec<u8>,
    out: Vec<u8>,
}

impl<S: Blocking + Remote + Drop, P: Readiness<S> + Drop, L: Arrivals<Stream = S> + Drop> Running<
    S,
    P,
    L,
> {
    /// A worker with eight slots.
    pub(crate) fn new(alloc: Global, poll: P, place: L) -> Result<Running<S, P, L>, AllocError> {
        let mut places = Vec::new(alloc);
        places.push(place)?;
        Ok(Running {
            alloc,
            rules: may(alloc)?,
            turns: EventLoop::new(alloc, 8, 1)?,
            poll,
            places,
            echo: Echo::new(u32::MAX),
            room: room_of(alloc, 4_096)?,
            out: room_of(alloc, 65_535)?,
        })
    }

    /// Runs `count` turns.
    pub(crate) fn turn<R: Wait>(&mut self, rt: &R, count: usize) -> io::Result<()> {
        for _turn in 0..count {
            if self.room.is_empty() || self.out.len() < 65_535 {
                return Err(io::Error::from(ErrorKind::InvalidInput));
            }
            let turned = self.turns.poll_once(
                rt,
                &mut self.poll,
                plan(self.alloc, &self.rules),
                &mut self.places,
                &mut self.echo,
                &mut self.room,
                &mut self.out,
            );
            if turned.is_err() {
                return Err(io::Error::from(ErrorKind::Other));
            }
        }
        Ok(())
    }

    /// Runs turns until `gone` connections have given up their slots, or no more turns are possible.
    pub(crate) fn run<R: Wait>(&mut self, rt: &R, gone: u64) -> Result<(), TurnEnd> {
        for _ in rt.forever() {
            if self.gone() >= gone {
                return Ok(());
            }
            if self.room.is_empty() || self.out.len() < 65_535 {
                return Err(TurnEnd::NoMemory);
            }
            self.turns.poll_once(
                rt,
                &mut self.poll,
                plan(self.alloc, &self.rules),
                &mut self.places,
                &mut self.echo,
                &mut self.room,
                &mut self.out,
            )?;
        }
        unreachable!()
    }

    /// How many connections have given up their slots.
    fn gone(&self) -> u64 {
        let tally = self.turns.tally();
        tally.ends.total().saturating_add(tally.evicted)
    }
}

impl<S: Drop, P> Running<S, P, Comers<'_>> {
    /// What is written on each of the connections that have arrived, in their order.
    pub(crate) fn outputs(&self) -> &[Output] {
        match self.places.first() {
            Some(comers) => &comers.outputs,
            None => &[],
        }
    }
}
