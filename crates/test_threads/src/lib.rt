//! Tests of the workers of `serve_workers`: jobs side by side, each on a datagram and a stream; a job on connections over a simulated poll; and
//! a server on sockets of the system, with the replies that its clients get, and how it ends. And of the log's lines: a backlog that is full, and
//! a sink that takes nothing for as long as a test says.
#![tactic(auto)]

#[cfg(test)]
mod asking;
#[cfg(test)]
mod backlogs;
#[cfg(test)]
mod ending;
#[cfg(test)]
mod frames;
#[cfg(test)]
mod gates;
#[cfg(test)]
mod nowhere;
#[cfg(test)]
mod queues;
#[cfg(test)]
mod refused;
#[cfg(test)]
mod turning;
