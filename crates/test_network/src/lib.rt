//! Tests of `tcp_connections`: streams in memory that are read and written in pieces, that would block, and that end in each way, connections
//! of several peers, requests that wait for their replies together, and connections that take too long; of `tcp_loop`, over simulated polls; and of `sockets`: a worker's turns over sockets
//! of this machine, what the system does with a socket that is bound by it, and what it wouldn't were an option left out. In `memory` each memory
//! allocation fails in turn. Of NOTIFY, in tables: octets that were written by hand, replies, and what is sent to whom as time goes.
#![tactic(auto)]

#[cfg(test)]
mod alone;
#[cfg(test)]
mod echo;
#[cfg(test)]
mod event_loop;
#[cfg(test)]
mod linked;
#[cfg(test)]
mod made;
#[cfg(test)]
mod memory;
#[cfg(test)]
mod notify_timing;
#[cfg(test)]
mod octets;
#[cfg(test)]
mod on_sockets;
#[cfg(test)]
mod pauses;
#[cfg(test)]
mod pieces;
#[cfg(test)]
mod pipelined;
#[cfg(test)]
mod player;
#[cfg(test)]
mod polls;
#[cfg(test)]
mod replies;
#[cfg(test)]
mod running;
#[cfg(test)]
mod shared;
#[cfg(test)]
mod streams;
