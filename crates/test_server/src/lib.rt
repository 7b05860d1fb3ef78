//! Tests of server states: tickets of clients that wait for replies to their updates, and batches of updates that are judged and published
//! (RFC 2136, 3 and 3.8).
#![tactic(auto)]

#[cfg(test)]
mod acts;
#[cfg(test)]
mod batches;
#[cfg(test)]
mod refused;
#[cfg(test)]
mod rooms;
#[cfg(test)]
mod rows;
#[cfg(test)]
mod states;
#[cfg(test)]
mod updates;
