//! Tests of messages, and of what changes a zone, which no output of the program shows: refused memory, messages that are cut, places in lists,
//! and values of calls. What the program shows of them stands in `tests/rows`.
#![tactic(auto)]

#[cfg(test)]
mod cuts;
#[cfg(test)]
mod deployed;
#[cfg(test)]
mod ends;
#[cfg(test)]
mod frames;
#[cfg(test)]
mod made;
#[cfg(test)]
mod outcomes;
#[cfg(test)]
mod pairs;
#[cfg(test)]
mod places;
#[cfg(test)]
mod reading;
#[cfg(test)]
mod replies;
