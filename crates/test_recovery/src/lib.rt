//! Tests of starts from a store: the versions recovered from a zone text and a journal, also of a store that is created again at a later
//! version; failed memory allocation; in real directories, the state with which a server continues, and what a start recovers after each step of
//! a compaction, also when a file cannot be written.
#![tactic(auto)]

#[cfg(test)]
mod found;
#[cfg(test)]
mod journals;
#[cfg(test)]
mod memory;
#[cfg(test)]
mod published;
#[cfg(test)]
mod random;
#[cfg(test)]
mod resumed;
#[cfg(test)]
mod slow;
#[cfg(test)]
mod steps;
#[cfg(test)]
mod tended;
#[cfg(test)]
mod texts;
#[cfg(test)]
mod updates;
#[cfg(test)]
mod versions;
#[cfg(test)]
mod walker;
#[cfg(test)]
mod walks;
