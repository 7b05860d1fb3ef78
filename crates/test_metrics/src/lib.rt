//! Tests of metrics, where no clause shows it: whole texts that were written by hand, what requests and replies of the standards count as, and
//! each request for memory refused in turn.
#![tactic(auto)]

#[cfg(test)]
mod counted;
#[cfg(test)]
mod exposition;
#[cfg(test)]
mod families;
#[cfg(test)]
mod pages;
#[cfg(test)]
mod times;
#[cfg(test)]
mod transfers;
