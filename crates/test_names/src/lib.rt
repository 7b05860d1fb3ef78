//! Tests of names and records, where no output of the program shows it: which fault octets and texts have and its words, each
//! call that orders names, numbers of data, and sets that grow.
#![tactic(auto)]

#[cfg(test)]
mod data;
#[cfg(test)]
mod made;
#[cfg(test)]
mod may;
#[cfg(test)]
mod order;
#[cfg(test)]
mod parts;
#[cfg(test)]
mod readings;
#[cfg(test)]
mod sets;
