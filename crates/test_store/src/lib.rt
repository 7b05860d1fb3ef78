//! Tests of the store's files. Journals: flipped and missing octets, crashes of a disk in memory, and heads and frames compared with octets
//! built by another program. `store_files`, with real directories: what is found of a store, and what a system does with its files.
#![tactic(auto)]

#[cfg(test)]
mod crashes;
#[cfg(test)]
mod damage;
#[cfg(test)]
mod folders;
#[cfg(test)]
mod formats;
#[cfg(test)]
mod found;
#[cfg(test)]
mod journals;
#[cfg(test)]
mod kept;
#[cfg(test)]
mod pairs;
#[cfg(test)]
mod room;
#[cfg(test)]
mod switched;
