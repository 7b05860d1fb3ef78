//! Tests of zones: the tree that holds one, its sets and their changes, and how an answer looks them up. What answers say stands in
//! `tests/rows`.
#![tactic(auto)]

#[cfg(test)]
mod edits;
#[cfg(test)]
mod made;
#[cfg(test)]
mod searches;
#[cfg(test)]
mod trees;
#[cfg(test)]
mod zones;
