//! Tests of zone files as other servers read them: words of types by examples of the standards, as BIND's named-rrchecker reads them, times with units,
//! and the plain text of a file.
#![tactic(auto)]

#[cfg(test)]
mod files;
#[cfg(test)]
mod words;
