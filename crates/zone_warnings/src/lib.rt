//! What of a zone's text an operator is warned of: for `dnsd check --warn`.
//!
//! A text that is a zone may still say something that was hardly meant: a mail server without an address, a name whose final dot was
//! forgotten. [`write_warnings`] writes a line for each record of the text and each thing of that kind that it shows. Contracts see these
//! lines as a function of the zone and of the text's records (`warnings_text`); which records show a warning is `is_shown`.
#![tactic(auto)]

mod hosts;
mod lines;
mod names;
mod shown;

pub use hosts::HostState;
pub use lines::write_warnings;
pub use shown::Warning;
