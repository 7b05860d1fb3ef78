//! Metrics as a text that Prometheus reads: its exposition format, version 0.0.4 (prometheus.io, Exposition formats).
//!
//! A [`Family`] has a name, what it says, its kind and its samples; a [`Sample`] has labels and a number. Contracts see them as the
//! records of `specs/Exposition.antt`, and the text is exactly what is defined there.
#![tactic(auto)]

mod family;
mod histogram;
mod number;
mod sample;
mod write;

pub use family::{Family, Kind};
pub use histogram::Bucket;
pub use number::{Number, put_decimal, put_number};
pub use sample::{Label, Sample};
pub use write::{put_text, write_metrics};
