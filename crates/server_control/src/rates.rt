//! How often something happened in each second, over the last minutes.
use http_page::Graph;
use std::alloc::{AllocError, Global};

/// How far two rates are apart, in milliseconds (own).
const EACH: u64 = 5_000;

/// How many rates are kept: those of ten minutes (own).
const MOST: usize = 120;

/// How often something happened in each second, at equal distances, the oldest first.
#[derive(Drop)]
pub(crate) struct Rates {
    rates: Vec<u32>,
    /// How often it had happened when the last rate was taken.
    total: u64,
}

impl Rates {
    /// No rate was taken yet.
    pub(crate) fn new(alloc: Global) -> Rates {
        Rates {
            rates: Vec::new(alloc),
            total: 0,
        }
    }

    /// Takes a rate, where it has happened so often up to now, `passed` milliseconds after the last one was taken.
    pub(crate) fn take(&mut self, total: u64, passed: u64) -> Result<(), AllocError> {
        let more = total.saturating_sub(self.total);
        self.total = total;
        let rate = more.saturating_mul(1000) / passed.max(1);
        if self.rates.len() >= MOST {
            let _ = self.rates.remove(0);
        }
        self.rates.push(u32::try_from(rate).unwrap_or(u32::MAX))?;
        Ok(())
    }

    /// The rates as a graph.
    pub(crate) fn graph(&self, alloc: Global, title: &'static str) -> Result<Graph, AllocError> {
        let mut rates = Vec::new(alloc);
        rates.extend_from_slice(self.rates.as_slice())?;
        Ok(Graph { title, rates })
    }
}

/// Whether a rate is due so long after the last one, in milliseconds.
pub(crate) fn is_due(passed: u64) -> bool {
    passed >= EACH
}
