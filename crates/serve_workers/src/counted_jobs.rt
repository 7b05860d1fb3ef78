//! Jobs whose requests are counted.
ghost use Rattle.std.specs.Prelude.{◌≡◌};

use counters::SharedCounters;

/// A job on connections whose requests are counted, with what others see of the numbers, and a clock for the time that updates take.
#[derive(Drop)]
pub struct CountedJob<'a, J, C> {
    /// The job.
    pub job: J,
    pub(crate) shown: &'a SharedCounters,
    pub(crate) clock: &'a C,
}

impl<'a, J: Drop, C> CountedJob<'a, J, C> {
    /// A job whose numbers are shown here.
    pub(crate) fn new(job: J, shown: &'a SharedCounters, clock: &'a C) -> CountedJob<'a, J, C>
        ensures { result.job ≡ job }
    {
        CountedJob { job, shown, clock }
    }
}
