//! Why a step isn't made.
use thiserror::Error;

/// Why a step isn't made. The machine is then as it was.
#[derive(Clone, Copy, Debug, PartialEq, Eq, Error)]
pub enum StepFault {
    /// The machine has no such step: the publisher or the owner that is named isn't as far, there is no such owner, a load
    /// beyond the shares that are given out in all, or a prepare beyond the greatest number.
    #[error("C1 NotEnabled")]
    NotEnabled,
    /// A growth was refused.
    #[error("C2 NoMemory")]
    NoMemory,
}
