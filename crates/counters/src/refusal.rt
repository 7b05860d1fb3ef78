//! Reasons why updates are refused.
ghost use Rattle.std.specs.Prelude.{◌≡◌, ◌<◌};
ghost use Rattle.counters.specs.Refusals.{refusal_index, refusal_word};

/// A reason why an update is refused (own).
#[derive(Clone, Copy, PartialEq, Eq)]
pub enum Refusal {
    /// No rule permits it.
    Permission,
    /// Its signature is refused (RFC 8945, 5.2).
    Signature,
    /// A prerequisite is not met (RFC 2136, 3.2).
    Prerequisite,
    /// It cannot be read, or names what it may not (RFC 2136, 3.1 and 3.4.1).
    Form,
    /// The server failed, as a store that takes no more.
    Failure,
}

impl Refusal {
    /// All, in the order of their places.
    pub const ALL: [Refusal; 5] = [
        Refusal::Permission,
        Refusal::Signature,
        Refusal::Prerequisite,
        Refusal::Form,
        Refusal::Failure,
    ];

    /// Its word in a label.
    pub fn word(self) -> &'static str
        ensures { result.now ≡ refusal_word self }
    {
        match self {
            Refusal::Permission => "permission",
            Refusal::Signature => "signature",
            Refusal::Prerequisite => "prerequisite",
            Refusal::Form => "form",
            Refusal::Failure => "failure",
        }
    }

    /// Its place among all.
    #[inline(always)]
    pub fn index(self) -> usize
        ensures place { result ≡ refusal_index self }
        ensures within { result < 5 }
    {
        match self {
            Refusal::Permission => 0,
            Refusal::Signature => 1,
            Refusal::Prerequisite => 2,
            Refusal::Form => 3,
            Refusal::Failure => 4,
        }
    }
}
