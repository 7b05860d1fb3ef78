//! The bytes of a batch (own).
ghost use Rattle.std.specs.Prelude.{◌<◌, length};
ghost use Rattle.journal.specs.Frame.{body_limit};

/// The bytes of a batch.
pub(crate) struct Body {
    /// The bytes.
    pub(crate) octets: Vec<u8>,
    ghost short: { length octets.items < body_limit },
}

impl Drop for Body {
    fn drop(self) {
        let Body { octets: _ } = self;
    }
}
