//! The octets of a long name in full, kept beside its entry in a table: a name that is found through many pointers isn't read again.
ghost use Rattle.std.specs.Prelude.{◌≡◌, ◌≤◌, length};
ghost use Rattle.wire_names.specs.Entry.{long_octets};
ghost use Rattle.wire_names.specs.Long.{kept_of};

/// The most octets of a name (RFC 1035, 2.3.4).
const MAX_OCTETS: usize = 255;

/// Up to how many octets of a name aren't kept (own).
pub(crate) const FEW_OCTETS: usize = 32;

/// The octets of a name of more than [`FEW_OCTETS`]; of a shorter one none.
#[derive(Clone, Copy)]
pub(crate) struct Long {
    pub(crate) octets: [u8; MAX_OCTETS],
    pub(crate) size: u8,
}

impl Long {
    /// Those of no name.
    pub(crate) const NONE: Long = Long {
        octets: [0; MAX_OCTETS],
        size: 0,
    };

    /// Becomes those of the name in these octets.
    pub(crate) fn keep(&mut self, octets: &[u8])
        requires { length octets.now ≤ 255 }
        ensures { kept_of self.new ≡ long_octets octets.now }
    {
        self.size = 0;
        let size = octets.len();
        if size > FEW_OCTETS {
            self.octets[..size].copy_from_slice(octets);
            self.size = size as u8;
        }
    }

    /// The octets that are kept.
    pub(crate) fn octets(&self) -> &[u8]
        ensures { result.now ≡ kept_of self.now }
    {
        &self.octets[..usize::from(self.size)]
    }
}
