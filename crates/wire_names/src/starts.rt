//! Where the labels of a name begin.
ghost use Rattle.std.specs.Prelude.{◌≡◌, ◌-◌, ◌<◌, ◌≤◌, length, drop, slice_index_or};
ghost use Rattle.dns_name.specs.Labels.{labels_in, IsWhole};
ghost use Rattle.wire_names.specs.Starts.{AreStarts};

/// The most labels of a name (RFC 1035, 2.3.4).
const MAX_LABELS: usize = 128;

/// For each of the first labels of a name, so many of them, the index of its length octet, and after these where the rest begins.
#[derive(Clone, Copy)]
pub(crate) struct Starts {
    pub(crate) starts: [u8; MAX_LABELS],
    pub(crate) count: usize,
}

impl Starts {
    /// The index at which a label begins.
    pub(crate) fn start(&self, i: usize) -> usize
        requires { i < 128 }
        ensures { result ≡ slice_index_or self.now.starts i 0 }
    {
        usize::from(self.starts[i])
    }

    /// The octets of a name from a label on.
    pub(crate) fn rest<'a>(&self, octets: &'a [u8], i: usize) -> &'a [u8]
        requires are { AreStarts octets.now self.now.starts self.now.count }
        requires few { self.now.count < 128 }
        requires within { i ≤ self.now.count }
        ensures { result.now ≡ drop (slice_index_or self.now.starts i 0) octets.now }
    {
        let start = self.start(i);
        &octets[start..]
    }
}

/// Where the labels of the name in these octets begin that are before its longest suffix of at most so many octets.
pub(crate) fn starts_of(octets: &[u8], size: usize) -> Starts
    requires whole { IsWhole octets.now }
    requires short { length octets.now ≤ 255 }
    requires some { 0 < size }
    ensures are { AreStarts octets.now result.starts result.count }
    ensures few { result.count < 128 }
    ensures end { length octets.now - slice_index_or result.starts result.count 0 ≤ size }
{
    let mut found = Starts {
        starts: [0; MAX_LABELS],
        count: 0,
    };
    let mut at = 0;
    while octets.len() - at > size {
        found.count += 1;
        at += 1 + usize::from(octets[at]);
        found.starts[found.count] = at as u8;
    }
    found
}
