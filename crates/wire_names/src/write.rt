//! Writing a name into a message, with pointers to names before it (RFC 1035, 4.1.4).
ghost use Rattle.std.specs.Prelude.{◌≡◌, true, ℕ, ◌+◌, ◌-◌, ◌<◌, ◌≤◌, List, ◌++◌, [], length, take, Some, IfSome, IsNone};
ghost use Rattle.dns_name.specs.Labels.{labels_in, IsWhole, IsFirstLabel};
ghost use Rattle.wire_names.specs.Chains.{parent_at};
ghost use Rattle.wire_names.specs.Place.{IsPlace, IsEnd, IsLongest};
ghost use Rattle.wire_names.specs.Starts.{AreStarts};
ghost use Rattle.dns_name.specs.Name.{IsName};
ghost use Rattle.wire_names.specs.Cut.{cut_octets, IsCut};
ghost use Rattle.wire_names.specs.Table.{IsTable, IsSpelt, table_of, place_at};
ghost use Rattle.wire_names.specs.Written.{pointer_to, written, table_after, WritesOctets};

use crate::chains::ROOT;
use crate::long::FEW_OCTETS;
use crate::part::POINTER;
use crate::recent::{Recents, Suffix};
use crate::starts::{Starts, starts_of};
use crate::table::Positions;
use dns_name::{Name, first_label};
use std::marker::Model;

/// Writes names into one message, and keeps the positions of those that pointers can name (RFC 1035, 4.1.4). Contracts
/// see it as the list of the positions, each with the key of its first label and its parent, in the order in which they were
/// entered. It takes no memory.
#[derive(Drop)]
pub struct NameWriter {
    positions: Positions,
    likely: Likely,
    recents: Recents,
}

/// The index of the name written first: most often that of the question.
const FIRST: usize = 0;

/// Where the next name, or the name after its first label, is likely to be in the table: the indexes of the name written last, and of
/// the one after that name's first label. They are looked at first, and promise nothing.
#[derive(Clone, Copy)]
struct Likely {
    last: usize,
    parent: usize,
}

impl Model for NameWriter {
    ghost use Rattle.std.specs.Prelude.{List};
    ghost use Rattle.wire_names.specs.Table.{Entry};

    ghost Value = { List Entry };

    ghost view = { λ a. a.positions };
}

/// How a name is written after a message: so many labels from the front of its octets, which end after so many of them, and
/// then a pointer, where there is one. The parent is that of the last of these labels: the index of what the pointer names, or the root.
#[derive(Clone, Copy)]
struct Cut {
    labels: usize,
    len: usize,
    target: Option<u16>,
    parent: usize,
}

/// A suffix of a name that the table has: that after so many of the name's labels, and its index; the root's is a number of its own.
#[derive(Clone, Copy)]
struct Place {
    labels: usize,
    index: usize,
}

/// How many octets of a name are found by their labels without it being kept.
const FEW_OCTETS_MORE: usize = 8;

/// How many labels of a name are entered without it being kept.
const FEW_LABELS: usize = 4;

impl NameWriter {
    /// For a message that has no name.
    pub fn new() -> NameWriter
        ensures { result ≡ [] }
    {
        NameWriter {
            positions: Positions::new(),
            likely: Likely {
                last: FIRST,
                parent: FIRST,
            },
            recents: Recents::new(),
        }
    }

    /// Forgets all positions, for a message that has no name.
    pub fn reset(&mut self)
        ensures { self.new ≡ [] }
    {
        self.positions.clear();
        self.recents.clear();
    }

    /// Writes the name after the message, which is the first `at` octets of `out`, and gives the position after the
    /// name; what is before the name and after it stays. None where the name doesn't fit into `out`: nothing is
    /// written or entered then.
    ///
    /// With `compress`, the longest suffix that the table has is a pointer to its earliest position, and the positions
    /// of the labels before it are entered into the table: up to 256 (own), and none over 16,383 (RFC 1035, 4.1.4).
    /// Names are told apart by case. Without `compress` the name is written in full, and nothing is entered (RFC 2782).
    pub fn write(&mut self, name: &Name, compress: bool, out: &mut [u8], at: usize) -> Option<usize>
        requires within { at ≤ length out.old }
        requires table { IsTable (take at out.old) self.old }
        ensures octets { WritesOctets out.old out.new at (written compress (table_of (take at out.old) self.old) name.now) result }
        ensures table { IfSome result (λ next. IsTable (take next out.new) self.new) }
        ensures entered { IfSome result (λ next. table_of (take next out.new) self.new ≡ table_after compress (table_of (take at out.old) self.old) at name.now) }
        ensures unchanged { IsNone result → self.new ≡ self.old }
        ensures lawful { IsName name.now }
    {
        self.write_octets(name.wire(), compress, out, at)
    }

    /// Writes the name in these octets, as [`write`](Self::write) writes a name: labels after their lengths, up to a zero octet
    /// (RFC 1035, 3.1).
    pub fn write_octets(
        &mut self,
        octets: &[u8],
        compress: bool,
        out: &mut [u8],
        at: usize,
    ) -> Option<usize>
        requires within { at ≤ length out.old }
        requires table { IsTable (take at out.old) self.old }
        requires whole { IsWhole octets.now }
        requires lawful { IsName (labels_in octets.now) }
        ensures octets { WritesOctets out.old out.new at (written compress (table_of (take at out.old) self.old) (labels_in octets.now)) result }
        ensures table { IfSome result (λ next. IsTable (take next out.new) self.new) }
        ensures entered { IfSome result (λ next. table_of (take next out.new) self.new ≡ table_after compress (table_of (take at out.old) self.old) at (labels_in octets.now)) }
        ensures unchanged { IsNone result → self.new ≡ self.old }
    {
        let cut = self.cut(&out[..at], octets, compress);
        let next = put_cut(out, at, octets, cut)?;
        self.likely = self.likely.after(self.positions.count(), cut);
        self.positions.enter(at, octets, cut.labels, cut.parent);
        Some(next)
    }

    /// How the name in these octets is written after the message.
    fn cut(&mut self, msg: &[u8], octets: &[u8], compress: bool) -> Cut
        requires table { IsTable msg.now self.old }
        requires whole { IsWhole octets.now }
        requires short { length octets.now ≤ 255 }
        ensures cut { IsCut compress (table_of msg.now self.old) octets.now result }
        ensures unchanged { self.new ≡ self.old }
    {
        if compress {
            self.compressed(msg, octets)
        } else {
            Cut {
                labels: 0,
                len: octets.len(),
                target: None,
                parent: self.likely.last,
            }
        }
    }

    /// How the name in these octets is written after the message with compression. It, and the name after its first label, are looked for
    /// first where they are likely to be.
    fn compressed(&mut self, msg: &[u8], octets: &[u8]) -> Cut
        requires table { IsTable msg.now self.old }
        requires whole { IsWhole octets.now }
        requires short { length octets.now ≤ 255 }
        ensures cut { IsCut true (table_of msg.now self.old) octets.now result }
        ensures unchanged { self.new ≡ self.old }
    {
        match self.likely_cut(msg, octets) {
            Some(cut) => cut,
            None => self.sought(msg, octets),
        }
    }

    /// How the name in these octets, of two labels or more and of few octets, is written after the message with compression, where it or the
    /// name after its first label is where it is likely to be.
    fn likely_cut(&self, msg: &[u8], octets: &[u8]) -> Option<Cut>
        requires table { IsTable msg.now self.now }
        requires whole { IsWhole octets.now }
        ensures { IfSome result (λ cut. IsCut true (table_of msg.now self.now) octets.now cut) }
    {
        let (_label, behind) = first_label(octets)?;
        let (_first, _rest) = first_label(behind)?;
        if octets.len() > FEW_OCTETS {
            return None;
        }
        let Likely { last, parent } = self.likely;
        if self.positions.is_present(msg, behind, parent, true) {
            return Some(self.cut_behind(msg, octets, behind, parent));
        }
        if self.positions.is_present(msg, octets, last, false) {
            return Some(self.cut_at(0, 0, last));
        }
        if self.positions.is_present(msg, octets, FIRST, false) {
            return Some(self.cut_at(0, 0, FIRST));
        }
        if self.positions.is_present(msg, behind, last, false) {
            return Some(self.cut_behind(msg, octets, behind, last));
        }
        None
    }

    /// How the name in these octets is written after the message with compression, where these are the octets after its first label, and
    /// the name in them has this index in the table.
    fn cut_behind(&self, msg: &[u8], octets: &[u8], behind: &[u8], parent: usize) -> Cut
        requires table { IsTable msg.now self.now }
        requires whole { IsWhole octets.now }
        requires first { (label : List ℕ) × IsFirstLabel octets.now label behind.now }
        requires some { 1 < length behind.now }
        requires parent { IsSpelt msg.now self.now (labels_in behind.now) parent }
        ensures { IsCut true (table_of msg.now self.now) octets.now result }
    {
        match self.positions.child(msg, octets, parent) {
            Some(index) => self.cut_at(0, 0, index),
            None => self.cut_at(1, octets.len() - behind.len(), parent),
        }
    }

    /// So many labels, which take so many octets, and a pointer to the position at an index.
    fn cut_at(&self, labels: usize, len: usize, index: usize) -> Cut
        requires { index < length self.now }
        ensures { result ≡ record { labels = labels; len = len; target = Some (place_at self.now index); parent = index } }
    {
        Cut {
            labels,
            len,
            target: Some(self.positions.head(index).position),
            parent: index,
        }
    }

    /// How the name in these octets is written after the message with compression: its labels are sought from the last on, or from those on
    /// that a name which was sought lately has as well.
    fn sought(&mut self, msg: &[u8], octets: &[u8]) -> Cut
        requires table { IsTable msg.now self.old }
        requires whole { IsWhole octets.now }
        requires short { length octets.now ≤ 255 }
        ensures cut { IsCut true (table_of msg.now self.old) octets.now result }
        ensures unchanged { self.new ≡ self.old }
    {
        let suffix = self.recents.suffix_of(&self.positions, octets);
        let cut = self.sought_behind(msg, octets, suffix);
        self.remember(msg.len(), octets, suffix, cut);
        cut
    }

    /// How the name in these octets is written after the message with compression: its labels before this suffix, which it seems to
    /// have, are sought from the last on.
    fn sought_behind(&self, msg: &[u8], octets: &[u8], suffix: Suffix) -> Cut
        requires table { IsTable msg.now self.now }
        requires whole { IsWhole octets.now }
        requires short { length octets.now ≤ 255 }
        ensures { IsCut true (table_of msg.now self.now) octets.now result }
    {
        let (starts, found) = self.front(msg, octets, suffix);
        let place = self.climb(msg, octets, &starts, found);
        let place = match self.positions.part() {
            Some(size) => self.climb_in_part(msg, octets, &starts, place, size),
            None => place,
        };
        if place.index == ROOT {
            return Cut {
                labels: place.labels,
                len: octets.len(),
                target: None,
                parent: ROOT,
            };
        }
        self.cut_at(place.labels, starts.start(place.labels), place.index)
    }

    /// Where the labels of the name in these octets begin that are before this suffix, and its place, where the table has it there; else
    /// where all begin, and the place of the root.
    fn front(&self, msg: &[u8], octets: &[u8], suffix: Suffix) -> (Starts, Place)
        requires table { IsTable msg.now self.now }
        requires whole { IsWhole octets.now }
        requires short { length octets.now ≤ 255 }
        ensures starts { AreStarts octets.now result.0.starts result.0.count }
        ensures few { result.0.count < 128 }
        ensures all { result.1.labels ≡ result.0.count }
        ensures place { IsPlace msg.now self.now (labels_in octets.now) result.1 }
    {
        if suffix.index != ROOT {
            let starts = starts_of(octets, suffix.size.max(1));
            let labels = starts.count;
            let rest = starts.rest(octets, labels);
            if self.positions.is_long(rest, suffix.index) {
                let index = suffix.index;
                return (starts, Place { labels, index });
            }
        }
        let starts = starts_of(octets, 1);
        let labels = starts.count;
        (
            starts,
            Place {
                labels,
                index: ROOT,
            },
        )
    }

    /// Keeps the suffix of a name that was found far before the one from which it was sought, and a name of which many labels are
    /// entered at a position.
    fn remember(&mut self, at: usize, octets: &[u8], from: Suffix, cut: Cut)
        ensures { self.new ≡ self.old }
    {
        let known = octets.len().saturating_sub(cut.len);
        if known.saturating_sub(from.size) > FEW_OCTETS_MORE {
            self.recents.keep(cut.parent);
        }
        if cut.labels > FEW_LABELS && self.positions.has_room_for(at, cut.len, cut.labels) {
            self.recents.keep(self.positions.count());
        }
    }

    /// The place of the longest name that is found from a place on, each label being sought before the last one found.
    fn climb(&self, msg: &[u8], octets: &[u8], starts: &Starts, found: Place) -> Place
        requires table { IsTable msg.now self.now }
        requires whole { IsWhole octets.now }
        requires starts { AreStarts octets.now starts.now.starts starts.now.count }
        requires few { starts.now.count < 128 }
        requires front { found.labels ≤ starts.now.count }
        requires place { IsPlace msg.now self.now (labels_in octets.now) found }
        ensures place { IsPlace msg.now self.now (labels_in octets.now) result }
        ensures end { IsEnd msg.now self.now (labels_in octets.now) result.labels }
        ensures up { result.labels ≤ found.labels }
    {
        let mut k = found.labels;
        let mut index = found.index;
        while k > 0 {
            let rest = starts.rest(octets, k - 1);
            index = match self.positions.newest_child(msg, rest, index) {
                Some(child) => child,
                None => match self.positions.child(msg, rest, index) {
                    Some(child) => child,
                    None => return Place { labels: k, index },
                },
            };
            k -= 1;
        }
        Place { labels: k, index }
    }

    /// The place of the longest name that the table has, where the last entry is of a name that was entered in part, and this is how many
    /// octets are after its first label: the name that the last entry spells may be longer than the place that was found.
    fn climb_in_part(
        &self,
        msg: &[u8],
        octets: &[u8],
        starts: &Starts,
        found: Place,
        size: usize,
    ) -> Place
        requires table { IsTable msg.now self.now }
        requires whole { IsWhole octets.now }
        requires starts { AreStarts octets.now starts.now.starts starts.now.count }
        requires few { starts.now.count < 128 }
        requires front { found.labels ≤ starts.now.count }
        requires place { IsPlace msg.now self.now (labels_in octets.now) found }
        requires end { IsEnd msg.now self.now (labels_in octets.now) found.labels }
        requires part { (0 < length self.now) × (parent_at self.now (length self.now - 1) ≡ 258 + size) }
        ensures place { IsPlace msg.now self.now (labels_in octets.now) result }
        ensures longest { IsLongest msg.now self.now (labels_in octets.now) result.labels }
        ensures up { result.labels ≤ found.labels }
    {
        let mut k = found.labels;
        while k > 1 {
            k -= 1;
            if octets.len() - starts.start(k) == size {
                let rest = starts.rest(octets, k - 1);
                if let Some(index) = self.positions.last_spells(msg, rest) {
                    return self.climb(
                        msg,
                        octets,
                        starts,
                        Place {
                            labels: k - 1,
                            index,
                        },
                    );
                }
            }
        }
        found
    }
}

impl Likely {
    /// What is likely after a name that is cut so where the table had so many positions.
    fn after(self, count: usize, cut: Cut) -> Likely {
        match cut.labels {
            0 => Likely {
                last: cut.parent,
                parent: self.parent,
            },
            1 => Likely {
                last: count,
                parent: cut.parent,
            },
            _ => Likely {
                last: count,
                parent: count.saturating_add(1),
            },
        }
    }
}

impl Default for NameWriter {
    ghost is_default = { λ writer. writer ≡ [] };

    /// For a message that has no name.
    fn default() -> NameWriter {
        NameWriter::new()
    }
}

/// Puts a name's octets at a position as they are cut: the position after them, or None where they don't fit, and then
/// nothing is written. What is before them and after them stays.
fn put_cut(out: &mut [u8], at: usize, octets: &[u8], cut: Cut) -> Option<usize>
    requires within { at ≤ length out.old }
    requires whole { cut.len ≤ length octets.now }
    requires low { IfSome cut.target (λ target. target < 16384) }
    ensures { WritesOctets out.old out.new at (cut_octets octets.now cut.len cut.target) result }
{
    let front = &octets[..cut.len];
    match cut.target {
        None => put(out, at, front),
        Some(target) => put_both(out, at, front, target),
    }
}

/// Puts octets at a position and a pointer after them, as [`put`] does (RFC 1035, 4.1.4).
fn put_both(out: &mut [u8], at: usize, front: &[u8], target: u16) -> Option<usize>
    requires within { at ≤ length out.old }
    requires low { target < 16384 }
    ensures { WritesOctets out.old out.new at (front.now ++ pointer_to target) result }
{
    if front.len() + 2 > out.len() - at {
        return None;
    }
    let [high, low] = target.to_be_bytes();
    let behind = put(out, at, front)?;
    put(out, behind, &[POINTER as u8 + high, low])
}

/// Puts octets at a position: the position after them, or None where they don't fit, and then nothing is written.
/// What is before them and after them stays.
fn put(out: &mut [u8], at: usize, octets: &[u8]) -> Option<usize>
    requires { at ≤ length out.old }
    ensures { WritesOctets out.old out.new at octets.now result }
{
    let len = octets.len();
    if len > out.len() - at {
        return None;
    }
    out[at..at + len].copy_from_slice(octets);
    Some(at + len)
}
