//! The most frequent groups.
ghost use Rattle.std.specs.Prelude.{◌≡◌, ◌<◌, ◌+◌, ◌-◌, ◌*◌, ◌^◌, ℕ, None, Some, true};
ghost use Rattle.tcp_connections.specs.Group.{has_group};
ghost use Rattle.tcp_connections.specs.Survey.{IsSurvey, with_one};

use crate::group::{Groups, PeerGroup, is_group};

/// A group, and how many of it aren't struck out against those of three others.
#[derive(Clone, Copy, Debug)]
struct Candidate {
    group: Option<PeerGroup>,
    number: usize,
}

impl Candidate {
    /// No group.
    fn none() -> Candidate
        ensures group { result.group ≡ None }
        ensures number { result.number ≡ 0 }
    {
        Candidate {
            group: None,
            number: 0,
        }
    }

    /// A single one of a group.
    fn one(group: PeerGroup) -> Candidate
        ensures group { result.group ≡ Some group }
        ensures number { result.number ≡ 1 }
    {
        Candidate {
            group: Some(group),
            number: 1,
        }
    }
}

/// A survey of groups that are added one after another: those that make up more than a quarter are among three candidates. A group that is
/// added and is none of the candidates, while all three have a number above 0, is struck out against one of each candidate, so that four
/// different ones go at once (J. Misra and D. Gries, "Finding repeated elements", 1982).
#[derive(Clone, Copy, Debug)]
pub(crate) struct Survey {
    first: Candidate,
    second: Candidate,
    third: Candidate,
}

impl Survey {
    /// Nothing is added yet.
    pub fn new() -> Survey
        ensures { IsSurvey 0 (λ _. 0) result }
    {
        Survey {
            first: Candidate::none(),
            second: Candidate::none(),
            third: Candidate::none(),
        }
    }

    /// Adds one of a group.
    pub fn add(&mut self, group: PeerGroup)
        ensures { (total : ℕ) → (count : PeerGroup → ℕ) → total < 2 ^ 64 - 1 → IsSurvey total count self.old → IsSurvey (total + 1) (with_one group count) self.new }
    {
        if is_group(self.first.group, group) {
            self.first.number = self.first.number.saturating_add(1);
        } else if is_group(self.second.group, group) {
            self.second.number = self.second.number.saturating_add(1);
        } else if is_group(self.third.group, group) {
            self.third.number = self.third.number.saturating_add(1);
        } else if self.first.number == 0 {
            self.first = Candidate::one(group);
        } else if self.second.number == 0 {
            self.second = Candidate::one(group);
        } else if self.third.number == 0 {
            self.third = Candidate::one(group);
        } else {
            self.first.number -= 1;
            self.second.number -= 1;
            self.third.number -= 1;
        }
    }

    /// The candidates: each group that makes up more than a quarter of what was added is one of them.
    pub fn candidates(&self) -> Groups
        ensures { (total : ℕ) → (count : PeerGroup → ℕ) → IsSurvey total count self.now → (group : PeerGroup) → total < 4 * count group → has_group result group ≡ true }
    {
        Groups {
            first: self.first.group,
            second: self.second.group,
            third: self.third.group,
        }
    }
}
