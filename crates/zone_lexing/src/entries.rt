//! The entries of a zone text, one after another (RFC 1035, 5.1).
ghost use Rattle.std.specs.Prelude.{◌≡◌, ◌∷◌, ◌≤◌, [], map, IfOk, OnErr, MatchOption, vec_len, vec_capacity};
ghost use Rattle.zone_lexing.specs.Word.{written};
ghost use Rattle.zone_lexing.specs.Entries.{entries_of, entry_of};

use crate::entry::EntryHead;
use crate::reading::{Reading, Step};
use crate::word::Word;
use std::alloc::AllocError;
use std::marker::Model;

/// The entries of a zone text that are left. Contracts see the list of them.
#[derive(Drop)]
pub struct Entries<'a> {
    rest: &'a [u8],
    lines: u64,
}

impl<'a> Model for Entries<'a> {
    ghost use Rattle.std.specs.Prelude.{List, ◌+◌, ◌<◌, ◌^◌, length};
    ghost use Rattle.zone_lexing.specs.Items.{items};
    ghost use Rattle.zone_lexing.specs.Entries.{Entry, entries_left};

    ghost Value = { List Entry };

    ghost view = { λ a. entries_left (a.lines + 1) (items 0 a.rest.now) };

    ghost invariant = { λ a. a.lines + length a.rest.now < 2 ^ 64 };
}

impl<'a> Entries<'a> {
    /// The entries of a text.
    pub fn new(text: &'a [u8]) -> Entries<'a>
        ensures { result ≡ entries_of text.now }
    {
        Entries {
            rest: text,
            lines: 0,
        }
    }

    /// The next entry, with its words in the list that is given, whose own are dropped first; None after the last.
    ///
    /// The fault is a growth that was refused, only where the list has no room for a word: the entry is still the next
    /// one then.
    pub fn next(&mut self, words: &mut Vec<Word<'a>>) -> Result<Option<EntryHead>, AllocError>
        ensures entry { IfOk result (λ found. MatchOption found
            ((self.old ≡ []) × (self.new ≡ []))
            (λ head. self.old ≡ entry_of head (map written words.new.items) ∷ self.new)) }
        ensures refused { OnErr result (self.new ≡ self.old) }
        ensures full { OnErr result (vec_capacity words.old ≤ vec_len words.new) }
    {
        words.clear();
        let mut reading = Reading::new(self.rest, self.lines);
        loop {
            match reading.step() {
                Step::On => {}
                Step::Take(word) => {
                    let Ok(()) = words.push(word) else {
                        return Err(AllocError);
                    };
                }
                Step::Whole(head) => {
                    self.rest = reading.rest;
                    self.lines = reading.lines;
                    return Ok(Some(head));
                }
                Step::End => {
                    self.rest = &[];
                    return Ok(None);
                }
            }
        }
    }
}
